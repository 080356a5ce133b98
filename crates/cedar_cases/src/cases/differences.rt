// Lines that are written for a case that does not agree.
use cedar_reading::{Fault, Position};
use cedar_types::base::OneLine;
use std::io;
use std::io::Write;

/// Writes the fault at a byte of a case's line, and answers that the case does not agree.
pub fn write_fault<W: Write>(
    name: &str,
    number: usize,
    line: &str,
    (at, fault): (usize, Fault),
    out: &mut W,
) -> io::Result<bool> {
    let column = Position::in_text(line, at).column;
    writeln!(out, "{name}:{number}:{column}: {fault}")?;
    Ok(false)
}

/// Whether a column gets the wanted answer for the case in this line. If not, both answers are written, each on one line.
pub fn agrees<W: Write>(
    name: &str,
    number: usize,
    column: &str,
    wanted: &str,
    got: &str,
    out: &mut W,
) -> io::Result<bool> {
    if got == wanted {
        return Ok(true);
    }
    let wanted = OneLine(wanted);
    let got = OneLine(got);
    writeln!(out, "{name}:{number}: {column}: wanted {wanted}")?;
    writeln!(out, "{name}:{number}: {column}: got {got}")?;
    Ok(false)
}
