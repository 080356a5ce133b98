// Case files with declarations of their own: the reason why each is refused, if it is.
use crate::cases::differences::{agrees, write_fault};
use crate::cases::files::FileFault;
use crate::cases::report::CaseCounts;
use cedar_reading::{Expected, Fault, ReadError, SchemaReadError, schema, schema_as_given};
use std::alloc::{AllocError, Global};
use std::io;
use std::io::Write;

/// The first line of such a file.
const FIRST: &str = "schemas";

/// The first line of a file whose declarations are given one by one.
const FIRST_AS_GIVEN: &str = "schemas\tas given";

/// The second line of such a file.
const COLUMNS: &str = "declarations\trefusal";

/// The answer if the declarations are a schema.
const NO_REFUSAL: &str = "ok";

/// The number of lines before the cases.
const HEAD: usize = 2;

/// The notation of declarations.
#[derive(Clone, Copy, PartialEq, Eq, Debug)]
pub enum Notation {
    /// In Cedar's own syntax.
    Cedar,
    /// Declarations, one by one.
    AsGiven,
}

/// The notation of the declarations in each case, if the cases of a file of this text bring their
/// own.
pub fn notation_of(text: &str) -> Option<Notation> {
    match text.lines().next() {
        Some(FIRST) => Some(Notation::Cedar),
        Some(FIRST_AS_GIVEN) => Some(Notation::AsGiven),
        _ => None,
    }
}

/// The fault of the second line of such a file: it stands at the first name, because the line must
/// have just these two.
pub fn fault_of_columns(text: &str) -> Option<FileFault> {
    if text.lines().nth(1) == Some(COLUMNS) {
        None
    } else {
        Some(FileFault::NoColumn(1))
    }
}

/// Runs each case of a file, and writes those that differ or cannot be read.
pub fn run_refusals<W: Write>(
    alloc: Global,
    name: &str,
    text: &str,
    notation: Notation,
    out: &mut W,
) -> io::Result<CaseCounts> {
    let mut counts = CaseCounts { ran: 0, wrong: 0 };
    let mut number: usize = 0;
    for line in text.lines() {
        number = number.saturating_add(1);
        if number <= HEAD || line.is_empty() || line.starts_with('#') {
            continue;
        }
        counts.ran = counts.ran.saturating_add(1);
        if !run_line(alloc, name, (number, line), notation, out)? {
            counts.wrong = counts.wrong.saturating_add(1);
        }
    }
    Ok(counts)
}

/// Runs the case of a line, and answers whether it agrees.
fn run_line<W: Write>(
    alloc: Global,
    name: &str,
    (number, line): (usize, &str),
    notation: Notation,
    out: &mut W,
) -> io::Result<bool> {
    let (declarations, wanted) = match fields_of(line) {
        Ok(fields) => fields,
        Err(fault) => return write_fault(name, number, line, fault, out),
    };
    let got = match refusal_of(alloc, declarations, notation)? {
        Ok(got) => got,
        Err(fault) => return write_fault(name, number, line, fault, out),
    };
    agrees(name, number, "refusal", wanted, got.as_str(), out)
}

/// The declarations of a line and the wanted refusal; or the byte at which a field is missing or
/// one too many begins.
fn fields_of(line: &str) -> Result<(&str, &str), (usize, Fault)> {
    let Some((declarations, wanted)) = line.split_once('\t') else {
        return Err((
            line.len(),
            Fault::Expected(Expected::Other("another field")),
        ));
    };
    match wanted.split_once('\t') {
        None => Ok((declarations, wanted)),
        Some((wanted, _)) => {
            let end = declarations
                .len()
                .saturating_add(1)
                .saturating_add(wanted.len());
            Err((end, Fault::Expected(Expected::Other("the end of the line"))))
        }
    }
}

/// The name of the refusal of these declarations, or `ok`; or the byte at which they cannot be
/// read.
fn refusal_of(
    alloc: Global,
    declarations: &str,
    notation: Notation,
) -> Result<Result<String, (usize, Fault)>, AllocError> {
    let answer = match notation {
        Notation::Cedar => schema(alloc, declarations),
        Notation::AsGiven => schema_as_given(alloc, declarations),
    };
    match answer {
        Ok(_) => Ok(Ok(String::from_str(alloc, NO_REFUSAL)?)),
        Err(SchemaReadError::Refused(refusal)) => Ok(Ok(refusal.to_string(alloc)?)),
        Err(SchemaReadError::Read(ReadError::Memory(error))) => Err(error),
        Err(SchemaReadError::Read(ReadError::At(at, fault))) => Ok(Err((at, fault))),
    }
}
