//! Texts by other writers, shown so that none of their characters controls the terminal or the tool
//! that shows them.
use std::alloc::AllocError;
use std::fmt;

/// A text on one line. A character that [`is_hidden`] is escaped, for example the end of a line as
/// `\n`, and a `#` behind another; quotes and backslashes stay.
#[derive(Drop)]
pub struct Shown<'a>(pub &'a str);

impl fmt::Display for Shown<'_> {
    fn fmt<W: fmt::Write>(&self, f: &mut fmt::Formatter<W>) -> fmt::Result {
        if is_plain(self.0) {
            return f.write_str(self.0);
        }
        let mut before = ' ';
        for c in self.0.chars() {
            write_shown(f, before, c)?;
            before = c;
        }
        Ok(())
    }
}

/// Whether a text is of characters of ASCII alone that take one place each, whatever stands before
/// them. Nearly all texts are, so eight bytes are looked at together.
pub(crate) fn is_plain(text: &str) -> bool {
    let (words, rest) = text.as_bytes().as_chunks::<8>();
    words
        .iter()
        .all(|word| are_printable(u64::from_le_bytes(*word)))
        && rest.iter().all(|byte| is_printable(*byte))
}

/// Whether each of eight bytes [`is_printable`]. The first byte that is not sets its highest bit:
/// by itself if it is none of ASCII, in the first difference if it is below a blank, in the sum if
/// it is behind a tilde, and in the second difference if it is a `#`.
fn are_printable(bytes: u64) -> bool {
    let from_blank = bytes.wrapping_sub(0x2020_2020_2020_2020);
    let behind_tilde = bytes.wrapping_add(0x0101_0101_0101_0101);
    let from_mark = (bytes ^ 0x2323_2323_2323_2323).wrapping_sub(0x0101_0101_0101_0101);
    (bytes | from_blank | behind_tilde | from_mark) & 0x8080_8080_8080_8080 == 0
}

/// Adds a text on one line, as [`Shown`] shows it.
pub(crate) fn push_shown(out: &mut String, text: &str) -> Result<(), AllocError> {
    if is_plain(text) {
        return out.push_str(text);
    }
    let shown = Shown(text);
    write!(out, "{shown}")
}

/// The name of a file, as [`Shown`] shows it, at the beginning of a line. A name that begins with `::` has `./` before it,
/// because code hosts take a line that begins with `::` for a command, even behind blanks.
#[derive(Drop)]
pub(crate) struct ShownFile<'a>(pub(crate) &'a str);

impl fmt::Display for ShownFile<'_> {
    fn fmt<W: fmt::Write>(&self, f: &mut fmt::Formatter<W>) -> fmt::Result {
        let before = front_of_file(self.0);
        let name = Shown(self.0);
        write!(f, "{before}{name}")
    }
}

/// Adds the name of a file, as [`ShownFile`] shows it.
pub(crate) fn push_file(out: &mut String, name: &str) -> Result<(), AllocError> {
    out.push_str(front_of_file(name))?;
    push_shown(out, name)
}

/// The part before the name of a file.
fn front_of_file(name: &str) -> &'static str {
    if name.trim_start().starts_with("::") {
        "./"
    } else {
        ""
    }
}

/// Adds an id, as [`ShownId`] shows it.
pub(crate) fn push_shown_id(out: &mut String, id: &str) -> Result<(), AllocError> {
    if id.bytes().all(is_plain_in_id) {
        return out.push_str(id);
    }
    let shown = ShownId(id);
    write!(out, "{shown}")
}

/// Writes a character of a text as [`Shown`] does, which stands behind another in the text.
fn write_shown<W: fmt::Write>(f: &mut fmt::Formatter<W>, before: char, c: char) -> fmt::Result {
    match c {
        '"' | '\'' | '\\' => f.write_char(c),
        '#' if begins_command(before, c) => f.write_str(ESCAPED_MARK),
        _ => write_escaped(f, c),
    }
}

/// The number of places that a character takes behind another one, as [`Shown`] shows it.
pub(crate) fn shown_width(before: char, c: char) -> usize {
    if begins_command(before, c) {
        return ESCAPED_MARK.len();
    }
    display_width(c)
}

/// The escape of a `#` behind another.
const ESCAPED_MARK: &str = "\\u{23}";

/// Whether a character ends the mark `##`, because lines of a pipeline give commands with it: `##[`
/// and `##vso[` do, anywhere in a line.
fn begins_command(before: char, c: char) -> bool {
    before == '#' && c == '#'
}

/// An id between backquotes: double quotes, backquotes and backslashes are escaped too, so that
/// none of them seems to end the id.
#[derive(Drop)]
pub struct ShownId<'a>(pub &'a str);

impl fmt::Display for ShownId<'_> {
    fn fmt<W: fmt::Write>(&self, f: &mut fmt::Formatter<W>) -> fmt::Result {
        if self.0.bytes().all(is_plain_in_id) {
            return f.write_str(self.0);
        }
        let mut before = ' ';
        for c in self.0.chars() {
            write_shown_in_id(f, before, c)?;
            before = c;
        }
        Ok(())
    }
}

/// Writes a character of an id as [`ShownId`] does, which stands behind another in the id.
fn write_shown_in_id<W: fmt::Write>(
    f: &mut fmt::Formatter<W>,
    before: char,
    c: char,
) -> fmt::Result {
    match c {
        '\'' => f.write_char(c),
        '`' => f.write_str("\\u{60}"),
        '#' if begins_command(before, c) => f.write_str(ESCAPED_MARK),
        _ => write_escaped(f, c),
    }
}

/// Whether a byte is a character of ASCII that is one wide, whatever stands before it.
fn is_printable(byte: u8) -> bool {
    matches!(byte, b' '..=b'~') && byte != b'#'
}

/// Whether a byte stays as it is in an id.
fn is_plain_in_id(byte: u8) -> bool {
    is_printable(byte) && byte != b'"' && byte != b'`' && byte != b'\\'
}

fn write_escaped<W: fmt::Write>(f: &mut fmt::Formatter<W>, c: char) -> fmt::Result {
    if is_filler(c) {
        for part in c.escape_unicode() {
            f.write_char(part)?;
        }
        return Ok(());
    }
    for part in c.escape_debug() {
        f.write_char(part)?;
    }
    Ok(())
}

/// Whether a character is a control character, a mark of direction or the end of a line, or has no
/// width, or shows nothing.
pub fn is_hidden(c: char) -> bool {
    if c.is_ascii() {
        return c.is_ascii_control();
    }
    display_width(c) > 1
}

/// The width of the characters that [`Shown`] shows for a character.
pub fn display_width(c: char) -> usize {
    match c {
        ' '..='~' => 1,
        _ if is_filler(c) => c.escape_unicode().count(),
        _ => c.escape_debug().count(),
    }
}

/// Whether a letter or a symbol shows nothing: the fillers of Hangul, the empty Braille pattern,
/// and the empty head of a note.
fn is_filler(c: char) -> bool {
    matches!(
        c,
        '\u{115f}' | '\u{1160}' | '\u{2800}' | '\u{3164}' | '\u{ffa0}' | '\u{1d159}'
    )
}
