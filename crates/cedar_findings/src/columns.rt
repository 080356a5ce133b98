//! Units of columns, because editors disagree on them.

/// The unit in which the columns of a line are counted. A line and its columns begin at 1.
#[derive(Clone, Copy, PartialEq, Eq, Debug)]
pub enum Columns {
    /// Characters of Unicode, a tab as one.
    Characters,
    /// Units of UTF-16: two for a character beyond U+FFFF, else one.
    Utf16,
    /// Bytes of UTF-8.
    Bytes,
}

impl Columns {
    /// The unit of this name, if there is one.
    pub fn by_name(name: &str) -> Option<Columns> {
        match name {
            "characters" => Some(Columns::Characters),
            "utf16" => Some(Columns::Utf16),
            "bytes" => Some(Columns::Bytes),
            _ => None,
        }
    }

    /// The number of units that a part of a line in UTF-8 has.
    pub(crate) fn of_bytes(self, bytes: &[u8]) -> usize {
        match self {
            Columns::Characters => characters(bytes),
            Columns::Utf16 => characters(bytes).saturating_add(pairs(bytes)),
            Columns::Bytes => bytes.len(),
        }
    }

    /// The number of units that a character has.
    pub(crate) fn of_char(self, c: char) -> usize {
        match self {
            Columns::Characters => 1,
            Columns::Utf16 => c.len_utf16(),
            Columns::Bytes => c.len_utf8(),
        }
    }
}

/// The number of characters that these bytes have.
fn characters(bytes: &[u8]) -> usize {
    bytes
        .iter()
        .filter(|byte| is_first_of_character(**byte))
        .count()
}

/// The number of characters of these bytes that have two units in UTF-16: they have four bytes in
/// UTF-8.
fn pairs(bytes: &[u8]) -> usize {
    bytes.iter().filter(|byte| **byte >= 0xf0).count()
}

/// Whether a byte of UTF-8 is the first of its character: the others are 0x80 to 0xbf.
pub(crate) fn is_first_of_character(byte: u8) -> bool {
    byte & 0xc0 != 0x80
}
