// Texts that may stand in SQL.
ghost use Rattle.std.specs.Prelude.{◌≡◌, not};
ghost use Rattle.std.specs.List.{list_all};
ghost use Rattle.cedar_where.specs.Compiled.{is_plain_elem, is_plain_pattern, is_replaced};
ghost use Rattle.cedar_where.specs.Routes.{is_plain, is_word, is_word_byte};

use cedar_types::base::PatternElem;

/// Whether a text has neither NUL nor a backslash.
pub(crate) fn is_plain(text: &str) -> bool
    ensures { result ≡ is_plain text.now }
{
    !text.as_bytes().contains(&0) && !text.as_bytes().contains(&b'\\')
}

/// Whether no character of a pattern is NUL or a backslash, or U+FFFD, U+FFFE or U+FFFF, which SQLite's GLOB takes for each
/// other.
pub(crate) fn is_plain_pattern(pattern: &[PatternElem]) -> bool
    ensures { result ≡ is_plain_pattern pattern.now }
{
    pattern.iter().all(is_plain_elem)
}

fn is_plain_elem(elem: &PatternElem) -> bool
    ensures { result ≡ is_plain_elem elem.now }
{
    match elem {
        PatternElem::Char(c) => *c != '\0' && *c != '\\' && !is_replaced(*c),
        PatternElem::Wildcard => true,
    }
}

/// Whether SQLite's GLOB reads a character as U+FFFD.
fn is_replaced(c: char) -> bool
    ensures { result ≡ is_replaced c }
{
    c == '\u{fffd}' || c == '\u{fffe}' || c == '\u{ffff}'
}

/// Whether a name has only letters of ASCII, digits and `_`, so that it may stand in the name of a parameter.
pub(crate) fn is_word(name: &str) -> bool
    ensures { result ≡ is_word name.now }
{
    name.as_bytes().iter().all(is_word_byte)
}

fn is_word_byte(byte: &u8) -> bool
    ensures { result ≡ is_word_byte byte.now }
{
    let is_small = b'a' <= *byte && *byte <= b'z';
    let is_large = b'A' <= *byte && *byte <= b'Z';
    let is_digit = b'0' <= *byte && *byte <= b'9';
    is_small || is_large || is_digit || *byte == b'_'
}
