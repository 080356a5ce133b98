// Bytes, by the pieces of a text in which they stand.
ghost use Rattle.std.specs.Prelude.{◌≡◌};
ghost use Rattle.cedar_writing.specs.Pieces.{is_from, is_blank, is_loose, is_digit, is_letter, may_go_on, is_pair};

fn is_from(first: u8, last: u8, byte: u8) -> bool
    ensures { result ≡ is_from first last byte }
{
    first <= byte && byte <= last
}

/// Whether a byte is a blank.
pub fn is_blank(byte: u8) -> bool
    ensures { result ≡ is_blank byte }
{
    byte == b' ' || is_from(9, 13, byte)
}

/// Whether a byte is a parenthesis or a comma.
pub fn is_loose(byte: u8) -> bool
    ensures { result ≡ is_loose byte }
{
    byte == b'(' || byte == b')' || byte == b','
}

pub fn is_digit(byte: u8) -> bool
    ensures { result ≡ is_digit byte }
{
    is_from(b'0', b'9', byte)
}

/// Whether a byte begins a word: a letter, `_`, or a byte of a character outside of ASCII.
pub fn is_letter(byte: u8) -> bool
    ensures { result ≡ is_letter byte }
{
    is_from(b'a', b'z', byte)
        || is_from(b'A', b'Z', byte)
        || byte == b'_'
        || is_from(128, 255, byte)
}

/// Whether the mark of a byte may go on with another byte.
pub fn may_go_on(byte: u8) -> bool
    ensures { result ≡ may_go_on byte }
{
    byte == b'='
        || byte == b'!'
        || byte == b'<'
        || byte == b'>'
        || byte == b'&'
        || byte == b'|'
        || byte == b':'
        || byte == b'/'
}

/// Whether two bytes are one mark.
pub fn is_pair(first: u8, byte: u8) -> bool
    ensures { result ≡ is_pair first byte }
{
    (byte == b'=' && (first == b'=' || first == b'!' || first == b'<' || first == b'>'))
        || (first == byte && (first == b'&' || first == b'|' || first == b':'))
}
