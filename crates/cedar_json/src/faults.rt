// Faults of a text that is read as JSON.
ghost use Rattle.std.specs.Prelude.{◌≡◌, alloc_error};
ghost use Rattle.cedar_json.specs.declared.faults.ReadError.TheVariants.{Memory};

use std::alloc::{AllocError, AllocFailed};
use std::fmt;
use thiserror::Error;

/// A fault at a byte of a text.
#[derive(Clone, Copy, PartialEq, Eq, Debug)]
pub enum Fault {
    /// The text has more than `MAX_LENGTH` bytes.
    TooLong,
    /// Objects and arrays are nested more than `MAX_DEPTH` deep.
    TooDeep,
    /// The text begins with a byte order mark.
    ByteOrderMark,
    /// A value is missing: something else stands in its place.
    Value,
    /// A key in quotes is missing: something else stands in its place.
    Key,
    /// No `:` stands behind a key.
    Colon,
    /// An entry of an object is followed by neither `,` nor `}`.
    InObject,
    /// An item of an array is followed by neither `,` nor `]`.
    InArray,
    /// Further bytes stand behind the value.
    Trailing,
    /// A key stands twice in an object.
    SameKey,
    /// No digit stands behind a minus.
    Digit,
    LeadingZero,
    Fraction,
    Exponent,
    /// A number does not fit 64 bits.
    Range,
    Unclosed,
    /// A control character stands in a text as it is.
    Control,
    Escape,
    /// One half of a surrogate pair stands alone.
    Surrogate,
}

impl Fault {
    /// The text of a fault without data; nothing for the others.
    fn text(self) -> &'static str {
        match self {
            Fault::TooLong => "too long",
            Fault::TooDeep => "nested too deep",
            Fault::ByteOrderMark => "a byte order mark",
            Fault::Value => "a value is expected",
            Fault::Key => "a key in quotes is expected",
            Fault::Colon => "`:` is expected",
            Fault::InObject => "`,` or `}` is expected",
            Fault::InArray => "`,` or `]` is expected",
            Fault::Trailing => "the end is expected",
            Fault::SameKey => "the same key twice",
            Fault::Digit => "a digit is expected",
            Fault::LeadingZero => "a number that begins with 0",
            Fault::Fraction => "a number with a fraction",
            Fault::Exponent => "a number with an exponent",
            Fault::Range => "a number out of range",
            Fault::Unclosed => "a text that does not end",
            Fault::Control => "a control character in a text",
            Fault::Escape => "an escape that is none",
            Fault::Surrogate => "half of a surrogate pair",
        }
    }
}

impl fmt::Display for Fault {
    fn fmt<W: fmt::Write>(&self, f: &mut fmt::Formatter<W>) -> fmt::Result {
        f.write_str(self.text())
    }
}

/// The reason why a text cannot be read: its first fault and the byte at which it stands, or
/// refused memory.
#[derive(Debug, Drop, Error)]
pub enum ReadError {
    #[error("memory was refused")]
    Memory(AllocError),
    #[error("at byte {0}: {1}")]
    At(usize, Fault),
}

impl From<AllocError> for ReadError {
    ghost from_gives = { λ e r. r ≡ Memory e };

    fn from(error: AllocError) -> ReadError {
        ReadError::Memory(error)
    }
}

impl<T: Drop> From<AllocFailed<T>> for ReadError {
    ghost from_gives = { λ e r. r ≡ Memory alloc_error };

    fn from(error: AllocFailed<T>) -> ReadError {
        ReadError::Memory(AllocError::from(error))
    }
}
