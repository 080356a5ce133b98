// Faults: the reasons why a text is not formatted.
use cedar_reading::ReadError;
use std::alloc::{AllocError, AllocFailed};
use thiserror::Error;

/// The reason why a text is not formatted. The text is left as it was.
#[derive(Debug, Drop, Error)]
pub enum FormatFault {
    /// Memory was refused.
    #[error("memory was refused")]
    Memory(AllocError),
    /// The text cannot be read: its first fault, and the byte of the fault.
    #[error("{0}")]
    Unread(ReadError),
    /// A blank outside of ASCII stands between two tokens, at this byte.
    #[error("at byte {0}: a blank outside of ASCII")]
    OtherBlank(usize),
    /// The formatted text is longer than `cedar_reading::MAX_LENGTH`, because parts stand deep
    /// inside each other.
    #[error("too long when it is formatted")]
    TooLong,
    /// The formatted text would say something else. The layout is wrong then: please report it.
    #[error("the formatted text would say something else")]
    Changed,
}

impl From<AllocError> for FormatFault {
    fn from(error: AllocError) -> FormatFault {
        FormatFault::Memory(error)
    }
}

impl<T: Drop> From<AllocFailed<T>> for FormatFault {
    fn from(error: AllocFailed<T>) -> FormatFault {
        FormatFault::Memory(AllocError::from(error))
    }
}

impl From<ReadError> for FormatFault {
    fn from(error: ReadError) -> FormatFault {
        match error {
            ReadError::Memory(error) => FormatFault::Memory(error),
            fault => FormatFault::Unread(fault),
        }
    }
}
