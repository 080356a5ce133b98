//! Frames of messages on a stream: a head that says the length of a message, and the message. Nothing is read or written here.
#![tactic(auto)]

mod frames;
mod heads;
mod incoming;

pub use frames::framed;
pub use incoming::{Broken, Incoming, MAX_MESSAGE, Taken};
