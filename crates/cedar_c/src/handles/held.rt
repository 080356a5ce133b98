// What an open handle holds.
use cedar_calls::opened::Opened;

/// A schema that was read, and the answer that its handle keeps.
#[derive(Drop)]
pub struct Held {
    pub opened: Opened,
    /// The answer of the last call by this schema, if it did not fit the buffer of that call.
    pub kept: Option<String>,
}
