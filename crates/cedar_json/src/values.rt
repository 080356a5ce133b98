// Values of JSON with their places.
use cedar_types::base::Loc;
use std::rc::RcStr;

/// The number of objects and arrays that may stand inside each other.
pub const MAX_DEPTH: usize = 400;

/// A value and its place: from its first byte to its last, quotes and brackets included.
#[cycle(value)]
#[derive(Debug)]
pub struct Value {
    pub place: Loc,
    pub kind: ValueKind,
}

// Dropping is written by hand, so that a proof has one call for each dropped value.
impl Drop for Value {
    #[cycle(value)]
    fn drop(self) {
        let Value { place: _, kind: _ } = self;
    }
}

/// The forms of values.
#[cycle(value)]
#[derive(Debug, Drop)]
pub enum ValueKind {
    /// The entries of an object, each a key and its value, in the order of the text. No key occurs
    /// twice.
    Object(Vec<(Key, Value)>),
    /// The items of an array.
    Array(Vec<Value>),
    /// The string of a quoted text, its escapes replaced by their characters.
    Text(RcStr),
    Integer(i64),
    Boolean(bool),
    /// `null`.
    Null,
}

/// The key of an entry and its place, quotes included.
#[derive(Debug, Drop)]
pub struct Key {
    pub name: RcStr,
    pub place: Loc,
}
