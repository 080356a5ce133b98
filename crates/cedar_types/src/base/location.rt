// Places in a policy's text.

/// A place in a policy's text, from `start` up to `end`, in bytes. The caller keeps the text.
#[derive(Clone, Copy, PartialEq, Eq, PartialOrd, Ord, Hash, Debug)]
pub struct Loc {
    pub start: usize,
    pub end: usize,
}
