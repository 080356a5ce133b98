// The cursor: a position in a text that is read from left to right.
ghost use Rattle.std.specs.Prelude.{◌≤◌, length};

use std::alloc::Global;

/// Reads the bytes of a text, one after another.
#[derive(Drop)]
pub struct Cursor<'a> {
    pub alloc: Global,
    pub text: &'a str,
    /// The number of bytes that were read.
    pub at: usize,
    ghost within: { at ≤ length text.now },
}
