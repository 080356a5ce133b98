// Patterns of `like`.
ghost use Rattle.std.specs.Prelude.{◌≡◌, IfOk};

use std::alloc::{AllocError, Global};

/// A part of a pattern: a character, or a wildcard, which stands for any run of characters.
#[derive(Clone, Copy, PartialEq, Eq, PartialOrd, Ord, Hash, Debug)]
pub enum PatternElem {
    /// This character alone.
    Char(char),
    /// Any run of characters, even an empty one.
    Wildcard,
}

pub(crate) fn copy_pattern(
    alloc: Global,
    pattern: &Vec<PatternElem>,
) -> Result<Vec<PatternElem>, AllocError>
    ensures { IfOk result (λ v. v.items ≡ pattern.now.items) }
{
    Vec::from_slice(alloc, pattern)
}
