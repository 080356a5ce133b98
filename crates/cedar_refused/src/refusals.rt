// Refusals of memory: the dialogue with `scripts/refuse.c`, which stands between the program and the C library.
//
// `refuse.c` knows two sizes of blocks that nothing else asks for, takes them as words, and refuses them. Without it they are
// granted, and nothing is refused.
use std::alloc::{AllocError, Global};

/// A block of this size begins to refuse; with a number on top of it, only the growth of that number.
const BEGIN: usize = 50_000_000;

/// A block of this size ends the refusal. It is refused itself if a growth was.
const END: usize = 49_999_999;

/// The number of a growth that no call here has: nothing is refused.
pub const NEVER: u16 = u16::MAX;

fn is_granted(alloc: Global, size: usize) -> bool {
    let block: Result<Vec<u8>, AllocError> = Vec::with_capacity(alloc, size);
    block.is_ok()
}

/// Refuses the growth of this number from here on, counted from 1. The answer tells whether `refuse.c` listens.
pub fn refuse(alloc: Global, number: u16) -> bool {
    !is_granted(alloc, BEGIN.saturating_add(usize::from(number)))
}

/// Refuses each growth from here on.
pub fn refuse_all(alloc: Global) -> bool {
    refuse(alloc, 0)
}

/// Ends the refusal. The answer tells whether any growth was refused.
pub fn was_refused(alloc: Global) -> bool {
    !is_granted(alloc, END)
}
