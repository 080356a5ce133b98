// The pieces of a text, one a line.
ghost use Rattle.std.specs.Prelude.{◌≡◌, ◌++◌, IfOk, IsTrue, OnOk, ◌↔◌};
ghost use Rattle.cedar_writing.specs.Pieces.{added, one_a_line};

use crate::steps::{Begun, Step, advance};
use std::alloc::{AllocError, Global};

/// The pieces of a text, one a line.
pub fn one_a_line(alloc: Global, text: &str) -> Result<Vec<u8>, AllocError>
    ensures { IfOk result (λ lines. lines.items ≡ one_a_line text.now) }
{
    let mut lines = Vec::new(alloc);
    let mut begun = Begun::Nothing;
    for byte in text.as_bytes() {
        let next = advance(begun, *byte);
        add(&mut lines, next, *byte)?;
        begun = next.begun;
    }
    if !begun.is_nothing() {
        lines.push(b'\n')?;
    }
    Ok(lines)
}

/// Adds what a byte adds to the lines.
fn add(lines: &mut Vec<u8>, step: Step, byte: u8) -> Result<(), AllocError>
    ensures { OnOk result (lines.new.items ≡ lines.old.items ++ added step byte) }
{
    if step.ends_before {
        lines.push(b'\n')?;
    }
    if step.is_kept {
        lines.push(byte)?;
    }
    if step.ends {
        lines.push(b'\n')?;
    }
    Ok(())
}

/// Whether two lists of lines are one.
pub fn are_equal(left: &[u8], right: &[u8]) -> bool
    ensures { IsTrue result ↔ (left.now ≡ right.now) }
{
    left == right
}
