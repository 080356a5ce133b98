// Walks, each step of which may take memory.
use crate::pictures::pictures;
use crate::refusals::{refuse, was_refused};
use crate::sweep::{ANOTHER_ANSWER, ANOTHER_LATER, Attempt, attempt_of};
use std::alloc::{AllocError, Global};
use std::fmt::Debug;

/// More steps than any walk here has.
const MOST: usize = 64;

/// A walk, each step of which takes memory.
pub trait Steps: Drop {
    type Item: Debug + Drop;

    fn step(&mut self) -> Option<Result<Self::Item, AllocError>>;
}

/// Takes items, for which there is room, until one is refused or none is left. The answer is true
/// if none is left.
fn take_all<S: Steps>(steps: &mut S, items: &mut Vec<S::Item>) -> bool {
    for _ in 0..MOST {
        let item = match steps.step() {
            None => return true,
            Some(Err(_)) => return false,
            Some(Ok(item)) => item,
        };
        if items.push(item).is_err() {
            return false;
        }
    }
    false
}

/// The items of a whole walk with ample memory.
pub fn walk_all<S: Steps>(alloc: Global, mut steps: S) -> Result<Vec<String>, AllocError> {
    let mut items = Vec::with_capacity(alloc, MOST)?;
    if take_all(&mut steps, &mut items) {
        pictures(alloc, &items)
    } else {
        Err(AllocError)
    }
}

/// A walk while the growth of this number is refused. Items are looked at after the walk is
/// dropped. Behind its end the walk must give nothing, three times.
fn refuse_walk<S: Steps>(
    alloc: Global,
    mut steps: S,
    wanted: &[String],
    number: u16,
) -> Result<Attempt, AllocError> {
    let mut items = Vec::with_capacity(alloc, MOST)?;
    refuse(alloc, number);
    let is_whole = take_all(&mut steps, &mut items);
    let attempt = attempt_of(is_whole, was_refused(alloc));
    let mut has_ended = true;
    for _ in 0..3 {
        has_ended = has_ended && steps.step().is_none();
    }
    drop(steps);
    let shown = pictures(alloc, &items)?;
    let are_as_ever = shown.iter().zip(wanted).all(|(one, other)| one == other);
    Ok(
        attempt
            .only_if(has_ended, "there is an item after its end")
            .only_if(are_as_ever, "an item is another")
            .only_if(
                !is_whole || shown.len() == wanted.len(),
                "an item is missing",
            ),
    )
}

/// One walk with ample memory, one while a growth is refused, and another with ample memory. The
/// caller makes them, because the borrow checker does not cover a closure that does.
pub fn attempt_walk<S: Steps>(
    alloc: Global,
    walks: (S, S, S),
    items: usize,
    number: u16,
) -> Result<Attempt, AllocError> {
    let wanted = walk_all(alloc, walks.0)?;
    let attempt = refuse_walk(alloc, walks.1, &wanted, number)?;
    let again = walk_all(alloc, walks.2)?;
    Ok(
        attempt
            .only_if(wanted.len() == items, ANOTHER_ANSWER)
            .only_if(again == wanted, ANOTHER_LATER),
    )
}
