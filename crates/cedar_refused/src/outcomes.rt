// Outcomes of a call that was made once.
use crate::pictures::picture;
use crate::refusals::was_refused;
use std::alloc::{AllocError, Global};
use std::fmt::Debug;

/// The outcome of a call while one growth was to be refused.
#[derive(Drop)]
pub struct Outcome {
    /// All of the call's answer; none if memory was refused.
    pub answer: Option<String>,
    /// All values that were lent to the call, as they were afterwards.
    pub lent: String,
    /// Whether a growth was refused.
    pub was_refused: bool,
}

/// Ends the refusal, and keeps the answer of a call and the values that were lent to it.
pub fn finish<T: Debug + Drop, L: Debug>(
    alloc: Global,
    answer: Result<T, AllocError>,
    lent: &L,
) -> Result<Outcome, AllocError> {
    let was_refused = was_refused(alloc);
    let answer = match answer {
        Ok(answer) => Some(picture(alloc, &answer)?),
        Err(_) => None,
    };
    finish_shown(alloc, answer, lent, was_refused)
}

/// Keeps the text of a call's answer, if it answered, and the values that were lent to it, after the refusal has ended.
pub fn finish_shown<L: Debug>(
    alloc: Global,
    answer: Option<String>,
    lent: &L,
    was_refused: bool,
) -> Result<Outcome, AllocError> {
    Ok(Outcome {
        answer,
        lent: picture(alloc, lent)?,
        was_refused,
    })
}
