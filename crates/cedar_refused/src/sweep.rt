// Sweeps over the growths of a call: it is made while its first growth is refused, then its second, until one call goes
// through.
use crate::refusals::{refuse, was_refused};
use std::alloc::{AllocError, Global};

/// The outcome of a call while one growth was to be refused.
#[derive(Clone, Copy)]
pub enum Attempt {
    /// Nothing was refused, and the answer is as ever.
    Whole,
    /// Memory was refused, the call told it, and all else is as it should be.
    Refused,
    /// The fault of a call whose outcome is wrong.
    Wrong(&'static str),
}

/// A call that takes memory, with all that it is made on.
pub trait Call {
    /// Makes the call while the growth of this number is refused, and again with ample memory.
    fn attempt(&self, alloc: Global, number: u16) -> Result<Attempt, AllocError>;
}

pub const ANOTHER_ANSWER: &str = "its answer is another";

pub const ANOTHER_LATER: &str = "afterwards its answer is another";

pub const ANOTHER_POLICY: &str = "the policy is another";

/// The word for a call in which no growth was refused.
pub const NOTHING_REFUSED: &str = "nothing refused";

/// The word for a call that takes no memory.
pub const TAKES_NONE: &str = "no growth";

/// The most growths that a call may have.
const MOST: u16 = 20_000;

/// The outcome of all attempts, in words.
pub fn sweep<C: Call>(alloc: Global, call: &C) -> Result<String, AllocError> {
    let mut refused: u16 = 0;
    for number in 1..MOST {
        match call.attempt(alloc, number)? {
            Attempt::Whole if refused == 0 => return String::from_str(alloc, NOTHING_REFUSED),
            Attempt::Whole => return format!(in alloc; "{refused} growths, each refused"),
            Attempt::Refused => refused = number,
            Attempt::Wrong(fault) => return format!(in alloc; "growth {number}: {fault}"),
        }
    }
    String::from_str(alloc, "there is no end to its growths")
}

/// The outcome of a call whose answer is a success or not, if memory was refused or was not.
///
/// No call may pass over a refusal, because no call that is tried here takes memory only as a hint.
pub fn attempt_of(is_success: bool, was_refused: bool) -> Attempt {
    match (is_success, was_refused) {
        (true, false) => Attempt::Whole,
        (false, true) => Attempt::Refused,
        (true, true) => Attempt::Wrong("memory was refused, and it answers all the same"),
        (false, false) => Attempt::Wrong("it asks for memory that was not refused"),
    }
}

impl Attempt {
    /// The outcome itself if this condition holds, else the fault.
    pub fn only_if(self, is_so: bool, fault: &'static str) -> Attempt {
        match self {
            Attempt::Wrong(first) => Attempt::Wrong(first),
            other if is_so => other,
            _ => Attempt::Wrong(fault),
        }
    }
}

/// A question that takes memory, with all that it is asked about.
pub trait Question {
    type Answer: Drop;

    fn ask(&self, alloc: Global) -> Result<Self::Answer, AllocError>;

    /// All of an answer, as a text.
    fn show(&self, alloc: Global, answer: Self::Answer) -> Result<String, AllocError>;
}

/// The outcome of a question that is asked while the growth of this number is refused, and again with ample memory.
pub fn attempt_question<Q: Question>(
    alloc: Global,
    question: &Q,
    number: u16,
) -> Result<Attempt, AllocError> {
    let wanted = answer_in_full(alloc, question)?;
    refuse(alloc, number);
    let answer = question.ask(alloc);
    let attempt = attempt_of(answer.is_ok(), was_refused(alloc));
    let is_as_ever = match answer {
        Ok(answer) => question.show(alloc, answer)? == wanted,
        Err(_) => true,
    };
    let again = answer_in_full(alloc, question)?;
    Ok(
        attempt
            .only_if(is_as_ever, ANOTHER_ANSWER)
            .only_if(again == wanted, ANOTHER_LATER),
    )
}

/// The answer to a question with ample memory.
fn answer_in_full<Q: Question>(alloc: Global, question: &Q) -> Result<String, AllocError> {
    let answer = question.ask(alloc)?;
    question.show(alloc, answer)
}
