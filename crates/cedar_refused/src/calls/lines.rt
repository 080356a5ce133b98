// Calls as the lines of a table.
use crate::outcomes::Outcome;
use crate::refusals::NEVER;
use crate::sweep::{ANOTHER_ANSWER, ANOTHER_LATER, Attempt, Call, attempt_of};
use cedar_typechecker::rbac::Validator;
use std::alloc::{AllocError, Global};

/// The setting of one run of a call: its validator, the text that it is made on, and the number of the growth that is refused.
#[derive(Clone, Copy)]
pub struct Trial<'a> {
    pub validator: &'a Validator<'a>,
    pub text: &'a str,
    pub number: u16,
}

/// A call that is made on the value of a text.
pub trait Probe: Copy {
    /// Makes the call while the growth of this number is refused.
    fn run(self, alloc: Global, trial: Trial<'_>) -> Result<Outcome, AllocError>;
}

/// A line of a table: the name of a call, a text that its answer shows, and the text that the call is made on, with ` | `
/// between them. The last text may be missing. `- ` stands before the name of a call that takes no memory on this text.
#[derive(Clone, Copy)]
pub struct Line<'a> {
    pub name: &'a str,
    pub shows: &'a str,
    pub text: &'a str,
    pub takes_none: bool,
}

impl<'a> Line<'a> {
    pub fn read(line: &'a str) -> Line<'a> {
        let (takes_none, line) = match line.strip_prefix("- ") {
            Some(line) => (true, line),
            None => (false, line),
        };
        let (name, rest) = line.split_once(" | ").unwrap_or((line, ""));
        let (shows, text) = rest.split_once(" | ").unwrap_or((rest, ""));
        Line {
            name,
            shows,
            text,
            takes_none,
        }
    }
}

/// A line with its call, and the validator that this stands on.
#[derive(Clone, Copy)]
pub struct LineCall<'a, T> {
    pub validator: &'a Validator<'a>,
    pub call: T,
    pub line: Line<'a>,
}

impl<T: Probe> Call for LineCall<'_, T> {
    fn attempt(&self, alloc: Global, number: u16) -> Result<Attempt, AllocError> {
        let line = self.line;
        let ample = Trial {
            validator: self.validator,
            text: line.text,
            number: NEVER,
        };
        let wanted = self.call.run(alloc, ample)?;
        let found = self.call.run(alloc, Trial { number, ..ample })?;
        let again = self.call.run(alloc, ample)?;
        let shown = wanted.answer.as_deref().unwrap_or("");
        let is_as_ever = found.answer.is_none() || found.answer == wanted.answer;
        Ok(
            attempt_of(found.answer.is_some(), found.was_refused)
                .only_if(is_as_ever && shown.contains(line.shows), ANOTHER_ANSWER)
                .only_if(again.answer == wanted.answer, ANOTHER_LATER)
                .only_if(found.lent == wanted.lent, "what it was lent is another"),
        )
    }
}
