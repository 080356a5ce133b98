// The answer to a question.
use cedar_fixtures::findings::BEFORE_FINDING;
use cedar_fixtures::questions::Subject;
use cedar_typechecker::rbac::Validator;
use cedar_types::base::Policy;
use std::alloc::{AllocError, Global};

/// The text between the outcomes in several environments.
pub const BETWEEN_OUTCOMES: &str = "; ";

/// A policy that is asked about.
#[derive(Clone, Copy)]
pub struct Asked<'a> {
    pub alloc: Global,
    pub validator: &'a Validator<'a>,
    pub policy: &'a Policy,
    /// The text of the policy's places. The policy stands at all of it.
    pub text: &'a str,
}

/// The answer to a question.
#[derive(Drop)]
pub struct Answer {
    /// The text that the program prints.
    pub outcome: String,
    /// The findings, in any order, each behind its mark.
    pub findings: String,
}

impl Answer {
    /// This outcome without a finding.
    pub fn new(alloc: Global, outcome: String) -> Answer {
        Answer {
            outcome,
            findings: String::new(alloc),
        }
    }

    /// Whether the answer is the expected one: its outcome, and behind that each finding, as often,
    /// in any order.
    pub fn is(&self, alloc: Global, expected: &str) -> Result<bool, AllocError> {
        match expected.strip_prefix(self.outcome.as_str()) {
            None => Ok(false),
            Some(findings) => {
                let wanted = in_order(alloc, findings, BEFORE_FINDING)?;
                Ok(in_order(alloc, self.findings.as_str(), BEFORE_FINDING)? == wanted)
            }
        }
    }
}

/// The parts of a text, sorted by bytes, with `between` from one to the next.
pub fn in_order(alloc: Global, text: &str, between: &str) -> Result<String, AllocError> {
    // the parts are pushed one by one, because `collect` ignores memory that is refused for a hint
    // of their number
    let mut parts = Vec::new(alloc);
    for part in text.split(between) {
        parts.push(part)?;
    }
    parts.sort()?;
    parts.as_slice().join(alloc, between)
}

impl Asked<'_> {
    /// The answer to the question. Questions about functions and about chains have no answer here.
    pub fn about(self, subject: Subject) -> Result<Answer, AllocError> {
        match subject {
            Subject::Check(mode) => self.in_first_environment(mode),
            Subject::Environments(mode) => self.in_environments(mode),
            Subject::Policy(mode) => self.in_all(mode),
            Subject::Level(mode, level) => self.at_level(mode, level),
            Subject::RequiredLevel(mode) => self.required_level(mode),
            _ => self.about_names(subject),
        }
    }
}
