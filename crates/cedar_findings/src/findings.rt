//! Findings and verdicts on a policy.
ghost use Rattle.std.specs.Prelude.{◌≡◌};
ghost use Rattle.cedar_findings.specs.Counts.{joined};

use crate::codes::Code;
use cedar_types::base::{EntityDerefLevel, Loc, Template};
use std::alloc::{AllocError, Global};

/// The severity of a finding.
#[derive(Clone, Copy, PartialEq, Eq, PartialOrd, Ord)]
pub enum Severity {
    /// The policy is refused.
    Error,
    /// The policy may have a slip.
    Warning,
}

impl Severity {
    /// The word for the severity.
    pub fn text(self) -> &'static str {
        match self {
            Severity::Error => "error",
            Severity::Warning => "warning",
        }
    }
}

/// A finding with its place. Findings are ordered by place.
#[derive(PartialEq, Eq, PartialOrd, Ord, Drop)]
pub struct Finding {
    pub start: usize,
    pub end: usize,
    pub text: String,
    /// The hint; empty if none is known.
    pub hint: String,
    /// The other types with this finding at this place: the first few, and the number of the
    /// others.
    pub also: Vec<String>,
    /// The environments of an error; none if it holds in all.
    pub environments: Vec<String>,
    pub code: Code,
}

/// The number of entities that a policy or a set of policies dereferences, one after another.
#[derive(Clone, Copy)]
pub enum Requirement {
    /// No number is given: in Partial, for a policy whose check fails, and for a set of such
    /// policies.
    Unsaid,
    /// No number is enough.
    NoLevel,
    Level(EntityDerefLevel),
}

impl Default for Requirement {
    fn default() -> Requirement {
        Requirement::Unsaid
    }
}

impl Requirement {
    /// The requirement of two policies together: the greater level, and none is enough if none is
    /// for one of them.
    pub fn join(self, other: Requirement) -> Requirement
        ensures { result ≡ joined self other }
    {
        match (self, other) {
            (Requirement::NoLevel, _) | (_, Requirement::NoLevel) => Requirement::NoLevel,
            (Requirement::Unsaid, it) | (it, Requirement::Unsaid) => it,
            (Requirement::Level(one), Requirement::Level(two)) => {
                Requirement::Level(if one.level < two.level { two } else { one })
            }
        }
    }
}

/// The verdict on a policy.
#[derive(Drop)]
pub struct Verdict {
    pub is_accepted: bool,
    pub requirement: Requirement,
    /// The first errors, in ascending order, each once: at least one if the policy is refused, and
    /// none if it is accepted.
    pub errors: Vec<Finding>,
    /// The first warnings, in ascending order, as many as there is room for behind the errors.
    pub warnings: Vec<Finding>,
    /// The number of errors and warnings that are not listed.
    pub others: usize,
    /// The number of all warnings, listed or not.
    pub warning_count: u64,
}

impl Finding {
    /// A finding of this text in a policy and nothing else: at this place, or at the place of the
    /// policy if none is given.
    pub fn new(
        alloc: Global,
        policy: &Template,
        code: Code,
        place: Option<Loc>,
        text: &str,
    ) -> Result<Finding, AllocError> {
        let Loc { start, end } = place.or(policy.loc).unwrap_or(Loc { start: 0, end: 0 });
        Ok(Finding {
            start,
            end,
            text: String::from_str(alloc, text)?,
            hint: String::new(alloc),
            also: Vec::new(alloc),
            environments: Vec::new(alloc),
            code,
        })
    }
}
