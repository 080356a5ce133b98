// Demands of typed conditions on levels, which do not depend on the maximum, and the errors of those that a maximum does not meet.
ghost use Rattle.std.specs.Prelude.{◌≡◌, IfOk};
ghost use Rattle.cedar_types.specs.Errors.{finding_of};
ghost use Rattle.cedar_types.specs.Names.{text_of};
ghost use Rattle.cedar_typechecker.specs.Levels.Demands.{told_of};
ghost use Rattle.cedar_typechecker.specs.Levels.Errors.{exceeds, reported};
ghost use Rattle.cedar_typechecker.specs.Levels.Views.{demand_of, findings_if_any};

use cedar_types::base::{EntityDerefLevel, Loc, PolicyID, ValidationError};
use std::alloc::AllocError;

/// The need of a node.
#[derive(Clone, Copy, PartialEq, Eq, PartialOrd, Ord)]
pub(crate) enum Need {
    /// The node needs this level, or a greater one.
    Level(u64),
    /// The node needs that no literal or slot is dereferenced: no level is enough.
    NoLiteral,
    /// The node needs a rule, because it has none: no level is enough.
    Rule,
}

/// The need of a node, and the node's place.
#[derive(Clone, Copy, PartialEq, Eq, PartialOrd, Ord)]
pub(crate) struct Demand {
    pub loc: Option<Loc>,
    pub need: Need,
    /// At a maximum below this, the error of a node above stands for the demand, and the demand is no error.
    pub hidden_below: u64,
}

impl Demand {
    /// The error of this demand at a maximum, if the maximum does not meet it, and no other error stands for it.
    pub(crate) fn error_at(
        &self,
        maximum: u32,
        policy_id: &PolicyID,
    ) -> Result<Option<ValidationError>, AllocError>
        ensures { IfOk result (λ error. findings_if_any error
            ≡ told_of (text_of policy_id.now.text) maximum (demand_of self.now)) }
    {
        if u64::from(maximum) < self.hidden_below {
            return Ok(None);
        }
        match self.need {
            Need::Level(level) => {
                if level <= u64::from(maximum) {
                    return Ok(None);
                }
                let id = policy_id.clone()?;
                Ok(Some(exceeded(self.loc, id, maximum, level)))
            }
            Need::NoLiteral => {
                let id = policy_id.clone()?;
                Ok(Some(ValidationError::literal_dereference_target(self.loc, id)))
            }
            Need::Rule => {
                let id = policy_id.clone()?;
                Ok(Some(ValidationError::internal_invariant_violation(self.loc, id)))
            }
        }
    }
}

/// The error that this level is required, which is above the maximum.
fn exceeded(loc: Option<Loc>, id: PolicyID, maximum: u32, level: u64) -> ValidationError
    ensures { finding_of result
        ≡ record { place = loc; policy = text_of id.text; fault = exceeds maximum level } }
{
    let allowed = EntityDerefLevel { level: maximum };
    let required = EntityDerefLevel {
        level: reported(level),
    };
    ValidationError::maximum_level_exceeded(loc, id, allowed, required)
}

/// A level as an error reports it: at most the greatest number of 32 bits.
fn reported(level: u64) -> u32
    ensures { result ≡ reported level }
{
    match u32::try_from(level) {
        Ok(level) => level,
        Err(_) => u32::MAX,
    }
}
