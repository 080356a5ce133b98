// Errors on dereferences beyond a level, and on forms without a rule.
use crate::base::errors::messages::Message;
use crate::base::errors::validation_errors::ValidationError;
use crate::base::levels::EntityDerefLevel;
use crate::base::location::Loc;
use crate::base::names::policy_ids::PolicyID;
use thiserror::Error;

/// A policy dereferences entities at a level above the allowed one.
#[derive(PartialEq, Eq, PartialOrd, Ord, Hash, Debug, Drop, Error)]
#[error("for policy `{policy_id}`, {0}", Message(self))]
pub struct MaximumLevelExceeded {
    pub source_loc: Option<Loc>,
    pub policy_id: PolicyID,
    pub allowed_level: EntityDerefLevel,
    pub actual_level: EntityDerefLevel,
}

/// A policy dereferences an entity literal or a slot.
#[derive(PartialEq, Eq, PartialOrd, Ord, Hash, Debug, Drop, Error)]
#[error("for policy `{policy_id}`, {0}", Message(self))]
pub struct LiteralDereferenceTarget {
    pub source_loc: Option<Loc>,
    pub policy_id: PolicyID,
}

/// A form has no rule. Typing reports it for `hasTag` and `getTag` on an operand of type Never,
/// which occurs in Partial alone; the level pass reports it on a base that is neither an entity of
/// known types nor a record.
#[derive(PartialEq, Eq, PartialOrd, Ord, Hash, Debug, Drop, Error)]
#[error("for policy `{policy_id}`, {0}", Message(self))]
pub struct InternalInvariantViolation {
    pub source_loc: Option<Loc>,
    pub policy_id: PolicyID,
}

impl ValidationError {
    ghost use Rattle.std.specs.Prelude.{◌≡◌};
    ghost use Rattle.cedar_types.specs.Errors.{finding_of, found, maximum_level_exceeded, literal_dereference_target, internal_invariant_violation};

    /// The error on a dereference above the allowed level.
    pub fn maximum_level_exceeded(
        source_loc: Option<Loc>,
        policy_id: PolicyID,
        allowed_level: EntityDerefLevel,
        actual_level: EntityDerefLevel,
    ) -> ValidationError
        ensures { finding_of result ≡ found source_loc policy_id
            (maximum_level_exceeded allowed_level.level actual_level.level) }
    {
        ValidationError::MaximumLevelExceeded(MaximumLevelExceeded {
            source_loc,
            policy_id,
            allowed_level,
            actual_level,
        })
    }

    /// The error on a dereference of a literal or of a slot.
    pub fn literal_dereference_target(
        source_loc: Option<Loc>,
        policy_id: PolicyID,
    ) -> ValidationError
        ensures { finding_of result ≡ found source_loc policy_id literal_dereference_target }
    {
        ValidationError::LiteralDereferenceTarget(LiteralDereferenceTarget {
            source_loc,
            policy_id,
        })
    }

    /// The error on a form that has no rule.
    pub fn internal_invariant_violation(
        source_loc: Option<Loc>,
        policy_id: PolicyID,
    ) -> ValidationError
        ensures { finding_of result ≡ found source_loc policy_id internal_invariant_violation }
    {
        ValidationError::InternalInvariantViolation(InternalInvariantViolation {
            source_loc,
            policy_id,
        })
    }
}
