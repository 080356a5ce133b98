// Warnings of validation.
use crate::base::errors::messages::Message;
use crate::base::location::Loc;
use crate::base::names::policy_ids::PolicyID;
use thiserror::Error;

/// A policy is false in every environment.
#[derive(PartialEq, Eq, Hash, Debug, Drop, Error)]
#[error("for policy `{policy_id}`, {0}", Message(self))]
pub struct ImpossiblePolicy {
    pub source_loc: Option<Loc>,
    pub policy_id: PolicyID,
}

/// No action fits the scope of a policy.
#[derive(PartialEq, Eq, Hash, Debug, Drop, Error)]
#[error("for policy `{policy_id}`, {0}", Message(self))]
pub struct InvalidActionApplication {
    pub source_loc: Option<Loc>,
    pub policy_id: PolicyID,
    /// Whether `in` in place of `==` might help for the principal.
    pub would_in_fix_principal: bool,
    /// Whether `in` in place of `==` might help for the resource.
    pub would_in_fix_resource: bool,
}

/// A warning on a likely slip in a policy, with the policy's id and place.
#[derive(PartialEq, Eq, Hash, Debug, Drop, Error)]
pub enum ValidationWarning {
    /// The policy never applies.
    #[error(transparent)]
    ImpossiblePolicy(ImpossiblePolicy),
    /// The scope fits no action.
    #[error(transparent)]
    InvalidActionApplication(InvalidActionApplication),
}

impl ValidationWarning {
    ghost use Rattle.std.specs.Prelude.{◌≡◌, IsTrue, ◌↔◌};
    ghost use Rattle.cedar_types.specs.Names.{text_of};
    ghost use Rattle.cedar_types.specs.Errors.{warning_of, noted, impossible_policy, invalid_action_application};

    /// The warning on a policy that is false in every environment.
    pub fn impossible_policy(source_loc: Option<Loc>, policy_id: PolicyID) -> ValidationWarning
        ensures { warning_of result ≡ noted source_loc policy_id impossible_policy }
    {
        ValidationWarning::ImpossiblePolicy(ImpossiblePolicy {
            source_loc,
            policy_id,
        })
    }

    /// The warning on a scope that no action fits.
    pub fn invalid_action_application(
        source_loc: Option<Loc>,
        policy_id: PolicyID,
        would_in_fix_principal: bool,
        would_in_fix_resource: bool,
    ) -> ValidationWarning
        ensures { warning_of result ≡ noted source_loc policy_id
            (invalid_action_application would_in_fix_principal would_in_fix_resource) }
    {
        ValidationWarning::InvalidActionApplication(InvalidActionApplication {
            source_loc,
            policy_id,
            would_in_fix_principal,
            would_in_fix_resource,
        })
    }

    /// The place that the warning is about.
    pub fn source_loc(&self) -> Option<Loc>
        ensures { result ≡ (warning_of self.now).place }
    {
        match self {
            ValidationWarning::ImpossiblePolicy(w) => w.source_loc,
            ValidationWarning::InvalidActionApplication(w) => w.source_loc,
        }
    }

    /// The id of the policy that the warning is about.
    pub fn policy_id(&self) -> &PolicyID
        ensures { text_of result.now.text ≡ (warning_of self.now).policy }
    {
        match self {
            ValidationWarning::ImpossiblePolicy(w) => &w.policy_id,
            ValidationWarning::InvalidActionApplication(w) => &w.policy_id,
        }
    }
}
