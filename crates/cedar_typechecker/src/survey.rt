//! The survey of a policy: the results of its checks in all of its environments together.
ghost use Rattle.std.specs.Prelude.{◌≡◌, ◌↔◌, option_map, IfOk};
ghost use Rattle.std.specs.BTreeMap.{keys, get};
ghost use Rattle.cedar_types.specs.declared.base.errors.validation_errors.ValidationError.{ValidationError};
ghost use Rattle.cedar_types.specs.ErrorOrder.{error_cmp};
ghost use Rattle.cedar_types.specs.Errors.{Finding};
ghost use Rattle.cedar_typing.specs.Evaluation.Conformance.{IsOneOf};
ghost use Rattle.cedar_typechecker.specs.Levels.Views.{findings};
ghost use Rattle.cedar_typechecker.specs.Surveys.{passes_of, impossible_of, fails_silently_of, applicable_of, errors_of, environments_of, level_errors_of, required_of};

mod checks;
mod decided;
mod demands;
mod environments;
mod left_out;
mod one_action;
mod required;
mod scope;

use crate::level_validate::demands::Demand;
use cedar_types::base::{EntityDerefLevel, PolicyID, ValidationError};
use demands::{errors_at, least_level};
pub use environments::{Environment, Environments, MAX_ENVIRONMENTS_LISTED};
pub use left_out::left_out_is_quiet;
use std::alloc::{AllocError, Global};
use std::collections::{BTreeMap, BTreeSet};

/// The results of the checks of a policy in all of its environments, in a mode: each environment was typed at most
/// once.
///
/// The survey holds each error once, with its first environments, and each demand on levels. So it does not grow with
/// the number of environments.
#[derive(Drop)]
pub struct Survey {
    pub(crate) policy_id: PolicyID,
    pub(crate) passes: bool,
    pub(crate) is_impossible: bool,
    pub(crate) fails_without_error: bool,
    pub(crate) applicable: u64,
    pub(crate) errors: BTreeMap<ValidationError, Environments>,
    pub(crate) demands: BTreeSet<Demand>,
}

impl Survey {
    /// Whether the policy passes: whether each check is a success, or irrelevant without errors. `Typechecker::typecheck_policy`
    /// answers the same.
    #[tactic(auto, unfolding(crate::specs::Surveys::passes_of))]
    pub fn passes(&self) -> bool
        ensures { result ≡ passes_of self.now }
    {
        self.passes
    }

    /// Whether the policy is impossible: irrelevant in each environment, or checked in none.
    #[tactic(auto, unfolding(crate::specs::Surveys::impossible_of))]
    pub fn is_impossible(&self) -> bool
        ensures { result ≡ impossible_of self.now }
    {
        self.is_impossible
    }

    /// Whether some check fails without an error: a host that shows errors alone has nothing to show there.
    #[tactic(auto, unfolding(crate::specs::Surveys::fails_silently_of))]
    pub fn fails_without_error(&self) -> bool
        ensures { result ≡ fails_silently_of self.now }
    {
        self.fails_without_error
    }

    /// The number of environments in which the policy may apply, because its check there is not irrelevant, or finds an
    /// error. The greatest number of 64 bits stands for itself and for all greater ones.
    #[tactic(auto, unfolding(crate::specs::Surveys::applicable_of))]
    pub fn applicable_environments(&self) -> u64
        ensures { result ≡ applicable_of self.now }
    {
        self.applicable
    }

    /// The errors of the checks, each once and in order, with the environments in which it occurs. It takes no memory.
    #[tactic(auto, unfolding(crate::specs::Surveys::errors_of, crate::specs::Surveys::environments_of))]
    pub fn errors(&self) -> &BTreeMap<ValidationError, Environments>
        ensures errors { findings (keys result.now) ≡ errors_of self.now }
        ensures environments { (x : ValidationError)
            → get error_cmp result.now x ≡ environments_of self.now x }
    {
        &self.errors
    }

    /// Gives up the survey for its errors: each once and in order, with the environments in which it occurs.
    #[tactic(auto, unfolding(crate::specs::Surveys::errors_of, crate::specs::Surveys::environments_of))]
    pub fn into_errors(self) -> BTreeMap<ValidationError, Environments>
        ensures errors { findings (keys result) ≡ errors_of self }
        ensures environments { (x : ValidationError)
            → get error_cmp result x ≡ environments_of self x }
    {
        self.errors
    }

    /// The level errors at a maximum, each once. Where memory is refused, the answer is an `AllocError`.
    #[tactic(auto, unfolding(crate::specs::Surveys::level_errors_of))]
    pub fn level_errors(
        &self,
        alloc: Global,
        max_deref_level: u32,
    ) -> Result<BTreeSet<ValidationError>, AllocError>
        ensures { IfOk result (λ errors. (e : Finding)
            → IsOneOf e (findings errors.keys)
            ↔ IsOneOf e (level_errors_of self.now max_deref_level)) }
    {
        errors_at(alloc, &self.demands, max_deref_level, &self.policy_id)
    }

    /// The least level from 0 to 4294967295 at which there is no level error; `None` if no level is enough. It takes no
    /// memory.
    #[tactic(auto, unfolding(crate::specs::Surveys::required_of))]
    pub fn required_level(&self) -> Option<EntityDerefLevel>
        ensures { option_map (λ l. l.level) result ≡ required_of self.now }
    {
        least_level(&self.demands)
    }
}
