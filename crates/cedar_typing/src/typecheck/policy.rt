// The check of a policy in all of its environments.
ghost use Rattle.std.specs.Prelude.{◌≡◌, ◌∷◌, List, IfOk, OnOk, OnErr, IsPermutation, map};
ghost use Rattle.cedar_types.specs.Errors.{finding_of, warning_of};
ghost use Rattle.cedar_types.specs.Templates.{template_of};
ghost use Rattle.cedar_typing.specs.Views.Checks.{envs_for, basis_of, verdict_of};
ghost use Rattle.cedar_typing.specs.Views.EnvironmentChecks.{ChecksIn};
ghost use Rattle.cedar_typing.specs.PolicyCheck.{Verdict};
ghost use Rattle.cedar_typing.specs.PolicyCheck.Outcome.{impossible, PolicyOutcome};
ghost use Rattle.cedar_typing.specs.Soundness.Policies.{PolicyIsSafe, ImpossibleIsNeverTrue};
ghost use Rattle.cedar_typing.specs.Views.Policies.{IsTally, TalliesEnvs};

use crate::typecheck::sets::{insert_all, put_all};
use crate::typecheck::typechecker::{PolicyCheck, Typechecker};
use cedar_types::base::{ArgumentCheck, Template, ValidationError, ValidationWarning};
use std::alloc::{AllocError, Global};
use std::collections::{BTreeSet, HashSet};

/// The findings of the checks so far. The errors are kept in order and not hashed, because an author of policies can choose
/// names that collide in all hashes.
#[derive(Drop)]
struct Tally {
    errors: BTreeSet<ValidationError>,
    all_pass: bool,
    all_irrelevant: bool,
}

impl<'a, C: ArgumentCheck> Typechecker<'a, C> {
    /// Checks a policy in all of its environments, and answers whether it passes: whether each check is a success, or
    /// irrelevant without errors.
    ///
    /// `type_errors` gains each error that some check found. `warnings` gains `ImpossiblePolicy`, at the template's place,
    /// exactly if each check is irrelevant, so also if there is no environment. One typed condition is held at a time.
    ///
    /// In Strict and in Permissive a policy that passes does not go wrong (clause `safe`): evaluating
    /// it gives a boolean, or fails only for a missing entity, an overflow or an extension function. A policy that this call
    /// newly warns to be impossible is never true, whether or not it passes (clause `never_true`). The premises of both are in docs/THEOREMS.md, "The premises".
    ///
    /// Where memory is refused, the answer is an `AllocError`, and both sets stay as they were.
    pub fn typecheck_policy(
        &self,
        alloc: Global,
        t: &Template,
        type_errors: &mut HashSet<ValidationError>,
        warnings: &mut HashSet<ValidationWarning>,
    ) -> Result<bool, AllocError>
        ensures exact { IfOk result (λ answer.
            PolicyOutcome (ChecksIn C.refusal self.now t.now)
            (envs_for self.now t.now)
            (template_of t.now) answer
            (map finding_of type_errors.old.keys) (map finding_of type_errors.new.keys)
            (map warning_of warnings.old.keys) (map warning_of warnings.new.keys)) }
        ensures safe { IfOk result (λ answer.
            PolicyIsSafe (basis_of C.refusal self.now) (template_of t.now) answer) }
        ensures never_true { IfOk result (λ answer.
            ImpossibleIsNeverTrue (basis_of C.refusal self.now) (template_of t.now)
            (map warning_of warnings.old.keys) (map warning_of warnings.new.keys)) }
        ensures errors_kept { OnErr result (
            IsPermutation type_errors.old.keys type_errors.new.keys) }
        ensures warnings_kept { OnErr result (warnings.new.keys ≡ warnings.old.keys) }
    {
        let tally = self.tally(alloc, t)?;
        // with room for all errors beforehand, nothing fails after the first change, so both sets change or neither does
        type_errors.reserve(tally.errors.len())?;
        if tally.all_irrelevant {
            let warning = impossible_policy(t)?;
            warnings.insert(warning)?;
        }
        put_all(type_errors, tally.errors);
        Ok(tally.all_pass)
    }

    fn tally(&self, alloc: Global, t: &Template) -> Result<Tally, AllocError>
        ensures { IfOk result (TalliesEnvs (ChecksIn C.refusal self.now t.now)
            (envs_for self.now t.now)) }
    {
        let mut tally = Tally {
            errors: BTreeSet::new(alloc),
            all_pass: true,
            all_irrelevant: true,
        };
        // each check is dropped before the next environment is typed, so that one typed condition is held at a time
        for item in self.typecheck_by_request_env(alloc, t)? {
            let (env, check) = item?;
            drop(env);
            tally.take_in(check)?;
        }
        Ok(tally)
    }
}

impl Tally {
    /// Takes in the check of one more environment. A policy passes if each check is a success, or irrelevant without errors.
    fn take_in(&mut self, check: PolicyCheck) -> Result<(), AllocError>
        ensures { OnOk result ((vs : List Verdict) →
            IsTally self.old vs → IsTally self.new (verdict_of check ∷ vs)) }
    {
        match check {
            PolicyCheck::Success(_) => {
                self.all_irrelevant = false;
                Ok(())
            }
            PolicyCheck::Irrelevant(errors, _) => {
                // the condition is False here, but an error on the way to it counts all the same
                self.all_pass &= errors.is_empty();
                insert_all(&mut self.errors, errors)?;
                Ok(())
            }
            PolicyCheck::Fail(errors) => {
                self.all_pass = false;
                // a condition that has failed may be true, so the policy is not impossible
                self.all_irrelevant = false;
                insert_all(&mut self.errors, errors)?;
                Ok(())
            }
        }
    }
}

/// The warning that this policy is impossible.
fn impossible_policy(t: &Template) -> Result<ValidationWarning, AllocError>
    ensures { IfOk result (λ w. warning_of w ≡ impossible (template_of t.now)) }
{
    Ok(ValidationWarning::impossible_policy(t.loc, t.id.clone()?))
}
