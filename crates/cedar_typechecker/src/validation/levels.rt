// The validation of a policy with levels.
ghost use Rattle.std.specs.Prelude.{◌≡◌, ◌++◌, IfOk, OnOk};
ghost use Rattle.cedar_types.specs.Templates.{template_of};
ghost use Rattle.cedar_typechecker.specs.Levels.Answers.{level_errors_left, level_warnings_left};
ghost use Rattle.cedar_typechecker.specs.Levels.Outcome.{AreApart, LevelOutcome};
ghost use Rattle.cedar_typechecker.specs.Levels.Views.{findings};
ghost use Rattle.cedar_typechecker.specs.Slices.Validation.{SilenceIsKept, WarnedIsNeverTrue};
ghost use Rattle.cedar_typechecker.specs.Surveys.{AddsFound};
ghost use Rattle.cedar_typechecker.specs.ValidatorViews.{basis_in};

use crate::level_validate::{LevelErrors, LevelWarnings};
use crate::rbac::Validator;
use crate::survey::Survey;
use crate::validation::append_keys;
use cedar_types::base::{ArgumentCheck, Template, ValidationError, ValidationMode};
use std::alloc::{AllocError, Global};
use std::collections::BTreeSet;

impl<C: ArgumentCheck> Validator<'_, C> {
    /// Validates a policy in a mode, and reports each place at which it dereferences more than `max_deref_level` entities,
    /// one after another (RFC 76).
    ///
    /// The errors are, in Strict and in Permissive, each finding of the passes over the names of the template; in each mode
    /// each error of its check in some environment, once; and each level error of an environment whose check does not fail,
    /// once. The warnings are, in Strict and in Permissive, that no action fits the scope; and in each mode that the policy
    /// is impossible: irrelevant in each environment. Each environment is typed once, and one typed condition is held at a
    /// time.
    ///
    /// In Strict and in Permissive, if no part is nested too deep, no error means that the policy passes and needs no more
    /// of a store than `max_deref_level` steps reach (clause `silent`): evaluating it gives a
    /// boolean, or fails only for a missing entity, an overflow or an extension function; and over each part of the store
    /// that has at least the slice of `max_deref_level` steps, it evaluates exactly as over the whole. A policy that is
    /// warned to be impossible is never true, with errors or without (clause `never_true`).
    /// The premises of all this are in docs/THEOREMS.md, "The premises".
    ///
    /// If a part is nested too deep the check fails, perhaps without an error, so you must not take a policy without errors
    /// for one that passes: `typecheck_policy` answers `true` of no such policy. Where memory is refused, the answer is an
    /// `AllocError`.
    pub fn validate_policy_with_level(
        &self,
        alloc: Global,
        p: &Template,
        mode: ValidationMode,
        max_deref_level: u32,
    ) -> Result<(LevelErrors, LevelWarnings), AllocError>
        ensures exact { IfOk result (λ r.
            LevelOutcome (basis_in C.refusal self.now mode) (template_of p.now) max_deref_level
            (level_errors_left r.0) (level_warnings_left r.1)) }
        ensures silent { IfOk result (λ r.
            SilenceIsKept (basis_in C.refusal self.now mode) (template_of p.now)
            max_deref_level (level_errors_left r.0)) }
        ensures never_true { IfOk result (λ r.
            WarnedIsNeverTrue (basis_in C.refusal self.now mode) (template_of p.now)
            (level_warnings_left r.1)) }
    {
        let survey = self.survey(alloc, p, mode)?;
        let warnings = self.warnings(alloc, p, mode, survey.is_impossible())?;
        let mut errors = self.name_errors(alloc, p, mode)?;
        append_found(&mut errors, alloc, survey, max_deref_level)?;
        let errors = LevelErrors {
            errors: errors.into_iter(),
        };
        let warnings = LevelWarnings {
            warnings: warnings.into_iter(),
        };
        Ok((errors, warnings))
    }
}

/// Adds the errors of the checks, and the level errors at a maximum, each once.
fn append_found(
    found: &mut Vec<ValidationError>,
    alloc: Global,
    survey: Survey,
    maximum: u32,
) -> Result<(), AllocError>
    ensures { OnOk result (
        AddsFound survey maximum (findings found.old.items) (findings found.new.items)) }
{
    let level_errors = survey.level_errors(alloc, maximum)?;
    append_keys(found, survey.into_errors())?;
    append(found, level_errors)?;
    Ok(())
}

/// Adds each error of a set, once.
fn append(
    found: &mut Vec<ValidationError>,
    set: BTreeSet<ValidationError>,
) -> Result<(), AllocError>
    ensures all { OnOk result (
        findings found.new.items ≡ findings found.old.items ++ findings set.keys) }
    ensures once { OnOk result (AreApart (findings set.keys)) }
{
    for error in set {
        found.push(error)?;
    }
    Ok(())
}
