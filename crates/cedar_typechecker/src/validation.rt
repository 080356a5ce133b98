// The validation of a policy: the names in it, its scope, and its checks.
ghost use Rattle.std.specs.Prelude.{◌≡◌, ◌++◌, IfOk, OnOk, IsPermutation, map, cond, [], ◌∷◌};
ghost use Rattle.std.specs.BTreeMap.{keys};
ghost use Rattle.cedar_types.specs.Errors.{warning_of};
ghost use Rattle.cedar_types.specs.Schemas.Contents.{schema_of};
ghost use Rattle.cedar_types.specs.Templates.{template_of};
ghost use Rattle.cedar_typing.specs.PolicyCheck.Outcome.{impossible};
ghost use Rattle.cedar_typechecker.specs.Levels.Outcome.{name_findings, application_warnings, AreApart, ValidationOutcome};
ghost use Rattle.cedar_typechecker.specs.Levels.Views.{findings};
ghost use Rattle.cedar_typechecker.specs.Passes.{errors_left};
ghost use Rattle.cedar_typechecker.specs.Slices.Validation.{WarnedIsNeverTrue};
ghost use Rattle.cedar_typechecker.specs.Validations.{ValidIsSafe};
ghost use Rattle.cedar_typechecker.specs.ValidatorViews.{schema_in, basis_in};

mod levels;

use crate::rbac::{LiteralErrors, Validator};
use crate::survey::Environments;
use cedar_types::base::{
    ArgumentCheck, Template, ValidationError, ValidationMode, ValidationWarning,
};
use std::alloc::{AllocError, Global};
use std::collections::BTreeMap;

impl<C: ArgumentCheck> Validator<'_, C> {
    /// Validates a policy in a mode: its errors, in any order, and its warnings.
    ///
    /// The errors are, in Strict and in Permissive, each finding of the passes over the names of the template, as often as it is
    /// found; and in each mode each error of its check in some environment, once. The warnings are, in Strict and in Permissive,
    /// that no action fits the scope; and in each mode that the policy is impossible: irrelevant in each environment. Each
    /// environment is typed at most once, and one typed condition is held at a time.
    ///
    /// In Strict and in Permissive a policy without errors, and without a part that is nested too deep, does not go
    /// wrong (clause `silent`): evaluating it gives a boolean, or fails only for a missing entity, an overflow or an
    /// extension function. This is promised too if each error is an id that its enumerated type does not list, so that
    /// there are no more than `validate_enum_entity` finds, because typing does not ask which ids a type lists. A
    /// policy that is warned to be impossible is never true, with errors or without (clause `never_true`). The premises
    /// of all this are in docs/THEOREMS.md, "The premises".
    ///
    /// If a part is nested too deep the check fails, perhaps without an error, so you must not take a policy without errors for one
    /// that passes: `typecheck_policy` answers `true` of no such policy. Where memory is refused, the answer is an `AllocError`.
    pub fn validate_policy(
        &self,
        alloc: Global,
        p: &Template,
        mode: ValidationMode,
    ) -> Result<(Vec<ValidationError>, Vec<ValidationWarning>), AllocError>
        ensures exact { IfOk result (λ r.
            ValidationOutcome (basis_in C.refusal self.now mode) (template_of p.now)
            (findings r.0.items) (map warning_of r.1.items)) }
        ensures silent { IfOk result (λ r.
            ValidIsSafe (basis_in C.refusal self.now mode) (template_of p.now)
            (findings r.0.items)) }
        ensures never_true { IfOk result (λ r.
            WarnedIsNeverTrue (basis_in C.refusal self.now mode) (template_of p.now)
            (map warning_of r.1.items)) }
    {
        let survey = self.survey(alloc, p, mode)?;
        let warnings = self.warnings(alloc, p, mode, survey.is_impossible())?;
        let mut errors = self.name_errors(alloc, p, mode)?;
        append_keys(&mut errors, survey.into_errors())?;
        Ok((errors, warnings))
    }

    /// The findings of the passes over the names, which run in Strict and in Permissive.
    pub(crate) fn name_errors(
        &self,
        alloc: Global,
        p: &Template,
        mode: ValidationMode,
    ) -> Result<Vec<ValidationError>, AllocError>
        ensures { IfOk result (λ found. IsPermutation (findings found.items)
            (name_findings mode (schema_of (schema_in self.now)) (template_of p.now))) }
    {
        let mut found = Vec::new(alloc);
        if mode == ValidationMode::Partial {
            return Ok(found);
        }
        let schema = &self.schema;
        collect(
            &mut found,
            Validator::validate_enum_entity(alloc, schema, p),
        )?;
        collect(
            &mut found,
            Validator::validate_entity_types(alloc, schema, p),
        )?;
        collect(&mut found, Validator::validate_action_ids(alloc, schema, p))?;
        Ok(found)
    }

    /// The warnings: that no action fits the scope, in Strict and in Permissive, and that the policy is impossible.
    pub(crate) fn warnings(
        &self,
        alloc: Global,
        p: &Template,
        mode: ValidationMode,
        is_impossible: bool,
    ) -> Result<Vec<ValidationWarning>, AllocError>
        ensures { IfOk result (λ found. map warning_of found.items
            ≡ application_warnings mode (schema_of (schema_in self.now)) (template_of p.now)
            ++ cond is_impossible (impossible (template_of p.now) ∷ []) []) }
    {
        let mut found = Vec::new(alloc);
        if mode != ValidationMode::Partial {
            if let Err(warning) = self.validate_template_action_application(alloc, p)? {
                found.push(warning)?;
            }
        }
        if is_impossible {
            found.push(impossible_policy(p)?)?;
        }
        Ok(found)
    }
}

/// Adds the errors that a pass still gives.
fn collect(found: &mut Vec<ValidationError>, pass: LiteralErrors<'_>) -> Result<(), AllocError>
    ensures { OnOk result (
        findings found.new.items ≡ findings found.old.items ++ errors_left pass.entry) }
{
    for error in pass {
        found.push(error?)?;
    }
    Ok(())
}

/// Adds each error of the checks, once.
pub(crate) fn append_keys(
    found: &mut Vec<ValidationError>,
    map: BTreeMap<ValidationError, Environments>,
) -> Result<(), AllocError>
    ensures all { OnOk result (
        findings found.new.items ≡ findings found.old.items ++ findings (keys map)) }
    ensures once { OnOk result (AreApart (findings (keys map))) }
{
    for error in map.into_keys() {
        found.push(error)?;
    }
    Ok(())
}

/// The warning that this policy is impossible.
fn impossible_policy(p: &Template) -> Result<ValidationWarning, AllocError>
    ensures { IfOk result (λ w. warning_of w ≡ impossible (template_of p.now)) }
{
    Ok(ValidationWarning::impossible_policy(p.loc, p.id.clone()?))
}
