//! Validation of a set of policies.
ghost use Rattle.std.specs.Prelude.{◌≡◌, ◌++◌, true, [], ◌∷◌, cond, map, option_map, All, IfOk, OnOk, IsPermutation};
ghost use Rattle.cedar_types.specs.declared.base.types.ValidationMode.TheVariants.{Strict};
ghost use Rattle.cedar_types.specs.Errors.{finding_of, warning_of};
ghost use Rattle.cedar_types.specs.Names.{text_of};
ghost use Rattle.cedar_types.specs.Schemas.Contents.{schema_of};
ghost use Rattle.cedar_types.specs.Templates.{template_of};
ghost use Rattle.cedar_typing.specs.PolicyCheck.Outcome.{Adds, impossible};
ghost use Rattle.cedar_typing.specs.Soundness.Policies.{IsNamedBySchema};
ghost use Rattle.cedar_typechecker.specs.Levels.Outcome.{name_findings, application_warnings};
ghost use Rattle.cedar_typechecker.specs.Levels.Required.{IsRequiredLevel};
ghost use Rattle.cedar_typechecker.specs.Levels.Views.{findings};
ghost use Rattle.cedar_typechecker.specs.Passes.{errors_left};
ghost use Rattle.cedar_typechecker.specs.Surveys.{passes_of, impossible_of, required_of};
ghost use Rattle.cedar_typechecker.specs.ValidatorViews.{schema_in};
ghost use Rattle.cedar_host.specs.Found.{AreFindingsOn, AreFoundBy, listed, IsReportOf};
ghost use Rattle.cedar_host.specs.ResponseLaws.{IsUnneeded};
ghost use Rattle.cedar_host.specs.Repeats.{AreRepeats, id_in};
ghost use Rattle.cedar_host.specs.Safety.{sound_basis, PassesEverywhere, DoesNotGoWrong};
ghost use Rattle.cedar_host.specs.Safety.{IsNeverTrue, IsRight};

use crate::reports::{PolicyReport, report};
use crate::safety::SoundMode;
use cedar_typechecker::rbac::{LiteralErrors, Validator};
use cedar_typechecker::survey::{Environments, Survey};
use cedar_types::base::{
    ArgumentCheck, Effect, EntityDerefLevel, PolicyID, Template, ValidationError, ValidationMode,
    ValidationWarning, ValidatorSchema,
};
use std::alloc::{AllocError, Global};
use std::collections::{BTreeMap, BTreeSet};
use std::rc::RcStr;

/// A policy with the text of its places, which may be that of a whole file with several policies.
#[derive(Debug, Drop)]
pub struct WrittenPolicy {
    /// The effect of a satisfied policy. Validation does not use it, but an authoriser does.
    pub effect: Effect,
    pub template: Template,
    pub text: RcStr,
}

/// The findings of validation in a policy.
#[derive(Debug, Drop)]
pub struct Findings {
    /// Whether the schema has each name and id, and no environment refuses the policy.
    pub is_accepted: bool,
    /// Whether the policy is false in each environment, so that it never applies.
    pub is_impossible: bool,
    /// The errors in order, each with the environments in which typing finds it: none for an error that
    /// typing does not find, for example an unknown name.
    pub errors: BTreeMap<ValidationError, Environments>,
    /// The warnings: no action fits the scope; the policy is impossible.
    pub warnings: Vec<ValidationWarning>,
    /// The number of environments in which the policy may apply, because its check is not irrelevant there, or
    /// finds an error.
    pub applicable_environments: u64,
    /// The required level: the least number of steps at which the policy has no level error; `None` if no number is
    /// enough.
    pub level: Option<EntityDerefLevel>,
}

/// Validates each policy of the set in this mode, and reports on each. Accepted policies do not go wrong,
/// and impossible ones are never true (clause `right`). So an authoriser that leaves out an impossible one decides alike, by the
/// same policies (clause `unneeded`). A policy is accepted exactly where its checks and the passes over its names find nothing. A
/// report that refuses one lists an error, and each report lists its errors and its warnings in the order of their places (clause
/// `exact`). Where memory is refused, the answer is an `AllocError`.
pub fn validate_set<'a, C: ArgumentCheck>(
    alloc: Global,
    validator: &Validator<'_, C>,
    mode: SoundMode,
    policies: &'a [WrittenPolicy],
) -> Result<Vec<PolicyReport<'a>>, AllocError>
    ensures each { IfOk result (λ reports. map (λ r. r.policy.now) reports.items ≡ policies.now) }
    ensures right { IfOk result (λ reports.
        All (IsRight (sound_basis mode C.refusal validator.now)) reports.items) }
    ensures exact { IfOk result (λ reports. All
        (IsReportOf (AreFindingsOn (sound_basis mode C.refusal validator.now))) reports.items) }
    ensures unneeded { IfOk result (λ reports.
        All (IsUnneeded (sound_basis mode C.refusal validator.now)) reports.items) }
{
    let mut reports = Vec::with_capacity(alloc, policies.len())?;
    for policy in policies {
        let findings = validate(alloc, validator, mode, &policy.template)?;
        reports.push(report(alloc, policy, findings)?)?;
    }
    Ok(reports)
}

/// The ids that a policy of a set shares with an earlier one, in the order of the set. You must refuse such a set if you show
/// findings, or link policies by their ids, because findings name policies by their ids. If memory is refused, the answer is an
/// `AllocError`.
pub fn repeated_ids(alloc: Global, policies: &[WrittenPolicy]) -> Result<Vec<PolicyID>, AllocError>
    ensures { IfOk result (λ repeated.
        AreRepeats (map id_in policies.now) (map (λ i. text_of i.text) repeated.items)) }
{
    let mut seen = BTreeSet::new(alloc);
    let mut repeated = Vec::new(alloc);
    for policy in policies {
        let id = &policy.template.id;
        if !seen.insert(id.text.clone()?)? {
            repeated.push(id.clone()?)?;
        }
    }
    Ok(repeated)
}

/// The findings in a policy: the types, actions and ids that the schema does not declare, the errors that typing finds in all
/// environments, in this mode, and whether no action fits the scope. The policy is accepted exactly if its checks pass and no
/// name has an error, and each error is listed (clause `exact`). If memory is refused, the answer is an `AllocError`.
pub fn validate<C: ArgumentCheck>(
    alloc: Global,
    validator: &Validator<'_, C>,
    mode: SoundMode,
    policy: &Template,
) -> Result<Findings, AllocError>
    ensures checked { IfOk result (λ found. found.is_accepted ≡ true
        → PassesEverywhere (sound_basis mode C.refusal validator.now) (template_of policy.now)) }
    ensures safe { IfOk result (λ found. found.is_accepted ≡ true
        → DoesNotGoWrong (sound_basis mode C.refusal validator.now) (template_of policy.now)) }
    ensures never_true { IfOk result (λ found. found.is_impossible ≡ true
        → IsNeverTrue (sound_basis mode C.refusal validator.now) (template_of policy.now)) }
    ensures level { IfOk result (λ found.
        IsRequiredLevel (sound_basis mode C.refusal validator.now) (template_of policy.now)
        (option_map (λ l. l.level) found.level)) }
    ensures exact { IfOk result (
        AreFindingsOn (sound_basis mode C.refusal validator.now) (template_of policy.now)) }
{
    let survey = validator.survey(alloc, policy, ValidationMode::from(mode))?;
    let findings = find(alloc, validator, policy, survey)?;
    Ok(findings)
}

/// The findings in a policy, from its survey.
pub(crate) fn find<C: ArgumentCheck>(
    alloc: Global,
    validator: &Validator<'_, C>,
    policy: &Template,
    survey: Survey,
) -> Result<Findings, AllocError>
    ensures named { IfOk result (λ found. found.is_accepted ≡ true
        → IsNamedBySchema (schema_of (schema_in validator.now)) (template_of policy.now)) }
    ensures passes { IfOk result (λ found. found.is_accepted ≡ true → passes_of survey ≡ true) }
    ensures impossible { IfOk result (λ found. found.is_impossible ≡ impossible_of survey) }
    ensures level { IfOk result (λ found.
        option_map (λ l. l.level) found.level ≡ required_of survey) }
    ensures exact { IfOk result (
        AreFoundBy (schema_of (schema_in validator.now)) (template_of policy.now) survey []) }
{
    let passes = survey.passes();
    let is_impossible = survey.is_impossible();
    let applicable_environments = survey.applicable_environments();
    let level = survey.required_level();
    let warnings = find_warnings(alloc, validator, policy, is_impossible)?;
    let misnamed = name_errors(alloc, validator.schema(), policy)?;
    let is_named = misnamed.is_empty();
    let mut errors = survey.into_errors();
    add_all(alloc, &mut errors, misnamed)?;
    Ok(Findings {
        is_accepted: is_named & passes,
        is_impossible,
        errors,
        warnings,
        applicable_environments,
        level,
    })
}

/// The warnings that no action fits the scope, and that the policy is impossible.
fn find_warnings<C: ArgumentCheck>(
    alloc: Global,
    validator: &Validator<'_, C>,
    policy: &Template,
    is_impossible: bool,
) -> Result<Vec<ValidationWarning>, AllocError>
    ensures { IfOk result (λ found. map warning_of found.items
        ≡ application_warnings Strict (schema_of (schema_in validator.now)) (template_of policy.now)
        ++ cond is_impossible (impossible (template_of policy.now) ∷ []) []) }
{
    let mut warnings = Vec::new(alloc);
    if let Err(warning) = validator.validate_template_action_application(alloc, policy)? {
        warnings.push(warning)?;
    }
    if is_impossible {
        warnings.push(impossible_policy(policy)?)?;
    }
    Ok(warnings)
}

/// The warning that this policy is impossible.
fn impossible_policy(policy: &Template) -> Result<ValidationWarning, AllocError>
    ensures { IfOk result (λ w. warning_of w ≡ impossible (template_of policy.now)) }
{
    Ok(ValidationWarning::impossible_policy(policy.loc, policy.id.clone()?))
}

/// Each type, action and id that a policy names and the schema does not declare.
fn name_errors(
    alloc: Global,
    schema: &ValidatorSchema,
    policy: &Template,
) -> Result<Vec<ValidationError>, AllocError>
    ensures { IfOk result (λ found. IsPermutation (findings found.items)
        (name_findings Strict (schema_of schema.now) (template_of policy.now))) }
{
    let mut found = Vec::new(alloc);
    collect(
        &mut found,
        Validator::validate_enum_entity(alloc, schema, policy),
    )?;
    collect(
        &mut found,
        Validator::validate_entity_types(alloc, schema, policy),
    )?;
    collect(
        &mut found,
        Validator::validate_action_ids(alloc, schema, policy),
    )?;
    Ok(found)
}

/// Adds all errors that a pass still gives.
fn collect(found: &mut Vec<ValidationError>, pass: LiteralErrors<'_>) -> Result<(), AllocError>
    ensures { OnOk result (
        findings found.new.items ≡ findings found.old.items ++ errors_left pass.entry) }
{
    for error in pass {
        found.push(error?)?;
    }
    Ok(())
}

/// Adds errors that typing does not find.
fn add_all(
    alloc: Global,
    errors: &mut BTreeMap<ValidationError, Environments>,
    found: Vec<ValidationError>,
) -> Result<(), AllocError>
    ensures { OnOk result (Adds (listed errors.old) (findings found.items) (listed errors.new)) }
{
    for error in found {
        add_error(alloc, errors, error)?;
    }
    Ok(())
}

/// Adds an error that typing does not find, so that it has no environment.
pub(crate) fn add_error(
    alloc: Global,
    errors: &mut BTreeMap<ValidationError, Environments>,
    error: ValidationError,
) -> Result<(), AllocError>
    ensures { OnOk result (
        Adds (listed errors.old) (finding_of error ∷ []) (listed errors.new)) }
{
    errors.insert(error, Environments::none(alloc))?;
    Ok(())
}
