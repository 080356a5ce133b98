// Findings of validation on a policy, in any mode.
ghost use Rattle.std.specs.Prelude.{◌≡◌, true, [], ◌∷◌, None, option_map, IfOk, IfSome, OnOk};
ghost use Rattle.cedar_types.specs.declared.base.types.ValidationMode.TheVariants.{Partial};
ghost use Rattle.cedar_types.specs.Errors.{finding_of};
ghost use Rattle.cedar_types.specs.Templates.{template_of};
ghost use Rattle.cedar_typechecker.specs.declared.survey.Survey.{Survey};
ghost use Rattle.cedar_typechecker.specs.Levels.Required.{IsRequiredLevel};
ghost use Rattle.cedar_typechecker.specs.Levels.Views.{findings};
ghost use Rattle.cedar_typechecker.specs.Surveys.{IsSurveyOf, passes_of, errors_of};
ghost use Rattle.cedar_typechecker.specs.ValidatorViews.{basis_in};
ghost use Rattle.cedar_host.specs.Found.{listed};
ghost use Rattle.cedar_host.specs.Safety.{validation_mode, IsNeverTrue};
ghost use Rattle.cedar_verdicts.specs.Found.{AreAdded, AreFoundIn, AreFoundByChecks, AreFoundAgainst};
ghost use Rattle.cedar_verdicts.specs.Verdicts.{basis_of, is_sound, IsPromised};

use crate::settings::Settings;
use cedar_extensions::unread_texts::unread_texts;
use cedar_host::policy_sets::{Findings, validate};
use cedar_host::safety::SoundMode;
use cedar_host::slices::validate_within;
use cedar_typechecker::rbac::Validator;
use cedar_typechecker::survey::Environments;
use cedar_types::base::{
    ArgumentCheck, Template, ValidationError, ValidationMode, ValidationWarning,
};
use std::alloc::{AllocError, Global};
use std::collections::BTreeMap;

/// The findings on a policy: those of its survey, its names and its levels, and the texts of extension functions that make no
/// value. An error of any of these kinds refuses the policy.
pub fn find<C: ArgumentCheck>(
    alloc: Global,
    settings: &Settings<'_, C>,
    policy: &Template,
) -> Result<Findings, AllocError>
    ensures promised { IfOk result (λ found. IsPromised (basis_of C.refusal settings.now)
        settings.now.level (template_of policy.now) found.is_accepted) }
    ensures level { IfOk result (λ found. is_sound settings.now.mode ≡ true
        → IsRequiredLevel (basis_of C.refusal settings.now) (template_of policy.now)
        (option_map (λ l. l.level) found.level)) }
    ensures never_true { IfOk result (λ found.
        is_sound settings.now.mode ≡ true → found.is_impossible ≡ true
        → IsNeverTrue (basis_of C.refusal settings.now) (template_of policy.now)) }
    ensures exact { IfOk result (AreFoundAgainst (basis_of C.refusal settings.now)
        settings.now.level (template_of policy.now)) }
{
    let mut found = find_by_mode(alloc, settings, policy)?;
    let unread = unread_texts(alloc, policy)?;
    let is_read = unread.is_empty();
    add_unread(alloc, &mut found.errors, unread)?;
    found.is_accepted &= is_read;
    Ok(found)
}

/// Adds the texts of extension functions that are not read. They have no environments, because no typing finds them.
fn add_unread(
    alloc: Global,
    errors: &mut BTreeMap<ValidationError, Environments>,
    unread: Vec<ValidationError>,
) -> Result<(), AllocError>
    ensures { OnOk result (
        AreAdded (findings unread.items) (listed errors.old) (listed errors.new)) }
{
    for error in unread {
        add_error(alloc, errors, error)?;
    }
    Ok(())
}

/// Adds an error that typing does not find, so that it has no environment.
fn add_error(
    alloc: Global,
    errors: &mut BTreeMap<ValidationError, Environments>,
    error: ValidationError,
) -> Result<(), AllocError>
    ensures { OnOk result (
        AreAdded (finding_of error ∷ []) (listed errors.old) (listed errors.new)) }
{
    errors.insert(error, Environments::none(alloc))?;
    Ok(())
}

/// The findings on a policy without the texts of calls: with level errors, if a level is asked for and validation in this mode
/// promises something.
fn find_by_mode<C: ArgumentCheck>(
    alloc: Global,
    settings: &Settings<'_, C>,
    policy: &Template,
) -> Result<Findings, AllocError>
    ensures promised { IfOk result (λ found. IsPromised (basis_of C.refusal settings.now)
        settings.now.level (template_of policy.now) found.is_accepted) }
    ensures level { IfOk result (λ found. is_sound settings.now.mode ≡ true
        → IsRequiredLevel (basis_of C.refusal settings.now) (template_of policy.now)
        (option_map (λ l. l.level) found.level)) }
    ensures never_true { IfOk result (λ found.
        is_sound settings.now.mode ≡ true → found.is_impossible ≡ true
        → IsNeverTrue (basis_of C.refusal settings.now) (template_of policy.now)) }
    ensures exact { IfOk result (AreFoundByChecks (basis_of C.refusal settings.now)
        settings.now.level (template_of policy.now)) }
{
    let validator = settings.validator;
    let Some(mode) = sound_mode(settings.mode) else {
        let found = find_in_partial(alloc, validator, policy)?;
        return Ok(found);
    };
    match settings.level {
        None => {
            let found = validate(alloc, validator, mode, policy)?;
            Ok(found)
        }
        Some(steps) => {
            let found = validate_within(alloc, validator, mode, steps, policy)?;
            Ok(found)
        }
    }
}

/// The mode, if validation in it promises something of evaluation.
fn sound_mode(mode: ValidationMode) -> Option<SoundMode>
    ensures some { IfSome result (λ m. mode ≡ validation_mode m) }
    ensures none { result ≡ None → mode ≡ Partial }
{
    match mode {
        ValidationMode::Strict => Some(SoundMode::Strict),
        ValidationMode::Permissive => Some(SoundMode::Permissive),
        ValidationMode::Partial => None,
    }
}

/// The findings of typing in Partial.
fn find_in_partial<C: ArgumentCheck>(
    alloc: Global,
    validator: &Validator<'_, C>,
    policy: &Template,
) -> Result<Findings, AllocError>
    ensures { IfOk result (λ found. (survey : Survey)
        × IsSurveyOf (basis_in C.refusal validator.now Partial) (template_of policy.now) survey
        × AreFoundIn survey (passes_of survey) (errors_of survey) found) }
{
    let survey = validator.survey(alloc, policy, ValidationMode::Partial)?;
    let passes = survey.passes();
    let is_impossible = survey.is_impossible();
    let mut warnings = Vec::new(alloc);
    if is_impossible {
        let id = policy.id.clone()?;
        warnings.push(ValidationWarning::impossible_policy(policy.loc, id))?;
    }
    Ok(Findings {
        is_accepted: passes,
        is_impossible,
        warnings,
        applicable_environments: survey.applicable_environments(),
        level: None,
        errors: survey.into_errors(),
    })
}
