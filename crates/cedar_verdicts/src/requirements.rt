// Levels that verdicts give as required.
ghost use Rattle.std.specs.Prelude.{◌≡◌, true, false, option_map, IfOk};
ghost use Rattle.cedar_types.specs.Templates.{template_of};
ghost use Rattle.cedar_verdicts.specs.Verdicts.{basis_of, is_said, is_sound, level_said, PassesWithoutLevel};

use crate::found::find;
use crate::settings::Settings;
use cedar_findings::findings::Requirement;
use cedar_host::policy_sets::Findings;
use cedar_types::base::{ArgumentCheck, Template, ValidationError, ValidationMode};
use std::alloc::{AllocError, Global};

/// The level that a policy requires, unless the policy would be refused without a level too.
pub fn requirement<C: ArgumentCheck>(
    alloc: Global,
    settings: &Settings<'_, C>,
    policy: &Template,
    found: &Findings,
) -> Result<Requirement, AllocError>
    ensures level { IfOk result (λ r. is_said r ≡ true
        → level_said r ≡ option_map (λ l. l.level) found.now.level) }
    ensures sound { IfOk result (λ r. is_said r ≡ true → is_sound settings.now.mode ≡ true) }
    ensures said { IfOk result (λ r. is_sound settings.now.mode ≡ true
        → found.now.is_accepted ≡ true → is_said r ≡ true) }
    ensures only { IfOk result (λ r. is_said r ≡ true → found.now.is_accepted ≡ false
        → PassesWithoutLevel (basis_of C.refusal settings.now) (template_of policy.now)) }
{
    let passes = passes_without_level(alloc, settings, policy, found)?;
    if !has_levels(settings.mode) | !passes {
        return Ok(Requirement::Unsaid);
    }
    match found.level {
        Some(level) => Ok(Requirement::Level(level)),
        None => Ok(Requirement::NoLevel),
    }
}

/// Whether a mode has levels.
fn has_levels(mode: ValidationMode) -> bool
    ensures { result ≡ is_sound mode }
{
    match mode {
        ValidationMode::Strict | ValidationMode::Permissive => true,
        ValidationMode::Partial => false,
    }
}

/// Whether a policy passes if no level is asked for. A refused policy with nothing but level errors is judged again without a
/// level, because a part that is nested too deep can fail its check without an error.
fn passes_without_level<C: ArgumentCheck>(
    alloc: Global,
    settings: &Settings<'_, C>,
    policy: &Template,
    found: &Findings,
) -> Result<bool, AllocError>
    ensures accepted { IfOk result (λ passes. found.now.is_accepted ≡ true → passes ≡ true) }
    ensures refused { IfOk result (λ passes. passes ≡ true → found.now.is_accepted ≡ false
        → PassesWithoutLevel (basis_of C.refusal settings.now) (template_of policy.now)) }
{
    if found.is_accepted {
        return Ok(true);
    }
    if found.errors.is_empty() || !found.errors.keys().all(is_about_level) {
        return Ok(false);
    }
    let without = Settings {
        validator: settings.validator,
        mode: settings.mode,
        level: None,
        syntax: settings.syntax,
    };
    let found = find(alloc, &without, policy)?;
    Ok(found.is_accepted)
}

fn is_about_level(error: &ValidationError) -> bool {
    matches!(
        error,
        ValidationError::MaximumLevelExceeded(_) | ValidationError::LiteralDereferenceTarget(_)
    )
}
