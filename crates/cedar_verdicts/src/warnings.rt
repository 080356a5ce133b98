// Causes of the warnings of a policy, which may be slips.
ghost use Rattle.std.specs.Prelude.{◌≡◌, true, false, [], IfOk, OnOk};
ghost use Rattle.std.specs.BTreeMap.{keys};
ghost use Rattle.std.specs.List.{list_any};
ghost use Rattle.cedar_verdicts.specs.Found.{is_unknown_error};
ghost use Rattle.cedar_verdicts.specs.Mistakes.{says_impossible};
ghost use Rattle.cedar_verdicts.specs.Warnings.{Gain, tells_impossible, warns_that_impossible};

use crate::causes::{Cause, Found, place_of};
use crate::impossible::{FalsePart, false_parts};
use crate::settings::Settings;
use cedar_findings::codes::Code;
use cedar_findings::marks::Marked;
use cedar_findings::search_room::SearchRoom;
use cedar_host::policy_sets::Findings;
use cedar_typechecker::survey::Environments;
use cedar_types::base::{ArgumentCheck, Template, ValidationError, ValidationWarning};
use std::alloc::{AllocError, Global};
use std::collections::BTreeMap;

/// The parts that make a policy impossible; none if it is impossible because of its errors.
pub fn find_false_parts<C: ArgumentCheck>(
    alloc: Global,
    settings: &Settings<'_, C>,
    found: &Findings,
    policy: &Template,
    room: &mut SearchRoom,
) -> Result<Vec<FalsePart>, AllocError> {
    if found.is_impossible && !has_unknown_name(&found.errors) {
        return false_parts(alloc, settings, policy, room);
    }
    Ok(Vec::new(alloc))
}

/// The causes of warnings: those that do not follow from errors, and the texts that may be read as
/// others. They say that the policy is impossible exactly if a warning does that does not follow.
pub fn warning_causes<'a>(
    alloc: Global,
    found: &'a Findings,
    parts: &'a [FalsePart],
    marks: &[Marked],
    policy: &Template,
) -> Result<Vec<Found<'a>>, AllocError>
    ensures { IfOk result (λ causes. Gain (warns_that_impossible found.now) [] causes.items) }
{
    let mut causes = Vec::new(alloc);
    add_warnings(found, parts, policy, &mut causes)?;
    add_marks(policy, marks, &mut causes)?;
    Ok(causes)
}

/// Adds the warnings that do not follow from errors.
fn add_warnings<'a>(
    found: &'a Findings,
    parts: &'a [FalsePart],
    policy: &Template,
    causes: &mut Vec<Found<'a>>,
) -> Result<(), AllocError>
    ensures { OnOk result (
        Gain (warns_that_impossible found.now) causes.old.items causes.new.items) }
{
    for warning in &found.warnings {
        add_warning(&found.errors, warning, parts, policy, causes)?;
    }
    Ok(())
}

/// Adds a warning, unless it follows from errors.
fn add_warning<'a>(
    errors: &BTreeMap<ValidationError, Environments>,
    warning: &'a ValidationWarning,
    parts: &'a [FalsePart],
    policy: &Template,
    causes: &mut Vec<Found<'a>>,
) -> Result<(), AllocError>
    ensures { OnOk result (
        Gain (tells_impossible errors.now warning.now) causes.old.items causes.new.items) }
{
    match warning {
        ValidationWarning::ImpossiblePolicy(_) => {
            if has_unknown_name(errors) {
                return Ok(());
            }
            add_impossible(warning, parts, policy, causes)
        }
        ValidationWarning::InvalidActionApplication(_) => {
            if names_unknown_in_scope(errors, policy) {
                return Ok(());
            }
            let place = warning.source_loc().unwrap_or(place_of(policy));
            let cause = Cause::NoAction(warning);
            causes.push(Found { place, cause })?;
            Ok(())
        }
    }
}

/// Adds that a policy is impossible, at each part that is false; at the policy if none is known.
fn add_impossible<'a>(
    warning: &'a ValidationWarning,
    parts: &'a [FalsePart],
    policy: &Template,
    causes: &mut Vec<Found<'a>>,
) -> Result<(), AllocError>
    ensures { OnOk result (Gain true causes.old.items causes.new.items) }
{
    let Some((first, others)) = parts.split_first() else {
        let place = warning.source_loc().unwrap_or(place_of(policy));
        let cause = Cause::Impossible(warning, None);
        causes.push(Found { place, cause })?;
        return Ok(());
    };
    causes.push(impossible_at(warning, first))?;
    for part in others {
        causes.push(impossible_at(warning, part))?;
    }
    Ok(())
}

/// The cause that a policy is impossible because of a part.
fn impossible_at<'a>(warning: &'a ValidationWarning, part: &'a FalsePart) -> Found<'a>
    ensures { says_impossible result ≡ true }
{
    Found {
        place: part.place,
        cause: Cause::Impossible(warning, Some(part)),
    }
}

/// Adds the texts that may be read as others.
fn add_marks(
    policy: &Template,
    marks: &[Marked],
    causes: &mut Vec<Found<'_>>,
) -> Result<(), AllocError>
    ensures { OnOk result (Gain false causes.old.items causes.new.items) }
{
    for it in marks {
        let place = it.place.unwrap_or(place_of(policy));
        let cause = match it.code {
            Code::Direction => Cause::Direction(it.text),
            _ => Cause::LookAlike(it.text),
        };
        causes.push(Found { place, cause })?;
    }
    Ok(())
}

// A warning follows from a name that the schema does not declare: no entity is of an undeclared
// type, and no action fits a scope that names one, so the warning would only repeat the error.

/// Whether an error is a name that the schema does not declare.
fn has_unknown_name(errors: &BTreeMap<ValidationError, Environments>) -> bool
    ensures { result ≡ list_any is_unknown_error (keys errors.now) }
{
    errors.keys().any(is_unknown_name)
}

/// Whether such an error stands in the scope of its policy.
fn names_unknown_in_scope(
    errors: &BTreeMap<ValidationError, Environments>,
    policy: &Template,
) -> bool {
    errors.keys().any(|error| is_unknown_name(error) && is_in_scope(error, policy))
}

fn is_unknown_name(error: &ValidationError) -> bool
    ensures { result ≡ is_unknown_error error.now }
{
    matches!(
        error,
        ValidationError::UnrecognizedEntityType(_) | ValidationError::UnrecognizedActionId(_)
    )
}

/// Whether an error stands outside the conditions of its policy.
fn is_in_scope(error: &ValidationError, policy: &Template) -> bool {
    let condition = policy.non_scope_constraints.as_ref();
    match (error.source_loc(), condition.and_then(|it| it.loc)) {
        (Some(place), Some(condition)) => {
            place.start < condition.start || condition.end <= place.start
        }
        _ => true,
    }
}
