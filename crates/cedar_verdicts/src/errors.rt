// Errors of a policy, before they are put into words.
ghost use Rattle.std.specs.Prelude.{◌≡◌, ◌<◌, ◌≤◌, true, false, length, is_some, IfOk, OnOk};

use crate::causes::{Cause, Found, place_of};
use cedar_host::policy_sets::Findings;
use cedar_reading::Position;
use cedar_types::base::{Template, ValidationMode};
use std::alloc::{AllocError, Global};

/// The text for a policy that is refused without an error, in a mode in which each name is the
/// schema's.
const NESTED: &str = "nested too deep to be checked: fewer than 400 parts may stand inside \
     each other, and a chain of `&&`, `||`, `+` or accesses nests one deeper at each step";

/// The text for such a policy in Partial, in which the schema need not declare each name.
const UNEXPLAINED: &str = "refused without an error: a part is nested too deep, or names what \
     the schema does not declare";

/// The causes for which a policy is refused: its errors, and the policy before it that has its id,
/// at this position. There is at least one cause if the policy is not accepted or an earlier one
/// has its id, and none otherwise.
pub fn error_causes<'a>(
    alloc: Global,
    mode: ValidationMode,
    found: &'a Findings,
    policy: &Template,
    same_id: Option<Position>,
) -> Result<Vec<Found<'a>>, AllocError>
    ensures refused { IfOk result (λ causes.
        found.now.is_accepted ≡ false → 0 < length causes.items) }
    ensures repeated { IfOk result (λ causes. is_some same_id ≡ true → 0 < length causes.items) }
    ensures none { IfOk result (λ causes. found.now.is_accepted ≡ true
        → is_some same_id ≡ false → length causes.items ≡ 0) }
{
    let mut causes = why_refused(alloc, mode, found, policy)?;
    add_same_id(policy, same_id, &mut causes)?;
    Ok(causes)
}

/// The causes for which a policy is refused by itself: its errors, or if it has none, that none
/// explains it.
fn why_refused<'a>(
    alloc: Global,
    mode: ValidationMode,
    found: &'a Findings,
    policy: &Template,
) -> Result<Vec<Found<'a>>, AllocError>
    ensures refused { IfOk result (λ causes.
        found.now.is_accepted ≡ false → 0 < length causes.items) }
    ensures none { IfOk result (λ causes.
        found.now.is_accepted ≡ true → length causes.items ≡ 0) }
{
    if found.is_accepted {
        return Ok(Vec::new(alloc));
    }
    let mut causes = errors_found(alloc, found, policy)?;
    explain(mode, policy, &mut causes)?;
    Ok(causes)
}

/// Adds that an earlier policy has the id, if one has.
fn add_same_id(
    policy: &Template,
    same_id: Option<Position>,
    causes: &mut Vec<Found<'_>>,
) -> Result<(), AllocError>
    ensures added { OnOk result (is_some same_id ≡ true → 0 < length causes.new.items) }
    ensures more { OnOk result (length causes.old.items ≤ length causes.new.items) }
    ensures none { OnOk result (is_some same_id ≡ false
        → length causes.new.items ≡ length causes.old.items) }
{
    let Some(other) = same_id else {
        return Ok(());
    };
    let place = place_of(policy);
    let cause = Cause::SameId(other);
    causes.push(Found { place, cause })?;
    Ok(())
}

/// The errors of validation, with their places.
fn errors_found<'a>(
    alloc: Global,
    found: &'a Findings,
    policy: &Template,
) -> Result<Vec<Found<'a>>, AllocError> {
    let own = place_of(policy);
    let mut causes = Vec::new(alloc);
    for (error, environments) in found.errors.iter() {
        let place = error.source_loc().unwrap_or(own);
        let cause = Cause::Error(error, environments);
        causes.push(Found { place, cause })?;
    }
    Ok(causes)
}

/// Adds a cause that explains the refusal, if there is no other.
fn explain(
    mode: ValidationMode,
    policy: &Template,
    causes: &mut Vec<Found<'_>>,
) -> Result<(), AllocError>
    ensures { OnOk result (0 < length causes.new.items) }
{
    if causes.is_empty() {
        let place = place_of(policy);
        let cause = Cause::Unexplained(why_unexplained(mode));
        causes.push(Found { place, cause })?;
    }
    Ok(())
}

/// The likely reason for a refusal without an error.
fn why_unexplained(mode: ValidationMode) -> &'static str {
    match mode {
        ValidationMode::Partial => UNEXPLAINED,
        ValidationMode::Strict | ValidationMode::Permissive => NESTED,
    }
}
