//! Fixes: changes of a policy's text that mend a finding. Each is tried before it is offered.

use crate::checks::{CheckedPolicy, check_policy, place_of};
use crate::spots::spot_at;
use crate::tokens::{is_in_word, token_from};
use cedar_findings::codes::Code;
use cedar_findings::findings::Finding;
use cedar_types::base::{ArgumentCheck, Loc};
use cedar_verdicts::settings::Settings;
use std::alloc::{AllocError, Global};

/// The words of a hint around a name that was perhaps meant.
const MEANT: (&str, &str) = ("did you mean `", "`?");

/// The words of a hint around a test and the access that it guards.
const GUARDED: (&str, &str) = ("`has` may guard it, as in `", "`");

/// A change of a policy's text that mends a finding: the new text, and the place of the policy that it replaces.
#[derive(Drop)]
pub struct Fix {
    pub title: String,
    pub place: Loc,
    pub text: String,
}

/// The fix of a finding of a policy, if one is known. It was tried: the changed policy has fewer findings. If memory is
/// refused, the answer is an `AllocError`.
pub fn fix_of<C: ArgumentCheck>(
    alloc: Global,
    settings: &Settings<'_, C>,
    policy: &CheckedPolicy,
    finding: &Finding,
) -> Result<Option<Fix>, AllocError> {
    let Some(fix) = suggested(alloc, policy, finding)? else {
        return Ok(None);
    };
    if !mends(alloc, settings, policy, &fix)? {
        return Ok(None);
    }
    Ok(Some(fix))
}

/// The change that the hint of a finding suggests, if it suggests one.
fn suggested(
    alloc: Global,
    policy: &CheckedPolicy,
    finding: &Finding,
) -> Result<Option<Fix>, AllocError> {
    let hint = finding.hint.as_str();
    let place = place_of(finding);
    if let Some(name) = between(hint, MEANT.0, MEANT.1) {
        let place = match finding.code {
            Code::UnknownAttribute => name_in(policy.text.as_str(), place),
            _ => place,
        };
        return Ok(Some(Fix {
            title: format!(in alloc; "Write `{name}`")?,
            place,
            text: String::from_str(alloc, name)?,
        }));
    }
    match between(hint, GUARDED.0, GUARDED.1) {
        Some(guarded) if finding.code == Code::UnguardedAttribute => {
            guard(alloc, policy, place, guarded)
        }
        _ => Ok(None),
    }
}

/// The part of a text between a beginning and an end, if the text has both.
fn between<'a>(text: &'a str, front: &str, behind: &str) -> Option<&'a str> {
    text.strip_prefix(front)?.strip_suffix(behind)
}

/// The place of the name in an access: of its last word, or of the text between the quotes of `["name"]`.
fn name_in(text: &str, access: Loc) -> Loc {
    let part = text.get(access.start..access.end).unwrap_or("");
    let indexed = part.strip_suffix("\"]").unwrap_or("");
    match indexed.rsplit_once('"') {
        Some((front, _)) => Loc {
            start: access.start.saturating_add(front.len()).saturating_add(1),
            end: access.start.saturating_add(indexed.len()),
        },
        None => Loc {
            start: access
                .start
                .saturating_add(part.trim_end_matches(is_in_word).len()),
            end: access.end,
        },
    }
}

/// The byte at which a test of an operand may stand. The operand of `unless { e }` begins with that word, because it is `!e`, so
/// the test stands before `e`.
fn front_of(text: &str, operand: Loc) -> usize {
    let word = token_from(text, operand.start);
    if !word.is("unless") {
        return operand.start;
    }
    let brace = token_from(text, word.place.end);
    token_from(text, brace.place.end).place.start
}

/// The change that puts a test before the operand of `&&`, `||` or `if` in which the access stands.
fn guard(
    alloc: Global,
    policy: &CheckedPolicy,
    access: Loc,
    guarded: &str,
) -> Result<Option<Fix>, AllocError> {
    let Some((test, _)) = guarded.rsplit_once(" && ") else {
        return Ok(None);
    };
    let Some(condition) = &policy.template.non_scope_constraints else {
        return Ok(None);
    };
    let last = access.end.saturating_sub(1);
    let Some(spot) = spot_at(alloc, condition, last)? else {
        return Ok(None);
    };
    let Some(operand) = spot.operand.loc else {
        return Ok(None);
    };
    let start = front_of(policy.text.as_str(), operand);
    Ok(Some(Fix {
        title: format!(in alloc; "Test `{test}` before it")?,
        place: Loc { start, end: start },
        text: format!(in alloc; "{test} && ")?,
    }))
}

/// Whether a policy has fewer findings after a change.
fn mends<C: ArgumentCheck>(
    alloc: Global,
    settings: &Settings<'_, C>,
    policy: &CheckedPolicy,
    fix: &Fix,
) -> Result<bool, AllocError> {
    let text = policy.text.as_str();
    let front = text.get(..fix.place.start).unwrap_or("");
    let behind = text.get(fix.place.end..).unwrap_or("");
    let own = fix.text.as_str();
    let changed = format!(in alloc; "{front}{own}{behind}")?;
    match check_policy(alloc, settings, changed.as_str())? {
        Some(mended) => Ok(mended.finding_count() < policy.finding_count()),
        None => Ok(false),
    }
}
