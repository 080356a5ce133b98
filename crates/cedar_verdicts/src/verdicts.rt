//! Verdicts on single policies.
ghost use Rattle.std.specs.Prelude.{false, is_some, IfOk};
ghost use Rattle.cedar_types.specs.Templates.{template_of};
ghost use Rattle.cedar_verdicts.specs.Verdicts.{basis_of, IsRightVerdict, IsWholeVerdict};

use crate::errors::error_causes;
use crate::found::find;
use crate::requirements::requirement;
use crate::settings::Settings;
use crate::warnings::{find_false_parts, warning_causes};
use crate::wording::{About, first_findings};
use cedar_findings::findings::Verdict;
use cedar_findings::marks::{Marked, marked_parts};
use cedar_findings::search_room::SearchRoom;
use cedar_reading::Position;
use cedar_types::base::{ArgumentCheck, Template};
use std::alloc::{AllocError, Global};

/// The number of findings of a policy that are put into words.
const MAX_FINDINGS: usize = 100;

/// The verdict on a policy alone; its hints take their examples from this text. A policy that is
/// accepted in Strict or in Permissive does not go wrong, and needs the slice of the level alone,
/// if one is asked for; a level that the verdict names is the required one, and a policy that it
/// calls impossible is never true (clause `right`). The policy is accepted exactly if its checks,
/// its names, its levels and the texts of its calls have no error, and an error is listed exactly
/// if it is refused. If it is impossible, a warning says so, unless the schema lacks a name in it
/// or a finding is not listed (clause `whole`). If memory is refused, the answer is an `AllocError`.
pub fn judge<C: ArgumentCheck>(
    alloc: Global,
    settings: &Settings<'_, C>,
    text: &str,
    policy: &Template,
) -> Result<Verdict, AllocError>
    ensures right { IfOk result (IsRightVerdict (basis_of C.refusal settings.now)
        settings.now.level (template_of policy.now)) }
    ensures whole { IfOk result (IsWholeVerdict (basis_of C.refusal settings.now)
        settings.now.level (template_of policy.now) false) }
{
    let marks = marked_parts(alloc, policy)?;
    let mut room = SearchRoom::new();
    let verdict = judge_in_set(
        alloc,
        settings,
        text,
        policy,
        marks.as_slice(),
        None,
        &mut room,
    )?;
    Ok(verdict)
}

/// The verdict on a policy of a set, in which these texts have marks of direction. The policy is
/// refused if an earlier one of the set has its id, at this position of the text. Near names are
/// searched for in the room of the set.
pub(crate) fn judge_in_set<C: ArgumentCheck>(
    alloc: Global,
    settings: &Settings<'_, C>,
    text: &str,
    policy: &Template,
    marks: &[Marked],
    same_id: Option<Position>,
    room: &mut SearchRoom,
) -> Result<Verdict, AllocError>
    ensures right { IfOk result (IsRightVerdict (basis_of C.refusal settings.now)
        settings.now.level (template_of policy.now)) }
    ensures whole { IfOk result (IsWholeVerdict (basis_of C.refusal settings.now)
        settings.now.level (template_of policy.now) (is_some same_id)) }
{
    let found = find(alloc, settings, policy)?;
    let about = About {
        schema: settings.validator.schema(),
        policy,
        text,
        applicable: found.applicable_environments,
    };
    let causes = error_causes(alloc, settings.mode, &found, policy, same_id)?;
    let errors = first_findings(alloc, about, causes, MAX_FINDINGS, room)?;
    let most = MAX_FINDINGS.saturating_sub(errors.listed.len());
    let parts = find_false_parts(alloc, settings, &found, policy, room)?;
    let slips = warning_causes(alloc, &found, parts.as_slice(), marks, policy)?;
    let warning_count = slips.len() as u64;
    let warnings = first_findings(alloc, about, slips, most, room)?;
    let others = errors.others.saturating_add(warnings.others);
    let requirement = requirement(alloc, settings, policy, &found)?;
    Ok(Verdict {
        is_accepted: found.is_accepted & same_id.is_none(),
        requirement,
        errors: errors.listed,
        warnings: warnings.listed,
        others,
        warning_count,
    })
}
