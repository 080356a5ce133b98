// Changes of a text of policies: the policies that stay, and those that are read again.
ghost use Rattle.std.specs.Prelude.{◌≡◌, ◌+◌, ◌≤◌, ◌++◌, drop, length, map, slice_range, take, string_bytes, All, IfOk, IfSome, OnOk};
ghost use Rattle.cedar_editor.specs.Documents.{is_said_by, moved_policy, placed_policy, AllStandIn, AreRightlySaidBy, BeginsBehind, EndsBy};

use crate::checks::{CheckedPolicy, judged, unjudged};
use crate::documents::PlacedPolicy;
use crate::judges::Judge;
use crate::known::Known;
use crate::lines::moved;
use crate::readings::{Reading, is_read_alone, read_policy, reading_of};
use crate::tokens::behind_blanks;
use crate::windows::{Found, Window, window_of};
use cedar_reading::{FaultyPolicy, ReadPolicy};
use cedar_types::base::{ArgumentCheck, ExtensionSchemas, Loc};
use std::alloc::{AllocError, Global};
use std::rc::Rc;

/// The policies that a change touches: those from the number `first` up to `last`, which is not one of them, and the policies
/// that stand there now.
#[derive(Drop)]
pub struct Touched {
    pub first: usize,
    pub last: usize,
    pub found: Vec<Found>,
}

/// The policies of a text that a change touches, and those that stand there now. A policy with a fault right
/// before the change is read again too, because it ends at the byte at which the next one seems to begin. Reading goes on until
/// a policy ends at a byte at which an old one ended. The policies before them end before the change (clause `before`), and
/// those behind them begin behind it (clause `behind`).
pub fn read_touched(
    alloc: Global,
    old: &[PlacedPolicy],
    old_size: usize,
    text: &str,
    place: Loc,
    inserted: usize,
) -> Result<Touched, AllocError>
    ensures before { IfOk result (λ touched.
        All (EndsBy place.start) (take touched.first old.now)) }
    ensures behind { IfOk result (λ touched.
        All (BeginsBehind place.end) (drop touched.last old.now)) }
{
    let first = first_touched(old, place.start);
    let least = last_touched(old, place.end).max(first.saturating_add(1));
    let mut last = behind_fault(old, least);
    let start = behind_blanks(text, end_before(old, first));
    let mut step = 1usize;
    for _ in 0..old.len().saturating_add(1) {
        let old_end = if last < old.len() {
            end_before(old, last)
        } else {
            old_size
        };
        let end = moved(old_end, place.end, place.start.saturating_add(inserted));
        let Window { found, is_settled } = window_of(alloc, text, Loc { start, end })?;
        if is_settled {
            return Ok(Touched { first, last, found });
        }
        last = last.saturating_add(step);
        step = step.saturating_mul(2);
    }
    let whole = Loc {
        start,
        end: text.len(),
    };
    let Window { found, .. } = window_of(alloc, text, whole)?;
    Ok(Touched {
        first,
        last: old.len(),
        found,
    })
}

/// The number of the first policy that ends behind a byte, or of the first one with a fault right before it.
fn first_touched(old: &[PlacedPolicy], byte: usize) -> usize
    ensures { All (EndsBy byte) (take result old.now) }
{
    let mut first = 0;
    while first < old.len() && old[first].ends_by(byte) {
        first += 1;
    }
    while first > 0 && old[first - 1].policy.fault.is_some() {
        first -= 1;
    }
    first
}

/// The number of the first of the last policies that begin behind a byte.
fn last_touched(old: &[PlacedPolicy], byte: usize) -> usize
    ensures { All (BeginsBehind byte) (drop result old.now) }
{
    let mut last = old.len();
    while last > 0 && byte < old[last - 1].start {
        last -= 1;
    }
    last
}

/// The number of the first policy that is not read again: this one, or the next one if the policy before it has a fault, because
/// the fault most often outlasts the change, and the policy behind a fault is then read too.
fn behind_fault(old: &[PlacedPolicy], last: usize) -> usize
    ensures { last ≤ result }
{
    match last.checked_sub(1).and_then(|before| old.get(before)) {
        Some(placed) if placed.policy.fault.is_some() => last.saturating_add(1),
        _ => last,
    }
}

/// The byte at which the policy before this number ends; the beginning of the text if there is none.
fn end_before(old: &[PlacedPolicy], number: usize) -> usize {
    match number.checked_sub(1).and_then(|before| old.get(before)) {
        Some(placed) => placed.end(),
        None => 0,
    }
}

/// Adds the policies before this number.
pub fn keep_before(
    old: &[PlacedPolicy],
    first: usize,
    policies: &mut Vec<PlacedPolicy>,
) -> Result<(), AllocError>
    ensures { OnOk result (map placed_policy policies.new.items
        ≡ map placed_policy policies.old.items ++ map placed_policy (take first old.now)) }
{
    let kept = &old[..first.min(old.len())];
    for placed in kept {
        policies.push(PlacedPolicy {
            start: placed.start,
            policy: placed.policy.clone()?,
        })?;
    }
    Ok(())
}

/// Adds the policies from this number on, at their places after the change.
pub fn keep_after(
    old: &[PlacedPolicy],
    last: usize,
    old_end: usize,
    new_end: usize,
    policies: &mut Vec<PlacedPolicy>,
) -> Result<(), AllocError>
    ensures { OnOk result (map placed_policy policies.new.items
        ≡ map placed_policy policies.old.items ++ map (moved_policy old_end new_end)
        (drop last old.now)) }
{
    let kept = &old[last.min(old.len())..];
    for placed in kept {
        policies.push(PlacedPolicy {
            start: moved(placed.start, old_end, new_end),
            policy: placed.policy.clone()?,
        })?;
    }
    Ok(())
}

/// Adds policies that were found in a text, each where it stands (clause `placed`). A policy that has the text of a known one is
/// not judged again.
pub fn add_policies<C: ArgumentCheck>(
    alloc: Global,
    judge: &Judge<'_, C>,
    text: &str,
    found: Vec<Found>,
    known: &[PlacedPolicy],
    policies: &mut Vec<PlacedPolicy>,
) -> Result<(), AllocError>
    ensures right { OnOk result (AreRightlySaidBy C.refusal judge.now known.now
        → AreRightlySaidBy C.refusal judge.now policies.old.items
        → AreRightlySaidBy C.refusal judge.now policies.new.items) }
    ensures placed { OnOk result (AllStandIn text.now policies.old.items
        → AllStandIn text.now policies.new.items) }
{
    let by_text = Known::new(alloc, known, found.len())?;
    for Found { place, read } in found {
        let own = part_at(text, place);
        let Some(policy) = policy_of(alloc, judge, own, read, &by_text)? else {
            continue;
        };
        policies.push(PlacedPolicy {
            start: place.start,
            policy,
        })?;
    }
    Ok(())
}

/// The part of a text at a place; empty if the place is no part of it.
fn part_at(text: &str, place: Loc) -> &str
    ensures { slice_range text.now place.start (place.start + length result.now) ≡ result.now }
{
    text.get(place.start..place.end).unwrap_or("")
}

/// The policy of this text: a known policy with this text if there is one, else one that is judged, and read if it was not.
fn policy_of<C: ArgumentCheck>(
    alloc: Global,
    judge: &Judge<'_, C>,
    own: &str,
    read: Option<Result<ReadPolicy, FaultyPolicy>>,
    known: &Known<'_>,
) -> Result<Option<Rc<CheckedPolicy>>, AllocError>
    ensures right { IfOk result (λ found.
        AreRightlySaidBy C.refusal judge.now known.now.policies.now → IfSome found (λ policy. is_said_by C.refusal judge.now policy.value)) }
    ensures text { IfOk result (λ found. IfSome found (λ policy.
        string_bytes policy.value.text ≡ own.now)) }
{
    if let Some(placed) = known.with_text(own) {
        return Ok(Some(placed.policy.clone()?));
    }
    let Some(reading) = reading_in(alloc, judge.functions(), own, read)? else {
        return Ok(None);
    };
    let policy = match judge {
        Judge::Reading(_) => unjudged(alloc, own, reading)?,
        Judge::Settings(shared) => judged(alloc, &shared.settings(), own, reading)?,
    };
    Ok(Some(Rc::new(alloc, policy)?))
}

/// The reading of this text: as the policy was read, if it was read as alone, else anew.
fn reading_in<C>(
    alloc: Global,
    functions: &ExtensionSchemas<C>,
    own: &str,
    read: Option<Result<ReadPolicy, FaultyPolicy>>,
) -> Result<Option<Reading>, AllocError> {
    match read {
        Some(read) if is_read_alone(own, &read) => {
            Ok(Some(reading_of(alloc, functions, own, read)?))
        }
        _ => read_policy(alloc, functions, own),
    }
}
