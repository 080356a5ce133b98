//! Edits: changes of texts, as an editor sends them.
ghost use Rattle.std.specs.Prelude.{◌≡◌, ℕ, ◌+◌, ◌-◌, ◌≤◌, [], ◌∷◌, ◌++◌, Some, length, take, drop, slice_range, string_bytes, IfOk, IfSome, IsTrue, MatchOption};
ghost use Rattle.cedar_editor.specs.Edits.{AreEdited, IsChange, IsPart, IsSpliced};
ghost use Rattle.cedar_editor.specs.Lines.{line_starts, IsPositionOf};
ghost use Rattle.cedar_editor.specs.Units.{IsBoundary};

use crate::drafts::Draft;
use crate::lines::{Lines, Range};
use cedar_types::base::Loc;
use std::alloc::{AllocError, Global};

/// The number of bytes that are compared at once, where so many are left.
const BLOCK: usize = 2048;

/// A text that replaces a range, or the whole text if there is no range.
#[derive(Clone, Copy)]
pub struct Edit<'a> {
    pub range: Option<Range>,
    pub text: &'a str,
}

/// The text after these edits, each of which is applied to the result of those before it. If memory is refused, the answer is
/// an `AllocError`.
pub fn edited(alloc: Global, text: &str, edits: &[Edit<'_>]) -> Result<String, AllocError>
    ensures { IfOk result (λ new. AreEdited text.now edits.now (string_bytes new)) }
{
    let mut draft = Draft::new(alloc, text)?;
    for edit in edits {
        draft = draft.after(alloc, edit)?;
    }
    draft.text(alloc)
}

/// The range and the text of the only edit; none if there are several, or if it has no range.
pub(crate) fn only_edit<'a>(edits: &[Edit<'a>]) -> Option<(Range, &'a str)>
    ensures { IfSome result (λ only.
        edits.now ≡ record { range = Some only.0; text = only.1 } ∷ []) }
{
    if edits.len() != 1 {
        return None;
    }
    let edit = edits[0];
    Some((edit.range?, edit.text))
}

/// The place of a range in a text; empty if the range ends before it begins.
pub(crate) fn place_of(lines: &Lines, text: &str, range: Range) -> Loc
    ensures { (start end : ℕ) → start ≤ end → IsBoundary text.now start → IsBoundary text.now end
        → IsPositionOf lines.now.starts.items text.now start range.start
        → IsPositionOf lines.now.starts.items text.now end range.end
        → (result.start ≡ start) × (result.end ≡ end) }
{
    let start = lines.byte(text, range.start);
    let end = lines.byte(text, range.end).max(start);
    Loc { start, end }
}

/// The text before a place, and the text behind it; none if the place is no part of the text.
pub(crate) fn around(text: &str, place: Loc) -> Option<(&str, &str)>
    ensures { MatchOption result (IsPart text.now place → ⊥) (λ sides. IsPart text.now place
        × (sides.0.now ≡ take place.start text.now) × (sides.1.now ≡ drop place.end text.now)) }
{
    if place.end < place.start {
        return None;
    }
    let (front, _) = text.split_at_checked(place.start)?;
    let (_, behind) = text.split_at_checked(place.end)?;
    Some((front, behind))
}

/// The text with another text in place of one part; the text itself if the place is no part of it.
pub(crate) fn spliced(
    alloc: Global,
    text: &str,
    place: Loc,
    inserted: &str,
) -> Result<String, AllocError>
    ensures { IfOk result (λ new. IsSpliced text.now place inserted.now (string_bytes new)) }
{
    match around(text, place) {
        Some((front, behind)) => joined(alloc, front, inserted, behind),
        None => String::from_str(alloc, text),
    }
}

/// Three texts, one behind another.
pub(crate) fn joined(
    alloc: Global,
    front: &str,
    middle: &str,
    behind: &str,
) -> Result<String, AllocError>
    ensures { IfOk result (λ whole.
        string_bytes whole ≡ front.now ++ (middle.now ++ behind.now)) }
{
    let size = front
        .len()
        .saturating_add(middle.len())
        .saturating_add(behind.len());
    let mut whole = String::with_capacity(alloc, size)?;
    whole.push_str(front)?;
    whole.push_str(middle)?;
    whole.push_str(behind)?;
    Ok(whole)
}

/// The part of a text in which it differs from another one, and the number of bytes that stand there in the other one.
pub(crate) fn difference(old: &str, new: &str) -> (Loc, usize)
    ensures { IsChange old.now result.0 result.1 new.now }
{
    let start = shared_front(old, new);
    let most = old.len().min(new.len()) - start;
    let behind = shared_back(old, new, most);
    let place = Loc {
        start,
        end: old.len() - behind,
    };
    (place, new.len() - behind - start)
}

/// The number of bytes with which both texts begin.
fn shared_front(one: &str, two: &str) -> usize
    ensures in_one { result ≤ length one.now }
    ensures in_two { result ≤ length two.now }
    ensures shared { take result one.now ≡ take result two.now }
{
    let most = one.len().min(two.len());
    let mut at = 0;
    while BLOCK <= most - at && are_alike(one, two, at, at, BLOCK) {
        at += BLOCK;
    }
    let (one, two) = (one.as_bytes(), two.as_bytes());
    while at < most && one[at] == two[at] {
        at += 1;
    }
    at
}

/// The number of bytes with which both texts end, at most so many.
fn shared_back(one: &str, two: &str, most: usize) -> usize
    requires in_one { most ≤ length one.now }
    requires in_two { most ≤ length two.now }
    ensures few { result ≤ most }
    ensures shared { drop (length one.now - result) one.now
        ≡ drop (length two.now - result) two.now }
{
    let (first, second) = (one.len() - most, two.len() - most);
    let mut left = most;
    while BLOCK <= left
        && are_alike(
            one,
            two,
            first + (left - BLOCK),
            second + (left - BLOCK),
            BLOCK,
        )
    {
        left -= BLOCK;
    }
    let (one, two) = (one.as_bytes(), two.as_bytes());
    while 0 < left && one[first + left - 1] == two[second + left - 1] {
        left -= 1;
    }
    most - left
}

/// Whether so many bytes of two texts are alike, from a byte of each on. Parts that begin or end inside of a character are not
/// compared, and count as different. Texts are compared, because a comparison of slices takes ten times as long.
fn are_alike(one: &str, two: &str, first: usize, second: usize, size: usize) -> bool
    requires in_one { first + size ≤ length one.now }
    requires in_two { second + size ≤ length two.now }
    ensures { IsTrue result → slice_range one.now first (first + size)
        ≡ slice_range two.now second (second + size) }
{
    match (one.get(first..first + size), two.get(second..second + size)) {
        (Some(own), Some(other)) => own == other,
        _ => false,
    }
}
