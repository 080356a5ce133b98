// Vectors in strictly ascending order, as sets. The functions know only how two entries compare.
ghost use Rattle.std.specs.Prelude.{◌≡◌, [], IfOk, OnOk, OnErr, MatchOption};
ghost use Rattle.std.specs.List.{list_any};
ghost use Rattle.std.specs.List.Sorted.{IsStrictlySortedBy};
ghost use Rattle.std.specs.Ordering.{is_eq};
ghost use Rattle.std.specs.declared.cmp.Ordering.TheVariants.{Equal};
ghost use Rattle.cedar_types.specs.Capability.Entries.{IsFirst, HasEither, HasBoth, HasOneMore, HasSame};

use std::alloc::{AllocError, Global};
use std::cmp::Ordering;
use std::collections::{BTreeSet, VecDeque};

/// An entry of a sorted vector: a value that is ordered and can be copied.
pub trait Entry: Ord {
    /// A copy, which the order does not tell apart from the entry.
    fn copy(&self, alloc: Global) -> Result<Self, AllocError>
    where
        Self: Sized,
        ensures { IfOk result (λ c. Self.cmp c self.now ≡ Equal) };
}

/// Whether `entry` is in the list, by a binary search.
pub(crate) fn has_entry<T: Ord>(entries: &[T], entry: &T) -> bool
    requires { IsStrictlySortedBy T.cmp entries.now }
    ensures { result ≡ list_any (λ e. is_eq (T.cmp entry.now e)) entries.now }
{
    entries.binary_search(entry).is_ok()
}

/// Inserts `entry` at its place, unless it is in the list. If memory is refused, the list stays as
/// it was.
pub(crate) fn add_entry<T: Ord + Drop>(entries: &mut Vec<T>, entry: T) -> Result<(), AllocError>
    requires { IsStrictlySortedBy T.cmp entries.old.items }
    ensures ascending { IsStrictlySortedBy T.cmp entries.new.items }
    ensures added { OnOk result (HasOneMore T.cmp entries.old.items entry entries.new.items) }
    ensures kept { OnErr result (entries.new.items ≡ entries.old.items) }
{
    match entries.binary_search(&entry) {
        Ok(_) => Ok(()),
        Err(place) => {
            entries.insert(place, entry)?;
            Ok(())
        }
    }
}

/// The smaller of the two first entries, and the rest of each list; `None` if both lists are empty.
/// If the first entries are equal, both lists lose theirs.
fn first_of_either<'a, T: Ord>(left: &'a [T], right: &'a [T]) -> Option<(&'a T, &'a [T], &'a [T])>
    ensures { MatchOption result
        ((left.now ≡ []) × (right.now ≡ []))
        (λ r. IsFirst T.cmp left.now right.now r.0.now r.1.now r.2.now) }
{
    match (left.split_first(), right.split_first()) {
        (None, None) => None,
        (Some((x, xs)), None) => Some((x, xs, right)),
        (None, Some((y, ys))) => Some((y, left, ys)),
        (Some((x, xs)), Some((y, ys))) => match x.cmp(y) {
            Ordering::Less => Some((x, xs, right)),
            Ordering::Equal => Some((x, xs, ys)),
            Ordering::Greater => Some((y, left, ys)),
        },
    }
}

/// The entries of either list, as copies. One walk goes over both.
pub(crate) fn either_of<T: Entry + Drop>(
    alloc: Global,
    left: &[T],
    right: &[T],
) -> Result<Vec<T>, AllocError>
    requires left { IsStrictlySortedBy T.cmp left.now }
    requires right { IsStrictlySortedBy T.cmp right.now }
    ensures ascending { IfOk result (λ v. IsStrictlySortedBy T.cmp v.items) }
    ensures has { IfOk result (λ v. HasEither T.cmp left.now right.now v.items) }
{
    let mut all = Vec::with_capacity(alloc, left.len().saturating_add(right.len()))?;
    let mut xs = left;
    let mut ys = right;
    while let Some((entry, more_xs, more_ys)) = first_of_either(xs, ys) {
        all.push(entry.copy(alloc)?)?;
        xs = more_xs;
        ys = more_ys;
    }
    Ok(all)
}

/// Takes the smaller of the two first entries; `None` if both lists are empty. If the first entries
/// are equal, both lists lose theirs.
fn take_first<T: Ord + Drop>(left: &mut VecDeque<T>, right: &mut VecDeque<T>) -> Option<T>
    ensures { MatchOption result
        ((left.old.items ≡ []) × (right.old.items ≡ []))
        (λ x. IsFirst T.cmp left.old.items right.old.items x left.new.items right.new.items) }
{
    match (left.front(), right.front()) {
        (None, _) => right.pop_front(),
        (Some(_), None) => left.pop_front(),
        (Some(x), Some(y)) => match x.cmp(y) {
            Ordering::Less => left.pop_front(),
            Ordering::Equal => {
                drop(right.pop_front());
                left.pop_front()
            }
            Ordering::Greater => right.pop_front(),
        },
    }
}

/// The entries of either list, moved without a copy. One walk goes over both.
pub(crate) fn merged<T: Entry + Drop>(left: Vec<T>, right: Vec<T>) -> Result<Vec<T>, AllocError>
    requires left { IsStrictlySortedBy T.cmp left.items }
    requires right { IsStrictlySortedBy T.cmp right.items }
    ensures ascending { IfOk result (λ v. IsStrictlySortedBy T.cmp v.items) }
    ensures has { IfOk result (λ v. HasEither T.cmp left.items right.items v.items) }
{
    let size = left.len().saturating_add(right.len());
    let mut all = Vec::with_capacity(*left.allocator(), size)?;
    let mut xs = VecDeque::from_vec(left);
    let mut ys = VecDeque::from_vec(right);
    while let Some(entry) = take_first(&mut xs, &mut ys) {
        all.push(entry)?;
    }
    Ok(all)
}

/// The entries that both lists have, as copies. One walk goes over both.
pub(crate) fn both_of<T: Entry + Drop>(
    alloc: Global,
    left: &[T],
    right: &[T],
) -> Result<Vec<T>, AllocError>
    requires left { IsStrictlySortedBy T.cmp left.now }
    requires right { IsStrictlySortedBy T.cmp right.now }
    ensures ascending { IfOk result (λ v. IsStrictlySortedBy T.cmp v.items) }
    ensures has { IfOk result (λ v. HasBoth T.cmp left.now right.now v.items) }
{
    let mut common = Vec::with_capacity(alloc, left.len().min(right.len()))?;
    let mut xs = left;
    let mut ys = right;
    while let (Some((x, more_xs)), Some((y, more_ys))) = (xs.split_first(), ys.split_first()) {
        match x.cmp(y) {
            Ordering::Less => xs = more_xs,
            Ordering::Equal => {
                common.push(x.copy(alloc)?)?;
                xs = more_xs;
                ys = more_ys;
            }
            Ordering::Greater => ys = more_ys,
        }
    }
    Ok(common)
}

/// The entries of an ordered set.
pub(crate) fn listed<T: Ord + Drop>(
    alloc: Global,
    ordered: BTreeSet<T>,
) -> Result<Vec<T>, AllocError>
    ensures ascending { IfOk result (λ v. IsStrictlySortedBy T.cmp v.items) }
    ensures all { IfOk result (λ v. v.items ≡ ordered.keys) }
{
    let mut entries = Vec::with_capacity(alloc, ordered.len())?;
    for entry in ordered {
        entries.push(entry)?;
    }
    Ok(entries)
}

/// A copy of a list.
pub(crate) fn copied<T: Entry + Drop>(alloc: Global, entries: &[T]) -> Result<Vec<T>, AllocError>
    requires { IsStrictlySortedBy T.cmp entries.now }
    ensures ascending { IfOk result (λ v. IsStrictlySortedBy T.cmp v.items) }
    ensures has { IfOk result (λ v. HasSame T.cmp entries.now v.items) }
{
    either_of(alloc, entries, &[])
}
