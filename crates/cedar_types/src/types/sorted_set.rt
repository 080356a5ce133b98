//! Sets as sorted vectors.
ghost use Rattle.std.specs.Prelude.{◌≡◌, [], IfOk, OnOk, OnErr};
ghost use Rattle.std.specs.List.{list_any};
ghost use Rattle.std.specs.Ordering.{is_eq};
ghost use Rattle.cedar_types.specs.Capability.Entries.{HasEither, HasBoth, HasOneMore, HasSame};

pub use crate::types::entries::Entry;
use crate::types::entries::{add_entry, both_of, copied, either_of, has_entry, listed, merged};
use std::alloc::{AllocError, Global};
use std::collections::BTreeSet;
use std::marker::Model;

/// The ratio of sizes from which a set is much larger: from there on, a binary search for each
/// entry of the smaller set is cheaper than a merge.
const MERGE_RATIO: usize = 8;

/// The largest number of entries to insert one after another: each insertion moves the entries
/// above it.
const FEW: usize = 64;

/// A set: a vector in ascending order without repeats. Two entries are one if their order says that
/// they are equal.
#[derive(Drop, Debug)]
pub struct SortedSet<T: Entry> {
    entries: Vec<T>,
}

// A contract sees a set as the list of its entries.
impl<T: Entry> Model for SortedSet<T> {
    ghost use Rattle.std.specs.Prelude.{List};
    ghost use Rattle.std.specs.List.Sorted.{IsStrictlySortedBy};

    ghost Value = { List T };

    ghost view = { λ s. s.entries.items };

    ghost invariant = { λ s. IsStrictlySortedBy T.cmp s.entries.items };
}

impl<T: Entry + Drop> SortedSet<T> {
    /// The empty set. It takes no memory.
    pub fn new(alloc: Global) -> SortedSet<T>
        ensures { result ≡ [] }
    {
        SortedSet {
            entries: Vec::new(alloc),
        }
    }

    /// The set of the entries of `ordered`, without a copy. If memory is refused, the answer is an
    /// `AllocError`.
    pub fn from_ordered(alloc: Global, ordered: BTreeSet<T>) -> Result<SortedSet<T>, AllocError>
        ensures { IfOk result (λ r. r ≡ ordered.keys) }
    {
        let entries = listed(alloc, ordered)?;
        Ok(SortedSet { entries })
    }

    /// Whether `entry` is in the set, by a binary search.
    pub fn contains(&self, entry: &T) -> bool
        ensures { result ≡ list_any (λ e. is_eq (T.cmp entry.now e)) self.now }
    {
        has_entry(&self.entries, entry)
    }

    /// The entries, in ascending order.
    pub fn as_slice(&self) -> &[T]
        ensures { result.now ≡ self.now }
    {
        &self.entries
    }

    /// Adds an entry. If memory is refused, the answer is an `AllocError`, and the set stays as it
    /// was.
    pub fn insert(&mut self, entry: T) -> Result<(), AllocError>
        ensures added { OnOk result (HasOneMore T.cmp self.old entry self.new) }
        ensures kept { OnErr result (self.new ≡ self.old) }
    {
        add_entry(&mut self.entries, entry)
    }

    /// A copy of the set. If memory is refused, the answer is an `AllocError`.
    pub fn try_clone(&self, alloc: Global) -> Result<SortedSet<T>, AllocError>
        ensures { IfOk result (λ r. HasSame T.cmp self.now r) }
    {
        let entries = copied(alloc, &self.entries)?;
        Ok(SortedSet { entries })
    }

    /// The entries of either set, as copies, by one walk over both. If memory is refused, the
    /// answer is an `AllocError`.
    pub fn union(&self, alloc: Global, other: &SortedSet<T>) -> Result<SortedSet<T>, AllocError>
        ensures { IfOk result (λ r. HasEither T.cmp self.now other.now r) }
    {
        let entries = either_of(alloc, &self.entries, &other.entries)?;
        Ok(SortedSet { entries })
    }

    /// The entries of either set, without a copy: the call consumes both. If one set has few
    /// entries and is much smaller, each of its entries is inserted into the other; else one walk
    /// goes over both. If memory is refused, the answer is an `AllocError`.
    pub fn join(self, other: SortedSet<T>) -> Result<SortedSet<T>, AllocError>
        ensures { IfOk result (λ r. HasEither T.cmp self other r) }
    {
        if other.entries.is_empty() {
            Ok(self)
        } else if self.entries.is_empty() {
            Ok(other)
        } else if self.entries.len() < other.entries.len() {
            other.with_fewer(self)
        } else {
            self.with_fewer(other)
        }
    }

    fn with_fewer(self, other: SortedSet<T>) -> Result<SortedSet<T>, AllocError>
        ensures { IfOk result (λ r. HasEither T.cmp self other r) }
    {
        if other.entries.len() <= FEW && other.entries.len() <= self.entries.len() / MERGE_RATIO {
            return self.with_all(other);
        }
        let entries = merged(self.entries, other.entries)?;
        Ok(SortedSet { entries })
    }

    fn with_all(self, other: SortedSet<T>) -> Result<SortedSet<T>, AllocError>
        ensures { IfOk result (λ r. HasEither T.cmp self other r) }
    {
        let mut all = self;
        for entry in other.entries {
            all.insert(entry)?;
        }
        Ok(all)
    }

    /// The entries that both sets have, as copies, by one walk over both. If memory is refused, the
    /// answer is an `AllocError`.
    pub fn intersect(&self, alloc: Global, other: &SortedSet<T>) -> Result<SortedSet<T>, AllocError>
        ensures { IfOk result (λ r. HasBoth T.cmp self.now other.now r) }
    {
        let entries = both_of(alloc, &self.entries, &other.entries)?;
        Ok(SortedSet { entries })
    }
}
