// Sets to which members are added.
ghost use Rattle.std.specs.Prelude.{◌≤◌, length, OnOk};
ghost use Rattle.std.specs.HashSet.{spare};
ghost use Rattle.std.specs.Ordering.{eq_by_cmp};
ghost use Rattle.std.specs.Set.{IsUnion};

use std::alloc::AllocError;
use std::collections::{BTreeSet, HashSet};
use std::hash::Hash;

/// Adds each of these to the set.
pub(crate) fn insert_all<E: Ord + Drop>(
    set: &mut BTreeSet<E>,
    found: Vec<E>,
) -> Result<(), AllocError>
    ensures { OnOk result (
        IsUnion (eq_by_cmp E.cmp) set.old.keys found.items set.new.keys) }
{
    for x in found {
        set.insert(x)?;
    }
    Ok(())
}

/// Adds each of these to a set that has room for them, so that it takes no memory.
pub(crate) fn put_all<E: Ord + Hash + Drop>(set: &mut HashSet<E>, found: BTreeSet<E>)
    requires { length found.keys ≤ spare set.old }
    ensures { IsUnion E.eq set.old.keys found.keys set.new.keys }
{
    for x in found {
        let _is_new = set.insert(x).unwrap();
    }
}
