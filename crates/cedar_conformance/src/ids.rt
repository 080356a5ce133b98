// Sets of entity ids, as vectors in ascending order.
ghost use Rattle.std.specs.Prelude.{◌≡◌, [], length, IsTrue, OnOk, OnErr};
ghost use Rattle.std.specs.List.{AllByRecursion};
ghost use Rattle.std.specs.List.Sorted.{IsStrictlySortedBy};
ghost use Rattle.std.specs.declared.cmp.Ordering.TheVariants.{Less};
ghost use Rattle.cedar_types.specs.Names.{uid_of};
ghost use Rattle.cedar_types.specs.Names.Comparisons.{entity_uid_cmp};
ghost use Rattle.cedar_types.specs.Schemas.{uid_is_among};
ghost use Rattle.cedar_conformance.specs.Ids.{AddsId, ids_of, shared_cmp, shared_id};
ghost use Rattle.cedar_conformance.specs.StoreTests.{are_no_ids};

use cedar_types::base::EntityUID;
use std::alloc::{AllocError, Global};
use std::cmp::Ordering;
use std::marker::Model;
use std::rc::Rc;

/// A set of entity ids: a vector in ascending order without repeats. Sets share an id that they
/// have in common, so that each of them uses only the size of a pointer for it.
#[derive(Debug, Drop)]
pub struct Ids {
    ids: Vec<Rc<EntityUID>>,
}

// A set is the list of its ids in contracts.
impl Model for Ids {
    ghost use Rattle.std.specs.Prelude.{List};
    ghost use Rattle.std.specs.List.Sorted.{IsStrictlySortedBy};
    ghost use Rattle.std.specs.declared.alloc.Global.{Global};
    ghost use Rattle.std.specs.declared.rc.Rc.{Rc};
    ghost use Rattle.cedar_types.specs.declared.base.names.entities.EntityUID.{EntityUID};
    ghost use Rattle.cedar_conformance.specs.Ids.{shared_cmp};

    ghost Value = { List (Rc EntityUID Global) };

    ghost view = { λ s. s.ids.items };

    ghost invariant = { λ s. IsStrictlySortedBy shared_cmp s.ids.items };
}

impl Ids {
    /// Makes the empty set. It allocates no memory.
    pub fn new(alloc: Global) -> Ids
        ensures { ids_of result ≡ [] }
    {
        Ids {
            ids: Vec::new(alloc),
        }
    }

    /// Returns the number of ids.
    pub fn len(&self) -> usize
        ensures { result ≡ length self.now }
    {
        self.ids.len()
    }

    /// Returns whether the set has no ids.
    pub fn is_empty(&self) -> bool
        ensures { result ≡ are_no_ids (ids_of self.now) }
    {
        self.ids.is_empty()
    }

    /// Returns whether the set has this id, by a binary search.
    pub fn contains(&self, id: &EntityUID) -> bool
        ensures { result ≡ uid_is_among (ids_of self.now) (uid_of id.now) }
    {
        self.ids.binary_search_by(|own| compare(own, id)).is_ok()
    }

    /// Returns the ids, in ascending order.
    pub fn as_slice(&self) -> &[Rc<EntityUID>]
        ensures { result.now ≡ self.now }
    {
        &self.ids
    }

    /// Makes room for `more` further ids. If memory is refused, the answer is an `AllocError`, and
    /// the set is unchanged.
    pub fn reserve(&mut self, more: usize) -> Result<(), AllocError>
        ensures { self.new ≡ self.old }
    {
        self.ids.reserve_exact(more)
    }

    /// Adds an id. If memory is refused, the answer is an `AllocError`, and the set is unchanged.
    pub fn insert(&mut self, id: EntityUID) -> Result<(), AllocError>
        ensures added { OnOk result (AddsId (ids_of self.old) (uid_of id) (ids_of self.new)) }
        ensures kept { OnErr result (self.new ≡ self.old) }
    {
        let shared = Rc::new(*self.ids.allocator(), id)?;
        self.share(shared)
    }

    /// Adds an id that other sets may have. An id above all ids of the set costs one comparison. If
    /// memory is refused, the answer is an `AllocError`, and the set is unchanged.
    pub fn share(&mut self, id: Rc<EntityUID>) -> Result<(), AllocError>
        ensures added { OnOk result (AddsId (ids_of self.old) (shared_id id) (ids_of self.new)) }
        ensures kept { OnErr result (self.new ≡ self.old) }
    {
        add_id(&mut self.ids, id)
    }
}

/// Puts an id in its place, unless it is there. If memory is refused, nothing changes.
fn add_id(ids: &mut Vec<Rc<EntityUID>>, id: Rc<EntityUID>) -> Result<(), AllocError>
    requires { IsStrictlySortedBy shared_cmp ids.old.items }
    ensures ascending { IsStrictlySortedBy shared_cmp ids.new.items }
    ensures added { OnOk result
        (AddsId (ids_of ids.old.items) (shared_id id) (ids_of ids.new.items)) }
    ensures kept { OnErr result (ids.new.items ≡ ids.old.items) }
{
    if is_above_all(ids, &id) {
        ids.push(id)?;
        return Ok(());
    }
    match ids.binary_search(&id) {
        Ok(_) => Ok(()),
        Err(place) => {
            ids.insert(place, id)?;
            Ok(())
        }
    }
}

/// Returns the order of a shared id and another id.
fn compare(own: &Rc<EntityUID>, id: &EntityUID) -> Ordering
    ensures { result ≡ entity_uid_cmp own.now.value id.now }
{
    (**own).cmp(id)
}

/// Returns whether an id is above all of these.
fn is_above_all(ids: &[Rc<EntityUID>], id: &Rc<EntityUID>) -> bool
    requires { IsStrictlySortedBy shared_cmp ids.now }
    ensures { IsTrue result → AllByRecursion (λ own. shared_cmp own id.now ≡ Less) ids.now }
{
    match ids.split_last() {
        Some((last, _rest)) => last.cmp(id).is_lt(),
        None => true,
    }
}
