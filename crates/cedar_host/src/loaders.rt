//! Loading of the entities of a slice, for a host that asks a database or files of its own: it goes in rounds, and the host
//! hands in the entries.
ghost use Rattle.std.specs.Prelude.{◌≡◌, ◌-◌, false, IfOk, OnOk, map, [], ℕ};
ghost use Rattle.std.specs.List.{flat_map};
ghost use Rattle.cedar_types.specs.Names.{Uid, uid_eq, uid_of};
ghost use Rattle.cedar_types.specs.Values.Stores.{entity_at};
ghost use Rattle.cedar_typing.specs.Evaluation.Conformance.{IsOneOf};
ghost use Rattle.cedar_conformance.specs.declared.requests.Request.{Request};
ghost use Rattle.cedar_conformance.specs.Entities.{store_of};
ghost use Rattle.cedar_host.specs.Loaders.{HoldsSliceOf, IsLoaderOf, held_in, left_of, wanted_of};

use crate::held::{ids_in_entity, ids_in_request};
use crate::loading::append;
use crate::rounds::Rounds;
use cedar_conformance::entities::{Entities, Entity};
use cedar_conformance::requests::Request;
use cedar_types::base::EntityUID;
use std::alloc::{AllocError, Global};
use std::collections::BTreeSet;

/// Rounds that keep the entries that are handed in, and follow the ids inside them.
#[derive(Debug, Drop)]
pub struct Loader {
    rounds: Rounds,
    entities: Entities,
}

/// The entities that a host loaded for a slice.
#[derive(Debug, Drop)]
pub struct Loaded {
    /// The ids that were asked for.
    pub ids: BTreeSet<EntityUID>,
    /// The entries that were handed in for these ids.
    pub entities: Entities,
}

impl Loader {
    /// The first round of a slice of `steps` steps, of a request. A slice of no steps wants no entries. If memory is refused,
    /// the answer is an `AllocError`.
    pub fn begin(alloc: Global, request: &Request, steps: u32) -> Result<Loader, AllocError>
        ensures begun { IfOk result (λ loader. IsLoaderOf request.now steps loader) }
        ensures left { IfOk result (λ loader. left_of loader ≡ steps - 1) }
        ensures none { IfOk result (λ loader. steps ≡ 0 → wanted_of loader ≡ []) }
    {
        let start = ids_in_request(alloc, request)?;
        let rounds = Rounds::begin(alloc, &start, steps)?;
        let entities = Entities::new(alloc);
        Ok(Loader { rounds, entities })
    }

    /// The ids whose entries you must hand in now: none twice, and none that an earlier round had. At the end there are none.
    pub fn wanted(&self) -> &[EntityUID]
        ensures { map uid_of result.now ≡ wanted_of self.now }
    {
        self.rounds.wanted()
    }

    /// The next round, with the entry of each wanted id, in their order. You must hand in `None` for an id if the store has no
    /// such entity; entries that are missing at the end count as `None`. There are at most as many rounds as steps. If memory
    /// is refused, the answer is an `AllocError`, and the loader is gone.
    pub fn hand_in(self, alloc: Global, entries: Vec<Option<Entity>>) -> Result<Loader, AllocError>
        ensures goes_on { IfOk result (λ next. (request : Request) (steps : ℕ)
            → IsLoaderOf request steps self → IsLoaderOf request steps next) }
        ensures left { IfOk result (λ next. left_of next ≡ left_of self - 1) }
        ensures ends { IfOk result (λ next. left_of self ≡ 0 → wanted_of next ≡ []) }
    {
        let Loader { rounds, entities } = self;
        let mut entities = entities;
        add_in_order(&mut entities, rounds.wanted(), entries)?;
        let held = held_by(alloc, &entities, rounds.wanted())?;
        let rounds = rounds.hand_in(alloc, &held)?;
        Ok(Loader { rounds, entities })
    }

    /// The loaded entities. If no id is wanted now, they have the slice of the request, for each store that agrees with the
    /// entries that were handed in for the ids that were asked for (clause `slices`).
    pub fn finish(self) -> Loaded
        ensures slices { wanted_of self ≡ [] → (request : Request) (steps : ℕ)
            → IsLoaderOf request steps self → HoldsSliceOf request steps result }
    {
        let Loader { rounds, entities } = self;
        Loaded {
            ids: rounds.into_ids(),
            entities,
        }
    }
}

/// Adds the entries of these ids, in their order.
fn add_in_order(
    entities: &mut Entities,
    ids: &[EntityUID],
    entries: Vec<Option<Entity>>,
) -> Result<(), AllocError>
    ensures { OnOk result ((u : Uid) → (IsOneOf u (map uid_of ids.now) → ⊥)
        → entity_at (store_of entities.new) u ≡ entity_at (store_of entities.old) u) }
{
    let mut entries = entries.into_iter();
    for id in ids {
        let entry = entries.next().flatten();
        add_entry(entities, id, entry)?;
    }
    Ok(())
}

/// Adds the entry of this id, if there is one.
fn add_entry(
    entities: &mut Entities,
    id: &EntityUID,
    entry: Option<Entity>,
) -> Result<(), AllocError>
    ensures { OnOk result ((u : Uid) → uid_eq u (uid_of id.now) ≡ false
        → entity_at (store_of entities.new) u ≡ entity_at (store_of entities.old) u) }
{
    match entry {
        Some(entity) => {
            entities.add(id.clone()?, entity)?;
            Ok(())
        }
        None => Ok(()),
    }
}

/// The ids inside the entities of these ids, all together.
fn held_by(
    alloc: Global,
    entities: &Entities,
    ids: &[EntityUID],
) -> Result<Vec<EntityUID>, AllocError>
    ensures { IfOk result (λ held. map uid_of held.items
        ≡ flat_map (held_in (store_of entities.now)) (map uid_of ids.now)) }
{
    let mut all = Vec::new(alloc);
    for id in ids {
        let held = held_at(alloc, entities, id)?;
        append(&mut all, held)?;
    }
    Ok(all)
}

/// The ids inside the entity of this id.
fn held_at(alloc: Global, entities: &Entities, id: &EntityUID) -> Result<Vec<EntityUID>, AllocError>
    ensures { IfOk result (λ held.
        map uid_of held.items ≡ held_in (store_of entities.now) (uid_of id.now)) }
{
    match entities.get(id) {
        Some(entity) => { ids_in_entity(alloc, entity) }
        None => Ok(Vec::new(alloc)),
    }
}
