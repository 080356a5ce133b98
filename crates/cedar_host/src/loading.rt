//! Ids of the entities of a slice, which a host finds entity by entity, in rounds.
ghost use Rattle.std.specs.Prelude.{◌≡◌, ◌++◌, IfOk, OnOk, map, List};
ghost use Rattle.std.specs.List.{flat_map};
ghost use Rattle.cedar_types.specs.Schemas.Declarations.{uids_of};
ghost use Rattle.cedar_types.specs.Names.{Uid, uid_of};
ghost use Rattle.cedar_types.specs.Values.Stores.{Store, entity_at};
ghost use Rattle.cedar_typechecker.specs.Slices.Reach.{ids_of};
ghost use Rattle.cedar_host.specs.Distinct.{AreDistinct};
ghost use Rattle.cedar_host.specs.Loading.{AreAmong, AreSame, AreNew, ids_below, LoadsSlices, AddsNew};

use cedar_types::base::EntityUID;
use std::alloc::{AllocError, Global};
use std::collections::BTreeSet;

/// The entities of a host.
pub trait Entities {
    // the store of these entities
    ghost store: { Self → Store };

    // the ids that the host answers for an id
    ghost answered: { Self → Uid → List Uid };

    /// The ids inside the attributes and the tags of this entity, at any depth and in any order; none, if there is no such
    /// entity. An answer may have more ids, and the ids that these hold are then found too. If memory is refused, the answer is
    /// an `AllocError`.
    fn held(&self, alloc: Global, id: &EntityUID) -> Result<Vec<EntityUID>, AllocError>
        ensures { IfOk result (λ held. map uid_of held.items ≡ answered self.now (uid_of id.now)) };

    // the answer has each id that the store holds there
    ghost complete: { (s : Self) (u : Uid) →
        AreAmong (ids_of (entity_at (store s) u)) (answered s u) };
}

/// The ids of the entities in a slice of `steps` steps, for each request whose own ids are among `start`: its principal, its
/// action, its resource, and the ids inside its context.
///
/// The ids are found in fewer than `steps` rounds, and in fewer still if a round finds no new id. No entity is asked twice for
/// its ids, and the entities of the last step are not asked. If several ids are equal, the answer has the first, with its
/// place. If memory is refused, the answer is an `AllocError`.
pub fn ids_within<E: Entities>(
    alloc: Global,
    entities: &E,
    start: &[EntityUID],
    steps: u32,
) -> Result<BTreeSet<EntityUID>, AllocError>
    ensures exact { IfOk result (λ ids. AreSame
        (ids_below (E.answered entities.now) (map uid_of start.now) steps) (uids_of ids)) }
    ensures slices { IfOk result (λ ids.
        LoadsSlices (E.store entities.now) (map uid_of start.now) steps (uids_of ids)) }
{
    let mut ids = BTreeSet::new(alloc);
    if steps == 0 {
        return Ok(ids);
    }
    let mut newest = add_new(alloc, &mut ids, start)?;
    for _step in 1..steps {
        if newest.is_empty() {
            return Ok(ids);
        }
        newest = add_held(alloc, &mut ids, entities, &newest)?;
    }
    Ok(ids)
}

/// Adds the ids that each of these holds, and answers the new ones. The ids of one entity are added before the next is asked,
/// so that repeats among them take no memory.
fn add_held<E: Entities>(
    alloc: Global,
    ids: &mut BTreeSet<EntityUID>,
    entities: &E,
    holders: &[EntityUID],
) -> Result<Vec<EntityUID>, AllocError>
    ensures { IfOk result (λ added. AddsNew (uids_of ids.old)
        (flat_map (E.answered entities.now) (map uid_of holders.now))
        (uids_of ids.new) (map uid_of added.items)) }
{
    let mut added = Vec::new(alloc);
    for holder in holders {
        let held = entities.held(alloc, holder)?;
        let more = add_new(alloc, ids, &held)?;
        append(&mut added, more)?;
    }
    Ok(added)
}

pub(crate) fn append(all: &mut Vec<EntityUID>, more: Vec<EntityUID>) -> Result<(), AllocError>
    ensures { OnOk result (
        map uid_of all.new.items ≡ map uid_of all.old.items ++ map uid_of more.items) }
{
    for id in more {
        all.push(id)?;
    }
    Ok(())
}

/// Adds these ids, and answers the new ones.
pub(crate) fn add_new(
    alloc: Global,
    ids: &mut BTreeSet<EntityUID>,
    these: &[EntityUID],
) -> Result<Vec<EntityUID>, AllocError>
    ensures adds { IfOk result (λ added. AddsNew (uids_of ids.old) (map uid_of these.now)
        (uids_of ids.new) (map uid_of added.items)) }
    ensures fresh { IfOk result (λ added. AreNew (map uid_of added.items) (uids_of ids.old)) }
    ensures distinct { IfOk result (λ added. AreDistinct (map uid_of added.items)) }
{
    let mut added = Vec::new(alloc);
    for id in these {
        if ids.insert(id.clone()?)? {
            added.push(id.clone()?)?;
        }
    }
    Ok(added)
}
