//! A host that asks its entities once a round, and the promise that `Rounds` makes to it.
ghost use Rattle.std.specs.Prelude.{◌≡◌, ◌++◌, IfOk, OnOk, map};
ghost use Rattle.std.specs.List.{flat_map};
ghost use Rattle.cedar_types.specs.Names.{uid_of};
ghost use Rattle.cedar_types.specs.Schemas.Declarations.{uids_of};
ghost use Rattle.cedar_host.specs.Loading.{LoadsSlices};

use cedar_host::loading::Entities;
use cedar_host::rounds::Rounds;
use cedar_types::base::EntityUID;
use std::alloc::{AllocError, Global};
use std::collections::BTreeSet;

/// The ids of the entities in a slice of `steps` steps, for each request whose own ids are among `start`. If memory is refused,
/// the answer is an `AllocError`.
pub fn ids_in_rounds<E: Entities>(
    alloc: Global,
    entities: &E,
    start: &[EntityUID],
    steps: u32,
) -> Result<BTreeSet<EntityUID>, AllocError>
    ensures { IfOk result (λ ids.
        LoadsSlices (E.store entities.now) (map uid_of start.now) steps (uids_of ids)) }
{
    let mut rounds = Rounds::begin(alloc, start, steps)?;
    for _round in 0..steps {
        let held = held_by(alloc, entities, rounds.wanted())?;
        rounds = rounds.hand_in(alloc, &held)?;
    }
    Ok(rounds.into_ids())
}

/// The ids that these entities hold, all together. If memory is refused, the answer is an `AllocError`.
pub fn held_by<E: Entities>(
    alloc: Global,
    entities: &E,
    wanted: &[EntityUID],
) -> Result<Vec<EntityUID>, AllocError>
    ensures { IfOk result (λ held. map uid_of held.items
        ≡ flat_map (E.answered entities.now) (map uid_of wanted.now)) }
{
    let mut all = Vec::new(alloc);
    for id in wanted {
        let held = entities.held(alloc, id)?;
        append(&mut all, held)?;
    }
    Ok(all)
}

fn append(all: &mut Vec<EntityUID>, more: Vec<EntityUID>) -> Result<(), AllocError>
    ensures { OnOk result (
        map uid_of all.new.items ≡ map uid_of all.old.items ++ map uid_of more.items) }
{
    for id in more {
        all.push(id)?;
    }
    Ok(())
}
