// Stores of entities: their check by a schema.
ghost use Rattle.std.specs.Prelude.{◌≡◌, ◌↔◌, true, false, IfOk, IfErr, IsOk, OnOk};
ghost use Rattle.cedar_types.specs.Names.{uid_of};
ghost use Rattle.cedar_types.specs.Schemas.Contents.{schema_of};
ghost use Rattle.cedar_types.specs.Values.Stores.{ConformingStore, entity_at};
ghost use Rattle.cedar_conformance.specs.Answers.{lists_none, AddsNoneWhere};
ghost use Rattle.cedar_conformance.specs.Entities.{store_of};
ghost use Rattle.cedar_conformance.specs.EntityFaults.{all_there, missing_action};
ghost use Rattle.cedar_conformance.specs.StoreTests.{each_fits, are_there, store_fits, IsApart};

use crate::answers::Checked;
use crate::entities::Entities;
use crate::entity_faults::{EntityFault, EntityProblem, add_found};
use crate::stored::find_in_entity;
use cedar_types::base::{EntityUID, ValidatorSchema};
use std::alloc::{AllocError, Global};

/// The number of faults after which the search in a store ends.
pub const MAX_FAULTS: usize = 100;

/// Checks that each entity fits the schema, and that each declared action is among the entities.
/// Otherwise the answer is the entities that do not fit, in the order of their ids, and then the
/// missing actions: each with its first fault, and at most `MAX_FAULTS`. If memory is refused, the
/// answer is an `AllocError`.
pub fn check_entities(
    alloc: Global,
    schema: &ValidatorSchema,
    entities: &Entities,
) -> Checked<Vec<EntityFault>>
    ensures exact { IfOk result (λ r.
        IsOk r ↔ ConformingStore (schema_of schema.now) (store_of entities.now)) }
    ensures some { IfOk result (λ r. IfErr r (λ fs. lists_none fs.items ≡ false)) }
    ensures there { IfOk result (λ r. IfErr r (λ fs.
        all_there (schema_of schema.now) (store_of entities.now) fs.items ≡ true)) }
{
    entities_are_apart(entities);
    let faults = find_in_store(alloc, schema, entities)?;
    if faults.is_empty() {
        Ok(Ok(()))
    } else {
        Ok(Err(faults))
    }
}

/// Proves that each entity is stored once.
fn entities_are_apart(entities: &Entities)
    ensures { IsApart (store_of entities.now) }
{
    let _count = entities.entries.len();
}

fn find_in_store(
    alloc: Global,
    schema: &ValidatorSchema,
    entities: &Entities,
) -> Result<Vec<EntityFault>, AllocError>
    ensures none { IfOk result (λ v.
        lists_none v.items ≡ store_fits (schema_of schema.now) (store_of entities.now)) }
    ensures there { IfOk result (λ v.
        all_there (schema_of schema.now) (store_of entities.now) v.items ≡ true) }
{
    let mut faults = Vec::new(alloc);
    add_unfit(alloc, &mut faults, schema, entities)?;
    add_missing_actions(alloc, &mut faults, schema, entities)?;
    Ok(faults)
}

/// Adds the entities that do not fit the schema.
#[tactic(auto, using(crate::proofs::Among::among_tail, crate::proofs::FoundFaults::entry_there))]
fn add_unfit(
    alloc: Global,
    faults: &mut Vec<EntityFault>,
    schema: &ValidatorSchema,
    entities: &Entities,
) -> Result<(), AllocError>
    ensures none { OnOk result
        (AddsNoneWhere (each_fits (schema_of schema.now) (store_of entities.now))
        faults.old.items faults.new.items) }
    ensures there { OnOk result
        (all_there (schema_of schema.now) (store_of entities.now) faults.old.items ≡ true
        → all_there (schema_of schema.now) (store_of entities.now) faults.new.items ≡ true) }
{
    for (id, entity) in entities.entries.iter() {
        if faults.len() >= MAX_FAULTS {
            return Ok(());
        }
        let found = find_in_entity(alloc, schema, id, entity)?;
        add_found(faults, id, found)?;
    }
    Ok(())
}

/// Adds the declared actions that the store lacks.
#[tactic(auto, using(crate::proofs::Among::among_tail, crate::proofs::FoundFaults::action_there))]
fn add_missing_actions(
    alloc: Global,
    faults: &mut Vec<EntityFault>,
    schema: &ValidatorSchema,
    entities: &Entities,
) -> Result<(), AllocError>
    ensures none { OnOk result
        (AddsNoneWhere (are_there (schema_of schema.now).actions (store_of entities.now))
        faults.old.items faults.new.items) }
    ensures there { OnOk result
        (all_there (schema_of schema.now) (store_of entities.now) faults.old.items ≡ true
        → all_there (schema_of schema.now) (store_of entities.now) faults.new.items ≡ true) }
{
    let actions = schema.action_ids(alloc)?;
    for action in &actions {
        if faults.len() >= MAX_FAULTS {
            return Ok(());
        }
        let found = find_missing_action(entities, &action.name);
        add_found(faults, &action.name, found)?;
    }
    Ok(())
}

fn find_missing_action(entities: &Entities, action: &EntityUID) -> Option<EntityProblem>
    ensures { result ≡ missing_action (entity_at (store_of entities.now) (uid_of action.now)) }
{
    match entities.get(action) {
        Some(_entity) => None,
        None => Some(EntityProblem::MissingAction),
    }
}
