// Actions: the check of the stored data of an action.
ghost use Rattle.std.specs.Prelude.{◌≡◌, ◌&&◌, IfOk};
ghost use Rattle.std.specs.List.{list_all};
ghost use Rattle.cedar_types.specs.Names.{uid_of};
ghost use Rattle.cedar_types.specs.Schemas.Contents.{schema_of};
ghost use Rattle.cedar_types.specs.Schemas.Declarations.{declared_action};
ghost use Rattle.cedar_types.specs.Schemas.{declares_action};
ghost use Rattle.cedar_types.specs.Values.Stores.{declares_ancestor};
ghost use Rattle.cedar_conformance.specs.Answers.{FindsNoneWhere, FindsWhat};
ghost use Rattle.cedar_conformance.specs.Entities.{entity_of};
ghost use Rattle.cedar_conformance.specs.EntityFaults.{action_has};
ghost use Rattle.cedar_conformance.specs.StoreTests.{fits_action, has_its_ancestor};

use crate::answers::Found;
use crate::entities::Entity;
use crate::entity_faults::EntityProblem;
use crate::sets::{has_id, is_empty};
use cedar_types::base::{EntityUID, ValidatorActionId, ValidatorSchema};
use std::alloc::Global;

/// Returns the first problem of the data under an id, which has to be a declared action with its
/// declared ancestors and nothing else.
pub(crate) fn find_in_action(
    alloc: Global,
    schema: &ValidatorSchema,
    id: &EntityUID,
    entity: &Entity,
) -> Found<EntityProblem>
    ensures none { FindsNoneWhere result
        (declares_action (schema_of schema.now).actions (uid_of id.now)
        && fits_action (schema_of schema.now).actions (uid_of id.now) (entity_of entity.now)) }
    ensures there { FindsWhat result
        (action_has (schema_of schema.now).actions (uid_of id.now) (entity_of entity.now)) }
{
    if !schema.is_known_action_id(id) {
        return Ok(Some(EntityProblem::Undeclared));
    }
    if !is_empty(&entity.attributes) {
        return Ok(Some(EntityProblem::HasAttributes));
    }
    if !is_empty(&entity.tags) {
        return Ok(Some(EntityProblem::HasTags));
    }
    if let Some(problem) = find_undeclared_ancestor(schema, id, entity)? {
        return Ok(Some(problem));
    }
    find_missing_ancestor(alloc, schema, id, entity)
}

/// Returns the first ancestor that is not a declared one.
#[tactic(auto, using(crate::proofs::Among::among_tail, crate::proofs::FoundFaults::undeclared_there))]
fn find_undeclared_ancestor(
    schema: &ValidatorSchema,
    id: &EntityUID,
    entity: &Entity,
) -> Found<EntityProblem>
    ensures none { FindsNoneWhere result
        (list_all (declares_ancestor (schema_of schema.now).actions (uid_of id.now))
        (entity_of entity.now).ancestors) }
    ensures there { FindsWhat result
        (action_has (schema_of schema.now).actions (uid_of id.now) (entity_of entity.now)) }
{
    let ids = entity.ancestors.as_slice();
    for shared in ids {
        let ancestor: &EntityUID = &**shared;
        if !is_declared_ancestor(schema, id, ancestor) {
            return Ok(Some(EntityProblem::UndeclaredAncestor(ancestor.clone()?)));
        }
    }
    Ok(None)
}

fn is_declared_ancestor(schema: &ValidatorSchema, id: &EntityUID, ancestor: &EntityUID) -> bool
    ensures { result ≡ declares_ancestor (schema_of schema.now).actions
        (uid_of id.now) (uid_of ancestor.now) }
{
    match schema.get_action_id(ancestor) {
        Some(action) => has_id(&action.descendants, id),
        None => false,
    }
}

/// Returns a declared ancestor that the data lacks.
#[tactic(auto, using(crate::proofs::Among::among_tail, crate::proofs::FoundFaults::missing_there))]
fn find_missing_ancestor(
    alloc: Global,
    schema: &ValidatorSchema,
    id: &EntityUID,
    entity: &Entity,
) -> Found<EntityProblem>
    ensures none { FindsNoneWhere result
        (list_all (has_its_ancestor (uid_of id.now) (entity_of entity.now))
        (schema_of schema.now).actions) }
    ensures there { FindsWhat result
        (action_has (schema_of schema.now).actions (uid_of id.now) (entity_of entity.now)) }
{
    let actions = schema.action_ids(alloc)?;
    for action in &actions {
        if !has_ancestor_of(id, entity, action) {
            return Ok(Some(EntityProblem::MissingAncestor(action.name.clone()?)));
        }
    }
    Ok(None)
}

fn has_ancestor_of(id: &EntityUID, entity: &Entity, action: &ValidatorActionId) -> bool
    ensures { result ≡ has_its_ancestor (uid_of id.now) (entity_of entity.now)
        (declared_action action.now) }
{
    !has_id(&action.descendants, id) || entity.ancestors.contains(&action.name)
}
