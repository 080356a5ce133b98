//! Ids inside data, which a host that loads slices follows: those that an entity holds, and those of a request.
ghost use Rattle.std.specs.Prelude.{◌≡◌, [], ◌∷◌, ◌++◌, Some, IfOk, OnOk, map};
ghost use Rattle.cedar_types.specs.Names.{uid_of};
ghost use Rattle.cedar_typechecker.specs.Slices.Reach.{ids_in, ids_in_members, ids_in_entries, ids_of, reach};
ghost use Rattle.cedar_conformance.specs.Entities.{entity_of};
ghost use Rattle.cedar_conformance.specs.Requests.{request_of};
ghost use Rattle.cedar_conformance.specs.Values.{value_of, values_of, record_of};

use cedar_conformance::entities::Entity;
use cedar_conformance::requests::Request;
use cedar_conformance::values::{Record, Value};
use cedar_types::base::EntityUID;
use std::alloc::{AllocError, Global};

/// The ids inside the attributes and the tags of an entity, at any depth. If memory is refused, the answer is an `AllocError`.
pub fn ids_in_entity(alloc: Global, entity: &Entity) -> Result<Vec<EntityUID>, AllocError>
    ensures { IfOk result (λ ids. map uid_of ids.items ≡ ids_of (Some (entity_of entity.now))) }
{
    let mut ids = Vec::new(alloc);
    push_in_record(&entity.attributes, &mut ids)?;
    push_in_record(&entity.tags, &mut ids)?;
    Ok(ids)
}

/// The ids of a request, with which a slice begins: its principal, its action, its resource, and those inside its context. If
/// memory is refused, the answer is an `AllocError`.
pub fn ids_in_request(alloc: Global, request: &Request) -> Result<Vec<EntityUID>, AllocError>
    ensures { IfOk result (λ ids. map uid_of ids.items ≡ reach (request_of request.now) [] 0) }
{
    let mut ids = Vec::new(alloc);
    ids.push(request.principal.clone()?)?;
    ids.push(request.action.clone()?)?;
    ids.push(request.resource.clone()?)?;
    push_in_record(&request.context, &mut ids)?;
    Ok(ids)
}

#[cycle(held_ids)]
fn push_in_value(value: &Value, ids: &mut Vec<EntityUID>) -> Result<(), AllocError>
    ensures { OnOk result (
        map uid_of ids.new.items ≡ map uid_of ids.old.items ++ ids_in (value_of value.now)) }
{
    match value {
        Value::Bool(_) => Ok(()),
        Value::Long(_) => Ok(()),
        Value::String(_) => Ok(()),
        Value::EntityUID(id) => push_one(ids, id),
        Value::Set(members) => push_in_members(members, ids),
        Value::Record(entries) => push_in_record(entries, ids),
        Value::Extension {
            type_name: _type_name,
            text: _text,
        } => Ok(()),
    }
}

#[cycle(held_ids)]
fn push_in_members(members: &Vec<Value>, ids: &mut Vec<EntityUID>) -> Result<(), AllocError>
    ensures { OnOk result (map uid_of ids.new.items
        ≡ map uid_of ids.old.items ++ ids_in_members (values_of members.now.items)) }
{
    for member in members {
        push_in_value(member, ids)?;
    }
    Ok(())
}

#[cycle(held_ids)]
fn push_in_record(entries: &Record, ids: &mut Vec<EntityUID>) -> Result<(), AllocError>
    ensures { OnOk result (map uid_of ids.new.items
        ≡ map uid_of ids.old.items ++ ids_in_entries (record_of entries.now)) }
{
    for (_, value) in entries.iter() {
        push_in_value(value, ids)?;
    }
    Ok(())
}

fn push_one(ids: &mut Vec<EntityUID>, id: &EntityUID) -> Result<(), AllocError>
    ensures { OnOk result (
        map uid_of ids.new.items ≡ map uid_of ids.old.items ++ uid_of id.now ∷ []) }
{
    ids.push(id.clone()?)?;
    Ok(())
}
