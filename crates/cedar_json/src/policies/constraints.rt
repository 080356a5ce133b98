// Constraints of a scope.
use crate::forms::{FormError, FormFault, Object, expected, items_of, text_of};
use crate::policies::entities::{Slots, entity_type, entity_uid, slot_of};
use crate::values::Value;
use cedar_types::base::{
    ActionConstraint, EntityReference, EntityUID, PrincipalOrResourceConstraint, SlotId,
};
use std::alloc::Global;

/// Reads the constraint of the principal or of the resource, whose slot is `own`.
pub fn entity_constraint(
    alloc: Global,
    slots: &Slots,
    own: SlotId,
    value: &Value,
) -> Result<PrincipalOrResourceConstraint, FormError> {
    let object = Object::of(value)?;
    let op = object.need("op")?;
    match text_of(op)? {
        "All" | "all" => {
            object.allow(&["op"])?;
            Ok(PrincipalOrResourceConstraint::Any)
        }
        "==" => {
            object.allow(&["op", "entity", "slot"])?;
            Ok(PrincipalOrResourceConstraint::Eq(reference(alloc, slots, own, object)?))
        }
        "in" => {
            object.allow(&["op", "entity", "slot"])?;
            Ok(PrincipalOrResourceConstraint::In(reference(alloc, slots, own, object)?))
        }
        "is" => type_constraint(alloc, slots, own, object),
        _ => Err(expected(op, "`All`, `==`, `in` or `is`")),
    }
}

/// Reads a constraint by entity type, perhaps with an entity or a slot behind `in`.
fn type_constraint(
    alloc: Global,
    slots: &Slots,
    own: SlotId,
    object: Object<'_>,
) -> Result<PrincipalOrResourceConstraint, FormError> {
    object.allow(&["op", "entity_type", "in"])?;
    let named = entity_type(alloc, object.need("entity_type")?)?;
    let Some(above) = object.given("in") else {
        return Ok(PrincipalOrResourceConstraint::Is(named));
    };
    let above = Object::of(above)?;
    above.allow(&["entity", "slot"])?;
    let reference = reference(alloc, slots, own, above)?;
    Ok(PrincipalOrResourceConstraint::IsIn(named, reference))
}

/// Reads an entity, or the slot `own`.
fn reference(
    alloc: Global,
    slots: &Slots,
    own: SlotId,
    object: Object<'_>,
) -> Result<EntityReference, FormError> {
    let Some(slot) = object.get("slot") else {
        return Ok(EntityReference::EUID(entity_uid(alloc, object.need("entity")?)?));
    };
    if object.get("entity").is_some() {
        return Err(FormError::At(
            object.place.start,
            FormFault::Expected("an entity or a slot"),
        ));
    }
    if slot_of(slot)? != own {
        return Err(expected(slot, "the slot of this variable"));
    }
    slots.reference(own)
}

/// Reads the constraint of the action.
pub fn action_constraint(alloc: Global, value: &Value) -> Result<ActionConstraint, FormError> {
    let object = Object::of(value)?;
    let op = object.need("op")?;
    match text_of(op)? {
        "All" | "all" => {
            object.allow(&["op"])?;
            Ok(ActionConstraint::Any)
        }
        "==" => {
            object.allow(&["op", "entity"])?;
            Ok(ActionConstraint::Eq(action(alloc, object.need("entity")?)?))
        }
        "in" => actions(alloc, object),
        _ => Err(expected(op, "`All`, `==` or `in`")),
    }
}

/// Reads the actions behind `in`: one, or a list.
fn actions(alloc: Global, object: Object<'_>) -> Result<ActionConstraint, FormError> {
    let mut actions = Vec::new(alloc);
    if let Some(list) = object.get("entities") {
        object.allow(&["op", "entities"])?;
        for value in items_of(list)? {
            actions.push(action(alloc, value)?)?;
        }
    } else {
        object.allow(&["op", "entity"])?;
        actions.push(action(alloc, object.need("entity")?)?)?;
    }
    Ok(ActionConstraint::In(actions))
}

/// Reads the id of an action. A type that is not named `Action` is a fault.
fn action(alloc: Global, value: &Value) -> Result<EntityUID, FormError> {
    let uid = entity_uid(alloc, value)?;
    if !uid.entity_type.is_action() {
        return Err(FormError::At(value.place.start, FormFault::ActionType));
    }
    Ok(uid)
}
