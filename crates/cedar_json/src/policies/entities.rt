// Entity ids, and the entities that a link puts in the place of slots.
use crate::forms::{FormError, FormFault, Object, expected, text_of};
use crate::names::is_name;
use crate::values::Value;
use cedar_types::base::{EntityReference, EntityType, EntityUID, Loc, Name, SlotId};
use std::alloc::Global;

/// Reads a name.
pub fn name_of(alloc: Global, value: &Value) -> Result<Name, FormError> {
    name_at(alloc, text_of(value)?, value.place)
}

/// Makes the name `name`, which stands at `place`. A text that is not a name is a fault.
pub fn name_at(alloc: Global, name: &str, place: Loc) -> Result<Name, FormError> {
    if !is_name(name) {
        return Err(FormError::At(place.start, FormFault::Name));
    }
    let mut path = Vec::new(alloc);
    for word in name.split("::") {
        path.push(word)?;
    }
    let last = path.pop().unwrap_or("");
    Ok(Name::new(alloc, last, path.as_slice())?)
}

/// Reads the name of an entity type.
pub fn entity_type(alloc: Global, value: &Value) -> Result<EntityType, FormError> {
    Ok(EntityType::new(name_of(alloc, value)?, Some(value.place)))
}

/// Reads an entity id: its type and its eid, perhaps inside an object of the one key `__entity`.
pub fn entity_uid(alloc: Global, value: &Value) -> Result<EntityUID, FormError> {
    let whole = Object::of(value)?;
    let object = match whole.get("__entity") {
        Some(inner) => {
            whole.allow(&["__entity"])?;
            Object::of(inner)?
        }
        None => whole,
    };
    object.allow(&["type", "id"])?;
    let own_type = entity_type(alloc, object.need("type")?)?;
    let eid = text_of(object.need("id")?)?;
    Ok(EntityUID::from_components(alloc, own_type, eid, Some(value.place))?)
}

/// The entities that the slots of a policy are bound to.
#[derive(Drop)]
pub enum Slots {
    /// The policy is a template, or has no slots.
    Open,
    /// The policy is a link: the place of its `values`, and its principal and resource, if they are
    /// bound.
    Bound(Loc, Option<EntityUID>, Option<EntityUID>),
}

impl Slots {
    /// Reads the `values` of a link: an entity for each slot that it binds.
    pub fn of_link(alloc: Global, values: &Value) -> Result<Slots, FormError> {
        let object = Object::of(values)?;
        object.allow(&["?principal", "?resource"])?;
        let principal = optional_uid(alloc, object.get("?principal"))?;
        let resource = optional_uid(alloc, object.get("?resource"))?;
        Ok(Slots::Bound(values.place, principal, resource))
    }

    /// Returns the entity that a slot is bound to; for a template, the slot. Fails if a link does
    /// not bind it.
    pub fn reference(&self, slot: SlotId) -> Result<EntityReference, FormError> {
        let (place, found) = match (self, slot) {
            (Slots::Open, _) => return Ok(EntityReference::Slot),
            (Slots::Bound(place, principal, _), SlotId::Principal) => (*place, principal),
            (Slots::Bound(place, _, resource), SlotId::Resource) => (*place, resource),
        };
        match found {
            Some(uid) => Ok(EntityReference::EUID(uid.clone()?)),
            None => Err(FormError::At(place.start, FormFault::Missing(slot_name(slot)))),
        }
    }
}

fn optional_uid(alloc: Global, value: Option<&Value>) -> Result<Option<EntityUID>, FormError> {
    match value {
        Some(value) => Ok(Some(entity_uid(alloc, value)?)),
        None => Ok(None),
    }
}

fn slot_name(slot: SlotId) -> &'static str {
    match slot {
        SlotId::Principal => "?principal",
        SlotId::Resource => "?resource",
    }
}

/// Reads the name of a slot.
pub fn slot_of(value: &Value) -> Result<SlotId, FormError> {
    match text_of(value)? {
        "?principal" => Ok(SlotId::Principal),
        "?resource" => Ok(SlotId::Resource),
        _ => Err(expected(value, "`?principal` or `?resource`")),
    }
}
