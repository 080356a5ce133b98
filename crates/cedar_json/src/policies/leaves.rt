// Leaves: expressions without operands.
use crate::forms::{FormError, FormFault, Object};
use crate::policies::entities::{Slots, name_of, slot_of};
use crate::policies::literals::{VALUE_STEPS, literal};
use crate::policies::operators::variable;
use crate::values::{Key, MAX_DEPTH, Value};
use cedar_types::base::{EntityReference, Expr, Literal};
use std::alloc::Global;

/// Returns the only entry of an object. Another number of entries is a fault.
pub fn only_entry(object: Object<'_>) -> Result<&(Key, Value), FormError> {
    match object.entries {
        [only] => Ok(only),
        [_, (second, _), ..] => Err(FormError::At(second.place.start, FormFault::UnknownKey)),
        [] => Err(FormError::At(object.place.start, FormFault::Expected("an expression"))),
    }
}

/// Reads a value, a variable, a slot or an unknown.
pub fn leaf(alloc: Global, slots: &Slots, key: &Key, part: &Value) -> Result<Expr, FormError> {
    match key.name.as_str() {
        "Value" => literal(alloc, part, VALUE_STEPS * MAX_DEPTH),
        "Var" => variable(part),
        "Slot" => slot(slots, part),
        _ => unknown(alloc, part),
    }
}

/// Reads a slot: in a link, the entity that it is bound to.
fn slot(slots: &Slots, value: &Value) -> Result<Expr, FormError> {
    let id = slot_of(value)?;
    match slots.reference(id)? {
        EntityReference::EUID(uid) => Ok(Expr::val(Literal::EntityUID(uid))),
        EntityReference::Slot => Ok(Expr::slot(id)),
    }
}

/// Reads an unknown: a value that is not known yet.
fn unknown(alloc: Global, value: &Value) -> Result<Expr, FormError> {
    let object = Object::of(value)?;
    object.allow(&["name"])?;
    Ok(Expr::unknown(name_of(alloc, object.need("name")?)?))
}
