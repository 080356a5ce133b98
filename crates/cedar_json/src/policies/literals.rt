// Literals, and values of sets, records and extension types. Each call goes one step deeper, up to
// `MAX_DEPTH`.
use crate::forms::{FormError, FormFault, Object, items_of};
use crate::policies::entities::{entity_uid, name_of};
use crate::values::{Key, Value, ValueKind};
use cedar_types::base::{Expr, Literal};
use std::alloc::Global;
use std::collections::BTreeMap;

/// The highest number of steps that reading one object or one list takes.
pub const VALUE_STEPS: usize = 3;

/// Reads a value.
#[cycle(values_of_policies)]
pub fn literal(alloc: Global, value: &Value, left: usize) -> Result<Expr, FormError> {
    let Some(left) = left.checked_sub(1) else {
        return Err(FormError::At(value.place.start, FormFault::TooDeep));
    };
    let whole = match &value.kind {
        ValueKind::Boolean(truth) => Expr::val(Literal::Bool(*truth)),
        ValueKind::Integer(number) => Expr::val(Literal::Long(*number)),
        ValueKind::Text(text) => Expr::val(Literal::String(text.clone()?)),
        ValueKind::Array(items) => Expr::set(values(alloc, items.as_slice(), left)?),
        ValueKind::Null => return Err(FormError::At(value.place.start, FormFault::Null)),
        ValueKind::Object(_) => object(alloc, Object::of(value)?, value, left)?,
    };
    Ok(whole.with_maybe_source_loc(Some(value.place)))
}

/// Reads the members of a set, or the arguments of a call.
#[cycle(values_of_policies)]
fn values(alloc: Global, items: &[Value], left: usize) -> Result<Vec<Expr>, FormError> {
    let Some(left) = left.checked_sub(1) else {
        return Err(FormError::At(0, FormFault::TooDeep));
    };
    let mut read = Vec::new(alloc);
    for item in items {
        read.push(literal(alloc, item, left)?)?;
    }
    Ok(read)
}

/// Reads an entity, a value of an extension type, or a record.
#[cycle(values_of_policies)]
fn object(
    alloc: Global,
    object: Object<'_>,
    value: &Value,
    left: usize,
) -> Result<Expr, FormError> {
    let Some(left) = left.checked_sub(1) else {
        return Err(FormError::At(object.place.start, FormFault::TooDeep));
    };
    if object.get("__entity").is_some() {
        return Ok(Expr::val(Literal::EntityUID(entity_uid(alloc, value)?)));
    }
    if let Some(call) = object.get("__extn") {
        object.allow(&["__extn"])?;
        return extension_value(alloc, Object::of(call)?, left);
    }
    record(alloc, object.entries, left)
}

/// Reads an extension value as the call of its function, on the one value of `arg` or on each of
/// `args`.
#[cycle(values_of_policies)]
fn extension_value(alloc: Global, call: Object<'_>, left: usize) -> Result<Expr, FormError> {
    let Some(left) = left.checked_sub(1) else {
        return Err(FormError::At(call.place.start, FormFault::TooDeep));
    };
    if let Some(list) = call.get("args") {
        call.allow(&["fn", "args"])?;
        let name = name_of(alloc, call.need("fn")?)?;
        let arguments = values(alloc, items_of(list)?, left)?;
        return Ok(Expr::call_extension_fn(name, arguments));
    }
    call.allow(&["fn", "arg"])?;
    let name = name_of(alloc, call.need("fn")?)?;
    let mut arguments = Vec::new(alloc);
    arguments.push(literal(alloc, call.need("arg")?, left)?)?;
    Ok(Expr::call_extension_fn(name, arguments))
}

/// Reads the entries of a record.
#[cycle(values_of_policies)]
fn record(alloc: Global, entries: &[(Key, Value)], left: usize) -> Result<Expr, FormError> {
    let Some(left) = left.checked_sub(1) else {
        return Err(FormError::At(0, FormFault::TooDeep));
    };
    let mut fields = BTreeMap::new(alloc);
    for (key, value) in entries {
        let field = literal(alloc, value, left)?;
        fields.insert(key.name.clone()?, field)?;
    }
    Ok(Expr::record(fields))
}
