// Data that stands in a case as expressions: literals, sets and records of them, and calls for values of extension types.
use cedar_conformance::entities::{Entities, Entity};
use cedar_conformance::ids::Ids;
use cedar_conformance::values::{Record, Value};
use cedar_reading::{Expected, Fault, ReadError, condition};
use cedar_types::base::{EntityUID, Expr, ExprKind, Literal};
use std::alloc::{AllocError, Global};
use std::collections::BTreeMap;
use std::rc::RcStr;

fn no_data() -> ReadError {
    ReadError::At(0, Fault::Expected(Expected::Other("data")))
}

/// The record in a text.
pub fn record_of(alloc: Global, text: &str) -> Result<Record, ReadError> {
    let expr = condition(alloc, text)?;
    record_in(alloc, &expr)
}

fn record_in(alloc: Global, expr: &Expr) -> Result<Record, ReadError> {
    match &expr.kind {
        ExprKind::Record(fields) => values_by_key(alloc, fields),
        _ => Err(no_data()),
    }
}

#[cycle(values)]
fn values_by_key(alloc: Global, fields: &BTreeMap<RcStr, Expr>) -> Result<Record, ReadError> {
    let mut entries = BTreeMap::new(alloc);
    for (key, expr) in fields.iter() {
        let value = value_in(alloc, expr)?;
        entries.insert(key.clone()?, value)?;
    }
    Ok(entries)
}

#[cycle(values)]
fn values_in(alloc: Global, exprs: &Vec<Expr>) -> Result<Vec<Value>, ReadError> {
    let mut values = Vec::new(alloc);
    for expr in exprs {
        let value = value_in(alloc, expr)?;
        values.push(value)?;
    }
    Ok(values)
}

#[cycle(values)]
fn value_in(alloc: Global, expr: &Expr) -> Result<Value, ReadError> {
    match &expr.kind {
        ExprKind::Lit(literal) => Ok(literal_value(literal)?),
        ExprKind::Set(members) => Ok(Value::Set(values_in(alloc, members)?)),
        ExprKind::Record(fields) => Ok(Value::Record(values_by_key(alloc, fields)?)),
        ExprKind::ExtensionFunctionApp(type_name, arguments) => {
            let text = sole_text(arguments)?;
            let type_name = type_name.clone()?;
            Ok(Value::Extension { type_name, text })
        }
        _ => Err(no_data()),
    }
}

fn literal_value(literal: &Literal) -> Result<Value, AllocError> {
    match literal {
        Literal::Bool(b) => Ok(Value::Bool(*b)),
        Literal::Long(n) => Ok(Value::Long(*n)),
        Literal::String(text) => Ok(Value::String(text.clone()?)),
        Literal::EntityUID(uid) => Ok(Value::EntityUID(uid.clone()?)),
    }
}

/// The text of the one argument.
fn sole_text(arguments: &Vec<Expr>) -> Result<RcStr, ReadError> {
    match arguments.first() {
        Some(expr) => match &expr.kind {
            ExprKind::Lit(Literal::String(text)) => Ok(text.clone()?),
            _ => Err(no_data()),
        },
        None => Err(no_data()),
    }
}

/// The id in an expression.
fn id_in(expr: &Expr) -> Result<EntityUID, ReadError> {
    match &expr.kind {
        ExprKind::Lit(Literal::EntityUID(uid)) => Ok(uid.clone()?),
        _ => Err(no_data()),
    }
}

/// The members of a set in an expression.
fn members_in(expr: &Expr) -> Result<&Vec<Expr>, ReadError> {
    match &expr.kind {
        ExprKind::Set(members) => Ok(members),
        _ => Err(no_data()),
    }
}

/// The ids in a set.
fn ids_in(alloc: Global, expr: &Expr) -> Result<Ids, ReadError> {
    let mut ids = Ids::new(alloc);
    for member in members_in(expr)? {
        let id = id_in(member)?;
        ids.insert(id)?;
    }
    Ok(ids)
}

/// The entity with these attributes, ancestors and tags.
pub fn entity_of(
    alloc: Global,
    attributes: &str,
    ancestors: &str,
    tags: &str,
) -> Result<Entity, ReadError> {
    let attributes = record_of(alloc, attributes)?;
    let ancestors = condition(alloc, ancestors)?;
    let ancestors = ids_in(alloc, &ancestors)?;
    let tags = record_of(alloc, tags)?;
    Ok(Entity {
        attributes,
        ancestors,
        tags,
    })
}

/// The entities of a set of records: each has an `id`, and may have `attributes`, `ancestors` and `tags`.
pub fn entities_of(alloc: Global, text: &str) -> Result<Entities, ReadError> {
    let expr = condition(alloc, text)?;
    let mut entities = Entities::new(alloc);
    for member in members_in(&expr)? {
        add_entity(alloc, &mut entities, member)?;
    }
    Ok(entities)
}

fn add_entity(alloc: Global, entities: &mut Entities, expr: &Expr) -> Result<(), ReadError> {
    let ExprKind::Record(fields) = &expr.kind else {
        return Err(no_data());
    };
    let Some(id) = field(fields, "id") else {
        return Err(no_data());
    };
    let id = id_in(id)?;
    let entity = entity_in(alloc, fields)?;
    entities.add(id, entity)?;
    Ok(())
}

fn entity_in(alloc: Global, fields: &BTreeMap<RcStr, Expr>) -> Result<Entity, ReadError> {
    let mut entity = Entity::bare(alloc);
    if let Some(attributes) = field(fields, "attributes") {
        entity.attributes = record_in(alloc, attributes)?;
    }
    if let Some(ancestors) = field(fields, "ancestors") {
        entity.ancestors = ids_in(alloc, ancestors)?;
    }
    if let Some(tags) = field(fields, "tags") {
        entity.tags = record_in(alloc, tags)?;
    }
    Ok(entity)
}

fn field<'a>(fields: &'a BTreeMap<RcStr, Expr>, name: &str) -> Option<&'a Expr> {
    for (key, expr) in fields.iter() {
        if key.as_str() == name {
            return Some(expr);
        }
    }
    None
}
