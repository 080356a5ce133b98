// Shadows: names of namespaces that hide names outside of namespaces.
use crate::faults::ReadError;
use crate::schemas::declarations::Declarations;
use crate::schemas::declarations_of;
use crate::schemas::meant_declarations::Named;
use crate::schemas::refusals::{RefusedName, refused};
use cedar_types::base::{EntityUID, Name};
use std::alloc::{AllocError, Global};
use std::collections::BTreeSet;

/// The first name in a text that a namespace declares and that hides one declared outside of
/// namespaces: an entity type or an alias with the last part of another, or an action with the id
/// of another. Cedar refuses a schema with such a name. `None` if there is none, and if the text
/// cannot be read.
pub fn shadowing_name(alloc: Global, text: &str) -> Result<Option<RefusedName>, AllocError> {
    match declarations_of(alloc, text, Named::Any) {
        Ok(read) => first_hiding_name(alloc, &read),
        Err(ReadError::Memory(error)) => Err(error),
        Err(ReadError::At(_, _)) => Ok(None),
    }
}

/// The first hiding name of the declarations.
pub fn first_hiding_name(
    alloc: Global,
    read: &Declarations,
) -> Result<Option<RefusedName>, AllocError> {
    let mut names = hiding_types(alloc, read)?.into_iter();
    match names.next() {
        Some(name) => Ok(Some(name)),
        None => Ok(hiding_actions(alloc, read)?.into_iter().next()),
    }
}

/// All hiding names of the declarations: those of types by place, and behind them those of actions.
pub fn hiding_names(alloc: Global, read: &Declarations) -> Result<Vec<RefusedName>, AllocError> {
    let mut names = hiding_types(alloc, read)?;
    for name in hiding_actions(alloc, read)? {
        names.push(name)?;
    }
    Ok(names)
}

/// The entity types and aliases of namespaces whose last part is the name of one outside, by place.
fn hiding_types(alloc: Global, read: &Declarations) -> Result<Vec<RefusedName>, AllocError> {
    let mut inside = names_inside(alloc, read)?;
    let mut found = Vec::new(alloc);
    if inside.is_empty() {
        return Ok(found);
    }
    let outside = names_outside(alloc, read)?;
    inside.sort()?;
    for (start, name) in &inside {
        if outside.contains(&name.basename.as_str()) {
            let name = name.to_string(alloc)?;
            found.push(RefusedName {
                name,
                start: *start,
            })?;
        }
    }
    Ok(found)
}

/// The entity types and aliases of namespaces, and the byte of each.
fn names_inside(alloc: Global, read: &Declarations) -> Result<Vec<(usize, &Name)>, AllocError> {
    let mut inside = Vec::new(alloc);
    for own in read.entity_types.iter().flat_map(|d| d.names.iter()) {
        let name = &own.name.name;
        if !name.path.is_empty() {
            inside.push((own.start, name))?;
        }
    }
    for alias in read.declared.aliases.values() {
        if !alias.name.path.is_empty() {
            inside.push((alias.own_start, &alias.name))?;
        }
    }
    Ok(inside)
}

/// The names of the entity types and aliases outside of namespaces.
fn names_outside(alloc: Global, read: &Declarations) -> Result<BTreeSet<&str>, AllocError> {
    let mut outside = BTreeSet::new(alloc);
    for own in read.entity_types.iter().flat_map(|d| d.names.iter()) {
        let name = &own.name.name;
        if name.path.is_empty() {
            outside.insert(name.basename.as_str())?;
        }
    }
    for alias in read.declared.aliases.values() {
        if alias.name.path.is_empty() {
            outside.insert(alias.name.basename.as_str())?;
        }
    }
    Ok(outside)
}

/// The actions of namespaces whose id is that of one outside, in the order of the text.
fn hiding_actions(alloc: Global, read: &Declarations) -> Result<Vec<RefusedName>, AllocError> {
    let mut inside = Vec::new(alloc);
    for own in read.actions.iter().flat_map(|d| d.names.iter()) {
        if is_inside(&own.name) {
            inside.push(own)?;
        }
    }
    let mut found = Vec::new(alloc);
    if inside.is_empty() {
        return Ok(found);
    }
    let outside = ids_outside(alloc, read)?;
    for own in inside {
        if outside.contains(&own.name.eid.as_str()) {
            found.push(refused(alloc, own)?)?;
        }
    }
    Ok(found)
}

/// The ids of the actions outside of namespaces.
fn ids_outside(alloc: Global, read: &Declarations) -> Result<BTreeSet<&str>, AllocError> {
    let mut outside = BTreeSet::new(alloc);
    for own in read.actions.iter().flat_map(|d| d.names.iter()) {
        if !is_inside(&own.name) {
            outside.insert(own.name.eid.as_str())?;
        }
    }
    Ok(outside)
}

/// Whether an action is one of a namespace.
fn is_inside(action: &EntityUID) -> bool {
    !action.entity_type.name.path.is_empty()
}
