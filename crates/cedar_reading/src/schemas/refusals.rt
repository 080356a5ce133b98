// Refusals: the name for which a schema is refused.
use crate::cursor::Cursor;
use crate::faults::ReadError;
use crate::names::placed_name;
use crate::schemas::all_faults::SchemaFault;
use crate::schemas::declarations::{Declaration, Declarations};
use crate::schemas::declarations_of;
use crate::schemas::meant_declarations::Named;
use crate::schemas::written::Placed;
use cedar_types::base::{EntityType, SchemaError, ValidatorEntityTypeKind};
use std::alloc::{AllocError, Global};
use std::collections::BTreeSet;
use std::fmt;

/// The name for which a schema is refused.
#[derive(Debug, Drop)]
pub struct RefusedName {
    /// The whole name, with its namespace.
    pub name: String,
    /// The byte of the schema's text at which the name stands.
    pub start: usize,
}

/// The name in a text that `fault` of its schema is about: the first name that is declared for a
/// second time, that is one of actions, whose type has no ids, that is not known, or that names a
/// context and is no record. `None` if there is no such name, as for the other faults, which no
/// text has.
pub fn refused_name(
    alloc: Global,
    text: &str,
    fault: &SchemaError,
) -> Result<Option<RefusedName>, AllocError> {
    match name_of_fault(alloc, text, fault) {
        Ok(found) => Ok(found),
        Err(ReadError::Memory(error)) => Err(error),
        Err(ReadError::At(_, _)) => Ok(None),
    }
}

fn name_of_fault(
    alloc: Global,
    text: &str,
    fault: &SchemaError,
) -> Result<Option<RefusedName>, ReadError> {
    if matches!(fault, SchemaError::UnknownType | SchemaError::VagueType) {
        return unfit(alloc, text);
    }
    let read = declarations_of(alloc, text, Named::Any)?;
    let types = read.entity_types.as_slice();
    let found = match fault {
        SchemaError::DuplicateEntityType => show(alloc, find_repeated(alloc, types)?)?,
        SchemaError::DuplicateAction => {
            show(alloc, find_repeated(alloc, read.actions.as_slice())?)?
        }
        SchemaError::ActionTypeDeclared => show(alloc, of_actions(types))?,
        SchemaError::EmptyEnum => show(alloc, without_ids(types))?,
        _ => None,
    };
    Ok(found)
}

/// The name that was found, as it is shown.
fn show<N: fmt::Display>(
    alloc: Global,
    found: Option<&Placed<N>>,
) -> Result<Option<RefusedName>, AllocError> {
    match found {
        Some(found) => Ok(Some(refused(alloc, found)?)),
        None => Ok(None),
    }
}

/// The name, as it is shown.
pub fn refused<N: fmt::Display>(alloc: Global, own: &Placed<N>) -> Result<RefusedName, AllocError> {
    Ok(RefusedName {
        name: own.name.to_string(alloc)?,
        start: own.start,
    })
}

/// The first name that is declared for a second time.
fn find_repeated<N: Ord, K>(
    alloc: Global,
    declared: &[Declaration<N, K>],
) -> Result<Option<&Placed<N>>, AllocError> {
    Ok(repetitions(alloc, declared)?.first().copied())
}

/// The names that are declared again.
fn repetitions<N: Ord, K>(
    alloc: Global,
    declared: &[Declaration<N, K>],
) -> Result<Vec<&Placed<N>>, AllocError> {
    let mut before = BTreeSet::new(alloc);
    let mut found = Vec::new(alloc);
    for own in declared.iter().flat_map(|d| d.names.iter()) {
        if !before.insert(&own.name)? {
            found.push(own)?;
        }
    }
    Ok(found)
}

/// The first declared type with the name of a type of actions.
fn of_actions(
    types: &[Declaration<EntityType, ValidatorEntityTypeKind>],
) -> Option<&Placed<EntityType>> {
    types
        .iter()
        .find_map(|d| d.names.iter().find(|own| own.name.is_action()))
}

/// The first enumerated type without ids.
fn without_ids(
    types: &[Declaration<EntityType, ValidatorEntityTypeKind>],
) -> Option<&Placed<EntityType>> {
    types
        .iter()
        .find(|d| has_no_ids(&d.kind))
        .and_then(|d| d.names.first())
}

/// Adds a fault for each name for which the schema is refused.
pub fn add_refusals(
    alloc: Global,
    read: &Declarations,
    faults: &mut Vec<SchemaFault>,
) -> Result<(), AllocError> {
    for own in &repetitions(alloc, read.entity_types.as_slice())? {
        let name = refused(alloc, own)?;
        faults.push(SchemaFault::Refused(SchemaError::DuplicateEntityType, name))?;
    }
    for own in &repetitions(alloc, read.actions.as_slice())? {
        let name = refused(alloc, own)?;
        faults.push(SchemaFault::Refused(SchemaError::DuplicateAction, name))?;
    }
    for declaration in &read.entity_types {
        add_refusals_of_type(alloc, declaration, faults)?;
    }
    Ok(())
}

/// Adds a fault for each name of a declaration that names a type of actions, and for its first name
/// if it has no ids.
fn add_refusals_of_type(
    alloc: Global,
    declaration: &Declaration<EntityType, ValidatorEntityTypeKind>,
    faults: &mut Vec<SchemaFault>,
) -> Result<(), AllocError> {
    for own in &declaration.names {
        if own.name.is_action() {
            let name = refused(alloc, own)?;
            faults.push(SchemaFault::Refused(SchemaError::ActionTypeDeclared, name))?;
        }
    }
    match declaration.names.first() {
        Some(own) if has_no_ids(&declaration.kind) => {
            let name = refused(alloc, own)?;
            faults.push(SchemaFault::Refused(SchemaError::EmptyEnum, name))?;
            Ok(())
        }
        _ => Ok(()),
    }
}

fn has_no_ids(kind: &ValidatorEntityTypeKind) -> bool {
    match kind {
        ValidatorEntityTypeKind::Enum(ids) => ids.as_slice().is_empty(),
        _ => false,
    }
}

/// The first named type that is neither declared nor one of actions, or that is the type of a
/// context and no record. The lookup of names fails at both.
fn unfit(alloc: Global, text: &str) -> Result<Option<RefusedName>, ReadError> {
    let start = match declarations_of(alloc, text, Named::Declared) {
        Ok(_) => return Ok(None),
        Err(ReadError::At(start, _)) => start,
        Err(memory) => return Err(memory),
    };
    let rest = text.get(start..).unwrap_or("");
    let name = placed_name(&mut Cursor::new(alloc, rest)?)?.name;
    Ok(Some(RefusedName {
        name: name.to_string(alloc)?,
        start,
    }))
}
