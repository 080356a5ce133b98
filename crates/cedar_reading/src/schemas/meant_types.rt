// Meanings of written types. Each call goes one step deeper into the grammar, through aliases too.
use crate::faults::{Fault, ReadError};
use crate::notes::Met;
use crate::schemas::expansions::Expansions;
use crate::schemas::language::{primitive, undeclared_type, unsure_type};
use crate::schemas::meanings::Names;
use crate::schemas::written::{Alias, WrittenName, WrittenRecord, WrittenType};
use cedar_types::base::{AttributeType, Attributes, CedarType, OpenTag};
use std::alloc::Global;
use std::collections::BTreeMap;

/// The type that `written` means.
#[cycle(meant_types)]
pub fn meant_type(
    written: &WrittenType,
    names: &Names<'_>,
    left: usize,
    expansions: &mut Expansions,
) -> Result<CedarType, ReadError> {
    let inner = expansions.deeper(left, written.start())?;
    match written {
        WrittenType::Known(known, start) => {
            expansions.deeper(inner, *start)?;
            Ok(known.clone()?)
        }
        WrittenType::Unknown(start) => unknown_type(names.alloc, *start, expansions),
        WrittenType::Named(name) => meant_name(name, names, inner, expansions),
        WrittenType::Set(element, _) => {
            let element = meant_type(element, names, inner, expansions)?;
            Ok(CedarType::set(names.alloc, element)?)
        }
        WrittenType::Record(record) => meant_record(record, names, inner, expansions),
    }
}

/// The type of a record.
#[cycle(meant_types)]
fn meant_record(
    record: &WrittenRecord,
    names: &Names<'_>,
    left: usize,
    expansions: &mut Expansions,
) -> Result<CedarType, ReadError> {
    let inner = expansions.deeper(left, record.start)?;
    let attributes = meant_attributes(record, names, inner, expansions)?;
    Ok(CedarType::record_with_attributes(attributes, OpenTag::ClosedAttributes))
}

/// The attributes of a record or of entities.
#[cycle(meant_types)]
pub fn meant_attributes(
    record: &WrittenRecord,
    names: &Names<'_>,
    left: usize,
    expansions: &mut Expansions,
) -> Result<Attributes, ReadError> {
    let inner = expansions.deeper(left, record.start)?;
    let mut attrs = BTreeMap::new(names.alloc);
    for written in &record.attributes {
        let attr_type = meant_type(&written.attr_type, names, inner, expansions)?;
        let attribute = AttributeType::new(attr_type, written.is_required);
        let is_repeated = attrs.insert(written.key.clone()?, attribute)?.is_some();
        // the fault was noted at the declaration of the record
        if is_repeated && !expansions.notes.are_taken() {
            return Err(ReadError::At(record.start, Fault::SameKey));
        }
    }
    Ok(Attributes::with_attributes(names.alloc, attrs)?)
}

/// The type of a name.
#[cycle(meant_types)]
pub fn meant_name(
    name: &WrittenName,
    names: &Names<'_>,
    left: usize,
    expansions: &mut Expansions,
) -> Result<CedarType, ReadError> {
    let inner = expansions.deeper(left, name.start)?;
    match names.alias(&name.name)? {
        Some(alias) => {
            expansions.notes.use_alias(name.start, alias.own_start)?;
            meant_alias(alias, name, names, inner, expansions)
        }
        None => type_of_name(name, names, expansions),
    }
}

/// The type of an alias that `name` means.
#[cycle(meant_types)]
fn meant_alias(
    alias: &Alias,
    name: &WrittenName,
    names: &Names<'_>,
    left: usize,
    expansions: &mut Expansions,
) -> Result<CedarType, ReadError> {
    let inner = expansions.deeper(left, name.behind)?;
    if expansions.is_passed(alias, name) {
        return Ok(unsure_type(names.alloc)?);
    }
    if let Some(known) = expansions.known(alias, name, inner)? {
        return Ok(known);
    }
    let own = Names {
        namespace: alias.name.path.as_slice(),
        ..*names
    };
    let outside = expansions.begin(alias, name)?;
    let read = meant_type(&alias.written, &own, inner, expansions);
    expansions.end(outside, alias, name, inner, read)
}

/// A type in the place of one that the language does not have. The fault was noted at that type,
/// unless it stands in an alias.
fn unknown_type(
    alloc: Global,
    start: usize,
    expansions: &Expansions,
) -> Result<CedarType, ReadError> {
    if expansions.notes.are_taken() {
        Ok(unsure_type(alloc)?)
    } else {
        Err(ReadError::At(start, Fault::Undeclared))
    }
}

/// The type of a name that is no alias.
fn type_of_name(
    name: &WrittenName,
    names: &Names<'_>,
    expansions: &mut Expansions,
) -> Result<CedarType, ReadError> {
    let alloc = names.alloc;
    if !names.declared.has_primitive_word {
        if let Some(own) = primitive(&name.name) {
            return Ok(own);
        }
    }
    let meant = names.entity_type(&name.name)?;
    let is_declared = names.declared.has_type(&meant);
    match undeclared_type(alloc, &meant.name)? {
        Some(own) if !is_declared => Ok(own),
        _ if names.declared.unsure.has(&meant.name.basename) => Ok(unsure_type(alloc)?),
        _ => {
            if !is_declared && names.is_unknown(&meant) {
                expansions.notes.meet(name.start, Met::UnknownType)?;
            }
            Ok(CedarType::named_entity_reference(alloc, meant)?)
        }
    }
}
