// Values that the tests share, written short.
use cedar_types::base::{
    CedarType, EntityKind, EntityLUB, EntityType, EntityUID, Loc, Name, PolicyID,
};
use std::alloc::{AllocError, Global};
use std::collections::BTreeSet;
use std::process::Abort;
use std::rc::RcStr;

/// The value in a box, which one call drops, because a proof pays for each part without the box.
pub fn boxed<T: Drop>(alloc: Global, value: T) -> Result<Box<T>, AllocError> {
    Ok(Box::new(alloc, value)?)
}

/// Adds an item to a list. It is a function, because a refused push hands its item back, and here that is dropped once, not at
/// each place.
pub fn add<T: Drop>(list: &mut Vec<T>, item: T) -> Result<(), AllocError> {
    list.push(item)?;
    Ok(())
}

/// A list of only this item.
pub fn alone<T: Drop>(alloc: Global, item: T) -> Result<Vec<T>, AllocError> {
    let mut list = Vec::new(alloc);
    list.push(item)?;
    Ok(list)
}

/// Asserts that a text is the wanted one.
pub fn assert_text(rt: &impl Abort, shown: &str, wanted: &str) {
    assert_eq!(rt; shown, wanted);
}

pub fn text(alloc: Global, s: &str) -> Result<RcStr, AllocError> {
    RcStr::from_str(alloc, s)
}

pub fn place(start: usize) -> Option<Loc> {
    Some(Loc { start, end: 90 })
}

pub fn policy(alloc: Global) -> Result<PolicyID, AllocError> {
    PolicyID::from_string(alloc, "policy0")
}

/// The type of this name, without a path and without a place.
pub fn entity_type(alloc: Global, name: &str) -> Result<EntityType, AllocError> {
    Ok(EntityType::from(Name::unqualified_name(alloc, name)?))
}

pub fn uid(alloc: Global, basename: &str, eid: &str) -> Result<EntityUID, AllocError> {
    EntityUID::from_components(alloc, entity_type(alloc, basename)?, eid, None)
}

pub fn types(alloc: Global, names: &[&str]) -> Result<BTreeSet<EntityType>, AllocError> {
    let mut types = BTreeSet::new(alloc);
    for name in names {
        types.insert(entity_type(alloc, name)?)?;
    }
    Ok(types)
}

/// The set of the types of these names, of which there must be at least one.
pub fn lub(alloc: Global, names: &[&str]) -> Result<EntityLUB, AllocError> {
    EntityLUB::from_types(alloc, types(alloc, names)?)?.ok_or(AllocError)
}

/// The type of the entities of the types of these names.
pub fn entity(alloc: Global, names: &[&str]) -> Result<CedarType, AllocError> {
    Ok(CedarType::Entity(EntityKind::Entity(lub(alloc, names)?)))
}
