// Types of the language, which need no declaration.
use crate::names::is_extension;
use cedar_types::base::{Attributes, CedarType, Name, OpenTag};
use std::alloc::{AllocError, Global};
use std::collections::BTreeMap;

/// A type in the place of one that is not known: a record, because a record may stand anywhere.
pub fn unsure_type(alloc: Global) -> Result<CedarType, AllocError> {
    let attributes = Attributes::with_attributes(alloc, BTreeMap::new(alloc))?;
    Ok(CedarType::record_with_attributes(attributes, OpenTag::ClosedAttributes))
}

/// The last part of a name that begins with `__cedar::`, if it does.
pub fn name_of_language(alloc: Global, name: &Name) -> Result<Option<Name>, AllocError> {
    match name.path.as_slice() {
        [own] if own.as_str() == "__cedar" => {
            let name = Name::unqualified_name(alloc, name.basename.as_str())?;
            Ok(Some(name))
        }
        _ => Ok(None),
    }
}

/// The primitive or extension type of this name, which needs no declaration, if there is one.
pub fn undeclared_type(alloc: Global, name: &Name) -> Result<Option<CedarType>, AllocError> {
    if let Some(primitive) = primitive(name) {
        return Ok(Some(primitive));
    }
    if !is_extension(name) {
        return Ok(None);
    }
    Ok(Some(CedarType::extension(alloc, name.clone()?)?))
}

/// The primitive type of this name, if there is one.
pub fn primitive(name: &Name) -> Option<CedarType> {
    if !name.path.is_empty() {
        return None;
    }
    primitive_of(name.basename.as_str())
}

/// The primitive type of this word, if there is one.
pub fn primitive_of(word: &str) -> Option<CedarType> {
    match word {
        "Bool" | "Boolean" => Some(CedarType::primitive_boolean()),
        "Long" => Some(CedarType::primitive_long()),
        "String" => Some(CedarType::primitive_string()),
        _ => None,
    }
}
