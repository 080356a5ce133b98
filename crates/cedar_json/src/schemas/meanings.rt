// Meanings of the names of types.
use crate::forms::{FormError, FormFault, items_of, text_of};
use crate::names::{is_extension_type, is_name};
use crate::schemas::declared::{Declared, qualify};
use crate::translations::Translation;
use crate::values::Value;
use cedar_types::base::Loc;
use std::alloc::{AllocError, Global};
use std::rc::RcStr;

/// The kind of type that a name has to name.
#[derive(Clone, Copy, PartialEq, Eq, Debug)]
pub enum NameOf {
    EntityType,
    CommonType,
    /// A common type, or else an entity type.
    Either,
}

/// The meaning of a name, by its whole name.
#[derive(PartialEq, Eq, Debug, Drop)]
pub enum Meaning {
    EntityType(String),
    CommonType(String),
    /// The name is not declared.
    Nothing,
}

/// The namespaces of a part of a schema: where it is written, and where it was declared, because
/// the body of a common type may be written in another namespace.
#[derive(Drop)]
pub struct Spaces {
    pub written: RcStr,
    pub declared: RcStr,
}

impl Spaces {
    /// Makes the namespaces of a part that is written in the namespace of its declaration.
    pub fn of(namespace: &RcStr) -> Result<Spaces, AllocError> {
        Ok(Spaces {
            written: namespace.clone()?,
            declared: namespace.clone()?,
        })
    }
}

/// Returns the meaning of a name in a namespace: a name without a path means first the declaration
/// of this namespace, and otherwise the declaration of exactly this name.
pub fn meaning_of(
    declared: &Declared<'_>,
    namespace: &str,
    name: &str,
    of: NameOf,
) -> Result<Meaning, AllocError> {
    if !name.contains("::") {
        let own = qualify(declared.alloc, namespace, name)?;
        let meant = declared_as(declared, own, of);
        if meant != Meaning::Nothing {
            return Ok(meant);
        }
    }
    Ok(declared_as(declared, String::from_str(declared.alloc, name)?, of))
}

/// Returns the declaration of this whole name.
fn declared_as(declared: &Declared<'_>, name: String, of: NameOf) -> Meaning {
    if of != NameOf::EntityType && declared.common_types.contains_key(&name) {
        return Meaning::CommonType(name);
    }
    if of != NameOf::CommonType && declared.entity_types.contains(&name) {
        return Meaning::EntityType(name);
    }
    Meaning::Nothing
}

/// Writes the name of a type, so that it has the same meaning in Cedar's syntax as in JSON.
pub fn put_type_name(
    out: &mut Translation,
    declared: &Declared<'_>,
    spaces: &Spaces,
    value: &Value,
    of: NameOf,
) -> Result<(), FormError> {
    let name = name_of(value)?;
    let start = value.place.start;
    let meant = meaning_of(declared, spaces.declared.as_str(), name, of)?;
    let whole = match &meant {
        Meaning::EntityType(whole) | Meaning::CommonType(whole) => whole.as_str(),
        Meaning::Nothing => name,
    };
    let written = meaning_of(declared, spaces.written.as_str(), whole, NameOf::Either)?;
    if meant == Meaning::Nothing && has_other_meaning(name, of, &written) {
        return Err(FormError::At(start, FormFault::Undeclared));
    }
    if written != meant {
        return Err(FormError::At(start, FormFault::Hidden));
    }
    out.put_from(value.place, whole);
    Ok(())
}

/// Returns whether a name that is not declared would have a meaning in Cedar's own syntax. All
/// other undeclared names are left to the reader of the written text, because it reports them
/// together.
fn has_other_meaning(name: &str, of: NameOf, written: &Meaning) -> bool {
    match of {
        NameOf::EntityType => *written != Meaning::Nothing || is_of_language(name),
        NameOf::CommonType => *written != Meaning::Nothing,
        NameOf::Either => false,
    }
}

/// Returns whether a name belongs to Cedar's own syntax and is not an entity type.
fn is_of_language(name: &str) -> bool {
    name.starts_with("__cedar::")
        || is_extension_type(name)
        || matches!(
            name,
            "Long" | "String" | "Bool" | "Boolean" | "Set" | "Record"
        )
}

/// A name of an entity type, and its place.
pub type NamedType<'a> = (Loc, &'a str);

/// Returns the names in a list. It notes and leaves out each item that is not a name.
pub fn names_in<'a>(
    alloc: Global,
    out: &mut Translation,
    list: &'a Value,
) -> Result<Vec<NamedType<'a>>, AllocError> {
    let mut names = Vec::new(alloc);
    for value in out.noted(items_of(list))?.unwrap_or(&[]) {
        if let Some(name) = out.noted(name_of(value))? {
            names.push((value.place, name))?;
        }
    }
    Ok(names)
}

/// Returns the name of a value, which has to be one.
pub fn name_of(value: &Value) -> Result<&str, FormError> {
    let name = text_of(value)?;
    if !is_name(name) {
        return Err(FormError::At(value.place.start, FormFault::Name));
    }
    Ok(name)
}

/// Writes names of entity types, in brackets.
pub fn put_entity_types(
    out: &mut Translation,
    names: &Vec<NamedType<'_>>,
) -> Result<(), FormError> {
    out.put("[");
    for (place, name) in names {
        out.put_from(*place, name);
        out.put(", ");
    }
    out.put("]");
    Ok(())
}
