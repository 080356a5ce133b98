// Entity type declarations: reading them, and the meaning of their names.
use crate::cursor::{Cursor, MAX_GRAMMAR_STEPS};
use crate::faults::ReadError;
use crate::notes::Met;
use crate::schemas::declarations::{Declaration, TypeDeclaration};
use crate::schemas::expansions::Expansions;
use crate::schemas::lists::{Listable, Listing, one_or_more, own_names};
use crate::schemas::meanings::{Names, own_type};
use crate::schemas::meant_types::{meant_attributes, meant_type};
use crate::schemas::reserved::free_word;
use crate::schemas::types::{written_attributes, written_name, written_type};
use crate::schemas::written::{Placed, Role, WrittenKind, WrittenName, WrittenTypes};
use crate::texts::text;
use cedar_types::base::{
    Attributes, EntityType, EnumChoices, StandardValidatorEntityType, ValidatorEntityTypeKind,
};
use std::collections::BTreeMap;
use std::rc::RcStr;

/// Reads a declaration of entity types behind its first word.
pub fn entity_declaration(
    cursor: &mut Cursor<'_>,
    namespace: &[RcStr],
) -> Result<WrittenTypes, ReadError> {
    let names = own_names(cursor, namespace)?;
    let before = cursor.tokens();
    let mut parents = Vec::new(cursor.alloc);
    let kind = if cursor.takes("enum") {
        WrittenKind::Enum(ids(cursor)?)
    } else {
        if cursor.takes("in") {
            parents = one_or_more(cursor)?;
        }
        standard(cursor)?
    };
    cursor.expect(";")?;
    Ok(WrittenTypes {
        names,
        tokens: cursor.tokens().saturating_sub(before),
        parents,
        kind,
    })
}

impl Listable for Placed<EntityType> {
    /// Reads a name that the declaration declares.
    fn read(cursor: &mut Cursor<'_>, namespace: &[RcStr]) -> Result<Self, ReadError> {
        let start = cursor.start();
        let name = own_type(cursor.alloc, namespace, free_word(cursor)?)?;
        Ok(Placed { name, start })
    }
}

impl Listable for WrittenName {
    /// Reads a name that is declared elsewhere.
    fn read(cursor: &mut Cursor<'_>, _namespace: &[RcStr]) -> Result<Self, ReadError> {
        let read = written_name(cursor)?;
        cursor.notes.mention(&read, Role::EntityType)?;
        Ok(read)
    }
}

/// Reads the ids of an enumerated type.
pub fn ids(cursor: &mut Cursor<'_>) -> Result<EnumChoices, ReadError> {
    cursor.expect("[")?;
    let mut ids = Vec::new(cursor.alloc);
    for _ in 0..cursor.most_left() {
        if !Listing::InBrackets.goes_on(cursor, ids.len())? {
            break;
        }
        let id = text(cursor)?;
        ids.push(RcStr::from_str(cursor.alloc, id.as_str())?)?;
    }
    Ok(EnumChoices::new(cursor.alloc, ids)?)
}

/// Reads attributes and tags, both of which may be missing.
fn standard(cursor: &mut Cursor<'_>) -> Result<WrittenKind, ReadError> {
    let has_attributes = cursor.takes("=") || cursor.is_at("{");
    let attributes = if has_attributes {
        Some(written_attributes(cursor, MAX_GRAMMAR_STEPS)?)
    } else {
        None
    };
    let tags = if cursor.takes("tags") {
        Some(written_type(cursor, MAX_GRAMMAR_STEPS)?)
    } else {
        None
    };
    Ok(WrittenKind::Standard(attributes, tags))
}

/// The declaration, with the meanings of the names in it.
pub fn meant_entity_types(
    written: WrittenTypes,
    names: &Names<'_>,
    expansions: &mut Expansions,
) -> Result<TypeDeclaration, ReadError> {
    let mut parents = Vec::new(names.alloc);
    for parent in &written.parents {
        let name = meant_entity_type(parent, names, expansions)?;
        parents.push(Placed {
            name,
            start: parent.start,
        })?;
    }
    let kind = meant_kind(written.kind, names, expansions)?;
    Ok(Declaration {
        names: written.names,
        parents,
        kind,
    })
}

/// The entity type that a name means. An undeclared parent is no fault if names may be unknown.
pub fn meant_entity_type(
    written: &WrittenName,
    names: &Names<'_>,
    expansions: &mut Expansions,
) -> Result<EntityType, ReadError> {
    let meant = names.entity_type(&written.name)?;
    if names.is_unknown(&meant) {
        expansions.notes.meet(written.start, Met::UnknownType)?;
    }
    Ok(meant)
}

fn meant_kind(
    written: WrittenKind,
    names: &Names<'_>,
    expansions: &mut Expansions,
) -> Result<ValidatorEntityTypeKind, ReadError> {
    let (attributes, tags) = match written {
        WrittenKind::Enum(ids) => return Ok(ValidatorEntityTypeKind::Enum(ids)),
        WrittenKind::Standard(attributes, tags) => (attributes, tags),
    };
    let attributes = match &attributes {
        Some(record) => meant_attributes(record, names, MAX_GRAMMAR_STEPS, expansions)?,
        None => Attributes::with_attributes(names.alloc, BTreeMap::new(names.alloc))?,
    };
    let tags = match &tags {
        Some(tags) => Some(meant_type(tags, names, MAX_GRAMMAR_STEPS, expansions)?),
        None => None,
    };
    Ok(ValidatorEntityTypeKind::Standard(StandardValidatorEntityType { attributes, tags }))
}
