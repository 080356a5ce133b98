// Hints against attributes and tags that are not declared, or may be missing.
use crate::escapes::ShownId;
use crate::parts::{operation_at, text_at};
use crate::search_room::SearchRoom;
use crate::similar::Search;
use cedar_types::base::{
    Attributes, BinaryOp, CedarType, EntityKind, EntityLUB, EntityType, Loc, Template,
    UnsafeAttributeAccess, UnsafeOptionalAttributeAccess, UnsafeTagAccess, ValidatorEntityTypeKind,
    ValidatorSchema,
};
use std::alloc::{AllocError, Global};
use std::rc::RcStr;

/// The attribute with the nearest name, or one of several types that does not have the attribute.
pub fn hint_for_attribute(
    alloc: Global,
    schema: &ValidatorSchema,
    found: &UnsafeAttributeAccess,
    room: &mut SearchRoom,
) -> Result<String, AllocError> {
    if let CedarType::Entity(EntityKind::Entity(types)) = &found.accessed_type {
        if let Some(lacking) = type_without(schema, types, &found.attr) {
            return format!(in alloc; "of these types `{lacking}` does not declare it");
        }
    }
    hint_for_undeclared(alloc, schema, &found.accessed_type, &found.attr, room)
}

/// The attribute of a type that may be meant by one that the type does not declare, or an empty text. If there are several
/// entity types, the attributes of the first are compared. No attribute is searched for once the room is used up.
pub fn hint_for_undeclared(
    alloc: Global,
    schema: &ValidatorSchema,
    ty: &CedarType,
    attribute: &RcStr,
    room: &mut SearchRoom,
) -> Result<String, AllocError> {
    let attributes = match ty {
        CedarType::Record { attributes, .. } => Some(attributes),
        CedarType::Entity(EntityKind::Entity(types)) => types
            .iter()
            .next()
            .and_then(|first| attributes_of(schema, first)),
        _ => None,
    };
    let Some(attributes) = attributes else {
        return Ok(String::new(alloc));
    };
    match nearest_attribute(alloc, attribute.as_str(), attributes, room)? {
        Some(name) => format!(in alloc; "did you mean `{name}`?"),
        None => Ok(String::new(alloc)),
    }
}

fn nearest_attribute<'a>(
    alloc: Global,
    unknown: &str,
    attributes: &'a Attributes,
    room: &mut SearchRoom,
) -> Result<Option<&'a RcStr>, AllocError> {
    if room.is_used_up() {
        return Ok(None);
    }
    let mut search = Search::new(alloc, unknown)?;
    let mut nearest = None;
    for name in attributes.attrs.keys() {
        if search.is_over() {
            break;
        }
        if search.is_nearer(name.as_str(), false)? {
            nearest = Some(name);
        }
    }
    room.take(&search);
    Ok(nearest)
}

/// The attributes that a type declares.
fn attributes_of<'a>(
    schema: &'a ValidatorSchema,
    entity_type: &EntityType,
) -> Option<&'a Attributes> {
    match &schema.get_entity_type(entity_type)?.kind {
        ValidatorEntityTypeKind::Standard(standard) => Some(&standard.attributes),
        ValidatorEntityTypeKind::Enum(_) | ValidatorEntityTypeKind::External => None,
    }
}

/// The first of several types that does not declare an attribute, if another one does.
fn type_without<'a>(
    schema: &ValidatorSchema,
    types: &'a EntityLUB,
    attribute: &RcStr,
) -> Option<&'a EntityType> {
    let mut lacking = None;
    let mut is_declared = false;
    for entity_type in types.iter() {
        if declares(schema, entity_type, attribute) {
            is_declared = true;
        } else if lacking.is_none() {
            lacking = Some(entity_type);
        }
    }
    if is_declared { lacking } else { None }
}

fn declares(schema: &ValidatorSchema, entity_type: &EntityType, attribute: &RcStr) -> bool {
    match attributes_of(schema, entity_type) {
        Some(attributes) => attributes.get_attr(attribute).is_some(),
        None => false,
    }
}

/// The test for an optional attribute, as it can stand before the access.
pub fn hint_for_optional(
    alloc: Global,
    text: &str,
    found: &UnsafeOptionalAttributeAccess,
) -> Result<String, AllocError> {
    let attribute = found.attr.as_str();
    let access = text_at(text, found.source_loc).unwrap_or("");
    let Some(base) = base_of(access, attribute) else {
        return String::from_str(alloc, "`has` may guard it, as in `a has b && a.b`");
    };
    if is_word(attribute) {
        return format!(in alloc; "`has` may guard it, as in `{base} has {attribute} && {access}`");
    }
    let attribute = ShownId(attribute);
    format!(in alloc; "`has` may guard it, as in `{base} has \"{attribute}\" && {access}`")
}

/// The text before the last attribute of an access.
fn base_of<'a>(access: &'a str, attribute: &str) -> Option<&'a str> {
    let base = match access.strip_suffix(']') {
        Some(_) if attribute.contains('[') => return None,
        Some(inside) => inside.rsplit_once('[')?.0,
        None => {
            let point = access.strip_suffix(attribute)?.trim_end();
            point.strip_suffix('.')?
        }
    };
    let base = base.trim_end();
    (!base.is_empty()).then_some(base)
}

/// Whether an attribute can stand without quotes.
fn is_word(attribute: &str) -> bool {
    let is_kept = matches!(
        attribute,
        "true" | "false" | "if" | "then" | "else" | "in" | "is" | "like" | "has" | "__cedar"
    );
    !is_kept
        && attribute.starts_with(|c: char| c.is_ascii_alphabetic() || c == '_')
        && attribute
            .chars()
            .all(|c| c.is_ascii_alphanumeric() || c == '_')
}

/// The test for a tag, as it can stand before the access; or the hint that there are no tags.
pub fn hint_for_tag(
    alloc: Global,
    schema: &ValidatorSchema,
    policy: &Template,
    text: &str,
    found: &UnsafeTagAccess,
) -> Result<String, AllocError> {
    if let Some(types) = &found.entity_ty {
        if !have_tags(schema, types) {
            return format!(in alloc; "the schema declares no tags for `{types}`");
        }
    }
    match tag_access(alloc, policy, text, found.source_loc)? {
        Some((base, tag)) => format!(in alloc;
            "`hasTag` may guard it, as in `{base}.hasTag({tag}) && {base}.getTag({tag})`"
        ),
        None => String::from_str(
            alloc,
            "`hasTag` may guard it, as in `a.hasTag(\"b\") && a.getTag(\"b\")`",
        ),
    }
}

/// Whether one of these types declares tags.
fn have_tags(schema: &ValidatorSchema, types: &EntityLUB) -> bool {
    for entity_type in types.iter() {
        if has_tags(schema, entity_type) {
            return true;
        }
    }
    false
}

/// Whether a type declares tags, or may have some that it does not declare.
fn has_tags(schema: &ValidatorSchema, entity_type: &EntityType) -> bool {
    let Some(declared) = schema.get_entity_type(entity_type) else {
        return false;
    };
    match &declared.kind {
        ValidatorEntityTypeKind::Standard(standard) => standard.tags.is_some(),
        ValidatorEntityTypeKind::Enum(_) => false,
        ValidatorEntityTypeKind::External => true,
    }
}

/// The texts of the entity and of the tag in a short access.
fn tag_access<'a>(
    alloc: Global,
    policy: &Template,
    text: &'a str,
    place: Option<Loc>,
) -> Result<Option<(&'a str, &'a str)>, AllocError> {
    let Some(found) = operation_at(alloc, policy, place)? else {
        return Ok(None);
    };
    if found.operator != BinaryOp::GetTag {
        return Ok(None);
    }
    let tag = text_at(text, found.right.loc);
    let base = base_before(text, place, found.right.loc, ".getTag");
    Ok(match (base, tag) {
        (Some(base), Some(tag)) => Some((base, tag)),
        _ => None,
    })
}

/// The text at a place up to the method of this name, before its argument.
fn base_before<'a>(
    text: &'a str,
    place: Option<Loc>,
    argument: Option<Loc>,
    method: &str,
) -> Option<&'a str> {
    let whole = place?;
    let up_to = Loc {
        start: whole.start,
        end: argument?.start,
    };
    let (base, _) = text_at(text, Some(up_to))?.rsplit_once(method)?;
    Some(base.trim_end())
}
