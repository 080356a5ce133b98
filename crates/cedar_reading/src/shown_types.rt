// Types in the notation in which they are shown. Each call goes one step deeper into the grammar,
// up to `MAX_GRAMMAR_STEPS`.
use crate::cursor::{Cursor, MAX_GRAMMAR_STEPS};
use crate::faults::{Fault, ReadError};
use crate::members::key;
use crate::names::{is_extension, placed_name};
use crate::scopes::finish;
use cedar_types::base::{
    AttributeType, Attributes, CedarType, EntityKind, EntityLUB, EntityType, Name, OpenTag,
};
use std::alloc::Global;
use std::collections::BTreeMap;

/// Reads a text that is a shown type and nothing else: `Group|User` for either of them, `entity`
/// for any entity, `{user: User, nick?: Set<Long>}` with `..` as its last item if the record may
/// have others, `Set` for a set of anything, `Never`, `Bool`, `True`, `False`, `Long`, `String`.
///
/// `ipaddr`, `decimal`, `datetime` and `duration` are extension types. Any other name is one of an
/// entity type, which need not be declared. No name has a place. It fails if the text cannot be
/// read, and if memory is refused.
pub fn type_alone(alloc: Global, text: &str) -> Result<CedarType, ReadError> {
    let mut cursor = Cursor::new(alloc, text)?;
    let read = read_shown_type(&mut cursor, MAX_GRAMMAR_STEPS)?;
    finish(&cursor)?;
    Ok(read)
}

/// Reads a type.
#[cycle(shown_types)]
pub fn read_shown_type(cursor: &mut Cursor<'_>, left: usize) -> Result<CedarType, ReadError> {
    let Some(left) = left.checked_sub(1) else {
        return Err(cursor.fault(Fault::TooDeep));
    };
    if cursor.takes("{") {
        return read_shown_record(cursor, left);
    }
    if !cursor.takes("Set") {
        return named_type(cursor);
    }
    if !cursor.takes("<") {
        return Ok(CedarType::any_set());
    }
    let element = read_shown_type(cursor, left)?;
    cursor.expect(">")?;
    Ok(CedarType::set(cursor.alloc, element)?)
}

/// Reads the attributes of a record behind its `{`, with commas between them, and the end of the
/// record.
#[cycle(shown_types)]
fn read_shown_record(cursor: &mut Cursor<'_>, left: usize) -> Result<CedarType, ReadError> {
    let Some(left) = left.checked_sub(1) else {
        return Err(cursor.fault(Fault::TooDeep));
    };
    let mut attrs = BTreeMap::new(cursor.alloc);
    let mut is_open = OpenTag::ClosedAttributes;
    for _ in 0..cursor.most_left() {
        if let Some(tag) = end_of_record(cursor)? {
            is_open = tag;
            break;
        }
        let start = cursor.start();
        let key = key(cursor)?;
        let is_required = !cursor.takes("?");
        cursor.expect(":")?;
        let attr_type = read_shown_type(cursor, left)?;
        let attribute = AttributeType::new(attr_type, is_required);
        if attrs.insert(key, attribute)?.is_some() {
            return Err(ReadError::At(start, Fault::SameKey));
        }
        if !cursor.takes(",") {
            cursor.expect("}")?;
            break;
        }
    }
    let attributes = Attributes::with_attributes(cursor.alloc, attrs)?;
    Ok(CedarType::record_with_attributes(attributes, is_open))
}

/// Reads the end of a record, if it comes next: a brace, or two points and a brace if the record is
/// open.
fn end_of_record(cursor: &mut Cursor<'_>) -> Result<Option<OpenTag>, ReadError> {
    if cursor.takes("}") {
        return Ok(Some(OpenTag::ClosedAttributes));
    }
    if !cursor.takes(".") {
        return Ok(None);
    }
    cursor.expect(".")?;
    cursor.expect("}")?;
    Ok(Some(OpenTag::OpenAttributes))
}

/// Reads the name of a type, or those of several entity types with `|` between them.
fn named_type(cursor: &mut Cursor<'_>) -> Result<CedarType, ReadError> {
    let alloc = cursor.alloc;
    let first = placed_name(cursor)?.name;
    if let Some(whole) = type_by_name(&first) {
        return Ok(whole);
    }
    if is_extension(&first) {
        return Ok(CedarType::extension(alloc, first)?);
    }
    let mut types = EntityLUB::single_entity(alloc, EntityType::new(first, None))?;
    for _ in 0..cursor.most_left() {
        if !cursor.takes("|") {
            break;
        }
        let next = EntityType::new(placed_name(cursor)?.name, None);
        types = types.least_upper_bound(alloc, &EntityLUB::single_entity(alloc, next)?)?;
    }
    Ok(CedarType::Entity(EntityKind::Entity(types)))
}

/// The type of this name, if it is neither an entity type nor an extension type.
fn type_by_name(name: &Name) -> Option<CedarType> {
    if !name.path.is_empty() {
        return None;
    }
    match name.basename.as_str() {
        "Never" => Some(CedarType::Never),
        "Bool" => Some(CedarType::primitive_boolean()),
        "True" => Some(CedarType::singleton_boolean(true)),
        "False" => Some(CedarType::singleton_boolean(false)),
        "Long" => Some(CedarType::primitive_long()),
        "String" => Some(CedarType::primitive_string()),
        "entity" => Some(CedarType::any_entity_reference()),
        _ => None,
    }
}
