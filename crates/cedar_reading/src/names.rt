// Names and ids of entities.
use crate::cursor::Cursor;
use crate::faults::{Expected, Fault, ReadError};
use crate::schemas::reserved::is_reserved;
use crate::texts::text;
use crate::tokens::TokenKind;
use cedar_types::base::{EntityType, EntityUID, Loc, Name};

/// A name, and its place.
#[derive(Drop)]
pub struct PlacedName {
    pub name: Name,
    pub place: Loc,
    /// Whether `::` and a text in quotes follow the name, as in an id.
    pub is_of_id: bool,
}

/// Reads a name: words with `::` between them. It also reads a `::` behind the name, if a text in
/// quotes follows that.
pub fn placed_name(cursor: &mut Cursor<'_>) -> Result<PlacedName, ReadError> {
    let alloc = cursor.alloc;
    let start = cursor.start();
    let mut path = Vec::new(alloc);
    let mut last = cursor.word()?;
    let mut place = cursor.since(start);
    for _ in 0..cursor.most_left() {
        if !cursor.takes("::") {
            let name = Name::new(alloc, last, path.as_slice())?;
            return Ok(PlacedName {
                name,
                place,
                is_of_id: false,
            });
        }
        if cursor.peek().kind == TokenKind::Text {
            break;
        }
        path.push(last)?;
        last = cursor.word()?;
        place = cursor.since(start);
    }
    let name = Name::new(alloc, last, path.as_slice())?;
    Ok(PlacedName {
        name,
        place,
        is_of_id: true,
    })
}

/// Reads a name of a policy. It fails with `Fault::Reserved` at a reserved word in the name.
pub fn free_name(cursor: &mut Cursor<'_>) -> Result<PlacedName, ReadError> {
    let read = placed_name(cursor)?;
    check_free(cursor, &read)?;
    Ok(read)
}

/// Fails with `Fault::Reserved` at the first word of the name that is reserved.
pub fn check_free(cursor: &Cursor<'_>, read: &PlacedName) -> Result<(), ReadError> {
    let mut words = cursor.at(read.place.start);
    for _ in 0..=read.name.path.len() {
        if is_reserved(words.peek().text) {
            return Err(words.fault(Fault::Reserved));
        }
        words.take();
        words.takes("::");
    }
    Ok(())
}

/// The error of a name in the place of an id: the text of the id has to stand in place of the last
/// word, or behind the name if it has one word.
pub fn no_id(cursor: &Cursor<'_>, read: &PlacedName) -> ReadError {
    if read.name.path.is_empty() {
        return cursor.fault(Fault::Missing("::"));
    }
    let size = read.name.basename.as_str().len();
    let start = read.place.end.saturating_sub(size);
    ReadError::At(start, Fault::Expected(Expected::Id))
}

/// Reads the name of an entity type.
pub fn entity_type(cursor: &mut Cursor<'_>) -> Result<EntityType, ReadError> {
    let read = free_name(cursor)?;
    Ok(EntityType::new(read.name, Some(read.place)))
}

/// Reads the text of an id behind the name of its type, which began at the byte `start`.
pub fn uid_of(
    cursor: &mut Cursor<'_>,
    start: usize,
    read: PlacedName,
) -> Result<EntityUID, ReadError> {
    let eid = text(cursor)?;
    let entity_type = EntityType::new(read.name, Some(read.place));
    let place = cursor.since(start);
    Ok(EntityUID::from_components(cursor.alloc, entity_type, eid.as_str(), Some(place))?)
}

/// Reads an id: `Type::"eid"`.
pub fn entity_uid(cursor: &mut Cursor<'_>) -> Result<EntityUID, ReadError> {
    let start = cursor.start();
    let read = free_name(cursor)?;
    if !read.is_of_id {
        return Err(no_id(cursor, &read));
    }
    uid_of(cursor, start, read)
}

/// Whether a name means an extension type, if no declared entity type has that name.
pub fn is_extension(name: &Name) -> bool {
    let basename = name.basename.as_str();
    name.path.is_empty() && matches!(basename, "ipaddr" | "decimal" | "datetime" | "duration")
}
