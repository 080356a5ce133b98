// Hints against names of types, actions and ids that the schema does not declare.
use crate::search_room::SearchRoom;
use crate::similar::Search;
use cedar_types::base::{EntityType, EntityUID, ValidatorEntityTypeKind, ValidatorSchema};
use std::alloc::{AllocError, Global};
use std::rc::RcStr;

/// The most ids of an enumerated type that are listed: few, so that the hint stays in one line.
const MAX_IDS_LISTED: usize = 5;

/// The most entity types or actions of a schema that are listed.
const MAX_NAMES_LISTED: usize = 6;

/// The words before the entity types or actions of a schema.
const BEFORE_NAMES: &str = "the schema declares ";

/// The declared type with the nearest name, in any namespace; or all types, if there are few. The hint is empty once the room
/// is used up.
pub fn hint_for_type(
    alloc: Global,
    schema: &ValidatorSchema,
    unknown: &EntityType,
    room: &mut SearchRoom,
) -> Result<String, AllocError> {
    if room.is_used_up() {
        return Ok(String::new(alloc));
    }
    let mut search = Search::new(alloc, unknown.name.basename.as_str())?;
    let mut nearest = None;
    for name in schema.entity_type_names(alloc)? {
        if search.is_over() {
            break;
        }
        let is_elsewhere = name.name.path != unknown.name.path;
        if search.is_nearer(name.name.basename.as_str(), is_elsewhere)? {
            nearest = Some(name);
        }
    }
    room.take(&search);
    match nearest {
        Some(name) => format!(in alloc; "did you mean `{name}`?"),
        None => list_types(alloc, schema),
    }
}

/// The declared action with the nearest id, in any namespace; or all actions, if there are few. If the id begins with the text
/// of a type, only the rest is compared. The hint is empty once the room is used up.
pub fn hint_for_action(
    alloc: Global,
    schema: &ValidatorSchema,
    unknown: &EntityUID,
    room: &mut SearchRoom,
) -> Result<String, AllocError> {
    if room.is_used_up() {
        return Ok(String::new(alloc));
    }
    let mut search = Search::new(alloc, id_alone(unknown.eid.as_str()))?;
    let mut nearest = None;
    for action in schema.action_ids(alloc)? {
        if search.is_over() {
            break;
        }
        let is_elsewhere = action.name.entity_type != unknown.entity_type;
        if search.is_nearer(action.name.eid.as_str(), is_elsewhere)? {
            nearest = Some(&action.name);
        }
    }
    room.take(&search);
    match nearest {
        Some(name) => format!(in alloc; "did you mean `{name}`?"),
        None => list_actions(alloc, schema),
    }
}

/// All entity types of a schema, if they are few; else an empty text.
fn list_types(alloc: Global, schema: &ValidatorSchema) -> Result<String, AllocError> {
    let mut hint = String::new(alloc);
    for (number, name) in schema.entity_type_names(alloc)?.iter().enumerate() {
        if number >= MAX_NAMES_LISTED {
            return Ok(String::new(alloc));
        }
        let before = if number == 0 { BEFORE_NAMES } else { ", " };
        write!(hint, "{before}`{name}`")?;
    }
    Ok(hint)
}

/// All actions of a schema, if they are few; else an empty text.
fn list_actions(alloc: Global, schema: &ValidatorSchema) -> Result<String, AllocError> {
    let mut hint = String::new(alloc);
    for (number, action) in schema.action_ids(alloc)?.iter().enumerate() {
        if number >= MAX_NAMES_LISTED {
            return Ok(String::new(alloc));
        }
        let before = if number == 0 { BEFORE_NAMES } else { ", " };
        write!(hint, "{before}`{}`", action.name)?;
    }
    Ok(hint)
}

/// The id in a text such as `Action::"view"` or `Action::view`.
fn id_alone(eid: &str) -> &str {
    match eid.rsplit_once("::") {
        Some((_, id)) => id.trim_matches('"'),
        None => eid,
    }
}

/// The nearest id of an enumerated type, or a list of its ids. If a type has many, the first are compared. Once the room is
/// used up, the ids are listed.
pub fn hint_for_id(
    alloc: Global,
    schema: &ValidatorSchema,
    unknown: &EntityUID,
    room: &mut SearchRoom,
) -> Result<String, AllocError> {
    let Some(declared) = schema.get_entity_type(&unknown.entity_type) else {
        return Ok(String::new(alloc));
    };
    let ValidatorEntityTypeKind::Enum(ids) = &declared.kind else {
        return Ok(String::new(alloc));
    };
    match nearest_id(alloc, unknown.eid.as_str(), ids.as_slice(), room)? {
        Some(id) => format!(in alloc; "did you mean `{}::\"{id}\"`?", unknown.entity_type),
        None => list_ids(alloc, ids.as_slice()),
    }
}

fn nearest_id<'a>(
    alloc: Global,
    unknown: &str,
    ids: &'a [RcStr],
    room: &mut SearchRoom,
) -> Result<Option<&'a RcStr>, AllocError> {
    if room.is_used_up() {
        return Ok(None);
    }
    let mut search = Search::new(alloc, unknown)?;
    let mut nearest = None;
    for id in ids {
        if search.is_over() {
            break;
        }
        if search.is_nearer(id.as_str(), false)? {
            nearest = Some(id);
        }
    }
    room.take(&search);
    Ok(nearest)
}

/// The first ids, and the number of the others.
fn list_ids(alloc: Global, ids: &[RcStr]) -> Result<String, AllocError> {
    let mut hint = String::from_str(alloc, "there are ")?;
    let mut is_first = true;
    for id in ids.iter().take(MAX_IDS_LISTED) {
        if !is_first {
            hint.push_str(", ")?;
        }
        is_first = false;
        write!(hint, "`{id}`")?;
    }
    let others = ids.len().saturating_sub(MAX_IDS_LISTED);
    if others > 0 {
        write!(hint, " and {others} more")?;
    }
    Ok(hint)
}
