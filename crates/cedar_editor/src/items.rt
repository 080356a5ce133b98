//! Items: names that may be written, and the texts that write them.
use cedar_findings::escapes::ShownId;
use cedar_types::base::{EntityType, Loc, ValidatorEntityTypeKind, ValidatorSchema};
use std::alloc::{AllocError, Global};

/// An operand or a method: its label, its detail, and the text that is written.
type Row = (&'static str, &'static str, &'static str);

/// Operands that may be written whatever the schema declares.
pub(crate) const OPERANDS: [Row; 8] = [
    ("principal", "who wants to act", "principal"),
    ("action", "what they want to do", "action"),
    ("resource", "what they want to do it to", "resource"),
    ("context", "what else the request says", "context"),
    ("ip", "ip(\"10.0.0.0/8\"): ipaddr", "ip(\"10.0.0.0/8\")"),
    ("decimal", "decimal(\"1.5\"): decimal", "decimal(\"1.5\")"),
    (
        "datetime",
        "datetime(\"2024-10-15\"): datetime",
        "datetime(\"2024-10-15\")",
    ),
    (
        "duration",
        "duration(\"1h30m\"): duration",
        "duration(\"1h30m\")",
    ),
];

/// Methods of a set, which stand after `.`.
pub(crate) const OF_SETS: [Row; 4] = [
    ("contains", "contains(element): Bool", "contains"),
    ("containsAll", "containsAll(set): Bool", "containsAll"),
    ("containsAny", "containsAny(set): Bool", "containsAny"),
    ("isEmpty", "isEmpty(): Bool", "isEmpty()"),
];

/// The kind of an item.
#[derive(Clone, Copy, PartialEq, Eq, Debug)]
pub enum ItemKind {
    Attribute,
    Operand,
    EntityType,
    /// One of the entities of an enumerated type.
    Entity,
    Action,
    Method,
}

/// A text that writes a name, and the place of the policy that it replaces.
#[derive(Drop)]
pub struct Writing {
    pub place: Loc,
    pub text: String,
}

/// A name that may be written.
#[derive(Drop)]
pub struct Item {
    pub label: String,
    pub kind: ItemKind,
    pub detail: String,
    /// How the name is written, if the label in the place of the completion would not be read as this name.
    pub writing: Option<Writing>,
}

/// The form in which an attribute is written.
#[derive(Clone, Copy, PartialEq, Eq)]
pub(crate) enum Form {
    /// An access: behind `.`, or as `["name"]` from the byte of the `.` on.
    Access { point: usize },
    /// A test behind `has`: a word, or a text in quotes.
    Test,
    /// A test behind `has` and an open quote.
    QuotedTest,
    /// A further name of a test of several attributes, which must be a word.
    FurtherTest,
}

/// The writing of an attribute in a form, at the place of a completion: `None` if the form has none for this name, and no writing
/// if the name itself is read. If memory is refused, the answer is an `AllocError`.
pub(crate) fn writing_of(
    alloc: Global,
    form: Form,
    place: Loc,
    name: &str,
) -> Result<Option<Option<Writing>>, AllocError> {
    let is_read = is_plain_word(name);
    let shown = ShownId(name);
    let writing = match form {
        Form::FurtherTest if !is_read => return Ok(None),
        Form::Access { point } if !is_read => Writing {
            place: Loc {
                start: point,
                end: place.end,
            },
            text: format!(in alloc; "[\"{shown}\"]")?,
        },
        Form::Test if !is_read => Writing {
            place,
            text: format!(in alloc; "\"{shown}\"")?,
        },
        Form::QuotedTest => Writing {
            place,
            text: format!(in alloc; "\"{shown}\"")?,
        },
        _ => return Ok(Some(None)),
    };
    Ok(Some(Some(writing)))
}

/// Whether a name is read without quotes: a word that the language does not keep for itself.
fn is_plain_word(name: &str) -> bool {
    let is_kept = matches!(
        name,
        "true" | "false" | "if" | "then" | "else" | "in" | "is" | "like" | "has" | "__cedar"
    );
    !is_kept
        && name.starts_with(|c: char| c.is_ascii_alphabetic() || c == '_')
        && name.chars().all(|c| c.is_ascii_alphanumeric() || c == '_')
}

/// Adds the names of entity types.
pub(crate) fn add_entity_types(
    alloc: Global,
    schema: &ValidatorSchema,
    items: &mut Vec<Item>,
) -> Result<(), AllocError> {
    for name in schema.entity_type_names(alloc)? {
        items.push(of_entity_type(alloc, name, None)?)?;
    }
    Ok(())
}

/// Adds what names an entity: each entity of an enumerated type, and the name of each other type, behind which an id is written.
pub(crate) fn add_entities(
    alloc: Global,
    schema: &ValidatorSchema,
    place: Loc,
    items: &mut Vec<Item>,
) -> Result<(), AllocError> {
    for entity_type in schema.entity_types(alloc)? {
        let name = &entity_type.name;
        if let ValidatorEntityTypeKind::Enum(choices) = &entity_type.kind {
            for id in choices.as_slice() {
                items.push(of_entity(alloc, name, id.as_str())?)?;
            }
            continue;
        }
        let text = format!(in alloc; "{name}::\"\"")?;
        items.push(of_entity_type(alloc, name, Some(Writing { place, text }))?)?;
    }
    Ok(())
}

fn of_entity_type(
    alloc: Global,
    name: &EntityType,
    writing: Option<Writing>,
) -> Result<Item, AllocError> {
    Ok(Item {
        label: name.to_string(alloc)?,
        kind: ItemKind::EntityType,
        detail: String::from_str(alloc, "entity type")?,
        writing,
    })
}

/// The item of an entity of an enumerated type.
fn of_entity(alloc: Global, name: &EntityType, id: &str) -> Result<Item, AllocError> {
    let shown = ShownId(id);
    Ok(Item {
        label: format!(in alloc; "{name}::\"{shown}\"")?,
        kind: ItemKind::Entity,
        detail: String::from_str(alloc, "entity of an enumerated type")?,
        writing: None,
    })
}

/// Adds the actions.
pub(crate) fn add_actions(
    alloc: Global,
    schema: &ValidatorSchema,
    items: &mut Vec<Item>,
) -> Result<(), AllocError> {
    for action in schema.action_ids(alloc)? {
        let (name, shown) = (&action.name.entity_type, ShownId(action.name.eid.as_str()));
        items.push(Item {
            label: format!(in alloc; "{name}::\"{shown}\"")?,
            kind: ItemKind::Action,
            detail: String::from_str(alloc, "action")?,
            writing: None,
        })?;
    }
    Ok(())
}

/// Adds the items of a table, which are written at a place.
pub(crate) fn add_all(
    alloc: Global,
    kind: ItemKind,
    table: &[Row],
    place: Loc,
    items: &mut Vec<Item>,
) -> Result<(), AllocError> {
    for (label, detail, text) in table {
        let writing = if label == text {
            None
        } else {
            let text = String::from_str(alloc, text)?;
            Some(Writing { place, text })
        };
        items.push(Item {
            label: String::from_str(alloc, label)?,
            kind,
            detail: String::from_str(alloc, detail)?,
            writing,
        })?;
    }
    Ok(())
}
