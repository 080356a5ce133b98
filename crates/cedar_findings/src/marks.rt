//! Characters in the ids, names and texts of a policy that may make it read as another one: marks of direction, because a text
//! can be shown in another order than it is compared in, and letters that may be taken for others.
use crate::codes::Code;
use crate::invisible::shows_nothing;
use crate::look_alikes::Letters;
use cedar_types::base::{
    ActionConstraint, EntityReference, EntityType, EntityUID, Expr, ExprKind, Literal, Loc,
    PatternElem, PrincipalOrResourceConstraint, Template,
};
use std::alloc::{AllocError, Global};

/// The kind of a text with such characters.
#[derive(Clone, Copy, PartialEq, Eq)]
enum Kind {
    Text,
    Id,
    Name,
    Attribute,
}

/// A text, an id, a name or an attribute with such characters.
#[derive(Clone, Copy, PartialEq, Eq)]
pub struct Marked {
    pub place: Option<Loc>,
    pub code: Code,
    /// The words of the finding.
    pub text: &'static str,
}

/// Each text, id, name and attribute of a policy that has such characters.
pub fn marked_parts(alloc: Global, policy: &Template) -> Result<Vec<Marked>, AllocError> {
    let mut marked = marked_in_scope(alloc, policy)?;
    if let Some(condition) = &policy.non_scope_constraints {
        for item in condition.subexpressions(alloc)? {
            add_part(&mut marked, item?)?;
        }
    }
    Ok(marked)
}

/// Each id and name in the scope of a policy that has such characters.
pub(crate) fn marked_in_scope(alloc: Global, policy: &Template) -> Result<Vec<Marked>, AllocError> {
    let mut marked = Vec::new(alloc);
    add_named(&mut marked, &policy.principal_constraint.constraint)?;
    match &policy.action_constraint {
        ActionConstraint::Any => {}
        ActionConstraint::Eq(action) => add_id(&mut marked, action)?,
        ActionConstraint::In(actions) => {
            for action in actions {
                add_id(&mut marked, action)?;
            }
        }
    }
    add_named(&mut marked, &policy.resource_constraint.constraint)?;
    Ok(marked)
}

/// Adds the type and the id that a constraint names.
fn add_named(
    marked: &mut Vec<Marked>,
    constraint: &PrincipalOrResourceConstraint,
) -> Result<(), AllocError> {
    match constraint {
        PrincipalOrResourceConstraint::Any => Ok(()),
        PrincipalOrResourceConstraint::Is(entity_type) => add_name(marked, entity_type),
        PrincipalOrResourceConstraint::Eq(reference) => add_reference(marked, reference),
        PrincipalOrResourceConstraint::In(reference) => add_reference(marked, reference),
        PrincipalOrResourceConstraint::IsIn(entity_type, reference) => {
            add_name(marked, entity_type)?;
            add_reference(marked, reference)
        }
    }
}

fn add_reference(marked: &mut Vec<Marked>, reference: &EntityReference) -> Result<(), AllocError> {
    match reference {
        EntityReference::EUID(id) => add_id(marked, id),
        EntityReference::Slot => Ok(()),
    }
}

fn add_id(marked: &mut Vec<Marked>, id: &EntityUID) -> Result<(), AllocError> {
    add_name(marked, &id.entity_type)?;
    add_text(marked, Kind::Id, id.loc, id.eid.as_str())
}

fn add_name(marked: &mut Vec<Marked>, entity_type: &EntityType) -> Result<(), AllocError> {
    let name = &entity_type.name;
    add_text(marked, Kind::Name, entity_type.loc, name.basename.as_str())?;
    for word in name.path.iter() {
        add_text(marked, Kind::Name, entity_type.loc, word.as_str())?;
    }
    Ok(())
}

/// Adds a part of a condition, if its own text, id, name or one of its own attributes has such characters.
pub(crate) fn add_part(marked: &mut Vec<Marked>, part: &Expr) -> Result<(), AllocError> {
    match &part.kind {
        ExprKind::Lit(Literal::EntityUID(id)) => add_id(marked, id),
        ExprKind::Is(_, entity_type) => add_name(marked, entity_type),
        ExprKind::Lit(Literal::String(text)) => {
            add_text(marked, Kind::Text, part.loc, text.as_str())
        }
        ExprKind::Like(_, pattern) => add_pattern(marked, part.loc, pattern),
        ExprKind::GetAttr(_, attr) | ExprKind::HasAttr(_, attr) => {
            add_text(marked, Kind::Attribute, part.loc, attr.as_str())
        }
        ExprKind::ExtHasAttr(_, chain) => {
            add_text(marked, Kind::Attribute, part.loc, chain.first.as_str())?;
            for attr in chain.rest.iter() {
                add_text(marked, Kind::Attribute, part.loc, attr.as_str())?;
            }
            Ok(())
        }
        ExprKind::Record(fields) => {
            for key in fields.keys() {
                add_text(marked, Kind::Attribute, part.loc, key.as_str())?;
            }
            Ok(())
        }
        _ => Ok(()),
    }
}

/// Adds the finding of a text, unless its place has one.
fn add_text(
    marked: &mut Vec<Marked>,
    kind: Kind,
    place: Option<Loc>,
    text: &str,
) -> Result<(), AllocError> {
    // letters of ASCII are of one script, and none of its characters is a mark
    if text.is_ascii() {
        return Ok(());
    }
    let mut characters = Characters::default();
    for c in text.chars() {
        characters.add(c);
    }
    add_characters(marked, kind, place, &characters)
}

fn add_pattern(
    marked: &mut Vec<Marked>,
    place: Option<Loc>,
    pattern: &Vec<PatternElem>,
) -> Result<(), AllocError> {
    let mut characters = Characters::default();
    for part in pattern.iter() {
        if let PatternElem::Char(c) = part {
            characters.add(*c);
        }
    }
    add_characters(marked, Kind::Text, place, &characters)
}

fn add_characters(
    marked: &mut Vec<Marked>,
    kind: Kind,
    place: Option<Loc>,
    characters: &Characters,
) -> Result<(), AllocError> {
    let Some((code, text)) = message(kind, characters) else {
        return Ok(());
    };
    let new = Marked { place, code, text };
    if marked.last() != Some(&new) {
        marked.push(new)?;
    }
    Ok(())
}

/// The properties of a text's characters.
#[derive(Clone, Copy, Default)]
struct Characters {
    has_marks: bool,
    has_invisible: bool,
    letters: Letters,
}

impl Characters {
    fn add(&mut self, c: char) {
        self.has_marks |= is_mark(c);
        self.has_invisible |= shows_nothing(c);
        self.letters.add(c);
    }
}

/// The finding of these characters, if they may be taken for others. A whole text in quotes may be of any language, so letters
/// that look like Latin ones, and characters that show nothing, count only in names, ids and attributes.
fn message(kind: Kind, characters: &Characters) -> Option<(Code, &'static str)> {
    if characters.has_marks {
        return Some((Code::Direction, with_marks(kind)));
    }
    let is_named = kind != Kind::Text;
    if is_named && characters.has_invisible {
        return Some((Code::LookAlike, with_invisible(kind)));
    }
    if characters.letters.are_mixed() {
        return Some((Code::LookAlike, of_several_scripts(kind)));
    }
    (is_named && characters.letters.look_latin()).then_some((Code::LookAlike, like_latin(kind)))
}

fn with_marks(kind: Kind) -> &'static str {
    match kind {
        Kind::Text => "a text with marks of direction, which may be shown in another order",
        Kind::Id => "an id with marks of direction, which may be shown in another order",
        Kind::Name => "a name with marks of direction, which may be shown in another order",
        Kind::Attribute =>
            "an attribute with marks of direction, which may be shown in another order",
    }
}

fn of_several_scripts(kind: Kind) -> &'static str {
    match kind {
        Kind::Text => "a text with letters of several scripts, of which some may look alike",
        Kind::Id => "an id with letters of several scripts, of which some may look alike",
        Kind::Name => "a name with letters of several scripts, of which some may look alike",
        Kind::Attribute =>
            "an attribute with letters of several scripts, of which some may look alike",
    }
}

fn with_invisible(kind: Kind) -> &'static str {
    match kind {
        Kind::Text => "a text with characters that show nothing",
        Kind::Id => "an id with characters that show nothing",
        Kind::Name => "a name with characters that show nothing",
        Kind::Attribute => "an attribute with characters that show nothing",
    }
}

fn like_latin(kind: Kind) -> &'static str {
    match kind {
        Kind::Text => "a text of letters that look like Latin ones and are others",
        Kind::Id => "an id of letters that look like Latin ones and are others",
        Kind::Name => "a name of letters that look like Latin ones and are others",
        Kind::Attribute => "an attribute of letters that look like Latin ones and are others",
    }
}

/// Whether a character changes the direction in which a text is shown: from there on, inside of it, or beside it.
fn is_mark(c: char) -> bool {
    matches!(
        c,
        '\u{61c}' | '\u{200e}' | '\u{200f}' | '\u{202a}'..='\u{202e}' | '\u{2066}'..='\u{2069}'
    )
}
