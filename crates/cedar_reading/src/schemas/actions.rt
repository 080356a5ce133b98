// Action declarations: reading them, and the meaning of their names.
use crate::cursor::Cursor;
use crate::faults::{Fault, ReadError};
use crate::members::key;
use crate::names::placed_name;
use crate::schemas::applications::{application, meant_application};
use crate::schemas::declarations::{ActionDeclaration, Declaration};
use crate::schemas::expansions::Expansions;
use crate::schemas::lists::{Listable, one_or_more, own_names};
use crate::schemas::meanings::{Names, own_action};
use crate::schemas::written::{Placed, WrittenAction, WrittenActions};
use crate::texts::text;
use crate::tokens::TokenKind;
use cedar_types::base::{EntityUID, Name, ValidatorActionKind};
use std::rc::RcStr;

/// Reads a declaration of actions behind its first word.
pub fn action_declaration(
    cursor: &mut Cursor<'_>,
    namespace: &[RcStr],
) -> Result<WrittenActions, ReadError> {
    let names = own_names(cursor, namespace)?;
    let before = cursor.tokens();
    let parents = if cursor.takes("in") {
        one_or_more(cursor)?
    } else {
        Vec::new(cursor.alloc)
    };
    let applies_to = if cursor.takes("appliesTo") {
        application(cursor)?
    } else {
        Vec::new(cursor.alloc)
    };
    cursor.expect(";")?;
    Ok(WrittenActions {
        names,
        tokens: cursor.tokens().saturating_sub(before),
        parents,
        applies_to,
    })
}

impl Listable for Placed<EntityUID> {
    /// Reads an id that is declared.
    fn read(cursor: &mut Cursor<'_>, namespace: &[RcStr]) -> Result<Self, ReadError> {
        let start = cursor.start();
        let eid = key(cursor)?;
        let name = own_action(cursor.alloc, namespace, eid.as_str())?;
        Ok(Placed { name, start })
    }
}

impl Listable for WrittenAction {
    /// Reads an action that is declared elsewhere: its id as a name or as a text, or as a text
    /// behind its type.
    fn read(cursor: &mut Cursor<'_>, _namespace: &[RcStr]) -> Result<Self, ReadError> {
        let alloc = cursor.alloc;
        let start = cursor.start();
        if cursor.peek().kind != TokenKind::Word {
            let eid = text(cursor)?;
            return Ok(WrittenAction {
                type_name: Name::unqualified_name(alloc, "Action")?,
                eid: RcStr::from_str(alloc, eid.as_str())?,
                start,
            });
        }
        let read = placed_name(cursor)?;
        if !read.is_of_id && read.name.path.is_empty() {
            return Ok(WrittenAction {
                type_name: Name::unqualified_name(alloc, "Action")?,
                eid: read.name.basename.clone()?,
                start,
            });
        }
        if !read.is_of_id {
            return Err(cursor.fault(Fault::Missing("::")));
        }
        let eid = text(cursor)?;
        Ok(WrittenAction {
            type_name: read.name,
            eid: RcStr::from_str(alloc, eid.as_str())?,
            start,
        })
    }
}

/// The declaration, with the meaning of the names in it.
pub fn meant_actions(
    written: WrittenActions,
    names: &Names<'_>,
    expansions: &mut Expansions,
) -> Result<ActionDeclaration, ReadError> {
    let mut parents = Vec::new(names.alloc);
    for parent in &written.parents {
        let name = names.action(&parent.type_name, parent.eid.as_str())?;
        parents.push(Placed {
            name,
            start: parent.start,
        })?;
    }
    let applies_to = meant_application(&written.applies_to, names, expansions)?;
    Ok(Declaration {
        names: written.names,
        parents,
        kind: ValidatorActionKind::Defined(applies_to),
    })
}
