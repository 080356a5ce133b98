//! Names inside of schemas: hovers on them, and the declarations that they mean.
use crate::hovers::{Hover, declaration_shown};
use crate::outlines::{Declared, DeclaredKind, behind_annotation, find_declared};
use crate::schemas::SchemaText;
use crate::tokens::{Token, TokenKind, token_from};
use cedar_types::base::Loc;
use std::alloc::{AllocError, Global};

/// A name in a text of a schema, and the declaration that it means.
#[derive(Clone, Copy)]
pub struct NamedDeclaration<'a> {
    /// The place of the name.
    pub place: Loc,
    /// The number of the text that has the declaration.
    pub number: usize,
    pub declared: &'a Declared,
}

/// A name at a place of a text: that of an action, or of a type.
#[derive(Clone, Copy)]
struct Used<'a> {
    place: Loc,
    name: &'a str,
    is_action: bool,
}

/// The declaration that the name at a byte of one of a schema's texts means: the declaration itself at a name that it declares,
/// else the one that the name has in its namespace, or outside of all namespaces. None if no declaration has it. If memory is
/// refused, the answer is an `AllocError`.
pub fn declaration_at<'a>(
    alloc: Global,
    texts: &'a [SchemaText],
    number: usize,
    byte: usize,
) -> Result<Option<NamedDeclaration<'a>>, AllocError> {
    let Some(own) = texts.get(number) else {
        return Ok(None);
    };
    let mut around: Option<&Declared> = None;
    for declared in &own.declared {
        if covers(declared.place, byte) {
            return Ok(Some(NamedDeclaration {
                place: declared.place,
                number,
                declared,
            }));
        }
        if covers(declared.whole, byte) {
            around = Some(declared);
        }
    }
    let Some(around) = around else {
        return Ok(None);
    };
    let Some(used) = used_at(own.text.as_str(), around, byte) else {
        return Ok(None);
    };
    declaration_of(alloc, texts, around, used)
}

/// The hover on the name at a byte of one of a schema's texts: the declaration that it means. None if no declaration has it. If
/// memory is refused, the answer is an `AllocError`.
pub fn schema_hover_at(
    alloc: Global,
    texts: &[SchemaText],
    number: usize,
    byte: usize,
) -> Result<Option<Hover>, AllocError> {
    let Some(named) = declaration_at(alloc, texts, number, byte)? else {
        return Ok(None);
    };
    let Some(other) = texts.get(named.number) else {
        return Ok(None);
    };
    Ok(Some(Hover {
        place: named.place,
        text: declaration_shown(alloc, other.text.as_str(), named.declared)?,
    }))
}

fn covers(place: Loc, byte: usize) -> bool {
    place.start <= byte && byte < place.end
}

/// The declaration of a name that another declaration uses.
fn declaration_of<'a>(
    alloc: Global,
    texts: &'a [SchemaText],
    around: &Declared,
    used: Used<'_>,
) -> Result<Option<NamedDeclaration<'a>>, AllocError> {
    let kinds: &[DeclaredKind] = if used.is_action {
        &[DeclaredKind::Action]
    } else {
        &[DeclaredKind::CommonType, DeclaredKind::EntityType]
    };
    let outside = outside_name(alloc, used)?;
    let mut inside = String::from_str(alloc, namespace_of(around))?;
    inside.push_str(outside.as_str())?;
    for name in &[inside.as_str(), outside.as_str()] {
        for kind in kinds {
            for (number, text) in texts.iter().enumerate() {
                if let Some(declared) = find_declared(text.declared.as_slice(), *kind, name) {
                    return Ok(Some(NamedDeclaration {
                        place: used.place,
                        number,
                        declared,
                    }));
                }
            }
        }
    }
    Ok(None)
}

/// The namespace of a declaration with the `::` behind it; empty outside of all namespaces.
fn namespace_of(declared: &Declared) -> &str {
    let name = declared.name.as_str();
    let path = match declared.kind {
        DeclaredKind::Action => name.split_once("Action::\"").map(|parts| parts.0),
        _ => name.rsplit_once("::").map(|parts| parts.0),
    };
    let size = match (declared.kind, path) {
        (_, None) => 0,
        (DeclaredKind::Action, Some(path)) => path.len(),
        (_, Some(path)) => path.len().saturating_add(2),
    };
    name.get(..size).unwrap_or("")
}

/// The full name outside of all namespaces, as a declaration shows it.
fn outside_name(alloc: Global, used: Used<'_>) -> Result<String, AllocError> {
    if !used.is_action || used.name.contains("::") {
        return String::from_str(alloc, used.name);
    }
    let id = used.name.trim_matches('"');
    format!(in alloc; "Action::\"{id}\"")
}

/// The name at a byte of a declaration, if it uses one there. A key of a record is no name, and a text in quotes only among the
/// groups of an action.
fn used_at<'a>(text: &'a str, around: &Declared, byte: usize) -> Option<Used<'a>> {
    let mut at = around.whole.start;
    let mut is_action = false;
    for _ in around.whole.start..around.whole.end {
        let token = token_from(text, at);
        if token.kind == TokenKind::End || byte < token.place.start {
            return None;
        }
        if token.is("@") {
            at = behind_annotation(text, token.place.end);
            continue;
        }
        if token.is("in") {
            is_action = around.kind == DeclaredKind::Action;
        }
        if token.is("appliesTo") {
            is_action = false;
        }
        let place = Loc {
            start: token.place.start,
            end: path_end(text, token),
        };
        at = place.end;
        if covers(place, byte) {
            return used_as(text, token, place, is_action);
        }
    }
    None
}

/// The name with which a token begins, if it is one.
fn used_as<'a>(text: &'a str, token: Token<'_>, place: Loc, is_action: bool) -> Option<Used<'a>> {
    let may_be = token.kind == TokenKind::Word || (is_action && token.kind == TokenKind::Text);
    let next = token_from(text, place.end);
    if !may_be || next.is(":") || next.is("?") {
        return None;
    }
    Some(Used {
        place,
        name: text.get(place.start..place.end)?,
        is_action,
    })
}

/// The byte at which a name ends that begins with a token: words with `::` between them, and perhaps an id in quotes.
fn path_end(text: &str, first: Token<'_>) -> usize {
    let mut end = first.place.end;
    if first.kind != TokenKind::Word {
        return end;
    }
    for _ in end..text.len() {
        let mark = token_from(text, end);
        let next = token_from(text, mark.place.end);
        let is_part = matches!(next.kind, TokenKind::Word | TokenKind::Text);
        if !mark.is("::") || !is_part {
            break;
        }
        end = next.place.end;
    }
    end
}
