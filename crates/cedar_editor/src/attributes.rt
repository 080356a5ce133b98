// Attributes of types, in the text of a schema.
use crate::outlines::{Declared, DeclaredKind, behind_annotation};
use crate::tokens::{Token, TokenKind, token_from};
use cedar_types::base::Loc;

/// The most aliases that are followed one after another, and the most parts of a path.
const MAX_ALIASES: usize = 100;

/// An attribute of a type: the place of its name, and the byte at which its own type begins.
#[derive(Clone, Copy)]
pub struct Attribute {
    pub place: Loc,
    pub body: usize,
}

/// The attribute of this name in the type that begins at a byte, if there is one.
pub fn attribute_in(
    text: &str,
    declared: &[Declared],
    body: usize,
    attr: &str,
) -> Option<Attribute> {
    let mut start = body;
    for _ in 0..MAX_ALIASES {
        let token = token_from(text, start);
        if token.is("{") {
            return attribute_behind(text, token.place.end, attr);
        }
        start = declared_type(text, declared, token)?.body?;
    }
    None
}

/// The declaration of the type whose name begins with this word: the first one with this name in any namespace.
fn declared_type<'a>(
    text: &str,
    declared: &'a [Declared],
    first: Token<'_>,
) -> Option<&'a Declared> {
    let mut end = first.place.end;
    for _ in 0..MAX_ALIASES {
        let mark = token_from(text, end);
        if !mark.is("::") {
            break;
        }
        end = token_from(text, mark.place.end).place.end;
    }
    let name = text.get(first.place.start..end)?;
    declared.iter().find(|it| it.kind != DeclaredKind::Action
        && ends_with_name(it.name.as_str(), name))
}

/// Whether a full name is this name, in any namespace.
fn ends_with_name(full: &str, name: &str) -> bool {
    match full.strip_suffix(name) {
        Some(path) => path.is_empty() || path.ends_with("::"),
        None => false,
    }
}

/// The attribute of this name behind the opening brace of a record, if there is one.
fn attribute_behind(text: &str, from: usize, attr: &str) -> Option<Attribute> {
    let mut at = from;
    let mut depth = 0usize;
    let mut is_at_key = true;
    for _ in from..text.len() {
        let token = token_from(text, at);
        at = token.place.end;
        let is_name = matches!(token.kind, TokenKind::Word | TokenKind::Text);
        if is_name && depth == 0 && is_at_key {
            if token.text.trim_matches('"') == attr {
                let body = type_behind(text, at);
                return Some(Attribute {
                    place: token.place,
                    body,
                });
            }
            is_at_key = false;
            continue;
        }
        match token.text {
            "" => return None,
            "@" => at = behind_annotation(text, at),
            "{" | "<" => depth = depth.saturating_add(1),
            "}" | ">" => depth = depth.checked_sub(1)?,
            "," if depth == 0 => is_at_key = true,
            _ => {}
        }
    }
    None
}

/// The byte behind `:`, or behind `?` and `:`, at which the type of an attribute begins.
fn type_behind(text: &str, from: usize) -> usize {
    let mark = token_from(text, from);
    if mark.is("?") {
        return token_from(text, mark.place.end).place.end;
    }
    mark.place.end
}
