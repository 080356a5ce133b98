// Kinds of names that may be written at a byte of a policy.
use crate::tokens::{Token, TokenKind, is_in_word, token_from};
use cedar_types::base::Loc;
use std::alloc::{AllocError, Global};

/// The kind of name that is expected at a byte.
#[derive(Clone, Copy, PartialEq, Eq)]
pub enum Expected {
    /// An attribute or a method, after `.`.
    Member,
    /// An attribute, after `has`.
    Attribute,
    /// An entity type, after `is`.
    EntityType,
    /// An entity, which is compared.
    Entity,
    Action,
    Operand,
    /// No name, because the policy has ended.
    Nothing,
}

/// The tokens of a text.
pub fn tokens_of(alloc: Global, text: &str) -> Result<Vec<Token<'_>>, AllocError> {
    let mut tokens: Vec<Token<'_>> = Vec::new(alloc);
    let mut at = 0usize;
    for _ in 0..text.len() {
        let token = token_from(text, at);
        if token.kind == TokenKind::End {
            break;
        }
        tokens.push(token)?;
        at = token.place.end;
    }
    Ok(tokens)
}

/// The byte at which a name begins that ends with these tokens, at this byte: words with `::` between them, and an id in quotes,
/// of which the last may be missing.
pub fn name_start(tokens: &[Token<'_>], end: usize) -> usize {
    let mut start = end;
    for token in tokens.iter().rev() {
        let is_part = token.is("::") || matches!(token.kind, TokenKind::Text | TokenKind::Word);
        if !is_part || token.place.end != start {
            break;
        }
        start = token.place.start;
    }
    start
}

/// The kind of name that may stand behind tokens with which a policy begins.
pub fn expected_behind(tokens: &[Token<'_>]) -> Expected {
    let mut is_compared = false;
    // a comma stands between names that are compared only inside of brackets
    let mut is_behind_comma = false;
    for token in tokens.iter().rev() {
        let is_passed = is_compared || is_behind_comma;
        match token.text {
            ";" => return Expected::Nothing,
            "." if !is_passed => return Expected::Member,
            "has" if !is_passed => return Expected::Attribute,
            "is" if !is_passed => return Expected::EntityType,
            "is" if !is_behind_comma => return Expected::Entity,
            "action" if is_compared && !is_behind_comma => return Expected::Action,
            "principal" | "resource" if is_compared && !is_behind_comma => return Expected::Entity,
            "==" | "in" => is_compared = true,
            "," => is_behind_comma = true,
            "[" => {
                is_compared = true;
                is_behind_comma = false;
            }
            "::" if is_passed => {}
            _ if is_passed && matches!(token.kind, TokenKind::Text | TokenKind::Word) => {}
            _ => return Expected::Operand,
        }
    }
    Expected::Operand
}

/// The byte at which an id ends that is written so far: behind the quote that closes it, if it is open and nothing but a word
/// stands before that quote.
pub fn end_of_id(text: &str, written: Loc) -> usize {
    let own = text.get(written.start..written.end).unwrap_or("");
    let behind = text.get(written.end..).unwrap_or("");
    let rest = behind.trim_start_matches(is_in_word);
    let is_open = own.matches('"').count() % 2 == 1;
    if !is_open || !rest.starts_with('"') {
        return written.end;
    }
    let word = behind.len().saturating_sub(rest.len());
    written.end.saturating_add(word).saturating_add(1)
}
