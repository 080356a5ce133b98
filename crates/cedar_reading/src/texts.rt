// Texts and patterns in quotes, and their escapes.
use crate::cursor::Cursor;
use crate::faults::{Expected, Fault, ReadError};
use crate::tokens::TokenKind;
use cedar_types::base::PatternElem;
use std::alloc::Global;

/// Reads a text in quotes, and returns its content. It fails with `Fault::Text` at `\*` too, which
/// only a pattern may have.
pub fn text(cursor: &mut Cursor<'_>) -> Result<String, ReadError> {
    let alloc = cursor.alloc;
    let token = cursor.peek();
    if token.kind == TokenKind::Text && has_escaped_star(token.text) {
        return Err(cursor.fault(Fault::Text));
    }
    let mut plain = String::new(alloc);
    for part in pattern(cursor)? {
        match part {
            PatternElem::Char(c) => plain.push(c)?,
            PatternElem::Wildcard => plain.push('*')?,
        }
    }
    Ok(plain)
}

/// Whether a backslash stands before a `*`, and does not itself belong to a `\\`.
fn has_escaped_star(text: &str) -> bool {
    let mut is_escaped = false;
    for c in text.chars() {
        if is_escaped && c == '*' {
            return true;
        }
        is_escaped = c == '\\' && !is_escaped;
    }
    false
}

/// Reads a pattern in quotes: a `*` is a wildcard, and `\*` the character.
pub fn pattern(cursor: &mut Cursor<'_>) -> Result<Vec<PatternElem>, ReadError> {
    let token = cursor.peek();
    if token.kind == TokenKind::Unknown {
        return Err(cursor.fault(Fault::Text));
    }
    if token.kind != TokenKind::Text {
        return Err(cursor.fault(Fault::Expected(Expected::Text)));
    }
    let inner = token
        .text
        .strip_prefix('"')
        .and_then(|t| t.strip_suffix('"'));
    let inner = inner.unwrap_or("");
    if inner.contains('\r') {
        return Err(cursor.fault(Fault::CarriageReturn));
    }
    let Some(parts) = unescape(cursor.alloc, inner)? else {
        return Err(cursor.fault(Fault::Text));
    };
    cursor.take();
    Ok(parts)
}

/// The characters of a text, with its escapes replaced by the characters they stand for. `None` if
/// an escape is invalid.
fn unescape(alloc: Global, text: &str) -> Result<Option<Vec<PatternElem>>, ReadError> {
    let mut parts = Vec::new(alloc);
    let mut escape = Escape::Outside;
    for c in text.chars() {
        let Some((next, part)) = step(escape, c) else {
            return Ok(None);
        };
        if let Some(part) = part {
            parts.push(part)?;
        }
        escape = next;
    }
    Ok((escape == Escape::Outside).then_some(parts))
}

/// The part of an escape that was read.
#[derive(Clone, Copy, PartialEq, Eq)]
enum Escape {
    Outside,
    Backslash,
    /// `\x`, the value of the digits behind it, and the number of digits.
    Byte(u32, u8),
    /// `\u`.
    Unicode,
    /// `\u{`, the value of the digits behind it, and the number of digits.
    Braces(u32, u8),
}

/// The state after the character `c`, and the element that `c` completes. `None` if no escape goes
/// on so.
fn step(escape: Escape, c: char) -> Option<(Escape, Option<PatternElem>)> {
    match escape {
        Escape::Outside => Some(plain(c)),
        Escape::Backslash => behind_backslash(c),
        Escape::Byte(value, digits) => byte(value, digits, c),
        Escape::Unicode => (c == '{').then_some((Escape::Braces(0, 0), None)),
        Escape::Braces(value, digits) => in_braces(value, digits, c),
    }
}

fn plain(c: char) -> (Escape, Option<PatternElem>) {
    match c {
        '\\' => (Escape::Backslash, None),
        '*' => (Escape::Outside, Some(PatternElem::Wildcard)),
        _ => (Escape::Outside, Some(PatternElem::Char(c))),
    }
}

fn behind_backslash(c: char) -> Option<(Escape, Option<PatternElem>)> {
    let meant = match c {
        'x' => return Some((Escape::Byte(0, 0), None)),
        'u' => return Some((Escape::Unicode, None)),
        '"' | '\\' | '\'' | '*' => c,
        'n' => '\n',
        't' => '\t',
        'r' => '\r',
        '0' => '\0',
        _ => return None,
    };
    Some(complete(meant))
}

/// One of two digits, whose value is below 128.
fn byte(value: u32, digits: u8, c: char) -> Option<(Escape, Option<PatternElem>)> {
    let value = with_digit(value, c)?;
    if digits == 0 {
        return Some((Escape::Byte(value, 1), None));
    }
    if value > 0x7f {
        return None;
    }
    Some(complete(char::from_u32(value)?))
}

/// One of up to six digits, an underscore behind one, or the brace behind them.
fn in_braces(value: u32, digits: u8, c: char) -> Option<(Escape, Option<PatternElem>)> {
    if c == '}' && digits > 0 {
        return Some(complete(char::from_u32(value)?));
    }
    if c == '_' && digits > 0 {
        return Some((Escape::Braces(value, digits), None));
    }
    if digits >= 6 {
        return None;
    }
    Some((
        Escape::Braces(with_digit(value, c)?, digits.saturating_add(1)),
        None,
    ))
}

fn with_digit(value: u32, c: char) -> Option<u32> {
    Some(value.saturating_mul(16).saturating_add(c.to_digit(16)?))
}

fn complete(c: char) -> (Escape, Option<PatternElem>) {
    (Escape::Outside, Some(PatternElem::Char(c)))
}
