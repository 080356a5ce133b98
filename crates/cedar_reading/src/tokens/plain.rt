// ASCII tokens, found byte by byte. Most texts have few others, so no character has to be decoded
// for them.
use crate::tokens::{Token, TokenKind};
use cedar_types::base::Loc;

/// The first token of the text from the byte `from` on, if only ASCII blanks stand before it and it
/// is an ASCII word, a number, a text in quotes without a backslash, or a mark but `/`. `None` says
/// nothing: you must read the token by its characters then.
pub fn plain_token(text: &str, from: usize) -> Option<Token<'_>> {
    let bytes = text.as_bytes();
    let start = after_blanks(bytes, from);
    let first = bytes.get(start).copied()?;
    let second = start.saturating_add(1);
    let (kind, end) = match first {
        b'a'..=b'z' | b'A'..=b'Z' | b'_' => (TokenKind::Word, word_end(bytes, second)?),
        b'0'..=b'9' => (TokenKind::Number, digits_end(bytes, second)),
        b'"' => (TokenKind::Text, quoted_end(bytes, second)?),
        _ => (TokenKind::Mark, mark_end(bytes, first, second)?),
    };
    Some(Token {
        kind,
        text: text.get(start..end)?,
        place: Loc { start, end },
    })
}

/// The end of the blanks from the byte `from` on.
fn after_blanks(bytes: &[u8], from: usize) -> usize {
    let mut at = from;
    for _ in 0..bytes.len() {
        match bytes.get(at).copied() {
            Some(b' ' | b'\n' | b'\t' | b'\r') => at = at.saturating_add(1),
            _ => break,
        }
    }
    at
}

/// The end of a word whose second byte stands at `second`. `None` if a character in it or behind it
/// is not ASCII.
fn word_end(bytes: &[u8], second: usize) -> Option<usize> {
    let mut at = second;
    for _ in 0..bytes.len() {
        match bytes.get(at).copied() {
            Some(b'a'..=b'z' | b'A'..=b'Z' | b'0'..=b'9' | b'_') => at = at.saturating_add(1),
            Some(byte) if byte >= 0x80 => return None,
            _ => break,
        }
    }
    Some(at)
}

/// The end of a number whose second byte stands at `second`.
fn digits_end(bytes: &[u8], second: usize) -> usize {
    let mut at = second;
    for _ in 0..bytes.len() {
        match bytes.get(at).copied() {
            Some(b'0'..=b'9') => at = at.saturating_add(1),
            _ => break,
        }
    }
    at
}

/// The end of a text in quotes whose second byte stands at `second`. `None` if it has a backslash
/// or no end.
fn quoted_end(bytes: &[u8], second: usize) -> Option<usize> {
    let mut at = second;
    for _ in 0..bytes.len() {
        match bytes.get(at).copied()? {
            b'"' => return Some(at.saturating_add(1)),
            b'\\' => return None,
            _ => at = at.saturating_add(1),
        }
    }
    None
}

/// The end of a mark that begins with `first`, before the byte at `second`. `None` if no mark
/// begins so.
fn mark_end(bytes: &[u8], first: u8, second: usize) -> Option<usize> {
    let next = bytes.get(second).copied().unwrap_or(0);
    let is_long = match first {
        b'('
        | b')'
        | b'['
        | b']'
        | b'{'
        | b'}'
        | b','
        | b';'
        | b'.'
        | b'?'
        | b'+'
        | b'-'
        | b'*'
        | b'@' => false,
        b'=' | b'!' | b'<' | b'>' => next == b'=',
        b'|' | b':' => next == first,
        b'&' if next == b'&' => true,
        _ => return None,
    };
    Some(if is_long {
        second.saturating_add(1)
    } else {
        second
    })
}
