// Tokens, the smallest parts of a text: words, numbers, texts in quotes, and marks.
mod plain;

use cedar_types::base::Loc;
use plain::plain_token;

/// The kind of a token.
#[derive(Clone, Copy, PartialEq, Eq, Debug)]
pub enum TokenKind {
    /// A letter or `_`, and letters, digits and `_` behind it.
    Word,
    /// Digits.
    Number,
    /// A text in quotes, the quotes included.
    Text,
    /// One of `MARKS`.
    Mark,
    /// A text without its end, or a character that begins no token.
    Unknown,
    /// The end of the text.
    End,
}

/// A token, its text and its place.
#[derive(Clone, Copy, Debug)]
pub struct Token<'a> {
    pub kind: TokenKind,
    pub text: &'a str,
    pub place: Loc,
}

/// The marks. A longer mark stands before the shorter marks it begins with.
const MARKS: [&str; 27] = [
    "==", "!=", "<=", ">=", "&&", "||", "::", "(", ")", "[", "]", "{", "}", ",", ";", ":", ".",
    "?", "!", "<", ">", "+", "-", "*", "=", "|", "@",
];

/// The first token of the text from this byte on, after blanks and comments.
pub fn token_from(text: &str, from: usize) -> Token<'_> {
    match plain_token(text, from) {
        Some(token) => token,
        None => any_token(text, from),
    }
}

/// The first token from the byte `from` on, with any characters in it and any text before it.
fn any_token(text: &str, from: usize) -> Token<'_> {
    let rest = after_blanks(text.get(from..).unwrap_or(""));
    let start = text.len().saturating_sub(rest.len());
    let (kind, size) = first_of(rest);
    let shown = rest.get(..size).unwrap_or(rest);
    let end = start.saturating_add(shown.len());
    Token {
        kind,
        text: shown,
        place: Loc { start, end },
    }
}

/// The token at a byte of a text: a word, a number, a text in quotes or a mark; empty at the end.
pub fn token_text(text: &str, at: usize) -> &str {
    token_from(text, at).text
}

/// The text behind the blanks and the comments at its beginning. A comment goes from `//` to the
/// end of its line: to a line feed or a carriage return, as Cedar reads it. If only a line feed
/// ended it, a carriage return alone would hide the text behind it.
fn after_blanks(text: &str) -> &str {
    let mut rest = text.trim_start();
    for _ in 0..text.len() {
        if !rest.starts_with("//") {
            break;
        }
        rest = after_line(rest).trim_start();
    }
    rest
}

fn after_line(text: &str) -> &str {
    match text.find(|c: char| c == '\n' || c == '\r') {
        Some(end) => text.get(end..).unwrap_or(""),
        None => "",
    }
}

/// The kind of the first token, and its length in bytes.
fn first_of(text: &str) -> (TokenKind, usize) {
    match text.chars().next() {
        None => (TokenKind::End, 0),
        Some('"') => scan_quoted(text),
        Some(c) if c.is_ascii_digit() => (TokenKind::Number, digits(text)),
        Some(c) if is_in_word(c) => (TokenKind::Word, word(text)),
        Some(c) => mark(text, c),
    }
}

fn is_in_word(c: char) -> bool {
    c.is_alphanumeric() || c == '_'
}

/// The length in bytes of the digits at the beginning.
fn digits(text: &str) -> usize {
    text.find(|c: char| !c.is_ascii_digit())
        .unwrap_or(text.len())
}

/// The length in bytes of the word at the beginning.
fn word(text: &str) -> usize {
    text.find(|c: char| !is_in_word(c)).unwrap_or(text.len())
}

fn mark(text: &str, first: char) -> (TokenKind, usize) {
    for mark in &MARKS {
        if text.starts_with(*mark) {
            return (TokenKind::Mark, mark.len());
        }
    }
    (TokenKind::Unknown, first.len_utf8())
}

/// Scans a text in quotes: a backslash takes the next character along.
fn scan_quoted(text: &str) -> (TokenKind, usize) {
    let mut is_escaped = false;
    for (at, c) in text.char_indices().skip(1) {
        if is_escaped {
            is_escaped = false;
        } else if c == '\\' {
            is_escaped = true;
        } else if c == '"' {
            return (TokenKind::Text, at.saturating_add(1));
        }
    }
    (TokenKind::Unknown, text.len())
}
