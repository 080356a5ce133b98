// Tokens of texts: words and marks, with their places.
use cedar_reading::token_text;
use cedar_types::base::Loc;

/// The kind of a token.
#[derive(Clone, Copy, PartialEq, Eq)]
pub enum TokenKind {
    /// A letter or `_`, and letters, digits and `_` behind it.
    Word,
    /// A text in quotes, the quotes included.
    Text,
    /// A mark, a number, or a character that begins nothing.
    Mark,
    /// The end of the text.
    End,
}

/// A token, with its text and its place.
#[derive(Clone, Copy)]
pub struct Token<'a> {
    pub kind: TokenKind,
    pub text: &'a str,
    pub place: Loc,
}

impl Token<'_> {
    /// Whether the token is this mark or word.
    pub fn is(&self, text: &str) -> bool {
        self.text == text
    }
}

/// The first token from a byte on, behind blanks and comments.
pub fn token_from(text: &str, from: usize) -> Token<'_> {
    let start = behind_blanks(text, from);
    let shown = token_text(text, start);
    Token {
        kind: kind_of(shown),
        text: shown,
        place: Loc {
            start,
            end: start.saturating_add(shown.len()),
        },
    }
}

fn kind_of(shown: &str) -> TokenKind {
    match shown.chars().next() {
        None => TokenKind::End,
        Some('"') => TokenKind::Text,
        Some(c) if c.is_alphabetic() || c == '_' => TokenKind::Word,
        Some(_) => TokenKind::Mark,
    }
}

/// The byte behind the blanks and comments that begin at a byte.
pub fn behind_blanks(text: &str, from: usize) -> usize {
    let mut rest = text.get(from..).unwrap_or("").trim_start();
    for _ in 0..text.len() {
        if !rest.starts_with("//") {
            break;
        }
        rest = match rest.find(['\n', '\r']) {
            Some(end) => rest.get(end..).unwrap_or("").trim_start(),
            None => "",
        };
    }
    text.len().saturating_sub(rest.len())
}

/// Whether a character may stand in a word.
pub fn is_in_word(c: char) -> bool {
    c.is_alphanumeric() || c == '_'
}
