//! Long names in messages, of which only the beginning is shown. A schema may name anything, and each finding names it again.
use std::alloc::{AllocError, Global};

/// The most characters of a name that are shown.
const MAX_IN_NAME: usize = 200;

/// The most bytes of a message that are shown, behind which the last character may go.
const MAX_IN_MESSAGE: usize = 4000;

/// The mark behind the beginning of a name.
const CUT: char = '\u{2026}';

/// A message with the beginning of each long name: of a text in backquotes, or of a word outside of them, the first 200
/// characters, and of the message some 4,000 bytes.
pub fn shortened(alloc: Global, message: String) -> Result<String, AllocError> {
    if message.len() <= MAX_IN_NAME {
        return Ok(message);
    }
    let mut shown = String::new(alloc);
    let mut size = 0usize;
    let mut is_quoted = false;
    for c in message.as_str().chars() {
        if c == '`' {
            is_quoted = !is_quoted;
        }
        size = if c == '`' || (c == ' ' && !is_quoted) {
            0
        } else {
            size.saturating_add(1)
        };
        if shown.len() > MAX_IN_MESSAGE {
            shown.push(CUT)?;
            break;
        }
        if size <= MAX_IN_NAME {
            shown.push(c)?;
        } else if size == MAX_IN_NAME + 1 {
            shown.push(CUT)?;
        }
    }
    Ok(shown)
}

/// The beginning of a name: its first 200 characters and an ellipsis, or the whole of a shorter one.
pub fn cut_name(alloc: Global, name: String) -> Result<String, AllocError> {
    if name.len() <= MAX_IN_NAME {
        return Ok(name);
    }
    let (beginning, mark) = cut(name.as_str());
    let mut shown = String::from_str(alloc, beginning)?;
    shown.push_str(mark)?;
    Ok(shown)
}

/// The beginning of a name, and the mark behind it: an empty text, if that is all.
pub(crate) fn cut(name: &str) -> (&str, &'static str) {
    if name.len() <= MAX_IN_NAME {
        return (name, "");
    }
    match name.char_indices().nth(MAX_IN_NAME) {
        Some((size, _)) => (name.get(..size).unwrap_or(""), "\u{2026}"),
        None => (name, ""),
    }
}
