//! Faults of texts of JSON that cannot be read, in words.
use crate::fault_hints::meant_type;
use crate::faults::{TextFault, Written, beginning, push_hint};
use crate::similar::Search;
use cedar_json::{Fault, FormError, FormFault, MAX_DEPTH};
use cedar_types::base::Loc;
use std::alloc::{AllocError, Global};

/// The hint if one file was taken for the other.
const ORDER: &str = "the schema is the first file, and policies come behind it";

/// The keys of data.
const KEYS_OF_DATA: [&str; 13] = [
    "uid",
    "attrs",
    "parents",
    "tags",
    "principal",
    "action",
    "resource",
    "context",
    "type",
    "id",
    "fn",
    "arg",
    "args",
];

/// The reason why a text of JSON gives no schema, no policy or no data. If the cause is refused memory, the answer is an
/// `AllocError`.
pub fn form_fault(
    alloc: Global,
    written: Written,
    text: &str,
    error: FormError,
) -> Result<TextFault, AllocError> {
    let (start, fault) = match error {
        FormError::Memory(error) => return Err(error),
        FormError::At(start, fault) => (start, fault),
    };
    let token = token_at(text, start);
    let mut message = fault.to_string(alloc)?;
    match mention_of(fault) {
        Mention::Nothing => {}
        Mention::Name => {
            let name = token.trim_matches('"');
            write!(message, ": `{name}`")?;
        }
        Mention::MostDepth => {
            write!(
                message,
                ": {MAX_DEPTH} objects and lists may stand inside each other"
            )?;
        }
        Mention::Token if token.is_empty() => message.push_str(", where the text ends")?,
        Mention::Token => write!(message, ", where `{token}` is read")?,
    }
    push_hint(&mut message, hint(written, text, start, fault, token))?;
    if written == Written::Data && fault == FormFault::UnknownKey {
        push_nearest_key(&mut message, alloc, token.trim_matches('"'))?;
    }
    Ok(TextFault {
        place: Loc {
            start,
            end: start.saturating_add(token.len()),
        },
        text: message,
    })
}

/// Adds the key of data that may be meant by another one.
fn push_nearest_key(message: &mut String, alloc: Global, wrong: &str) -> Result<(), AllocError> {
    let mut search = Search::new(alloc, wrong)?;
    let mut nearest = None;
    for key in &KEYS_OF_DATA {
        if search.is_nearer(key, false)? {
            nearest = Some(*key);
        }
    }
    match nearest {
        Some(key) => write!(message, "; did you mean `{key}`?"),
        None => Ok(()),
    }
}

/// The mention of the text at a fault.
#[derive(Clone, Copy)]
enum Mention {
    Nothing,
    /// The text is named, because it is the one that is wrong.
    Name,
    /// The text is named as read in place of something else.
    Token,
    /// The greatest depth is named.
    MostDepth,
}

fn mention_of(fault: FormFault) -> Mention {
    match fault {
        FormFault::UnknownKey
        | FormFault::Undeclared
        | FormFault::Hidden
        | FormFault::Json(Fault::SameKey) => Mention::Name,
        FormFault::Json(Fault::TooDeep) => Mention::MostDepth,
        FormFault::Expected(_)
        | FormFault::Name
        | FormFault::Json(
            Fault::Value
            | Fault::Key
            | Fault::Colon
            | Fault::InObject
            | Fault::InArray
            | Fault::Trailing
            | Fault::Digit
            | Fault::LeadingZero
            | Fault::Fraction
            | Fault::Exponent
            | Fault::Range,
        ) => Mention::Token,
        _ => Mention::Nothing,
    }
}

/// The hint at a fault, or an empty text.
fn hint(written: Written, text: &str, start: usize, fault: FormFault, token: &str) -> &'static str {
    let is_schema = written == Written::Schema;
    match fault {
        FormFault::Json(fault) => hint_in_json(fault, token, is_first(text, start)),
        FormFault::Null => "what is not there is left out with its key",
        FormFault::UnknownKey if written == Written::Policies && is_key_of_schema(token) => ORDER,
        FormFault::Expected(_) if is_schema && is_effect(token) => ORDER,
        FormFault::Undeclared if is_schema => meant_type(token.trim_matches('"')),
        _ => "",
    }
}

/// The hint in a text that is no JSON, at its beginning or elsewhere.
fn hint_in_json(fault: Fault, token: &str, is_first: bool) -> &'static str {
    match fault {
        Fault::Value | Fault::Key if token == "'" => "texts stand in double quotes",
        Fault::Value if is_first => "this is no JSON",
        Fault::Fraction | Fault::Exponent => "numbers are whole",
        _ => "",
    }
}

fn is_key_of_schema(token: &str) -> bool {
    matches!(token, "\"commonTypes\"" | "\"entityTypes\"" | "\"actions\"")
}

fn is_effect(token: &str) -> bool {
    matches!(token, "\"permit\"" | "\"forbid\"")
}

/// Whether only blanks stand before a byte.
fn is_first(text: &str, start: usize) -> bool {
    text.get(..start).unwrap_or("").trim_start().is_empty()
}

/// The beginning of the token at a byte: a text in quotes, a word or a number, or one character.
fn token_at(text: &str, start: usize) -> &str {
    let rest = text.get(start..).unwrap_or("");
    let size = match rest.chars().next() {
        None => 0,
        Some('"') => quoted_size(rest),
        Some(c) if is_of_word(c) => rest.find(|c: char| !is_of_word(c)).unwrap_or(rest.len()),
        Some(c) => c.len_utf8(),
    };
    beginning(rest.get(..size).unwrap_or(""))
}

/// The size in bytes of the text in quotes that stands first: all bytes, if it does not end.
fn quoted_size(text: &str) -> usize {
    let mut is_escaped = false;
    for (at, c) in text.char_indices().skip(1) {
        if is_escaped {
            is_escaped = false;
        } else if c == '\\' {
            is_escaped = true;
        } else if c == '"' {
            return at.saturating_add(1);
        }
    }
    text.len()
}

/// Whether a character is one of a word or a number.
fn is_of_word(c: char) -> bool {
    c.is_alphanumeric() || matches!(c, '_' | '-' | '+' | '.')
}
