//! Faults of texts that cannot be read, in words.
use crate::fault_hints::{hint, is_alias, meant_type, push_fraction};
use cedar_reading::{
    Expected, Fault, MAX_GRAMMAR_STEPS, ReadError, RefusedName, SchemaFault, SchemaReadError,
    refused_name, schema_faults, shadowing_name, token_text,
};
use cedar_types::base::{Loc, SchemaError};
use std::alloc::{AllocError, Global};
use thiserror::Error;

/// The most characters of an unexpected text that are quoted: enough to know it by, because its
/// place is told too.
const MAX_CHARACTERS_QUOTED: usize = 40;

/// The hint behind a text in quotes that has several lines.
const LONG_TEXT: &str =
    "the text in quotes before it began on another line: it may have lost its end there";

/// The hint behind a name of a common type in place of an entity type.
const ALIAS: &str = "it is the name of a common type, and of no entity type";

/// The fault of a name that `shadowing_name` finds.
const HIDES: &str = "a name of a namespace that hides one outside of namespaces";

/// A fault of a text, with its place.
#[derive(Debug, Drop, Error)]
#[error("{text}")]
pub struct TextFault {
    pub place: Loc,
    pub text: String,
}

/// The kind of text that is read.
#[derive(Clone, Copy, PartialEq, Eq)]
pub enum Written {
    Schema,
    Policies,
    /// Entities or a request.
    Data,
}

/// A fault at a place, for people.
#[derive(Clone, Copy, Debug, Error)]
pub(crate) enum Trouble {
    #[error("nested too deep: {0} brackets and operators are read inside each other, or {0} links of a chain", MAX_GRAMMAR_STEPS)]
    TooDeep,
    #[error("nested too deep, as a type that contains itself is")]
    DeepType,
    #[error("the text is longer than 64 MiB")]
    TooLong,
    #[error("a number that does not fit 64 bits")]
    Number,
    #[error("a text in quotes that does not end")]
    OpenText,
    #[error("an escape that there is not: there are \\\" \\\\ \\' \\n \\r \\t \\0 \\x41 \\u{{41}}")]
    Escape,
    #[error("a carriage return in a text: `\\r` stands for one")]
    CarriageReturn,
    #[error("a character that begins nothing")]
    Character,
    #[error("`{0}` is expected")]
    Missing(&'static str),
    #[error("{0}")]
    Other(Fault),
}

/// The fault that reading met. If the cause is refused memory, the answer is an `AllocError`.
pub fn read_fault(
    alloc: Global,
    written: Written,
    text: &str,
    error: ReadError,
) -> Result<TextFault, AllocError> {
    let (start, fault) = match error {
        ReadError::Memory(error) => return Err(error),
        ReadError::At(start, fault) => (start, fault),
    };
    let token = token_text(text, start);
    let read = match token {
        "-" => beginning(negative_number(text, start)),
        _ => beginning(token),
    };
    let trouble = trouble_of(written, fault, token);
    let mut message = trouble_text(alloc, written, trouble, read)?;
    if is_behind_long_text(text, start) {
        push_hint(&mut message, LONG_TEXT)?;
    }
    if fault == Fault::Expected(Expected::Name) {
        push_fraction(&mut message, text, start, read)?;
    }
    if fault == Fault::Undeclared && is_alias(text, read) {
        push_hint(&mut message, ALIAS)?;
    }
    Ok(TextFault {
        place: Loc {
            start,
            end: start.saturating_add(read.len()),
        },
        text: message,
    })
}

/// The number that begins with the minus at this byte, if it stands on one line; else only the
/// minus.
fn negative_number(text: &str, start: usize) -> &str {
    let rest = text.get(start..).unwrap_or("");
    let inside = rest.strip_prefix('-').unwrap_or("");
    let digits = inside.trim_start();
    let others = digits.trim_start_matches(|c: char| c.is_ascii_digit());
    if others.len() == digits.len() {
        return "-";
    }
    let size = rest.len().saturating_sub(others.len());
    rest.get(..size).unwrap_or("-")
}

/// Whether a text in quotes ends right before this byte, and began on another line.
fn is_behind_long_text(text: &str, start: usize) -> bool {
    let before = text.get(..start).unwrap_or("").trim_end();
    let Some(inside) = before.strip_suffix('"') else {
        return false;
    };
    match inside.rsplit_once('"') {
        Some((_, message)) => message.contains('\n'),
        None => false,
    }
}

/// The trouble that a fault at this token is.
fn trouble_of(written: Written, fault: Fault, token: &str) -> Trouble {
    match fault {
        Fault::TooDeep if written == Written::Schema => Trouble::DeepType,
        Fault::TooDeep => Trouble::TooDeep,
        Fault::TooLong => Trouble::TooLong,
        Fault::Number => Trouble::Number,
        Fault::Text if !token.starts_with('"') => Trouble::Character,
        Fault::Text if token.len() > 1 && token.ends_with('"') => Trouble::Escape,
        Fault::Text => Trouble::OpenText,
        Fault::CarriageReturn => Trouble::CarriageReturn,
        Fault::Missing(word) => Trouble::Missing(word),
        // the comma before the part is missing, so the parts seem to end there
        Fault::Expected(Expected::Principal) if token == "principal" => Trouble::Missing(","),
        Fault::Expected(Expected::Resource) if token == "resource" => Trouble::Missing(","),
        _ => Trouble::Other(fault),
    }
}

/// The words for a fault: the trouble, the text that was read, and the hint.
fn trouble_text(
    alloc: Global,
    written: Written,
    trouble: Trouble,
    read: &str,
) -> Result<String, AllocError> {
    let mut message = trouble.to_string(alloc)?;
    if read.is_empty() {
        message.push_str(", where the text ends")?;
    } else {
        write!(message, ", where `{read}` is read")?;
    }
    push_hint(&mut message, hint(written, trouble, read))?;
    Ok(message)
}

/// Adds a hint, if one is known.
pub(crate) fn push_hint(message: &mut String, hint: &str) -> Result<(), AllocError> {
    if hint.is_empty() {
        return Ok(());
    }
    message.push_str("; ")?;
    message.push_str(hint)
}

/// The beginning of the text that was read, up to the end of its line.
pub(crate) fn beginning(text: &str) -> &str {
    let line = text.lines().next().unwrap_or("");
    match line.char_indices().nth(MAX_CHARACTERS_QUOTED) {
        Some((size, _)) => line.get(..size).unwrap_or(""),
        None => line,
    }
}

/// The reason why a text gives no schema. If the cause is refused memory, the answer is an
/// `AllocError`.
pub fn schema_fault(
    alloc: Global,
    text: &str,
    error: SchemaReadError,
) -> Result<TextFault, AllocError> {
    match error {
        SchemaReadError::Read(error) => read_fault(alloc, Written::Schema, text, error),
        SchemaReadError::Refused(fault) => {
            let name = refused_name(alloc, text, &fault)?;
            refused_fault(alloc, text, &fault, name)
        }
    }
}

/// The fault of a schema that is refused because of this name.
fn refused_fault(
    alloc: Global,
    text: &str,
    fault: &SchemaError,
    name: Option<RefusedName>,
) -> Result<TextFault, AllocError> {
    let hint = match (fault, &name) {
        (SchemaError::UnknownType, Some(it)) if is_alias(text, it.name.as_str()) => ALIAS,
        (SchemaError::UnknownType, Some(it)) => meant_type(it.name.as_str()),
        _ => "",
    };
    let mut refused = refusal(alloc, text, refusal_text(fault), name)?;
    push_hint(&mut refused.text, hint)?;
    Ok(refused)
}

/// The first hundred faults of a schema's text, by place; only `first`, which is one of them, if
/// none can be told.
pub fn all_schema_faults(
    alloc: Global,
    text: &str,
    first: TextFault,
) -> Result<Vec<TextFault>, AllocError> {
    let mut told = Vec::new(alloc);
    for fault in schema_faults(alloc, text)? {
        told.push(told_fault(alloc, text, fault)?)?;
    }
    if told.is_empty() {
        told.push(first)?;
    }
    Ok(told)
}

fn told_fault(alloc: Global, text: &str, fault: SchemaFault) -> Result<TextFault, AllocError> {
    match fault {
        SchemaFault::Read(start, fault) => {
            read_fault(alloc, Written::Schema, text, ReadError::At(start, fault))
        }
        SchemaFault::Refused(fault, name) => refused_fault(alloc, text, &fault, Some(name)),
        SchemaFault::Hides(name) => refusal(alloc, text, HIDES, Some(name)),
    }
}

/// The fault of a schema that can be read, but that Cedar refuses: a name of a namespace hides one
/// outside of namespaces.
pub fn shadowing_fault(alloc: Global, text: &str) -> Result<Option<TextFault>, AllocError> {
    hiding_fault(alloc, text, shadowing_name(alloc, text)?)
}

/// The fault of a schema in whose text this name of a namespace hides one outside, if there is such
/// a name.
pub fn hiding_fault(
    alloc: Global,
    text: &str,
    hiding: Option<RefusedName>,
) -> Result<Option<TextFault>, AllocError> {
    match hiding {
        None => Ok(None),
        name => Ok(Some(refusal(alloc, text, HIDES, name)?)),
    }
}

fn refusal(
    alloc: Global,
    text: &str,
    why: &str,
    name: Option<RefusedName>,
) -> Result<TextFault, AllocError> {
    let Some(RefusedName { name, start }) = name else {
        return Ok(TextFault {
            place: Loc { start: 0, end: 0 },
            text: String::from_str(alloc, why)?,
        });
    };
    Ok(TextFault {
        place: Loc {
            start,
            end: start.saturating_add(beginning(token_text(text, start)).len()),
        },
        text: format!(in alloc; "{why}: `{name}`")?,
    })
}

/// The words for a schema's refusal.
fn refusal_text(fault: &SchemaError) -> &'static str {
    match fault {
        SchemaError::DuplicateEntityType => "an entity type is declared twice",
        SchemaError::DuplicateAction => "an action is declared twice",
        SchemaError::ActionTypeDeclared => "an entity type has the name of a type of actions",
        SchemaError::NotAnActionType => "the type of an action is none of actions",
        SchemaError::EmptyEnum => "an enumerated type has no ids",
        SchemaError::UnknownType => "a type that is not declared",
        SchemaError::UnknownActionDescendant => "an action is named that is not declared",
        SchemaError::VagueType => "the context of an action has to be a record",
        SchemaError::DescendantsNotClosed => "what is in what is not closed",
        SchemaError::Memory(_) => "memory was refused",
    }
}
