// Patterns of `like`.
use crate::forms::{FormError, Object, expected, items_of, text_of};
use crate::values::{Value, ValueKind};
use cedar_types::base::PatternElem;
use std::alloc::Global;

/// Reads a pattern: a list in which each part is `Wildcard`, or an object with a text at `Literal`.
pub fn pattern(alloc: Global, value: &Value) -> Result<Vec<PatternElem>, FormError> {
    let mut parts = Vec::new(alloc);
    for item in items_of(value)? {
        match &item.kind {
            ValueKind::Text(word) if word.as_str() == "Wildcard" => {
                parts.push(PatternElem::Wildcard)?;
            }
            ValueKind::Object(_) => push_text(&mut parts, item)?,
            _ => return Err(expected(item, "`Wildcard` or `Literal`")),
        }
    }
    Ok(parts)
}

/// Adds the characters of the text at `Literal`.
fn push_text(parts: &mut Vec<PatternElem>, item: &Value) -> Result<(), FormError> {
    let object = Object::of(item)?;
    object.allow(&["Literal"])?;
    for c in text_of(object.need("Literal")?)?.chars() {
        parts.push(PatternElem::Char(c))?;
    }
    Ok(())
}
