// Values as a line: each with its first byte and the byte behind its last.
use cedar_json::{ReadError, Value, ValueKind, value_alone};
use std::alloc::{AllocError, Global};

/// The value of a text.
pub fn show_value(alloc: Global, text: &str) -> Result<String, AllocError> {
    let mut out = String::new(alloc);
    match value_alone(alloc, text) {
        Ok(value) => push_value(&mut out, &value)?,
        Err(ReadError::Memory(error)) => return Err(error),
        Err(ReadError::At(at, fault)) => write!(out, "{at} {fault:?}")?,
    }
    Ok(out)
}

fn push_value(out: &mut String, value: &Value) -> Result<(), AllocError> {
    write!(out, "{}-{}", value.place.start, value.place.end)?;
    match &value.kind {
        ValueKind::Text(text) => write!(out, "`{text}`")?,
        ValueKind::Integer(number) => write!(out, "={number}")?,
        ValueKind::Null => write!(out, "=null")?,
        ValueKind::Boolean(truth) => write!(out, "={truth}")?,
        ValueKind::Array(items) => {
            out.push('[')?;
            for item in items {
                push_value(out, item)?;
            }
            out.push(']')?;
        }
        ValueKind::Object(entries) => {
            out.push('{')?;
            for (key, item) in entries {
                write!(out, "{}-{}`{}`", key.place.start, key.place.end, key.name)?;
                push_value(out, item)?;
            }
            out.push('}')?;
        }
    }
    Ok(())
}
