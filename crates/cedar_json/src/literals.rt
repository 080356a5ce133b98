// Literals: values without parts.
ghost use Rattle.std.specs.Prelude.{ℕ, length, OnOk, IfOk, IfErr};
ghost use Rattle.cedar_json.specs.Cursors.{GoesOn, IsFaultWithin};
ghost use Rattle.cedar_json.specs.Fits.{FormFits};
ghost use Rattle.cedar_json.specs.Says.{FormSays};
ghost use Rattle.cedar_json.specs.View.{form_of};

use crate::cursor::Cursor;
use crate::faults::{Fault, ReadError};
use crate::numbers::integer;
use crate::texts::text;
use crate::values::ValueKind;

/// Reads a value that is neither an object nor an array.
pub fn literal(cursor: &mut Cursor<'_>) -> Result<ValueKind, ReadError>
    ensures on { OnOk result (GoesOn cursor.old cursor.new) }
    ensures flat { (depth low high : ℕ) → IfOk result (λ k. FormFits depth low high (form_of k)) }
    ensures says { IfOk result
        (λ k. FormSays cursor.old.text.now cursor.old.at cursor.new.at (form_of k)) }
    ensures err { IfErr result (λ e. IsFaultWithin (length cursor.old.text.now) e) }
{
    match cursor.peek() {
        Some(b'"') => Ok(ValueKind::Text(text(cursor)?)),
        Some(b'-') | Some(b'0'..=b'9') => Ok(ValueKind::Integer(integer(cursor)?)),
        _ => word(cursor),
    }
}

/// Reads `true`, `false` or `null`.
fn word(cursor: &mut Cursor<'_>) -> Result<ValueKind, ReadError>
    ensures on { OnOk result (GoesOn cursor.old cursor.new) }
    ensures flat { (depth low high : ℕ) → IfOk result (λ k. FormFits depth low high (form_of k)) }
    ensures says { IfOk result
        (λ k. FormSays cursor.old.text.now cursor.old.at cursor.new.at (form_of k)) }
    ensures err { IfErr result (λ e. IsFaultWithin (length cursor.old.text.now) e) }
{
    let size = letters_in_front(cursor.rest());
    let kind = match cursor.text.get(cursor.at..cursor.at.saturating_add(size)) {
        Some("true") => ValueKind::Boolean(true),
        Some("false") => ValueKind::Boolean(false),
        Some("null") => ValueKind::Null,
        _ => return Err(cursor.fault(Fault::Value)),
    };
    cursor.pass(size);
    Ok(kind)
}

/// Returns the number of bytes of the letters and digits at the beginning of a text.
fn letters_in_front(text: &str) -> usize {
    text.find(|c: char| !c.is_alphanumeric())
        .unwrap_or(text.len())
}
