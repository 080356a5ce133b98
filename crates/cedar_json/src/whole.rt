// Values, and texts that are one value. Each object and each array goes one step deeper, up to
// `MAX_DEPTH`.
ghost use Rattle.std.specs.Prelude.{◌≡◌, ◌+◌, ◌-◌, ◌<◌, true, false, length, IsTrue, if◌then◌else◌, OnOk, IfOk, IfErr};
ghost use Rattle.cedar_json.specs.Cursors.{GoesOn, IsFaultWithin};
ghost use Rattle.cedar_json.specs.Fits.{FitsIn, FormFits, ItemsFit, MembersFit};
ghost use Rattle.cedar_json.specs.Says.{Blanks, FormSays, ItemsStand, KeysDiffer, MembersStand, Says, Separates, Stands};
ghost use Rattle.cedar_json.specs.Texts.{HasByte};
ghost use Rattle.cedar_json.specs.View.{tree_of, form_of, items_view, members_view};

use crate::cursor::Cursor;
use crate::faults::{Fault, ReadError};
use crate::literals::literal;
use crate::objects::Entries;
use crate::values::{Key, MAX_DEPTH, Value, ValueKind};
use std::alloc::Global;

/// Reads a text that is a value and nothing else, with blanks around it.
pub fn value_alone(alloc: Global, text: &str) -> Result<Value, ReadError>
    ensures ok { IfOk result (λ v. FitsIn MAX_DEPTH 0 (length text.now) (tree_of v)) }
    ensures says { IfOk result (λ v. Says text.now (tree_of v)) }
    ensures err { IfErr result (λ e. IsFaultWithin (length text.now) e) }
{
    let mut cursor = Cursor::new(alloc, text)?;
    let read = value(&mut cursor, MAX_DEPTH)?;
    cursor.pass_blanks();
    match cursor.peek() {
        None => Ok(read),
        Some(_) => Err(cursor.fault(Fault::Trailing)),
    }
}

/// Reads a value, in which at most `left` objects and arrays may stand inside each other.
#[cycle(values)]
pub fn value(cursor: &mut Cursor<'_>, left: usize) -> Result<Value, ReadError>
    ensures on { OnOk result (GoesOn cursor.old cursor.new) }
    ensures ok { IfOk result (λ v. FitsIn left cursor.old.at cursor.new.at (tree_of v)) }
    ensures says { IfOk result
        (λ v. Stands cursor.old.text.now cursor.old.at cursor.new.at (tree_of v)) }
    ensures err { IfErr result (λ e. IsFaultWithin (length cursor.old.text.now) e) }
{
    cursor.pass_blanks();
    let start = cursor.at;
    let kind = kind(cursor, left)?;
    Ok(Value {
        place: cursor.since(start),
        kind,
    })
}

/// Reads a value that begins with the next byte.
#[cycle(values)]
fn kind(cursor: &mut Cursor<'_>, left: usize) -> Result<ValueKind, ReadError>
    ensures on { OnOk result (GoesOn cursor.old cursor.new) }
    ensures ok { IfOk result (λ k. FormFits left cursor.old.at cursor.new.at (form_of k)) }
    ensures says { IfOk result
        (λ k. FormSays cursor.old.text.now cursor.old.at cursor.new.at (form_of k)) }
    ensures err { IfErr result (λ e. IsFaultWithin (length cursor.old.text.now) e) }
{
    match cursor.peek() {
        Some(b'{') => Ok(ValueKind::Object(entries(cursor, left)?)),
        Some(b'[') => Ok(ValueKind::Array(items(cursor, left)?)),
        _ => literal(cursor),
    }
}

/// Reads the entries of an object.
#[cycle(values)]
fn entries(cursor: &mut Cursor<'_>, left: usize) -> Result<Vec<(Key, Value)>, ReadError>
    requires { HasByte cursor.old.text.now cursor.old.at 123 }
    ensures on { OnOk result (GoesOn cursor.old cursor.new) }
    ensures deep { OnOk result (0 < left) }
    ensures differ { IfOk result (λ es. KeysDiffer (members_view es.items)) }
    ensures stand { IfOk result (λ es. MembersStand cursor.old.text.now
        (cursor.old.at + 1) cursor.new.at (members_view es.items)) }
    ensures ok { IfOk result
        (λ es. MembersFit (left - 1) cursor.old.at cursor.new.at (members_view es.items)) }
    ensures err { IfErr result (λ e. IsFaultWithin (length cursor.old.text.now) e) }
{
    let Some(inner) = left.checked_sub(1) else {
        return Err(cursor.fault(Fault::TooDeep));
    };
    let mut read = Entries::new(cursor.alloc);
    if begins_empty(cursor, b'}') {
        return Ok(read.finish());
    }
    for _ in 0..cursor.text.len() {
        let key = read.key(cursor)?;
        let value = value(cursor, inner)?;
        read.push(key, value)?;
        if ends(cursor, b'}', Fault::InObject)? {
            return Ok(read.finish());
        }
    }
    Err(cursor.fault(Fault::InObject))
}

/// Reads the items of an array.
#[cycle(values)]
fn items(cursor: &mut Cursor<'_>, left: usize) -> Result<Vec<Value>, ReadError>
    requires { HasByte cursor.old.text.now cursor.old.at 91 }
    ensures on { OnOk result (GoesOn cursor.old cursor.new) }
    ensures deep { OnOk result (0 < left) }
    ensures stand { IfOk result (λ vs. ItemsStand cursor.old.text.now
        (cursor.old.at + 1) cursor.new.at (items_view vs.items)) }
    ensures ok { IfOk result
        (λ vs. ItemsFit (left - 1) cursor.old.at cursor.new.at (items_view vs.items)) }
    ensures err { IfErr result (λ e. IsFaultWithin (length cursor.old.text.now) e) }
{
    let Some(inner) = left.checked_sub(1) else {
        return Err(cursor.fault(Fault::TooDeep));
    };
    let mut read = Vec::new(cursor.alloc);
    if begins_empty(cursor, b']') {
        return Ok(read);
    }
    for _ in 0..cursor.text.len() {
        let item = value(cursor, inner)?;
        read.push(item)?;
        if ends(cursor, b']', Fault::InArray)? {
            return Ok(read);
        }
    }
    Err(cursor.fault(Fault::InArray))
}

/// Reads the bracket before several parts, and the closing one if there is no part. Returns whether
/// there is none.
pub fn begins_empty(cursor: &mut Cursor<'_>, closing: u8) -> bool
    ensures on { GoesOn cursor.old cursor.new }
    ensures closed { cursor.old.at < length cursor.old.text.now → IsTrue result
        → Separates cursor.old.text.now (cursor.old.at + 1) cursor.new.at closing }
    ensures opened { cursor.old.at < length cursor.old.text.now → result ≡ false
        → Blanks cursor.old.text.now (cursor.old.at + 1) cursor.new.at }
{
    cursor.pass(1);
    cursor.pass_blanks();
    cursor.takes(closing)
}

/// Returns whether no further part follows. Reads the bracket behind the last part, or the comma
/// before another.
pub fn ends(cursor: &mut Cursor<'_>, closing: u8, fault: Fault) -> Result<bool, ReadError>
    ensures on { OnOk result (GoesOn cursor.old cursor.new) }
    ensures separates { IfOk result (λ last. Separates cursor.old.text.now cursor.old.at
        cursor.new.at (if last then closing else 44)) }
    ensures err { IfErr result (λ e. IsFaultWithin (length cursor.old.text.now) e) }
{
    cursor.pass_blanks();
    if cursor.takes(closing) {
        return Ok(true);
    }
    cursor.expect(b',', fault)?;
    Ok(false)
}
