// Quoted texts.
ghost use Rattle.std.specs.Prelude.{◌≡◌, ◌+◌, ◌-◌, ◌++◌, ℕ, false, ◌<◌, ◌≤◌, length, slice_index, slice_range, IsTrue, OnOk, IfOk, IfErr};
ghost use Rattle.std.specs.String.{string_bytes};
ghost use Rattle.cedar_json.specs.Cursors.{GoesOn, IsFaultWithin};
ghost use Rattle.cedar_json.specs.Texts.{HasByte, IsPlain, ArePlain, Quotes, AddsEscape};
ghost use Rattle.cedar_types.specs.Names.{text_of};

use crate::cursor::Cursor;
use crate::escapes::escape;
use crate::faults::{Fault, ReadError};
use std::alloc::AllocError;
use std::rc::RcStr;

/// Reads a quoted text whose opening quote comes next, and returns its characters with the escapes
/// replaced.
///
/// The fault of an escape stands at its backslash; the fault of a text without an end stands at its
/// first quote.
pub fn text(cursor: &mut Cursor<'_>) -> Result<RcStr, ReadError>
    requires { HasByte cursor.old.text.now cursor.old.at 34 }
    ensures on { OnOk result (GoesOn cursor.old cursor.new) }
    ensures says { IfOk result
        (λ s. Quotes cursor.old.text.now cursor.old.at cursor.new.at (text_of s)) }
    ensures err { IfErr result (λ e. IsFaultWithin (length cursor.old.text.now) e) }
{
    let start = cursor.at;
    cursor.pass(1);
    let mut plain = String::new(cursor.alloc);
    'pieces: loop {
        push_plain(cursor, &mut plain)?;
        match cursor.peek() {
            Some(b'"') => {
                cursor.pass(1);
                return Ok(RcStr::from_string(plain)?);
            }
            Some(b'\\') => push_escape(cursor, &mut plain, start)?,
            Some(_) => return Err(cursor.fault(Fault::Control)),
            None => return Err(ReadError::At(start, Fault::Unclosed)),
        }
    }
}

/// Adds the plain bytes that come next. The byte before them is ASCII.
fn push_plain(cursor: &mut Cursor<'_>, plain: &mut String) -> Result<(), AllocError>
    requires behind { 0 < cursor.old.at }
    requires ascii { slice_index cursor.old.text.now (cursor.old.at - 1) < 128 }
    ensures on { OnOk result (GoesOn cursor.old cursor.new) }
    ensures plain { OnOk result
        (ArePlain (slice_range cursor.old.text.now cursor.old.at cursor.new.at)) }
    ensures added { OnOk result (string_bytes plain.new
        ≡ string_bytes plain.old ++ slice_range cursor.old.text.now cursor.old.at cursor.new.at) }
{
    let end = behind_plain(cursor.text.as_bytes(), cursor.at);
    plain.push_str(&cursor.text[cursor.at..end])?;
    cursor.at = end;
    Ok(())
}

/// Returns the end of the plain bytes that stand from `start` on.
fn behind_plain(bytes: &[u8], start: usize) -> usize
    requires { start ≤ length bytes.now }
    ensures within { (start ≤ result) × (result ≤ length bytes.now) }
    ensures plain { (i : ℕ) → start ≤ i → i < result → IsPlain (slice_index bytes.now i) }
    ensures ascii { slice_index bytes.now result < 128 }
{
    let mut at = start;
    'plain: while at < bytes.len() && is_plain(bytes[at]) {
        at += 1;
    }
    at
}

fn is_plain(byte: u8) -> bool
    ensures yes { IsTrue result → IsPlain byte }
    ensures no { result ≡ false → byte < 128 }
{
    byte != b'"' && byte != b'\\' && byte >= b' '
}

/// Adds the character of the escape that comes next. The quoted text begins at `start`.
fn push_escape(cursor: &mut Cursor<'_>, plain: &mut String, start: usize) -> Result<(), ReadError>
    requires comes { HasByte cursor.old.text.now cursor.old.at 92 }
    requires start { start ≤ cursor.old.at }
    ensures on { OnOk result (GoesOn cursor.old cursor.new) }
    ensures added { OnOk result (AddsEscape
        (slice_range cursor.old.text.now cursor.old.at cursor.new.at)
        (string_bytes plain.old) (string_bytes plain.new)) }
    ensures within { OnOk result (cursor.old.at < cursor.new.at) }
    ensures ascii { OnOk result (slice_index cursor.old.text.now (cursor.new.at - 1) < 128) }
    ensures err { IfErr result (λ e. IsFaultWithin (length cursor.old.text.now) e) }
{
    match escape(cursor.text.as_bytes(), cursor.at) {
        Ok((c, end)) => {
            plain.push(c)?;
            cursor.at = end;
            Ok(())
        }
        Err(Fault::Unclosed) => Err(ReadError::At(start, Fault::Unclosed)),
        Err(fault) => Err(cursor.fault(fault)),
    }
}
