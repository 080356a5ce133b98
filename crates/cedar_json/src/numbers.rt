// Numbers: the reader accepts whole numbers that fit 64 bits.
ghost use Rattle.std.specs.Prelude.{◌≡◌, ◌≢◌, ◌+◌, ℕ, false, length, ◌<◌, ◌≤◌, slice_range, slice_index, IfSome, OnOk, IfOk, IfErr};
ghost use Rattle.cedar_json.specs.Cursors.{GoesOn, IsFaultWithin};
ghost use Rattle.cedar_json.specs.Numbers.{SaysInteger, IsDecimal};
ghost use Rattle.std.specs.Int.{IsInRange};

use crate::cursor::Cursor;
use crate::faults::{Fault, ReadError};

/// Reads a number, which begins with a minus or a digit.
pub fn integer(cursor: &mut Cursor<'_>) -> Result<i64, ReadError>
    ensures on { OnOk result (GoesOn cursor.old cursor.new) }
    ensures ok { let read = slice_range cursor.old.text.now cursor.old.at cursor.new.at in
        IfOk result (λ z. SaysInteger read z) }
    ensures decimal { OnOk result
        (IsDecimal (slice_range cursor.old.text.now cursor.old.at cursor.new.at)) }
    ensures err { IfErr result (λ e. IsFaultWithin (length cursor.old.text.now) e) }
{
    let start = cursor.at;
    cursor.takes(b'-');
    let end = behind_digits(cursor.text.as_bytes(), cursor.at);
    if end == cursor.at {
        return Err(cursor.fault(Fault::Digit));
    }
    if begins_with_zero(cursor.text.as_bytes(), cursor.at, end) {
        return Err(cursor.fault(Fault::LeadingZero));
    }
    cursor.at = end;
    check_whole(cursor)?;
    match number_at(cursor.text, start, cursor.at) {
        Some(number) => Ok(number),
        None => Err(ReadError::At(start, Fault::Range)),
    }
}

/// Returns whether several digits stand from `start` to `end` and the first is a zero.
fn begins_with_zero(bytes: &[u8], start: usize, end: usize) -> bool
    requires within { (start < «end») × («end» ≤ length bytes.now) }
    ensures { result ≡ false → start + 1 < «end» → slice_index bytes.now start ≢ 48 }
{
    bytes[start] == b'0' && start + 1 < end
}

/// Returns the number that stands from `start` to `end` in a text, if it fits 64 bits.
fn number_at(text: &str, start: usize, end: usize) -> Option<i64>
    ensures { IfSome result (λ z. SaysInteger (slice_range text.now start «end») z) }
{
    text.get(start..end)?.parse::<i64>().ok()
}

/// Returns the end of the digits that stand from `start` on.
fn behind_digits(bytes: &[u8], start: usize) -> usize
    requires { start ≤ length bytes.now }
    ensures within { (start ≤ result) × (result ≤ length bytes.now) }
    ensures digits { (i : ℕ) → start ≤ i → i < result → IsInRange 48 57 (slice_index bytes.now i) }
{
    let mut at = start;
    'digits: while at < bytes.len() && bytes[at].is_ascii_digit() {
        at += 1;
    }
    at
}

/// Fails if a fraction or an exponent follows the digits of a number.
fn check_whole(cursor: &Cursor<'_>) -> Result<(), ReadError>
    ensures { IfErr result (λ e. IsFaultWithin (length cursor.now.text.now) e) }
{
    match cursor.peek() {
        Some(b'.') => Err(cursor.fault(Fault::Fraction)),
        Some(b'e') | Some(b'E') => Err(cursor.fault(Fault::Exponent)),
        _ => Ok(()),
    }
}
