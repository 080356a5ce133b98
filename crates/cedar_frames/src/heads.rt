// Heads of frames: lines, of which one says a length, and an empty line.
ghost use Rattle.std.specs.Prelude.{◌≡◌, ℕ, ◌+◌, ◌<◌, ◌≤◌, ◌^◌, ◌++◌, false, true, length, slice_index, List, IfSome, MatchOption};
ghost use Rattle.std.specs.Char.{is_ascii_digit};
ghost use Rattle.std.specs.Fmt.{decimal};
ghost use Rattle.cedar_frames.specs.Frames.{head, head_said};

use std::str;

/// The most bytes that a head may have: a longer one says no length, unless it has the form that programs send.
pub const MAX_HEAD: usize = 1 << 13;

/// The beginning of a head as programs send it, up to its digits. `BLANK` stands behind those.
const NAME: &[u8] = b"Content-Length: ";

const BLANK: &[u8] = b"\r\n\r\n";

/// A head: the number of its bytes, and the length that it says, if it says one.
#[derive(Clone, Copy)]
pub struct Head {
    pub size: usize,
    pub length: Option<usize>,
}

/// The head at the beginning of these bytes, if it has come whole. A head in the form that programs send is found with its
/// length (clause `usual`). A head has at least one byte (clause `some`).
pub fn head_of(bytes: &[u8]) -> Option<Head>
    ensures within { IfSome result (λ it. it.size ≤ length bytes.now) }
    ensures some { IfSome result (λ it. 0 < it.size) }
    ensures usual { (n : ℕ) (rest : List ℕ) → n < 2 ^ 64 → bytes.now ≡ head n ++ rest
        → result ≡ Some (head_said n) }
{
    match usual_head(bytes) {
        Some(found) => Some(found),
        None => other_head(bytes),
    }
}

/// The head at the beginning, if it has the form that programs send.
fn usual_head(bytes: &[u8]) -> Option<Head>
    ensures within { IfSome result (λ it. it.size ≤ length bytes.now) }
    ensures some { IfSome result (λ it. 0 < it.size) }
    ensures usual { (n : ℕ) (rest : List ℕ) → n < 2 ^ 64 → bytes.now ≡ head n ++ rest
        → result ≡ Some (head_said n) }
{
    let rest = behind(bytes, NAME)?;
    let count = count_digits(rest);
    let length = number_of(&rest[..count])?;
    let message = behind(&rest[count..], BLANK)?;
    Some(Head {
        size: bytes.len() - message.len(),
        length: Some(length),
    })
}

/// The bytes behind a beginning, if the bytes begin with it.
fn behind<'a>(bytes: &'a [u8], beginning: &[u8]) -> Option<&'a [u8]>
    ensures size { IfSome result
        (λ rest. length bytes.now ≡ length beginning.now + length rest.now) }
    ensures found { (rest : List ℕ) → bytes.now ≡ beginning.now ++ rest
        → MatchOption result ⊥ (λ own. own.now ≡ rest) }
{
    match bytes.strip_prefix(beginning) {
        Some(rest) => Some(rest),
        None => None,
    }
}

/// The number of digits with which the bytes begin.
fn count_digits(bytes: &[u8]) -> usize
    ensures within { result ≤ length bytes.now }
    ensures digits { (n : ℕ) → n < result → is_ascii_digit (slice_index bytes.now n) ≡ true }
    ensures end { result < length bytes.now
        → is_ascii_digit (slice_index bytes.now result) ≡ false }
{
    for (at, byte) in bytes.iter().enumerate() {
        if !byte.is_ascii_digit() {
            return at;
        }
    }
    bytes.len()
}

/// The number that digits say, if these bytes are digits and it fits.
fn number_of(digits: &[u8]) -> Option<usize>
    ensures { (n : ℕ) → n < 2 ^ 64 → digits.now ≡ decimal n → result ≡ Some n }
{
    let text = match str::from_utf8(digits) {
        Ok(text) => text,
        Err(_) => return None,
    };
    match text.parse::<usize>() {
        Ok(number) => Some(number),
        Err(_) => None,
    }
}

/// The head at the beginning, up to the first empty line, whatever its lines are. One of more than [`MAX_HEAD`] bytes says no
/// length.
fn other_head(bytes: &[u8]) -> Option<Head>
    ensures within { IfSome result (λ it. it.size ≤ length bytes.now) }
    ensures some { IfSome result (λ it. 0 < it.size) }
{
    let size = size_of_head(bytes)?;
    let length = match str::from_utf8(&bytes[..size]) {
        Ok(lines) if size <= MAX_HEAD => said_length(lines),
        _ => None,
    };
    Some(Head { size, length })
}

/// The number of bytes up to the end of the first empty line behind another line; none if there is no such line.
fn size_of_head(bytes: &[u8]) -> Option<usize>
    ensures within { IfSome result (λ size. size ≤ length bytes.now) }
    ensures some { IfSome result (λ size. 0 < size) }
{
    for start in 0..bytes.len() {
        if let Some(rest) = behind(&bytes[start..], BLANK) {
            return Some(bytes.len() - rest.len());
        }
    }
    None
}

/// The length that lines say. The last line with a length counts; it must be a number.
fn said_length(lines: &str) -> Option<usize> {
    let mut said = None;
    for line in lines.split("\r\n") {
        let Some((name, value)) = line.split_once(':') else {
            continue;
        };
        if name.trim().eq_ignore_ascii_case("content-length") {
            said = decimal_of(value.trim());
        }
    }
    said
}

/// The number that a text of digits says, if it fits; none for any other text.
fn decimal_of(text: &str) -> Option<usize> {
    if !text.bytes().all(|byte| byte.is_ascii_digit()) {
        return None;
    }
    text.parse().ok()
}
