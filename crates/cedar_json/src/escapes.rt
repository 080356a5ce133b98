// Escapes in quoted texts: a backslash with a letter, or with `u` and four digits.
ghost use Rattle.std.specs.Prelude.{◌+◌, ◌-◌, ◌<◌, ◌≤◌, length, IsTrue, OnOk, IfOk};
ghost use Rattle.cedar_json.specs.Texts.{HasByte, HasDigit, IsHigh, IsLow, IsLetter, IsUnitAt, EscapeStands};

use crate::faults::Fault;

/// Reads the escape whose backslash is at `at`: its character, and the byte behind the escape.
pub fn escape(bytes: &[u8], at: usize) -> Result<(char, usize), Fault>
    requires { HasByte bytes.now at 92 }
    ensures { IfOk result (λ r. EscapeStands bytes.now at r.1 r.0) }
{
    match byte_at(bytes, at + 1)? {
        b'u' => unit_or_pair(bytes, at),
        letter => Ok((meant(letter)?, at + 2)),
    }
}

/// Returns the character that a letter behind a backslash stands for.
fn meant(letter: u8) -> Result<char, Fault>
    ensures letter { IfOk result (λ c. IsLetter letter c) }
    ensures ascii { OnOk result (letter < 128) }
{
    match letter {
        b'"' => Ok('"'),
        b'\\' => Ok('\\'),
        b'/' => Ok('/'),
        b'b' => Ok('\x08'),
        b'f' => Ok('\x0c'),
        b'n' => Ok('\n'),
        b'r' => Ok('\r'),
        b't' => Ok('\t'),
        _ => Err(Fault::Escape),
    }
}

/// Reads an escape of `u` and four digits, or a surrogate pair of two such: its character, and the
/// byte behind it.
fn unit_or_pair(bytes: &[u8], at: usize) -> Result<(char, usize), Fault>
    requires backslash { HasByte bytes.now at 92 }
    requires u { HasByte bytes.now (at + 1) 117 }
    ensures { IfOk result (λ r. EscapeStands bytes.now at r.1 r.0) }
{
    let first = unit(bytes, at + 2)?;
    if is_high(first) {
        return pair(bytes, at, first);
    }
    match char::from_u32(first) {
        Some(c) => Ok((c, at + 6)),
        None => Err(Fault::Surrogate),
    }
}

/// Reads the second half of a surrogate pair whose first half is `high`: the character of the pair,
/// and the byte behind the second escape.
fn pair(bytes: &[u8], at: usize, high: u32) -> Result<(char, usize), Fault>
    requires backslash { HasByte bytes.now at 92 }
    requires u { HasByte bytes.now (at + 1) 117 }
    requires unit { IsUnitAt bytes.now (at + 2) high }
    requires high { IsHigh high }
    ensures { IfOk result (λ r. EscapeStands bytes.now at r.1 r.0) }
{
    expect(bytes, at + 6, b'\\')?;
    expect(bytes, at + 7, b'u')?;
    let low = unit(bytes, at + 8)?;
    if !is_low(low) {
        return Err(Fault::Surrogate);
    }
    match char::from_u32(0x10000 + (high - 0xd800) * 0x400 + (low - 0xdc00)) {
        Some(c) => Ok((c, at + 12)),
        None => Err(Fault::Surrogate),
    }
}

/// Returns whether a unit is the first half of a surrogate pair.
fn is_high(unit: u32) -> bool
    ensures { IsTrue result → IsHigh unit }
{
    0xd800 <= unit && unit < 0xdc00
}

/// Returns whether a unit is the second half of a surrogate pair.
fn is_low(unit: u32) -> bool
    ensures { IsTrue result → IsLow unit }
{
    0xdc00 <= unit && unit < 0xe000
}

/// Returns the number that the four hexadecimal digits from `at` on write.
fn unit(bytes: &[u8], at: usize) -> Result<u32, Fault>
    requires { at ≤ length bytes.now }
    ensures { IfOk result (λ n. IsUnitAt bytes.now at n) }
{
    let first = digit_at(bytes, at)?;
    let second = digit_at(bytes, at + 1)?;
    let third = digit_at(bytes, at + 2)?;
    let fourth = digit_at(bytes, at + 3)?;
    Ok(((first * 16 + second) * 16 + third) * 16 + fourth)
}

/// Returns the value of the hexadecimal digit at `at`.
fn digit_at(bytes: &[u8], at: usize) -> Result<u32, Fault>
    ensures { IfOk result (λ d. HasDigit bytes.now at d) }
{
    let byte = byte_at(bytes, at)?;
    match (byte as char).to_digit(16) {
        Some(digit) => Ok(digit),
        None => Err(Fault::Escape),
    }
}

/// Fails if the byte at `at` is another than `byte`.
fn expect(bytes: &[u8], at: usize, byte: u8) -> Result<(), Fault>
    ensures { OnOk result (HasByte bytes.now at byte) }
{
    if byte_at(bytes, at)? == byte {
        Ok(())
    } else {
        Err(Fault::Surrogate)
    }
}

/// Returns the byte at `at`. If the text ends before it, the fault is that the text does not end.
fn byte_at(bytes: &[u8], at: usize) -> Result<u8, Fault>
    ensures { IfOk result (λ b. HasByte bytes.now at b) }
{
    if at < bytes.len() {
        Ok(bytes[at])
    } else {
        Err(Fault::Unclosed)
    }
}
