// The texts of decimal numbers and of durations.
ghost use Rattle.std.specs.Prelude.{◌≡◌, ◌<◌, ◌^◌, IfSome};
ghost use Rattle.cedar_extensions.specs.Texts.Readers.{read_in, left_in};
ghost use Rattle.cedar_extensions.specs.Texts.Numbers as Number;

use super::readers::{read_byte, read_number, without_minus};

/// The greatest number behind a sign, in the last places of a decimal and in milliseconds.
fn greatest(is_negative: bool) -> u128
    ensures { result ≡ Number.greatest is_negative }
{
    if is_negative {
        0x8000_0000_0000_0000
    } else {
        0x7fff_ffff_ffff_ffff
    }
}

/// The value, in ten thousandths, of the last of so many digits behind a point; none without a digit or with more than four.
fn scale_of(digits: usize) -> u128
    ensures value { result ≡ Number.scale_of digits }
    ensures bound { result < 1001 }
{
    if digits == 1 {
        1000
    } else if digits == 2 {
        100
    } else if digits == 3 {
        10
    } else if digits == 4 {
        1
    } else {
        0
    }
}

/// The value, in ten thousandths, of one to four digits behind a point.
#[tactic(auto, unfolding(crate::specs::Texts::Numbers::ten_thousandths))]
fn ten_thousandths(s: &[u8]) -> Option<u128>
    ensures value { result ≡ Number.ten_thousandths s.now }
    ensures bound { IfSome result (λ n. n < 2 ^ 80) }
{
    let (number, rest) = read_number(s)?;
    let scale = scale_of(s.len());
    if rest.is_empty() && scale != 0 {
        Some(u128::from(number) * scale)
    } else {
        None
    }
}

/// The value, in ten thousandths, of digits, a point, and one to four digits.
#[tactic(auto, unfolding(crate::specs::Texts::Numbers::decimal_value))]
fn decimal_value(s: &[u8]) -> Option<u128>
    ensures { result ≡ Number.decimal_value s.now }
{
    let (whole, rest) = read_number(s)?;
    let behind = read_byte(rest, b'.')?;
    let part = ten_thousandths(behind)?;
    Some(u128::from(whole) * 10000 + part)
}

/// Whether the text is digits, a point, and one to four digits, perhaps with a minus before them.
pub fn is_decimal(s: &[u8]) -> bool
    ensures { result ≡ Number.is_decimal s.now }
{
    let (is_negative, digits) = without_minus(s);
    match decimal_value(digits) {
        Some(value) => value <= greatest(is_negative),
        None => false,
    }
}

fn begins_with_letter(s: &[u8]) -> bool
    ensures { result ≡ Number.begins_with_letter s.now }
{
    match s {
        [first, ..] => first.is_ascii_alphabetic(),
        [] => false,
    }
}

/// The rest behind these letters, if it does not begin with a letter.
#[tactic(auto, unfolding(crate::specs::Texts::Numbers::read_unit))]
fn read_unit<'a>(unit: &[u8], s: &'a [u8]) -> Option<&'a [u8]>
    ensures { left_in result ≡ Number.read_unit unit.now s.now }
{
    match unit {
        [first, others @ ..] => read_unit(others, read_byte(s, *first)?),
        [] => { if begins_with_letter(s) { None } else { Some(s) } }
    }
}

/// A number with its unit behind it, and the rest.
#[tactic(auto, unfolding(crate::specs::Texts::Numbers::read_quantity))]
fn read_quantity<'a>(unit: &[u8], s: &'a [u8]) -> Option<(u64, &'a [u8])>
    ensures { read_in result ≡ Number.read_quantity unit.now s.now }
{
    let (number, rest) = read_number(s)?;
    let rest = read_unit(unit, rest)?;
    Some((number, rest))
}

/// The milliseconds that a text gives in this unit, which has so many of them, and the rest; none if the unit is left out.
#[tactic(auto, unfolding(crate::specs::Texts::Numbers::skip_unit))]
fn skip_unit<'a>(unit: &[u8], milliseconds: u32, s: &'a [u8]) -> (u128, &'a [u8])
    ensures value { (result.0, result.1.now) ≡ Number.skip_unit unit.now milliseconds s.now }
    ensures bound { result.0 < 2 ^ 96 }
{
    match read_quantity(unit, s) {
        Some((number, rest)) => (u128::from(number) * u128::from(milliseconds), rest),
        None => (0, s),
    }
}

/// The milliseconds of days, hours, minutes, seconds and milliseconds, each of which may be left out, and the rest.
#[tactic(auto, unfolding(crate::specs::Texts::Numbers::milliseconds))]
fn milliseconds(s: &[u8]) -> (u128, &[u8])
    ensures { (result.0, result.1.now) ≡ Number.milliseconds s.now }
{
    let (days, s) = skip_unit(b"d", 86_400_000, s);
    let (hours, s) = skip_unit(b"h", 3_600_000, s);
    let (minutes, s) = skip_unit(b"m", 60_000, s);
    let (seconds, s) = skip_unit(b"s", 1_000, s);
    let (rest, s) = skip_unit(b"ms", 1, s);
    (days + hours + minutes + seconds + rest, s)
}

/// Whether the text is numbers with units behind them, perhaps with a minus before them. Each unit comes at most once, and the
/// greater first, for example `1h30m`.
pub fn is_duration(s: &[u8]) -> bool
    ensures { result ≡ Number.is_duration s.now }
{
    let (is_negative, s) = without_minus(s);
    let (total, rest) = milliseconds(s);
    !s.is_empty() && rest.is_empty() && total <= greatest(is_negative)
}
