// The texts of points in time.
ghost use Rattle.std.specs.Prelude.{◌≡◌};
ghost use Rattle.cedar_extensions.specs.Texts.Readers.{left_in};
ghost use Rattle.cedar_extensions.specs.Texts.Times as Time;

use super::readers::{is_all, read_byte, read_two_digits};

fn is_leap_year(year: u64) -> bool
    ensures { result ≡ Time.is_leap_year year }
{
    year % 4 == 0 && (year % 100 != 0 || year % 400 == 0)
}

/// The number of days in a month; none if there is no such month.
fn days_of(year: u64, month: u64) -> u64
    ensures { result ≡ Time.days_of year month }
{
    if month == 2 {
        if is_leap_year(year) { 29 } else { 28 }
    } else if month == 4 || month == 6 || month == 9 || month == 11 {
        30
    } else if 1 <= month && month <= 12 {
        31
    } else {
        0
    }
}

/// The rest behind `YYYY-MM-DD`, if the calendar has that day.
#[tactic(auto, unfolding(crate::specs::Texts::Times::read_date))]
fn read_date(s: &[u8]) -> Option<&[u8]>
    ensures { left_in result ≡ Time.read_date s.now }
{
    let (century, s) = read_two_digits(s)?;
    let (year, s) = read_two_digits(s)?;
    let (month, s) = read_two_digits(read_byte(s, b'-')?)?;
    let (day, s) = read_two_digits(read_byte(s, b'-')?)?;
    if 1 <= day && day <= days_of(100 * century + year, month) {
        Some(s)
    } else {
        None
    }
}

/// The rest behind `hh:mm:ss`, if a day has that second.
#[tactic(auto, unfolding(crate::specs::Texts::Times::read_clock))]
fn read_clock(s: &[u8]) -> Option<&[u8]>
    ensures { left_in result ≡ Time.read_clock s.now }
{
    let (hour, s) = read_two_digits(s)?;
    let (minute, s) = read_two_digits(read_byte(s, b':')?)?;
    let (second, s) = read_two_digits(read_byte(s, b':')?)?;
    if hour < 24 && minute < 60 && second < 60 {
        Some(s)
    } else {
        None
    }
}

/// The rest behind three digits.
fn read_three_digits(s: &[u8]) -> Option<&[u8]>
    ensures { left_in result ≡ Time.read_three_digits s.now }
{
    match s {
        [first, others @ ..] if first.is_ascii_digit() => {
            let (_number, rest) = read_two_digits(others)?;
            Some(rest)
        }
        _ => None,
    }
}

/// The rest behind `.SSS`.
fn read_fraction(s: &[u8]) -> Option<&[u8]>
    ensures { left_in result ≡ Time.read_fraction s.now }
{
    read_three_digits(read_byte(s, b'.')?)
}

/// The rest behind `.SSS`, or the whole text if it does not begin with a fraction.
fn skip_fraction(s: &[u8]) -> &[u8]
    ensures { result.now ≡ Time.skip_fraction s.now }
{
    match read_fraction(s) {
        Some(rest) => rest,
        None => s,
    }
}

/// The rest behind `hhmm`, if it is less than a day.
#[tactic(auto, unfolding(crate::specs::Texts::Times::read_offset))]
fn read_offset(s: &[u8]) -> Option<&[u8]>
    ensures { left_in result ≡ Time.read_offset s.now }
{
    let (hour, s) = read_two_digits(s)?;
    let (minute, s) = read_two_digits(s)?;
    if hour < 24 && minute < 60 {
        Some(s)
    } else {
        None
    }
}

/// Whether the text is `Z`, `+hhmm` or `-hhmm`.
fn is_zone(s: &[u8]) -> bool
    ensures { result ≡ Time.is_zone s.now }
{
    match s {
        [] => false,
        [first, rest @ ..] => {
            if *first == b'Z' {
                rest.is_empty()
            } else {
                (*first == b'+' || *first == b'-') && is_all(read_offset(rest))
            }
        }
    }
}

/// Whether the text is empty, or is `T` and a time of the day, perhaps with milliseconds, and its
/// zone.
fn is_time(s: &[u8]) -> bool
    ensures { result ≡ Time.is_time s.now }
{
    match s {
        [] => true,
        [first, time @ ..] => *first == b'T' && is_clock_with_zone(time),
    }
}

/// Whether the text is a time of the day, perhaps with milliseconds, and its zone.
fn is_clock_with_zone(s: &[u8]) -> bool
    ensures { result ≡ Time.is_clock_with_zone s.now }
{
    match read_clock(s) {
        Some(rest) => is_zone(skip_fraction(rest)),
        None => false,
    }
}

/// Whether the text is a date, or a date and a time of the day with its zone.
pub fn is_point_in_time(s: &[u8]) -> bool
    ensures { result ≡ Time.is_point_in_time s.now }
{
    match read_date(s) {
        Some(rest) => is_time(rest),
        None => false,
    }
}
