// Points in time and spans between them, as texts: `offset` makes a point of both, because Cedar
// writes each `datetime` of an entity so.
use cedar_extensions::checks::Constructor;
use std::alloc::{AllocError, Global};

const MILLISECONDS_OF_DAY: u64 = 86_400_000;

/// The days from the beginning of the year 0 to the end of the year 9999, the last that a text can
/// name.
const DAYS_OF_TEXTS: u64 = 3_652_425;

/// The months, and the days of a common year before each.
const MONTHS: [(u64, u64); 12] = [
    (1, 0),
    (2, 31),
    (3, 59),
    (4, 90),
    (5, 120),
    (6, 151),
    (7, 181),
    (8, 212),
    (9, 243),
    (10, 273),
    (11, 304),
    (12, 334),
];

/// The units of a duration, and the milliseconds of each, in their order in a text.
const UNITS: [(&str, u64); 5] = [
    ("d", 86_400_000),
    ("h", 3_600_000),
    ("m", 60_000),
    ("s", 1_000),
    ("ms", 1),
];

/// Returns the text of the point in time that is a duration behind another one. `None` if a text
/// cannot be read, or if no text names the point, because it is before the year 0 or after 9999.
pub(crate) fn offset(
    alloc: Global,
    datetime: &str,
    duration: &str,
) -> Result<Option<String>, AllocError> {
    match milliseconds_behind(datetime, duration) {
        Some(time) => Ok(Some(text_of_time(alloc, time)?)),
        None => Ok(None),
    }
}

/// Returns the milliseconds from the beginning of the year 0 to that point in time.
fn milliseconds_behind(datetime: &str, duration: &str) -> Option<u64> {
    if !Constructor::Datetime.reads(datetime) || !Constructor::Duration.reads(duration) {
        return None;
    }
    let local = local_time(datetime)?;
    let (sign, zone) = zone_of(datetime)?;
    // a zone in the east is ahead of UTC
    let time = match sign {
        Sign::Plus => local.checked_sub(zone)?,
        Sign::Minus => local.checked_add(zone)?,
    };
    let time = match duration.strip_prefix('-') {
        Some(span) => time.checked_sub(span_of(span)?)?,
        None => time.checked_add(span_of(duration)?)?,
    };
    (time / MILLISECONDS_OF_DAY < DAYS_OF_TEXTS).then_some(time)
}

/// A sign before a number.
#[derive(Clone, Copy)]
enum Sign {
    Plus,
    Minus,
}

/// Returns the milliseconds from the beginning of the year 0 to a point in time, by the clock of
/// its zone.
fn local_time(datetime: &str) -> Option<u64> {
    let month = number_at(datetime, 5, 7)?;
    let days = days_before(number_at(datetime, 0, 4)?, month)
        .saturating_add(number_at(datetime, 8, 10)?)
        .saturating_sub(1);
    let midnight = days.checked_mul(MILLISECONDS_OF_DAY)?;
    if datetime.len() <= 10 {
        return Some(midnight);
    }
    let seconds = number_at(datetime, 11, 13)?
        .saturating_mul(60)
        .saturating_add(number_at(datetime, 14, 16)?)
        .saturating_mul(60)
        .saturating_add(number_at(datetime, 17, 19)?);
    let part = match datetime.get(19..20) {
        Some(".") => number_at(datetime, 20, 23)?,
        _ => 0,
    };
    midnight
        .checked_add(seconds.saturating_mul(1_000))?
        .checked_add(part)
}

/// Returns how far the zone of a point in time is from UTC, in milliseconds.
fn zone_of(datetime: &str) -> Option<(Sign, u64)> {
    let Some((_, zone)) = datetime.split_once('T') else {
        return Some((Sign::Plus, 0));
    };
    let (sign, zone) = match (zone.split_once('+'), zone.split_once('-')) {
        (Some((_, zone)), _) => (Sign::Plus, zone),
        (None, Some((_, zone))) => (Sign::Minus, zone),
        (None, None) => return Some((Sign::Plus, 0)),
    };
    let minutes = number_at(zone, 0, 2)?
        .saturating_mul(60)
        .saturating_add(number_at(zone, 2, 4)?);
    Some((sign, minutes.saturating_mul(60_000)))
}

/// Returns the milliseconds of a duration without its sign.
fn span_of(duration: &str) -> Option<u64> {
    let mut rest = duration;
    let mut total = 0u64;
    for (unit, milliseconds) in &UNITS {
        let behind = rest.trim_start_matches(|c: char| c.is_ascii_digit());
        let others = behind.trim_start_matches(|c: char| c.is_ascii_alphabetic());
        if behind.strip_suffix(others) != Some(*unit) {
            continue;
        }
        let number = rest.strip_suffix(behind)?.parse::<u64>().ok()?;
        total = total.checked_add(number.checked_mul(*milliseconds)?)?;
        rest = others;
    }
    rest.is_empty().then_some(total)
}

/// Returns the number that stands between two bytes.
fn number_at(text: &str, start: usize, end: usize) -> Option<u64> {
    text.get(start..end)?.parse::<u64>().ok()
}

/// Returns the days from the beginning of the year 0 to the beginning of a month, from 1 on.
fn days_before(year: u64, month: u64) -> u64 {
    let fourths = year.saturating_add(3) / 4;
    let hundredths = year.saturating_add(99) / 100;
    let leap_years = fourths
        .saturating_sub(hundredths)
        .saturating_add(year.saturating_add(399) / 400);
    let is_leap_year = year % 4 == 0 && (year % 100 != 0 || year % 400 == 0);
    let leap_day = u64::from(is_leap_year && month > 2);
    let mut days = year.saturating_mul(365).saturating_add(leap_years);
    for (number, before) in &MONTHS {
        if *number == month {
            days = days.saturating_add(*before);
        }
    }
    days.saturating_add(leap_day)
}

/// Returns the text of a point in time, by the milliseconds from the beginning of the year 0.
fn text_of_time(alloc: Global, time: u64) -> Result<String, AllocError> {
    let days = time / MILLISECONDS_OF_DAY;
    let mut year = days / 366;
    // a year has at most 366 days, so up to the year 9999 this is less than 40 years too early
    for _ in 0..40 {
        if days_before(year.saturating_add(1), 1) > days {
            break;
        }
        year = year.saturating_add(1);
    }
    let mut month = 1u64;
    for (number, _) in &MONTHS {
        if days_before(year, *number) <= days {
            month = *number;
        }
    }
    let day = days
        .saturating_sub(days_before(year, month))
        .saturating_add(1);
    let parts = [
        ("", year, 10_000),
        ("-", month, 100),
        ("-", day, 100),
        ("T", time / 3_600_000 % 24, 100),
        (":", time / 60_000 % 60, 100),
        (":", time / 1_000 % 60, 100),
        (".", time % 1_000, 1_000),
    ];
    let mut out = String::new(alloc);
    for (before, number, limit) in &parts {
        out.push_str(before)?;
        push_digits(alloc, &mut out, *number, *limit)?;
    }
    out.push('Z')?;
    Ok(out)
}

/// Adds a number below `limit`, which is a power of ten, with zeros before it.
fn push_digits(alloc: Global, out: &mut String, number: u64, limit: u64) -> Result<(), AllocError> {
    let digits = format!(in alloc; "{}", limit.saturating_add(number))?;
    out.push_str(digits.as_str().get(1..).unwrap_or(""))
}
