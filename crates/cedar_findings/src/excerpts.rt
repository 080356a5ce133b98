//! The line of a place behind its number, with carets below it.
use crate::columns::is_first_of_character;
use crate::digits::push_number;
use crate::escapes::{is_plain, push_shown, shown_width};
use cedar_types::base::Loc;
use std::alloc::AllocError;

/// The most characters of a line that are shown before a place, in it, and behind it: a text in one
/// line can be of any length.
const MAX_CHARACTERS_SHOWN: usize = 200;

/// The number of marks that are added at once.
const RUN: usize = 64;

const BLANKS: &str = "                                                                ";

const CARETS: &str = "^^^^^^^^^^^^^^^^^^^^^^^^^^^^^^^^^^^^^^^^^^^^^^^^^^^^^^^^^^^^^^^^";

/// The line in which a place begins, and its number; of a long line, only the part near the place.
#[derive(Drop)]
pub struct Excerpt<'a> {
    number: usize,
    /// The shown part of the line: before the place, in it, and behind it.
    line: &'a str,
    before: &'a str,
    within: &'a str,
}

impl<'a> Excerpt<'a> {
    /// The excerpt at a place of this text, which begins in the line of this number.
    pub fn new(text: &'a str, place: Loc, number: usize) -> Excerpt<'a> {
        let part = text.get(place.start..place.end).unwrap_or("");
        let before = end_of_line(text.get(..place.start).unwrap_or(""));
        let within = beginning_of_line(part);
        let mut end = place.start.saturating_add(within.len());
        if within.len() == part.len() {
            let after = beginning_of_line(text.get(place.end..).unwrap_or(""));
            end = place.end.saturating_add(after.len());
        }
        let start = place.start.saturating_sub(before.len());
        Excerpt {
            number,
            line: text.get(start..end).unwrap_or(""),
            before,
            within,
        }
    }

    /// Adds two lines: the text behind a gutter with its number, and carets below the place, one at
    /// least. Because of the gutter, no line of the output begins with a line of a text: a code
    /// host takes some such lines for commands.
    pub fn push_to(&self, out: &mut String) -> Result<(), AllocError> {
        out.push_str("  ")?;
        let start = out.len();
        push_number(out, self.number as u64)?;
        let digits = out.len().saturating_sub(start);
        out.push_str(" | ")?;
        push_with_tabs(out, self.line)?;
        out.push_str("\n  ")?;
        push_run(out, BLANKS, digits)?;
        out.push_str(" | ")?;
        push_below(out, BLANKS, ' ', self.before)?;
        let last = self.before.chars().next_back().unwrap_or(' ');
        match self.within {
            "" => out.push_str("^")?,
            within => push_below(out, CARETS, last, within)?,
        }
        out.push_str("\n")
    }
}

/// The part of a text before its first end of a line, of at most [`MAX_CHARACTERS_SHOWN`]
/// characters.
fn beginning_of_line(text: &str) -> &str {
    let mut size = 0usize;
    let mut characters = 0usize;
    for byte in text.bytes() {
        if is_first_of_character(byte) {
            characters = characters.saturating_add(1);
        }
        if byte == b'\n' || byte == b'\r' || characters > MAX_CHARACTERS_SHOWN {
            break;
        }
        size = size.saturating_add(1);
    }
    text.get(..size).unwrap_or("")
}

/// The part of a text behind the last end of a line.
fn end_of_line(text: &str) -> &str {
    let mut size = 0usize;
    let mut characters = 0usize;
    for byte in text.bytes().rev() {
        if byte == b'\n' || characters == MAX_CHARACTERS_SHOWN {
            break;
        }
        size = size.saturating_add(1);
        if is_first_of_character(byte) {
            characters = characters.saturating_add(1);
        }
    }
    text.get(text.len().saturating_sub(size)..).unwrap_or("")
}

/// Adds a text, whose tabs stay.
fn push_with_tabs(out: &mut String, text: &str) -> Result<(), AllocError> {
    if is_plain(text) {
        return out.push_str(text);
    }
    let mut is_first = true;
    for part in text.split('\t') {
        if !is_first {
            out.push_str("\t")?;
        }
        is_first = false;
        push_shown(out, part)?;
    }
    Ok(())
}

/// Adds marks of this run that fill the width of a text behind a character, with the tabs of the
/// text.
fn push_below(
    out: &mut String,
    run: &'static str,
    before: char,
    text: &str,
) -> Result<(), AllocError> {
    if is_plain(text) {
        return push_run(out, run, text.len());
    }
    let mut before = before;
    let mut is_first = true;
    for part in text.split('\t') {
        if !is_first {
            out.push_str("\t")?;
            before = '\t';
        }
        is_first = false;
        push_run(out, run, width(before, part))?;
    }
    Ok(())
}

/// The number of places that a text takes behind a character.
fn width(before: char, text: &str) -> usize {
    let mut before = before;
    let mut width = 0usize;
    for c in text.chars() {
        width = width.saturating_add(shown_width(before, c));
        before = c;
    }
    width
}

/// Adds `count` marks of a run.
fn push_run(out: &mut String, run: &'static str, count: usize) -> Result<(), AllocError> {
    let mut left = count;
    for _ in 0..=count / RUN {
        out.push_str(run.get(..left.min(RUN)).unwrap_or(""))?;
        left = left.saturating_sub(RUN);
    }
    Ok(())
}
