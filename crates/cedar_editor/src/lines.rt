//! Positions in the form of the editors' protocol: a line, counted from 0, and units of UTF-16 from its beginning.
ghost use Rattle.std.specs.Prelude.{◌≡◌, ◌↔◌, ℕ, ◌+◌, ◌-◌, ◌<◌, ◌≤◌, ◌++◌, List, length, map, filter, nat_lt, slice_index, IfOk, IsTrue, OnOk};
ghost use Rattle.std.specs.List.{range_with_len};
ghost use Rattle.cedar_editor.specs.Lines.{begins_line, line_starts, moved_byte, start_in, IsPositionOf};
ghost use Rattle.cedar_editor.specs.Edits.{spliced_text};
ghost use Rattle.cedar_editor.specs.Units.{IsBoundary};

use crate::offsets::{bytes_before, units_of};
use cedar_types::base::Loc;
use std::alloc::{AllocError, Global};

/// A position between two characters.
#[derive(Clone, Copy, PartialEq, Eq, PartialOrd, Ord, Debug)]
pub struct Position {
    pub line: usize,
    pub unit: usize,
}

/// A range from one position to another.
#[derive(Clone, Copy, PartialEq, Eq, Debug)]
pub struct Range {
    pub start: Position,
    pub end: Position,
}

/// The bytes at which the lines of a text begin, without the first line. A line ends with `\n`, `\r\n` or `\r`.
#[derive(Drop)]
pub struct Lines {
    starts: Vec<usize>,
}

impl Lines {
    /// The lines of this text.
    pub fn new(alloc: Global, text: &str) -> Result<Lines, AllocError>
        ensures { IfOk result (λ lines. lines.starts.items ≡ line_starts text.now) }
    {
        let mut starts = Vec::new(alloc);
        add_starts(text.as_bytes(), 0, text.len(), &mut starts)?;
        Ok(Lines { starts })
    }

    /// The lines of a changed text, if these are the lines of the text before the change, which put `inserted` bytes in place of
    /// those at `place`. If memory is refused, the answer is an `AllocError`.
    pub fn changed(
        &self,
        alloc: Global,
        text: &str,
        place: Loc,
        inserted: usize,
    ) -> Result<Lines, AllocError>
        ensures { IfOk result (λ lines. (old given : List ℕ)
            → self.now.starts.items ≡ line_starts old
            → place.start ≤ place.end → place.end ≤ length old → inserted ≡ length given
            → text.now ≡ spliced_text old place.start place.end given
            → lines.starts.items ≡ line_starts text.now) }
    {
        let mut starts = Vec::with_capacity(alloc, self.starts.len())?;
        let end = place.start.saturating_add(inserted).min(text.len());
        add_before(&self.starts, place.start, &mut starts)?;
        add_starts(text.as_bytes(), place.start, end, &mut starts)?;
        add_behind(&self.starts, place.end, end, &mut starts)?;
        Ok(Lines { starts })
    }

    /// The position of a byte of this text, which must be the text of these lines.
    pub fn position(&self, text: &str, byte: usize) -> Position
        ensures { byte ≤ length text.now → IsPositionOf self.now.starts.items text.now byte result }
    {
        let byte = byte.min(text.len());
        let line = self.line_of(byte);
        let start = self.start_of(line).min(byte);
        let unit = units_of(&text.as_bytes()[start..byte]);
        Position { line, unit }
    }

    /// The range of a place of this text.
    pub fn range(&self, text: &str, place: Loc) -> Range {
        Range {
            start: self.position(text, place.start),
            end: self.position(text, place.end),
        }
    }

    /// The byte at a position: the end of its line if the line is shorter, the end of the text if there is no such line, and
    /// the beginning of a character if the position is inside it. For the position of a byte that begins a character, the
    /// answer is this byte (clause `back`).
    pub fn byte(&self, text: &str, position: Position) -> usize
        ensures within { result ≤ length text.now }
        ensures back { (byte : ℕ) → IsBoundary text.now byte
            → IsPositionOf self.now.starts.items text.now byte position → result ≡ byte }
    {
        let bytes = text.as_bytes();
        let start = self.start_of(position.line).min(bytes.len());
        let found = start + bytes_before(&bytes[start..], position.unit);
        if self.is_behind(position.line, found) {
            let next = self.start_of(position.line.saturating_add(1));
            return end_of_line(bytes, start, next);
        }
        found
    }

    /// The line of a byte: the last one that begins at the byte or before it.
    pub(crate) fn line_of(&self, byte: usize) -> usize
        ensures declared { result ≤ length self.now.starts.items }
        ensures begun { start_in self.now.starts.items result ≤ byte }
        ensures over { result < length self.now.starts.items
            → byte < slice_index self.now.starts.items result }
    {
        let starts = self.starts.as_slice();
        let mut line = 0;
        let mut last = starts.len();
        // (the line is one from `line` to `last`)
        while line < last {
            let middle = last - (last - line) / 2;
            if starts[middle - 1] <= byte {
                line = middle;
            } else {
                last = middle - 1;
            }
        }
        line
    }

    /// The number of lines without the first.
    pub(crate) fn count(&self) -> usize
        ensures { result ≡ length self.now.starts.items }
    {
        self.starts.len()
    }

    /// The byte at which a line begins, or the last one if there is no such line.
    pub(crate) fn byte_of_line(&self, line: usize) -> usize {
        self.start_of(line.min(self.starts.len()))
    }

    /// The byte at which a line begins; far beyond the text if there is no such line.
    fn start_of(&self, line: usize) -> usize
        ensures { line ≤ length self.now.starts.items
            → result ≡ start_in self.now.starts.items line }
    {
        let starts = self.starts.as_slice();
        if line == 0 {
            0
        } else if line <= starts.len() {
            starts[line - 1]
        } else {
            usize::MAX
        }
    }

    /// Whether a byte stands behind a line.
    fn is_behind(&self, line: usize, byte: usize) -> bool
        ensures { IsTrue result
            ↔ ((line < length self.now.starts.items) ×
            (slice_index self.now.starts.items line ≤ byte)) }
    {
        let starts = self.starts.as_slice();
        line < starts.len() && starts[line] <= byte
    }
}

/// The byte at which the text of a line ends, without the end of the line. The line begins at `start`, and the next one at
/// `next`.
fn end_of_line(bytes: &[u8], start: usize, next: usize) -> usize
    ensures { result ≤ length bytes.now }
{
    let mut end = next.min(bytes.len());
    for _ in 0..2 {
        match end.checked_sub(1) {
            Some(last) if start <= last && is_end(bytes[last]) => end = last,
            _ => break,
        }
    }
    end
}

fn is_end(byte: u8) -> bool {
    byte == b'\n' || byte == b'\r'
}

/// Adds those of these bytes that stand before a byte.
fn add_before(starts: &[usize], byte: usize, kept: &mut Vec<usize>) -> Result<(), AllocError>
    ensures { OnOk result (kept.new.items
        ≡ kept.old.items ++ filter (λ k. nat_lt k byte) starts.now) }
{
    for start in starts {
        if *start < byte {
            kept.push(*start)?;
        }
    }
    Ok(())
}

/// Adds those of these bytes that stand behind a change, which ended at `old_end` and ends at `new_end` now.
fn add_behind(
    starts: &[usize],
    old_end: usize,
    new_end: usize,
    kept: &mut Vec<usize>,
) -> Result<(), AllocError>
    ensures { OnOk result (kept.new.items ≡ kept.old.items
        ++ map (moved_byte old_end new_end) (filter (λ k. nat_lt old_end k) starts.now)) }
{
    for start in starts {
        if old_end < *start {
            kept.push(moved(*start, old_end, new_end))?;
        }
    }
    Ok(())
}

/// The place of a byte behind a change, once the change is made.
pub(crate) fn moved(byte: usize, old_end: usize, new_end: usize) -> usize
    ensures { result ≡ moved_byte old_end new_end byte }
{
    byte.saturating_sub(old_end).saturating_add(new_end)
}

/// Adds the bytes at which lines begin, from one byte of a text to another.
fn add_starts(
    bytes: &[u8],
    from: usize,
    to: usize,
    starts: &mut Vec<usize>,
) -> Result<(), AllocError>
    ensures { OnOk result (to ≤ length bytes.now → from ≤ to → starts.new.items ≡ starts.old.items
        ++ filter (begins_line bytes.now) (range_with_len from (to + 1 - from))) }
{
    for start in from..to.min(bytes.len()).saturating_add(1) {
        if begins_line(bytes, start) {
            starts.push(start)?;
        }
    }
    Ok(())
}

/// Whether a line other than the first begins at a byte.
fn begins_line(bytes: &[u8], start: usize) -> bool
    ensures { result ≡ begins_line bytes.now start }
{
    if start == 0 || bytes.len() < start {
        return false;
    }
    match bytes[start - 1] {
        b'\n' => true,
        b'\r' => start == bytes.len() || bytes[start] != b'\n',
        _ => false,
    }
}
