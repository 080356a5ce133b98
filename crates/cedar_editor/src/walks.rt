//! Walks over the positions of a text, each counted from the one before it.
ghost use Rattle.std.specs.Prelude.{◌≡◌, ◌≤◌, length, slice_range};
ghost use Rattle.cedar_editor.specs.Lines.{start_in, IsPositionOf};
ghost use Rattle.cedar_editor.specs.Units.{units};

use crate::lines::{Lines, Position, Range};
use crate::offsets::units_of;
use cedar_types::base::Loc;

/// A walk over the positions of a text. A position in the line of the last one costs only the bytes between them, so one walk
/// finds the places of many policies that stand on one line.
#[derive(Drop)]
pub struct Walk<'a> {
    lines: &'a Lines,
    text: &'a str,
    /// The last byte, and its position.
    byte: usize,
    last: Position,
    ghost within: { byte ≤ length text.now },
    ghost right: { IsPositionOf lines.now.starts.items text.now byte last },
}

impl<'a> Walk<'a> {
    /// A walk over this text, which must be the text of these lines.
    pub fn new(lines: &'a Lines, text: &'a str) -> Walk<'a>
        ensures lines { result.lines.now ≡ lines.now }
        ensures text { result.text.now ≡ text.now }
    {
        Walk {
            lines,
            text,
            byte: 0,
            last: lines.position(text, 0),
        }
    }

    /// The position of a byte.
    pub fn position(&mut self, byte: usize) -> Position
        ensures right { byte ≤ length self.old.text.now
            → IsPositionOf self.old.lines.now.starts.items self.old.text.now byte result }
        ensures lines { self.new.lines.now ≡ self.old.lines.now }
        ensures text { self.new.text.now ≡ self.old.text.now }
    {
        let byte = byte.min(self.text.len());
        let line = self.lines.line_of(byte);
        let position = if line == self.last.line {
            let unit = self.unit_of(byte);
            Position { line, unit }
        } else {
            self.lines.position(self.text, byte)
        };
        self.byte = byte;
        self.last = position;
        position
    }

    /// The range of a place.
    pub fn range(&mut self, place: Loc) -> Range
        ensures start { place.start ≤ length self.old.text.now → IsPositionOf
            self.old.lines.now.starts.items self.old.text.now place.start result.start }
        ensures end { place.end ≤ length self.old.text.now → IsPositionOf
            self.old.lines.now.starts.items self.old.text.now place.end result.end }
    {
        let start = self.position(place.start);
        let end = self.position(place.end);
        Range { start, end }
    }

    /// The unit of a byte in the line of the last position.
    fn unit_of(&self, byte: usize) -> usize
        requires within { byte ≤ length self.now.text.now }
        requires begun { start_in self.now.lines.now.starts.items self.now.last.line ≤ byte }
        ensures { result ≡ units (slice_range self.now.text.now
            (start_in self.now.lines.now.starts.items self.now.last.line) byte) }
    {
        let bytes = self.text.as_bytes();
        if self.byte <= byte {
            let more = units_of(&bytes[self.byte..byte]);
            self.last.unit.saturating_add(more)
        } else {
            let fewer = units_of(&bytes[byte..self.byte]);
            self.last.unit.saturating_sub(fewer)
        }
    }
}
