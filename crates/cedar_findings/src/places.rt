//! Lines and columns of bytes in a text. It is fast for bytes in ascending order, or nearly so; an
//! index makes it fast for any order.
use crate::columns::Columns;
use cedar_reading::Position;
use memchr::memchr_iter;
use std::alloc::{AllocError, Global};

/// The number of bytes between two marks of an index, or up to three more.
const STEP: usize = 4096;

/// Finds the positions of bytes in a text. Going on in the text costs the bytes between. Going back
/// starts anew, or at the mark before if there is an index.
#[derive(Drop)]
pub struct Places<'a> {
    text: &'a str,
    columns: Columns,
    at: usize,
    position: Position,
    /// The first character at or behind each multiple of `STEP`, with its position, if there is an
    /// index.
    marks: Vec<Mark>,
}

/// A byte with its position.
#[derive(Clone, Copy)]
struct Mark {
    at: usize,
    position: Position,
}

impl<'a> Places<'a> {
    /// A finder at the beginning of this text, which counts columns in this unit.
    pub fn new(alloc: Global, text: &'a str, columns: Columns) -> Places<'a> {
        Places {
            text,
            columns,
            at: 0,
            position: BEGINNING,
            marks: Vec::new(alloc),
        }
    }

    /// Makes an index, in one reading of the text, unless there is one.
    pub fn index(&mut self) -> Result<(), AllocError> {
        if !self.marks.is_empty() {
            return Ok(());
        }
        let mut position = BEGINNING;
        let mut next = 0usize;
        for (at, c) in self.text.char_indices() {
            if at >= next {
                self.marks.push(Mark { at, position })?;
                next = next.saturating_add(STEP);
            }
            position = behind(position, c, self.columns);
        }
        Ok(())
    }

    /// The position of a byte. A line ends with `\n`.
    pub fn position(&mut self, byte: usize) -> Position {
        let mark = self.mark_before(byte);
        if byte < self.at || self.at < mark.at {
            self.at = mark.at;
            self.position = mark.position;
        }
        let passed = self.text.get(self.at..byte).unwrap_or("");
        self.at = byte;
        self.position = position_behind(self.position, passed, self.columns);
        self.position
    }

    /// The last mark up to this byte: the beginning of the text if there is none.
    fn mark_before(&self, byte: usize) -> Mark {
        let number = byte / STEP;
        for number in [number, number.saturating_sub(1)] {
            match self.marks.get(number) {
                Some(mark) if mark.at <= byte => return *mark,
                _ => {}
            }
        }
        Mark {
            at: 0,
            position: BEGINNING,
        }
    }
}

/// The position at which a text begins.
const BEGINNING: Position = Position { line: 1, column: 1 };

/// The position behind this text, which begins at `start`, with columns in this unit.
pub fn position_behind(start: Position, text: &str, columns: Columns) -> Position {
    let bytes = text.as_bytes();
    let mut position = start;
    let mut begun = 0usize;
    for end in memchr_iter(b'\n', bytes) {
        position.line = position.line.saturating_add(1);
        position.column = 1;
        begun = end.saturating_add(1);
    }
    let last = bytes.get(begun..).unwrap_or(&[]);
    position.column = position.column.saturating_add(columns.of_bytes(last));
    position
}

/// The position behind a character.
fn behind(position: Position, c: char, columns: Columns) -> Position {
    if c == '\n' {
        return Position {
            line: position.line.saturating_add(1),
            column: 1,
        };
    }
    Position {
        line: position.line,
        column: position.column.saturating_add(columns.of_char(c)),
    }
}
