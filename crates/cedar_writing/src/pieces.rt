// Pieces of a text with their places: tokens, comments, parentheses and commas.
use crate::bytes::is_loose;
use crate::faults::FormatFault;
use crate::steps::{Begun, Step, advance};
use std::alloc::{AllocError, Global};

/// A token or a comment of a text.
#[derive(Clone, Copy)]
pub struct Piece<'a> {
    pub text: &'a str,
    /// The number of ends of lines between the piece before this one and this one.
    pub breaks: usize,
}

impl<'a> Piece<'a> {
    pub fn is_comment(&self) -> bool {
        self.text.starts_with("//")
    }
}

/// The pieces of a text so far.
#[derive(Drop)]
struct Cutter<'a> {
    text: &'a str,
    found: Vec<Piece<'a>>,
    /// The byte at which the piece that is begun begins.
    start: usize,
    /// The number of ends of lines since the last piece.
    breaks: usize,
    /// Whether the last byte was a carriage return between pieces.
    is_behind_return: bool,
}

/// The pieces of a text, in their order. It fails at a blank outside of ASCII between two tokens.
pub fn pieces<'a>(alloc: Global, text: &'a str) -> Result<Vec<Piece<'a>>, FormatFault> {
    let mut cutter = Cutter {
        text,
        found: Vec::new(alloc),
        start: 0,
        breaks: 0,
        is_behind_return: false,
    };
    let mut begun = Begun::Nothing;
    for (at, byte) in text.as_bytes().iter().enumerate() {
        let step = advance(begun, *byte);
        cutter.add(begun, step, at, *byte)?;
        begun = step.begun;
    }
    if !begun.is_nothing() {
        cutter.cut(text.len())?;
    }
    Ok(cutter.found)
}

impl<'a> Cutter<'a> {
    /// Adds the byte at `at`, which does `step` behind what was begun.
    fn add(&mut self, begun: Begun, step: Step, at: usize, byte: u8) -> Result<(), FormatFault> {
        if step.ends_before {
            self.cut(at)?;
        }
        if step.ends_before || begun.is_nothing() {
            self.start = at;
        }
        if step.ends || (!step.is_kept && is_loose(byte)) {
            self.cut(at.saturating_add(1))?;
        }
        if !step.is_kept {
            self.count_break(byte);
        }
        Ok(())
    }

    /// Counts an end of a line between two pieces. A carriage return and a line feed are one.
    fn count_break(&mut self, byte: u8) {
        if byte == b'\r' || (byte == b'\n' && !self.is_behind_return) {
            self.breaks = self.breaks.saturating_add(1);
        }
        self.is_behind_return = byte == b'\r';
    }

    /// Ends the piece that is begun before the byte `end`.
    fn cut(&mut self, end: usize) -> Result<(), FormatFault> {
        let text = self.text.get(self.start..end).unwrap_or("");
        if let Some(inner) = other_blank(text) {
            return Err(FormatFault::OtherBlank(self.start.saturating_add(inner)));
        }
        let breaks = self.breaks;
        self.found.push(Piece { text, breaks })?;
        self.breaks = 0;
        self.is_behind_return = false;
        Ok(())
    }
}

/// The byte of a blank outside of ASCII in a piece that is neither a text nor a comment.
fn other_blank(piece: &str) -> Option<usize> {
    if piece.starts_with('"') || piece.starts_with("//") {
        return None;
    }
    piece.find(|c: char| c.is_whitespace())
}
