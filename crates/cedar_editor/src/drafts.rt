// Drafts: texts while several edits change them.
ghost use Rattle.std.specs.Prelude.{◌≡◌, ℕ, ◌+◌, ◌<◌, ◌++◌, false, List, Some, length, string_bytes, IfOk, IfSome, IsTrue};
ghost use Rattle.cedar_editor.specs.Drafts.{parts_edited, parts_text, IsEnded};
ghost use Rattle.cedar_editor.specs.Edits.{is_edited};
ghost use Rattle.cedar_editor.specs.Lines.{line_starts};

use crate::edits::{Edit, around, joined, place_of, spliced};
use crate::lines::{Lines, Position, Range};
use cedar_types::base::Loc;
use std::alloc::{AllocError, Global};

/// The number of lines before an edit, and behind it, in which the next edits are looked for.
const NEAR: usize = 1024;

/// A text in three parts. Edits change the part in the middle, so that the others are not copied for each. The first part and the
/// middle one are lines with their ends.
#[derive(Drop)]
pub struct Draft {
    front: String,
    /// The number of lines in the first part.
    first: usize,
    middle: String,
    /// The lines of the middle part.
    lines: Lines,
    behind: String,
    ghost counted: { first ≡ length (line_starts (string_bytes front)) },
    ghost lines_of_middle: { lines.starts.items ≡ line_starts (string_bytes middle) },
    ghost front_ended: { IsEnded (string_bytes front) },
    ghost middle_ended: { IsEnded (string_bytes middle) },
}

impl Draft {
    /// A draft of this text, in which no edit is looked for.
    pub fn new(alloc: Global, text: &str) -> Result<Draft, AllocError>
        ensures { IfOk result (λ draft.
            parts_text draft.front draft.middle draft.behind ≡ text.now) }
    {
        Draft::of_parts(alloc, "", "", text)
    }

    /// A draft of three parts.
    fn of_parts(alloc: Global, front: &str, middle: &str, behind: &str) -> Result<Draft, AllocError>
        requires front { IsEnded front.now }
        requires middle { IsEnded middle.now }
        ensures { IfOk result (λ draft. parts_text draft.front draft.middle draft.behind
            ≡ front.now ++ (middle.now ++ behind.now)) }
    {
        let before = Lines::new(alloc, front)?;
        Ok(Draft {
            front: String::from_str(alloc, front)?,
            first: before.count(),
            middle: String::from_str(alloc, middle)?,
            lines: Lines::new(alloc, middle)?,
            behind: String::from_str(alloc, behind)?,
        })
    }

    /// A draft of the text with these lines, in which edits near a line are looked for.
    fn near(alloc: Global, text: &str, lines: &Lines, line: usize) -> Result<Draft, AllocError>
        ensures { IfOk result (λ draft.
            parts_text draft.front draft.middle draft.behind ≡ text.now) }
    {
        let start = lines.byte_of_line(line.saturating_sub(NEAR));
        let end = lines.byte_of_line(line.saturating_add(NEAR));
        let (front, rest) = split_ended(text, start);
        let (middle, behind) = split_ended(rest, end.saturating_sub(front.len()));
        Draft::of_parts(alloc, front, middle, behind)
    }

    /// The whole text.
    pub fn text(&self, alloc: Global) -> Result<String, AllocError>
        ensures { IfOk result (λ text. string_bytes text
            ≡ parts_text self.now.front self.now.middle self.now.behind) }
    {
        joined(
            alloc,
            self.front.as_str(),
            self.middle.as_str(),
            self.behind.as_str(),
        )
    }

    /// The draft after one edit.
    pub fn after(self, alloc: Global, edit: &Edit<'_>) -> Result<Draft, AllocError>
        ensures { IfOk result (λ draft. is_edited (parts_text self.front self.middle self.behind)
            edit.now.range edit.now.text.now (parts_text draft.front draft.middle draft.behind)) }
    {
        let Some(range) = edit.range else {
            return Draft::new(alloc, edit.text);
        };
        let mut draft = self;
        if draft.edit(alloc, range, edit.text)? {
            return Ok(draft);
        }
        let text = draft.text(alloc)?;
        draft_near(alloc, text.as_str(), range, edit.text)
    }

    /// Changes the middle part by an edit of the whole text, if the range lies in it. The answer is whether it does.
    fn edit(&mut self, alloc: Global, range: Range, text: &str) -> Result<bool, AllocError>
        ensures made { IfOk result (λ made. IsTrue made
            → is_edited (parts_text self.old.front self.old.middle self.old.behind)
            (Some range) text.now (parts_text self.new.front self.new.middle self.new.behind)) }
        ensures kept { IfOk result (λ made. made ≡ false → self.new ≡ self.old) }
    {
        let Some(place) = self.place(range) else {
            return Ok(false);
        };
        let Some((front, behind)) = around(self.middle.as_str(), place) else {
            return Ok(false);
        };
        let middle = joined(alloc, front, text, behind)?;
        let lines = self
            .lines
            .changed(alloc, middle.as_str(), place, text.len())?;
        self.middle = middle;
        self.lines = lines;
        Ok(true)
    }

    /// The place in the middle part of a range of the whole text, if the range lies before the end of this part.
    fn place(&self, range: Range) -> Option<Loc>
        ensures before { IfSome result (λ place.
            place.end < length (string_bytes self.now.middle)) }
        ensures edited { IfSome result (λ place. (given : List ℕ)
            → is_edited (parts_text self.now.front self.now.middle self.now.behind) (Some range) given
            (parts_edited self.now.front self.now.middle self.now.behind place given)) }
    {
        let inner = Range {
            start: self.inside(range.start)?,
            end: self.inside(range.end)?,
        };
        let place = place_of(&self.lines, self.middle.as_str(), inner);
        if place.end < self.middle.len() {
            Some(place)
        } else {
            None
        }
    }

    /// The position in the middle part of a position of the whole text, if its line is one of this part.
    fn inside(&self, position: Position) -> Option<Position>
        ensures line { IfSome result (λ own. position.line ≡ self.now.first + own.line) }
        ensures unit { IfSome result (λ own. position.unit ≡ own.unit) }
        ensures declared { IfSome result (λ own.
            own.line < length self.now.lines.starts.items) }
    {
        let line = position.line.checked_sub(self.first)?;
        if line < self.lines.count() {
            Some(Position {
                line,
                unit: position.unit,
            })
        } else {
            None
        }
    }
}

/// A draft of a text after an edit, in which the next edits are looked for near this one.
fn draft_near(alloc: Global, old: &str, range: Range, text: &str) -> Result<Draft, AllocError>
    ensures { IfOk result (λ draft.
        is_edited old.now (Some range) text.now (parts_text draft.front draft.middle draft.behind)) }
{
    let lines = Lines::new(alloc, old)?;
    let mut draft = Draft::near(alloc, old, &lines, range.start.line)?;
    if draft.edit(alloc, range, text)? {
        return Ok(draft);
    }
    let place = place_of(&lines, old, range);
    let new = spliced(alloc, old, place, text)?;
    Draft::new(alloc, new.as_str())
}

/// The text before a byte at which a line ends, and the text behind it; the empty text and all of it if none ends there.
fn split_ended(text: &str, byte: usize) -> (&str, &str)
    ensures whole { text.now ≡ result.0.now ++ result.1.now }
    ensures ended { IsEnded result.0.now }
{
    match text.split_at_checked(byte) {
        Some((front, behind)) if is_ended(front) => (front, behind),
        _ => ("", text),
    }
}

/// Whether a text is empty, or ends with a line feed.
fn is_ended(text: &str) -> bool
    ensures { IsTrue result → IsEnded text.now }
{
    let bytes = text.as_bytes();
    match bytes.len().checked_sub(1) {
        Some(last) => bytes[last] == b'\n',
        None => true,
    }
}
