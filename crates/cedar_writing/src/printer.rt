// The printer: writes tokens and comments, with the gaps between them.
use crate::pieces::Piece;
use crate::settings::Layout;
use crate::tokens::Token;
use cedar_reading::MAX_LENGTH;
use std::alloc::{AllocError, Global};

/// The gap before the next token.
#[derive(Clone, Copy, PartialEq, Eq, Debug)]
pub enum Gap {
    None,
    Blank,
    /// The token begins a line, behind this number of blanks.
    Line(usize),
    /// An empty line, and then the token at the beginning of a line.
    EmptyLine,
}

/// A text that is written token by token.
#[derive(Drop)]
pub struct Printer<'a> {
    out: String,
    layout: Layout,
    comments: Vec<Piece<'a>>,
    /// The number of comments that are written.
    written: usize,
    /// The number of characters of the last line, and of the blanks with which it begins.
    column: usize,
    line_indent: usize,
    gap: Gap,
    /// The number of blanks before a token that must begin a line because of a comment before it.
    indent: usize,
    /// Whether a comment was written last.
    is_behind_comment: bool,
    /// Whether the last policy has ended, so that empty lines stay.
    is_between: bool,
}

impl<'a> Printer<'a> {
    /// A printer that has written nothing yet.
    pub fn new(alloc: Global, layout: Layout, comments: Vec<Piece<'a>>) -> Printer<'a> {
        Printer {
            out: String::new(alloc),
            layout,
            comments,
            written: 0,
            column: 0,
            line_indent: 0,
            gap: Gap::None,
            indent: 0,
            is_behind_comment: false,
            is_between: true,
        }
    }

    /// Sets the gap before the next token.
    pub fn set_gap(&mut self, gap: Gap) {
        self.gap = gap;
        if let Gap::Line(indent) = gap {
            self.indent = indent;
        }
    }

    /// Begins a line with the next token, behind an empty line if a policy has ended.
    pub fn begin_line(&mut self) {
        if self.gap != Gap::EmptyLine {
            self.set_gap(Gap::Line(0));
        }
        self.indent = 0;
    }

    /// Ends a policy.
    pub fn end_policy(&mut self) {
        self.gap = Gap::EmptyLine;
        self.indent = 0;
        self.is_between = true;
    }

    /// Whether a token that is written now would be followed by so many characters in its line.
    pub fn has_room(&self, characters: usize) -> bool {
        self.column.saturating_add(characters) <= self.layout.width
    }

    /// The number of blanks with which the last line begins.
    pub fn line_indent(&self) -> usize {
        self.line_indent
    }

    /// The indent of lines inside of lines with this indent.
    pub fn inner(&self, indent: usize) -> usize {
        indent.saturating_add(self.layout.indent).min(MAX_LENGTH)
    }

    /// Whether the text is longer than a text that can be read.
    pub fn is_too_long(&self) -> bool {
        self.out.len() > MAX_LENGTH
    }

    /// Writes the comments before a token.
    pub fn write_comments(&mut self, token: &Token<'_>) -> Result<(), AllocError> {
        for _ in self.written..token.comments {
            self.write_comment()?;
        }
        if self.is_between && self.gap != Gap::None && token.breaks > 1 {
            self.gap = Gap::EmptyLine;
        }
        Ok(())
    }

    /// Writes the comments before a token, and the gap.
    pub fn lead_to(&mut self, token: &Token<'_>) -> Result<(), AllocError> {
        self.write_comments(token)?;
        self.close_gap()
    }

    /// Writes a token, behind its comments and the gap.
    pub fn write(&mut self, token: &Token<'_>) -> Result<(), AllocError> {
        self.lead_to(token)?;
        self.is_between = false;
        self.is_behind_comment = false;
        self.push(token.text)
    }

    /// Writes the comments behind the last token, and the end of the last line.
    pub fn finish(mut self) -> Result<String, AllocError> {
        for _ in self.written..self.comments.len() {
            self.write_comment()?;
        }
        if !self.out.is_empty() {
            self.out.push_str("\n")?;
        }
        Ok(self.out)
    }

    /// Writes the next comment: behind the token in whose line it stood, or on a line of its own.
    fn write_comment(&mut self) -> Result<(), AllocError> {
        let Some(comment) = self.comments.get(self.written).copied() else {
            return Ok(());
        };
        self.written = self.written.saturating_add(1);
        let is_behind_token = !self.out.is_empty() && !self.is_behind_comment;
        self.is_behind_comment = true;
        if comment.breaks == 0 && is_behind_token {
            self.out.push_str(" ")?;
            self.require_line();
            return self.push(comment.text);
        }
        self.require_line();
        if self.is_between && comment.breaks > 1 {
            self.gap = Gap::EmptyLine;
        }
        self.close_gap()?;
        self.push(comment.text)?;
        self.gap = Gap::Line(self.indent);
        Ok(())
    }

    /// The next token has to begin a line.
    fn require_line(&mut self) {
        if self.gap == Gap::None || self.gap == Gap::Blank {
            self.gap = Gap::Line(self.indent);
        }
    }

    fn close_gap(&mut self) -> Result<(), AllocError> {
        let gap = self.gap;
        self.gap = Gap::None;
        if self.out.is_empty() {
            return Ok(());
        }
        match gap {
            Gap::None => Ok(()),
            Gap::Blank => self.push(" "),
            Gap::Line(indent) => self.begin("\n", indent),
            Gap::EmptyLine => self.begin("\n\n", 0),
        }
    }

    /// Begins a line behind the ends of lines `ends`.
    fn begin(&mut self, ends: &str, indent: usize) -> Result<(), AllocError> {
        self.out.push_str(ends)?;
        for _ in 0..indent {
            self.out.push_str(" ")?;
        }
        self.column = indent;
        self.line_indent = indent;
        Ok(())
    }

    fn push(&mut self, text: &str) -> Result<(), AllocError> {
        let last = match text.rsplit('\n').next() {
            Some(last) => last.chars().count(),
            None => 0,
        };
        self.column = if text.contains('\n') {
            last
        } else {
            self.column.saturating_add(last)
        };
        self.out.push_str(text)
    }
}
