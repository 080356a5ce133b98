// The cursor: a place in a text that is read from left to right.
use crate::faults::{Expected, Fault, ReadError};
use crate::notes::Notes;
use crate::tokens::{Token, TokenKind, token_from};
use cedar_types::base::Loc;
use std::alloc::Global;
use std::mem;

/// The largest depth of a text: in an expression, of nodes inside each other, and also of brackets
/// and operators that are begun at a place; in a type, of steps of the grammar.
pub const MAX_GRAMMAR_STEPS: usize = 800;

/// The largest length of a text, in bytes.
pub const MAX_LENGTH: usize = 1 << 26;

/// A reader of the tokens of a text, one after another.
#[derive(Drop)]
pub struct Cursor<'a> {
    pub alloc: Global,
    text: &'a str,
    /// The token that comes next.
    next: Token<'a>,
    /// The byte at which the token before `next` ended.
    end: usize,
    /// The number of tokens read so far.
    tokens: usize,
    /// The end of the last operand that stands in the tree twice.
    copied: usize,
    /// The end of the last expression that needs nothing more, if there is one.
    whole_end: Option<usize>,
    /// The notes of this reading: among others the faults behind which reading goes on.
    pub notes: Notes,
}

impl<'a> Cursor<'a> {
    /// A cursor at the beginning of the text, which stops at the first fault. It fails if the text
    /// is too long.
    pub fn new(alloc: Global, text: &'a str) -> Result<Cursor<'a>, ReadError> {
        Cursor::begin(alloc, text, false)
    }

    /// A cursor at the beginning of the text, which goes on behind faults. It fails if the text is
    /// too long.
    pub fn noting(alloc: Global, text: &'a str) -> Result<Cursor<'a>, ReadError> {
        Cursor::begin(alloc, text, true)
    }

    fn begin(alloc: Global, text: &'a str, takes_notes: bool) -> Result<Cursor<'a>, ReadError> {
        if text.len() > MAX_LENGTH {
            return Err(ReadError::At(0, Fault::TooLong));
        }
        Ok(Cursor {
            alloc,
            text,
            next: token_from(text, 0),
            end: 0,
            tokens: 0,
            copied: 0,
            whole_end: None,
            notes: Notes::new(alloc, takes_notes),
        })
    }

    /// Moves to the byte `start` and goes on from there.
    pub fn move_to(&mut self, start: usize) {
        self.next = token_from(self.text, start);
        self.end = start;
    }

    /// A cursor over this text from the byte `start` on. It fails at the first fault.
    pub fn at(&self, start: usize) -> Cursor<'a> {
        Cursor {
            alloc: self.alloc,
            text: self.text,
            next: token_from(self.text, start),
            end: start,
            tokens: self.tokens,
            copied: self.copied,
            whole_end: None,
            notes: Notes::new(self.alloc, false),
        }
    }

    /// A cursor over this text from `place.start` on, as if the text ended at `place.end`. It fails
    /// at the first fault.
    pub fn over(&self, place: Loc) -> Cursor<'a> {
        let text = self.text.get(..place.end).unwrap_or("");
        Cursor {
            alloc: self.alloc,
            text,
            next: token_from(text, place.start),
            end: place.start,
            tokens: 0,
            copied: 0,
            whole_end: None,
            notes: Notes::new(self.alloc, false),
        }
    }

    /// Records that an expression that needs nothing more ends here.
    pub fn keep_whole_end(&mut self) {
        self.whole_end = Some(self.end);
    }

    /// The end of the last expression that needs nothing more, if there is one.
    pub fn whole_end(&self) -> Option<usize> {
        self.whole_end
    }

    /// The number of tokens read so far.
    pub fn tokens(&self) -> usize {
        self.tokens
    }

    /// Takes the notes out of the cursor. The cursor notes no more after that.
    pub fn take_notes(&mut self) -> Notes {
        let none = Notes::new(self.alloc, false);
        mem::replace(&mut self.notes, none)
    }

    /// Whether the operand at `place` may stand in the tree twice: if no part of it does so
    /// already. Records the operand.
    pub fn may_copy(&mut self, place: Loc) -> bool {
        let may_copy = self.copied <= place.start;
        self.copied = self.copied.max(place.end);
        may_copy
    }

    /// The next token; the cursor stays.
    pub fn peek(&self) -> Token<'a> {
        self.next
    }

    /// The next token; the cursor moves behind it.
    pub fn take(&mut self) -> Token<'a> {
        let token = self.next;
        self.tokens = self.tokens.saturating_add(1);
        self.end = token.place.end;
        self.next = token_from(self.text, self.end);
        token
    }

    /// Whether the next token is the word or mark `text`.
    pub fn is_at(&self, text: &str) -> bool {
        self.next.kind != TokenKind::Text && self.next.text == text
    }

    /// Reads the word or mark `text` if it comes next, and returns whether it did.
    pub fn takes(&mut self, text: &str) -> bool {
        let is_there = self.is_at(text);
        if is_there {
            self.take();
        }
        is_there
    }

    /// Reads the word or mark `text`. It fails if another token comes next.
    pub fn expect(&mut self, text: &'static str) -> Result<(), ReadError> {
        if self.takes(text) {
            Ok(())
        } else {
            Err(self.fault(Fault::Missing(text)))
        }
    }

    /// Reads the word or mark `text`. If another token comes next, it fails, and the fault names
    /// `all` that may stand there.
    pub fn expect_one(&mut self, text: &str, all: Expected) -> Result<(), ReadError> {
        if self.takes(text) {
            Ok(())
        } else {
            Err(self.fault(Fault::Expected(all)))
        }
    }

    /// Reads a word. It fails if another token comes next.
    pub fn word(&mut self) -> Result<&'a str, ReadError> {
        if self.next.kind != TokenKind::Word {
            return Err(self.fault(Fault::Expected(Expected::Name)));
        }
        Ok(self.take().text)
    }

    /// Whether the text has no more tokens.
    pub fn is_at_end(&self) -> bool {
        self.next.kind == TokenKind::End
    }

    /// The error of `fault` at the next token.
    pub fn fault(&self, fault: Fault) -> ReadError {
        ReadError::At(self.next.place.start, fault)
    }

    /// The byte at which the next token starts.
    pub fn start(&self) -> usize {
        self.next.place.start
    }

    /// The place from the byte `start` to the end of the last token read.
    pub fn since(&self, start: usize) -> Loc {
        Loc {
            start,
            end: self.end,
        }
    }

    /// Whether the next token stands right behind the last one.
    pub fn is_joined(&self) -> bool {
        self.end == self.next.place.start
    }

    /// Whether a line break stands between the last token and the next one.
    pub fn begins_line(&self) -> bool {
        let before = self.text.get(self.end..self.next.place.start).unwrap_or("");
        before.contains('\n') || before.contains('\r')
    }

    /// An upper bound of the number of tokens that may still come.
    pub fn most_left(&self) -> usize {
        self.text.len().saturating_add(1)
    }
}
