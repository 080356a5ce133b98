// Steps through a text, byte by byte: where its pieces begin and end.
ghost use Rattle.std.specs.Prelude.{◌≡◌};
ghost use Rattle.cedar_writing.specs.Pieces.{is_nothing, begun_by, goes_on, ends_piece, begins, step};

use crate::bytes::{is_blank, is_digit, is_letter, is_loose, is_pair, may_go_on};

/// The piece that the bytes so far have begun.
#[derive(Clone, Copy, PartialEq, Eq, Debug)]
pub enum Begun {
    /// None, because the last piece has ended.
    Nothing,
    Word,
    Number,
    /// A mark of this byte, which may go on.
    Mark(u8),
    /// A text in quotes.
    Quoted,
    /// A text in quotes, right behind a backslash.
    Escape,
    Comment,
}

impl Begun {
    pub fn is_nothing(self) -> bool
        ensures { result ≡ is_nothing self }
    {
        match self {
            Begun::Nothing => true,
            Begun::Word => false,
            Begun::Number => false,
            Begun::Mark(_) => false,
            Begun::Quoted => false,
            Begun::Escape => false,
            Begun::Comment => false,
        }
    }
}

/// What a byte does.
#[derive(Clone, Copy, PartialEq, Eq, Debug)]
pub struct Step {
    /// Whether a piece ends before the byte.
    pub ends_before: bool,
    /// Whether the byte belongs to a piece. Blanks, parentheses and commas do not.
    pub is_kept: bool,
    /// Whether the piece of the byte ends with the byte.
    pub ends: bool,
    /// The piece that is begun behind the byte.
    pub begun: Begun,
}

/// What a byte does behind the piece that is begun.
pub fn advance(begun: Begun, byte: u8) -> Step
    ensures { result ≡ step begun byte }
{
    match begun {
        Begun::Nothing => begins(false, byte),
        Begun::Word => {
            if is_letter(byte) || is_digit(byte) {
                goes_on(Begun::Word)
            } else {
                begins(true, byte)
            }
        }
        Begun::Number => {
            if is_digit(byte) {
                goes_on(Begun::Number)
            } else {
                begins(true, byte)
            }
        }
        Begun::Mark(first) => behind_mark(first, byte),
        Begun::Quoted => in_quotes(byte),
        Begun::Escape => goes_on(Begun::Quoted),
        Begun::Comment => in_comment(byte),
    }
}

fn goes_on(begun: Begun) -> Step
    ensures { result ≡ goes_on begun }
{
    Step {
        ends_before: false,
        is_kept: true,
        ends: false,
        begun,
    }
}

fn ends_piece() -> Step
    ensures { result ≡ ends_piece }
{
    Step {
        ends_before: false,
        is_kept: true,
        ends: true,
        begun: Begun::Nothing,
    }
}

/// What a byte does behind the last piece; `ended` says whether that piece ends before the byte.
fn begins(ended: bool, byte: u8) -> Step
    ensures { result ≡ begins ended byte }
{
    if is_blank(byte) || is_loose(byte) {
        return Step {
            ends_before: ended,
            is_kept: false,
            ends: false,
            begun: Begun::Nothing,
        };
    }
    let begun = begun_by(byte);
    Step {
        ends_before: ended,
        is_kept: true,
        ends: begun.is_nothing(),
        begun,
    }
}

/// The piece that a byte begins. `Nothing` is a mark of one byte.
fn begun_by(byte: u8) -> Begun
    ensures { result ≡ begun_by byte }
{
    if byte == b'"' {
        Begun::Quoted
    } else if is_digit(byte) {
        Begun::Number
    } else if is_letter(byte) {
        Begun::Word
    } else if may_go_on(byte) {
        Begun::Mark(byte)
    } else {
        Begun::Nothing
    }
}

fn behind_mark(first: u8, byte: u8) -> Step
    ensures { result ≡ step (Begun.Mark first) byte }
{
    if first == b'/' && byte == b'/' {
        goes_on(Begun::Comment)
    } else if is_pair(first, byte) {
        ends_piece()
    } else {
        begins(true, byte)
    }
}

fn in_quotes(byte: u8) -> Step
    ensures { result ≡ step Begun.Quoted byte }
{
    if byte == b'"' {
        ends_piece()
    } else if byte == b'\\' {
        goes_on(Begun::Escape)
    } else {
        goes_on(Begun::Quoted)
    }
}

fn in_comment(byte: u8) -> Step
    ensures { result ≡ step Begun.Comment byte }
{
    if byte == b'\n' || byte == b'\r' {
        Step {
            ends_before: true,
            is_kept: false,
            ends: false,
            begun: Begun::Nothing,
        }
    } else {
        goes_on(Begun::Comment)
    }
}
