// Spans of tokens, and tasks: what is left to write of them.
use crate::printer::Gap;
use crate::roles::Level;

/// Tokens from one number to another, the second one not included.
#[derive(Clone, Copy)]
pub struct Span {
    pub from: usize,
    pub to: usize,
    /// The indent of its lines.
    pub indent: usize,
    /// The number of characters that have to follow in the last line.
    pub tail: usize,
}

impl Span {
    /// These tokens with another indent.
    pub fn with_indent(self, indent: usize) -> Span {
        Span { indent, ..self }
    }

    /// The tokens behind the one of number `at`.
    pub fn behind(self, at: usize) -> Span {
        Span {
            from: at.saturating_add(1),
            ..self
        }
    }

    /// The tokens before the one of number `at`, which so many characters have to follow.
    pub fn before(self, at: usize, tail: usize) -> Span {
        Span {
            to: at,
            tail,
            ..self
        }
    }
}

/// Something to write.
#[derive(Clone, Copy)]
pub enum Task {
    Gap(Gap),
    Token(usize),
    /// An expression, a member or a part of a scope.
    Expression(Span),
    /// An `if`, with its `then` and its `else` at the beginnings of lines.
    Conditional(Span),
    /// Operands with operators of this strength between them.
    Chain(Span, Level),
    /// Operands without operators between them, each bracket on one line or broken.
    Operands(Span),
    /// Members with commas between them, one a line.
    Members(Span),
    /// A closing bracket at the beginning of a line with this indent.
    Close(usize, usize),
}
