// Expressions: on one line if they fit there, else broken at their weakest operators.
use crate::printer::Gap;
use crate::roles::{Bracket, Level, Role};
use crate::spans::{Span, Task};
use crate::writer::Writer;
use std::alloc::AllocError;

/// The characters of a blank with `&&` or `||`, which end a line.
const LOGICAL: usize = 3;

impl<'t, 'a> Writer<'t, 'a> {
    /// Writes an expression, a member of a list or a part of a scope.
    pub fn expression(&mut self, span: Span) -> Result<(), AllocError> {
        if span.to <= span.from {
            return Ok(());
        }
        if let Some(first) = self.tokens.get(span.from) {
            self.printer.lead_to(first)?;
        }
        if self.fits(span) {
            return self.write_flat(span);
        }
        if self.role(span.from) == Some(Role::If) {
            return self.conditional(span);
        }
        let second = span.from.saturating_add(1);
        if self.role(second) == Some(Role::Colon) {
            let inner = self.printer.inner(span.indent);
            return self.add(&[
                Task::Token(span.from),
                Task::Token(second),
                Task::Gap(Gap::Blank),
                Task::Expression(span.behind(second).with_indent(inner)),
            ]);
        }
        match self.weakest(span) {
            Some(level) => self.chain(span, level),
            None => self.operands(span),
        }
    }

    /// The weakest operator between these tokens, outside of brackets.
    fn weakest(&self, span: Span) -> Option<Level> {
        let mut weakest = None;
        let mut at = span.from;
        for _ in span.from..span.to {
            if span.to <= at {
                break;
            }
            if let Some(Role::Between(level)) = self.role(at) {
                weakest = match weakest {
                    Some(before) if before < level => Some(before),
                    _ => Some(level),
                };
            }
            at = self.last_of(at).saturating_add(1);
        }
        weakest
    }

    /// The number of the first token with this role, outside of brackets.
    pub fn find(&self, span: Span, role: Role) -> Option<usize> {
        let mut at = span.from;
        for _ in span.from..span.to {
            if span.to <= at {
                break;
            }
            if self.role(at) == Some(role) {
                return Some(at);
            }
            at = self.last_of(at).saturating_add(1);
        }
        None
    }

    /// Writes the first operand of a chain, and adds the rest of it. Lines end behind `&&` and `||`, and before other operators.
    pub fn chain(&mut self, span: Span, level: Level) -> Result<(), AllocError> {
        let inner = self.printer.inner(span.indent);
        let Some(at) = self.find(span, Role::Between(level)) else {
            return self.add(&[Task::Expression(span.with_indent(inner))]);
        };
        let rest = span.behind(at);
        let line = Gap::Line(span.indent);
        let (before, behind, tail) = match level {
            Level::Or | Level::And => (Gap::Blank, line, LOGICAL),
            Level::Relation if self.is_list(rest) => (Gap::Blank, Gap::Blank, 0),
            _ => (line, Gap::Blank, 0),
        };
        self.add(&[
            Task::Expression(span.before(at, tail).with_indent(inner)),
            Task::Gap(before),
            Task::Token(at),
            Task::Gap(behind),
            Task::Chain(rest, level),
        ])
    }

    /// Whether these tokens are one set or one record.
    fn is_list(&self, span: Span) -> bool {
        let is_open = match self.role(span.from) {
            Some(Role::Open(bracket)) => bracket == Bracket::Set || bracket == Bracket::Record,
            _ => false,
        };
        is_open && self.last_of(span.from).saturating_add(1) == span.to
    }

    /// Writes an `if`, and adds its `then` and its `else` at the beginnings of lines.
    pub fn conditional(&mut self, span: Span) -> Result<(), AllocError> {
        let test = span.behind(span.from);
        let Some(then_at) = self.branch(test, Role::Then) else {
            return self.write_flat(span);
        };
        let Some(else_at) = self.branch(test, Role::Else) else {
            return self.write_flat(span);
        };
        let inner = self.printer.inner(span.indent);
        let line = Task::Gap(Gap::Line(span.indent));
        let blank = Task::Gap(Gap::Blank);
        let other = span.behind(else_at);
        // an `if` behind `else` breaks with this one, at the same indent
        let last = if self.role(other.from) == Some(Role::If) {
            Task::Conditional(other)
        } else {
            Task::Expression(other.with_indent(inner))
        };
        self.add(&[
            Task::Token(span.from),
            blank,
            Task::Expression(test.before(then_at, 0).with_indent(inner)),
            line,
            Task::Token(then_at),
            blank,
            Task::Expression(span.behind(then_at).before(else_at, 0).with_indent(inner)),
            line,
            Task::Token(else_at),
            blank,
            last,
        ])
    }

    /// The number of the `then` or `else` that belongs to an `if` right before these tokens.
    fn branch(&self, span: Span, branch: Role) -> Option<usize> {
        let mut inner = 0usize;
        let mut at = span.from;
        for _ in span.from..span.to {
            let role = self.role(at)?;
            if inner == 0 && role == branch {
                return Some(at);
            }
            match role {
                Role::If => inner = inner.saturating_add(1),
                Role::Else => inner = inner.saturating_sub(1),
                _ => {}
            }
            at = self.last_of(at).saturating_add(1);
        }
        None
    }
}
