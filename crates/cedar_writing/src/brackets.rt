// Brackets: on one line if they fit there, else with one member a line.
use crate::printer::Gap;
use crate::roles::{Bracket, Role};
use crate::spans::{Span, Task};
use crate::writer::Writer;
use std::alloc::AllocError;

impl<'t, 'a> Writer<'t, 'a> {
    /// Writes operands, and breaks the first bracket that does not fit into the line.
    pub fn operands(&mut self, span: Span) -> Result<(), AllocError> {
        let mut at = span.from;
        for _ in span.from..span.to {
            if span.to <= at {
                break;
            }
            if at == span.from {
                self.write(at)?;
            } else {
                self.write_next(at)?;
            }
            let last = self.last_of(at);
            if at < last {
                return self.bracket(span, at, last);
            }
            at = at.saturating_add(1);
        }
        Ok(())
    }

    /// Goes on inside the bracket that the token of number `at` has opened.
    fn bracket(&mut self, span: Span, at: usize, last: usize) -> Result<(), AllocError> {
        let rest = span.behind(last);
        let tail = self.tail_behind(span, last);
        let outer = self.printer.line_indent();
        let whole = Span {
            from: at.saturating_add(1),
            to: last.saturating_add(1),
            indent: self.printer.inner(outer),
            tail,
        };
        let bracket = self.role(at);
        if !self.may_break(at) || self.fits_behind(at, whole) {
            for inner in whole.from..whole.to {
                self.write_next(inner)?;
            }
            return self.add(&[Task::Operands(rest)]);
        }
        let inside = whole.before(last, 0);
        let content = match bracket {
            Some(Role::Open(Bracket::Group | Bracket::Condition)) => Task::Expression(inside),
            _ => Task::Members(inside),
        };
        self.add(&[
            Task::Gap(Gap::Line(inside.indent)),
            content,
            Task::Close(last, outer),
            Task::Operands(rest),
        ])
    }

    /// The number of characters that stay in the line of the bracket that ends with the token of
    /// number `last`: those before the inside of the next bracket, or else all.
    fn tail_behind(&self, span: Span, last: usize) -> usize {
        for at in last.saturating_add(1)..span.to {
            if self.may_break(at) {
                return self.size(last, at);
            }
        }
        let end = span.to.saturating_sub(1);
        self.size(last, end).saturating_add(span.tail)
    }

    /// Whether the token of number `at` opens a bracket with something that may go to a line of its
    /// own.
    fn may_break(&self, at: usize) -> bool {
        let is_empty = self.last_of(at) <= at.saturating_add(1);
        match self.role(at) {
            Some(Role::Open(bracket)) => bracket != Bracket::Index && !is_empty,
            _ => false,
        }
    }

    /// The number of characters behind one token up to the end of another, on one line.
    fn size(&self, before: usize, last: usize) -> usize {
        match (self.tokens.get(before), self.tokens.get(last)) {
            (Some(before), Some(last)) => last.end.saturating_sub(before.end),
            _ => 0,
        }
    }

    /// Whether these tokens fit into the line behind the token of number `at`.
    fn fits_behind(&self, at: usize, span: Span) -> bool {
        let last = span.to.saturating_sub(1);
        let size = self.size(at, last);
        self.comments(at) == self.comments(last)
            && self.printer.has_room(size.saturating_add(span.tail))
    }

    /// The number of comments before the token of number `at`.
    fn comments(&self, at: usize) -> usize {
        match self.tokens.get(at) {
            Some(token) => token.comments,
            None => 0,
        }
    }

    /// Writes the first member, and adds the others.
    pub fn members(&mut self, span: Span) -> Result<(), AllocError> {
        if span.to <= span.from {
            return Ok(());
        }
        let line = Task::Gap(Gap::Line(span.indent));
        match self.find(span, Role::Comma) {
            Some(at) => self.add(&[
                line,
                Task::Expression(span.before(at, 1)),
                Task::Gap(Gap::None),
                Task::Token(at),
                Task::Members(span.behind(at)),
            ]),
            None => self.add(&[line, Task::Expression(span)]),
        }
    }

    /// Writes a closing bracket. Comments before it have the indent of what is inside.
    pub fn close(&mut self, at: usize, indent: usize) -> Result<(), AllocError> {
        let Some(token) = self.tokens.get(at) else {
            return Ok(());
        };
        let inner = self.printer.inner(indent);
        self.printer.set_gap(Gap::Line(inner));
        self.printer.write_comments(token)?;
        self.printer.set_gap(Gap::Line(indent));
        self.printer.write(token)
    }
}
