// The writer: tokens, and the tasks that are left. Parts that are begun stand in a list and not on
// the stack.
use crate::printer::{Gap, Printer};
use crate::roles::Role;
use crate::spans::{Span, Task};
use crate::tokens::Token;
use std::alloc::{AllocError, Global};

/// Writes the tokens of a text by a printer.
#[derive(Drop)]
pub struct Writer<'t, 'a> {
    pub printer: Printer<'a>,
    pub tokens: &'t [Token<'a>],
    /// The tasks that are left, the next one last.
    tasks: Vec<Task>,
}

impl<'t, 'a> Writer<'t, 'a> {
    /// A writer that has written nothing yet.
    pub fn new(alloc: Global, printer: Printer<'a>, tokens: &'t [Token<'a>]) -> Writer<'t, 'a> {
        Writer {
            printer,
            tokens,
            tasks: Vec::new(alloc),
        }
    }

    /// The role of the token of number `at`.
    pub fn role(&self, at: usize) -> Option<Role> {
        match self.tokens.get(at) {
            Some(token) => Some(token.role),
            None => None,
        }
    }

    /// The number of the token that closes the bracket `at`; `at` if the token is no open bracket.
    pub fn last_of(&self, at: usize) -> usize {
        match self.tokens.get(at) {
            Some(token) => token.partner.max(at),
            None => at,
        }
    }

    /// Writes a token in the line of the token before it.
    pub fn write_next(&mut self, at: usize) -> Result<(), AllocError> {
        let Some(token) = self.tokens.get(at) else {
            return Ok(());
        };
        self.printer.set_gap(if token.is_spaced {
            Gap::Blank
        } else {
            Gap::None
        });
        self.printer.write(token)
    }

    /// Writes a token behind the gap that is set.
    pub fn write(&mut self, at: usize) -> Result<(), AllocError> {
        match self.tokens.get(at) {
            Some(token) => self.printer.write(token),
            None => Ok(()),
        }
    }

    /// Writes the bracket that begins with the token of number `at`, behind a blank. So many
    /// characters have to follow in its last line.
    pub fn write_bracket(&mut self, at: usize, tail: usize) -> Result<(), AllocError> {
        let to = self.last_of(at).saturating_add(1);
        self.printer.set_gap(Gap::Blank);
        self.tasks.push(Task::Operands(Span {
            from: at,
            to,
            indent: 0,
            tail,
        }))?;
        // a task writes a token, or is one of a few for a token
        for _ in 0..self.tokens.len().saturating_mul(32) {
            let Some(task) = self.tasks.pop() else {
                break;
            };
            if self.printer.is_too_long() {
                break;
            }
            self.run(task)?;
        }
        Ok(())
    }

    fn run(&mut self, task: Task) -> Result<(), AllocError> {
        match task {
            Task::Gap(gap) => {
                self.printer.set_gap(gap);
                Ok(())
            }
            Task::Token(at) => self.write(at),
            Task::Expression(span) => self.expression(span),
            Task::Conditional(span) => self.conditional(span),
            Task::Chain(span, level) => self.chain(span, level),
            Task::Operands(span) => self.operands(span),
            Task::Members(span) => self.members(span),
            Task::Close(at, indent) => self.close(at, indent),
        }
    }

    /// Adds tasks, of which the first one comes first.
    pub fn add(&mut self, tasks: &[Task]) -> Result<(), AllocError> {
        for task in tasks.iter().rev() {
            self.tasks.push(*task)?;
        }
        Ok(())
    }

    /// Whether these tokens fit into the rest of the line, without a comment between them.
    pub fn fits(&self, span: Span) -> bool {
        let first = self.tokens.get(span.from);
        let last = self.tokens.get(span.to.saturating_sub(1));
        match (first, last) {
            (Some(first), Some(last)) => {
                let size = last.end.saturating_sub(first.start);
                first.comments == last.comments
                    && self.printer.has_room(size.saturating_add(span.tail))
            }
            _ => true,
        }
    }

    /// Writes these tokens on one line, the first one behind the gap that is set.
    pub fn write_flat(&mut self, span: Span) -> Result<(), AllocError> {
        self.write(span.from)?;
        for at in span.from.saturating_add(1)..span.to {
            self.write_next(at)?;
        }
        Ok(())
    }
}
