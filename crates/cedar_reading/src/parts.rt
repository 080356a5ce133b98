// Parts: expressions that were read, with the text that they cover.
use crate::cursor::{Cursor, MAX_GRAMMAR_STEPS};
use crate::faults::{Fault, ReadError};
use cedar_types::base::{Expr, Loc};

/// An expression that was read.
#[derive(Drop)]
pub struct Part {
    /// The expression. Each of its nodes stands at its own text, without parentheses around it.
    pub expr: Expr,
    /// The text that was read, parentheses included.
    pub covers: Loc,
    /// The number of nodes inside each other, the root included: at most `MAX_GRAMMAR_STEPS`.
    pub depth: usize,
}

/// An expression without parts; its root covers the text from the byte `start` on.
pub fn leaf_since(cursor: &Cursor<'_>, start: usize, expr: Expr) -> Part {
    let covers = cursor.since(start);
    Part {
        expr: expr.with_maybe_source_loc(Some(covers)),
        covers,
        depth: 1,
    }
}

/// An expression around parts of depth `inner`; its root covers the text from the byte `start` on.
/// It fails if it is nested too deep.
pub fn part_since(
    cursor: &Cursor<'_>,
    start: usize,
    inner: usize,
    expr: Expr,
) -> Result<Part, ReadError> {
    let depth = inner.saturating_add(1);
    if depth > MAX_GRAMMAR_STEPS {
        return Err(cursor.fault(Fault::TooDeep));
    }
    let covers = cursor.since(start);
    Ok(Part {
        expr: expr.with_maybe_source_loc(Some(covers)),
        covers,
        depth,
    })
}

/// The part `inner`, with parentheses around it from the byte `start` on.
pub fn in_parentheses(cursor: &Cursor<'_>, start: usize, inner: Part) -> Part {
    Part {
        expr: inner.expr,
        covers: cursor.since(start),
        depth: inner.depth,
    }
}
