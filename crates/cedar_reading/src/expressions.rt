// Expressions, in Cedar's syntax. Parts that are begun stand in a list and not on the stack, so the
// stack does not grow with the nesting of the text, parentheses included.
use crate::brackets::{Fields, List, ListOf};
use crate::cursor::{Cursor, MAX_GRAMMAR_STEPS};
use crate::faults::{Expected, Fault, ReadError};
use crate::members::{
    Beginning, attribute_word, beginning_with_word, has, literal, negative_number, slot,
};
use crate::names::entity_type;
use crate::open_parts::{
    Next, Open, Prefix, begin, check_prefix, close, close_whole, innermost_level, next_member,
    next_value,
};
use crate::operators::{Level, Operator, next_operator};
use crate::parts::{Part, leaf_since, part_since};
use crate::texts::{pattern, text};
use crate::tokens::TokenKind;
use cedar_types::base::Expr;
use std::rc::RcStr;

/// Reads an expression. Its depth is at most `MAX_GRAMMAR_STEPS` nodes, and at each place at most
/// as many brackets and operators are begun.
pub fn expression(cursor: &mut Cursor<'_>) -> Result<Part, ReadError> {
    whole_expression(cursor, false)
}

/// Reads a text up to its end, at which an expression that needs nothing more ends, and returns the
/// largest such expression.
pub fn last_whole(cursor: &mut Cursor<'_>) -> Result<Part, ReadError> {
    whole_expression(cursor, true)
}

/// Reads a whole expression; or, if `may_be_cut`, up to the end of the text, though more is begun
/// there.
fn whole_expression(cursor: &mut Cursor<'_>, may_be_cut: bool) -> Result<Part, ReadError> {
    let mut open = Vec::new(cursor.alloc);
    let mut next = Next::Operand;
    // each turn reads a token, or ends a part that a token began
    for _ in 0..cursor.most_left().saturating_mul(2) {
        next = match next {
            Next::Operand => operand(cursor, &mut open)?,
            Next::Behind(part, _) if may_be_cut && cursor.is_at_end() => {
                return close_whole(cursor, &mut open, part);
            }
            Next::Behind(part, follows) => behind(cursor, &mut open, part, follows)?,
            Next::End(part) => return Ok(part),
        };
    }
    Err(cursor.fault(Fault::TooDeep))
}

/// Reads the beginning of an operand: a whole operand, or the part that begins one. It fails if too
/// many parts are begun.
fn operand(cursor: &mut Cursor<'_>, open: &mut Vec<Open>) -> Result<Next, ReadError> {
    if open.len() >= MAX_GRAMMAR_STEPS {
        return Err(cursor.fault(Fault::TooDeep));
    }
    let start = cursor.start();
    let token = cursor.peek();
    match token.kind {
        TokenKind::Mark => begin_with_mark(cursor, open, token.text, start),
        TokenKind::Word => begin_with_word(cursor, open, start),
        _ => {
            let whole = literal(cursor)?;
            Ok(Next::Behind(leaf_since(cursor, start, whole), Level::Member))
        }
    }
}

/// Reads the beginning of an operand that starts with `mark`.
fn begin_with_mark(
    cursor: &mut Cursor<'_>,
    open: &mut Vec<Open>,
    mark: &str,
    start: usize,
) -> Result<Next, ReadError> {
    match mark {
        "!" => {
            check_prefix(cursor, open, Prefix::Not)?;
            cursor.take();
            begin(open, Open::Prefix(Prefix::Not, start))
        }
        "-" => {
            check_prefix(cursor, open, Prefix::Minus)?;
            cursor.take();
            behind_minus(cursor, open, start)
        }
        "(" => {
            cursor.take();
            begin(open, Open::Parenthesis(start))
        }
        "[" => {
            cursor.take();
            let list = List::new(cursor, start, ListOf::Set);
            next_member(cursor, open, list)
        }
        "{" => {
            cursor.take();
            let fields = Fields::new(cursor, start);
            next_value(cursor, open, fields)
        }
        "?" => {
            cursor.take();
            let whole = slot(cursor)?;
            Ok(Next::Behind(leaf_since(cursor, start, whole), Level::Member))
        }
        _ => Err(cursor.fault(Fault::Expected(Expected::Expression))),
    }
}

/// Reads the operand behind a minus at the byte `start`. A minus before a number belongs to the
/// number, unless a member of the number follows: `-5.x` is `-(5.x)`.
fn behind_minus(
    cursor: &mut Cursor<'_>,
    open: &mut Vec<Open>,
    start: usize,
) -> Result<Next, ReadError> {
    let token = cursor.peek();
    if token.kind != TokenKind::Number || is_before_member(&cursor.at(token.place.end)) {
        return begin(open, Open::Prefix(Prefix::Minus, start));
    }
    let whole = negative_number(cursor, start)?;
    Ok(Next::Behind(leaf_since(cursor, start, whole), Level::Product))
}

/// Whether an access or a call of a method comes next.
fn is_before_member(cursor: &Cursor<'_>) -> bool {
    cursor.is_at(".") || cursor.is_at("[")
}

/// Reads the beginning of an operand that starts with a word. An `if` may only begin a whole
/// expression.
fn begin_with_word(
    cursor: &mut Cursor<'_>,
    open: &mut Vec<Open>,
    start: usize,
) -> Result<Next, ReadError> {
    if innermost_level(open) == Level::Whole && cursor.takes("if") {
        return begin(open, Open::Test(start));
    }
    match beginning_with_word(cursor)? {
        Beginning::Whole(expr) => {
            Ok(Next::Behind(leaf_since(cursor, start, expr), Level::Member))
        }
        Beginning::Function(name) => {
            let list = List::new(cursor, start, ListOf::Function(name));
            next_member(cursor, open, list)
        }
    }
}

/// Goes on behind `part`: with the next operator, if it may follow and binds stronger than the
/// innermost part that is begun; else that part goes on with `part`.
fn behind(
    cursor: &mut Cursor<'_>,
    open: &mut Vec<Open>,
    part: Part,
    follows: Level,
) -> Result<Next, ReadError> {
    cursor.keep_whole_end();
    match next_operator(cursor) {
        Some((level, operator)) if level <= follows && level > innermost_level(open) => {
            cursor.take();
            with_operator(cursor, open, part, level, operator)
        }
        _ => close(cursor, open, part),
    }
}

/// Reads the text behind an operator.
fn with_operator(
    cursor: &mut Cursor<'_>,
    open: &mut Vec<Open>,
    part: Part,
    level: Level,
    operator: Operator,
) -> Result<Next, ReadError> {
    match operator {
        Operator::Between(connective) => { begin(open, Open::Between(level, connective, part)) }
        Operator::Has => with_has(cursor, part),
        Operator::Like => with_like(cursor, part),
        Operator::Is => with_is(cursor, open, part),
        Operator::Point => with_point(cursor, open, part),
        Operator::Bracket => with_bracket(cursor, part),
    }
}

fn with_has(cursor: &mut Cursor<'_>, base: Part) -> Result<Next, ReadError> {
    let whole = has(cursor, base.expr)?;
    Ok(Next::Behind(
        part_since(cursor, base.covers.start, base.depth, whole)?,
        Level::And,
    ))
}

fn with_like(cursor: &mut Cursor<'_>, base: Part) -> Result<Next, ReadError> {
    let pattern = pattern(cursor)?;
    let whole = Expr::like(cursor.alloc, base.expr, pattern)?;
    Ok(Next::Behind(
        part_since(cursor, base.covers.start, base.depth, whole)?,
        Level::And,
    ))
}

/// Reads a type, and perhaps an `in` before an operand.
fn with_is(cursor: &mut Cursor<'_>, open: &mut Vec<Open>, base: Part) -> Result<Next, ReadError> {
    let entity_type = entity_type(cursor)?;
    cursor.keep_whole_end();
    if cursor.is_at("in") {
        // the left operand stands in the tree twice
        if !cursor.may_copy(base.covers) {
            return Err(cursor.fault(Fault::Twice));
        }
        cursor.take();
        return begin(open, Open::Within(entity_type, base));
    }
    let whole = Expr::is_entity_type(cursor.alloc, base.expr, entity_type)?;
    Ok(Next::Behind(
        part_since(cursor, base.covers.start, base.depth, whole)?,
        Level::And,
    ))
}

/// Reads an attribute, or a method and the beginning of its arguments.
fn with_point(
    cursor: &mut Cursor<'_>,
    open: &mut Vec<Open>,
    base: Part,
) -> Result<Next, ReadError> {
    let at = cursor.start();
    let name = attribute_word(cursor)?;
    let start = base.covers.start;
    if cursor.takes("(") {
        let name = RcStr::from_str(cursor.alloc, name)?;
        let list = List::new(cursor, start, ListOf::Method(base, name, at));
        return next_member(cursor, open, list);
    }
    let whole = Expr::get_attr(cursor.alloc, base.expr, name)?;
    Ok(Next::Behind(part_since(cursor, start, base.depth, whole)?, Level::Member))
}

/// Reads an attribute in quotes, and the bracket behind it.
fn with_bracket(cursor: &mut Cursor<'_>, base: Part) -> Result<Next, ReadError> {
    let attr = text(cursor)?;
    cursor.expect("]")?;
    let whole = Expr::get_attr(cursor.alloc, base.expr, attr.as_str())?;
    Ok(Next::Behind(
        part_since(cursor, base.covers.start, base.depth, whole)?,
        Level::Member,
    ))
}
