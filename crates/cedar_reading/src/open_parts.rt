// Parts of an expression that are begun, and how each goes on behind the expression that it waits
// for.
use crate::brackets::{Fields, Key, List};
use crate::cursor::Cursor;
use crate::faults::{Expected, Fault, ReadError};
use crate::operators::{Connective, Level, is_in, join, nodes_within};
use crate::parts::{Part, in_parentheses, part_since};
use cedar_types::base::{EntityType, Expr};

/// An operator before its operand.
#[derive(Clone, Copy, PartialEq, Eq)]
pub enum Prefix {
    Not,
    Minus,
}

/// A part that waits for an expression.
#[derive(Drop)]
pub enum Open {
    /// An operator before its operand, and the byte of the operator.
    Prefix(Prefix, usize),
    /// An operator behind its left operand.
    Between(Level, Connective, Part),
    /// `is` and `in` behind their left operand.
    Within(EntityType, Part),
    /// An `if` at this byte: it waits for the test, then for the chosen branch, then for the other
    /// one.
    Test(usize),
    Chosen(usize, Part),
    Other(usize, Part, Part),
    /// A parenthesis at this byte.
    Parenthesis(usize),
    List(List),
    Record(Fields, Key),
}

/// The most operators before one operand.
const MAX_PREFIXES: usize = 4;

/// The kind of text to read next.
#[derive(Drop)]
pub enum Next {
    /// The beginning of an operand.
    Operand,
    /// The text behind this part: an operator, none stronger than the level, or the end of the
    /// part.
    Behind(Part, Level),
    /// Nothing, because this part is the whole expression.
    End(Part),
}

/// Begins a part inside the parts that are begun.
pub fn begin(open: &mut Vec<Open>, what: Open) -> Result<Next, ReadError> {
    open.push(what)?;
    Ok(Next::Operand)
}

/// Fails if the operator `prefix` must not stand here: behind the other one, or behind four of its
/// kind.
pub fn check_prefix(cursor: &Cursor<'_>, open: &[Open], prefix: Prefix) -> Result<(), ReadError> {
    let mut count = 0usize;
    for part in open.iter().rev() {
        match part {
            Open::Prefix(before, _) if *before == prefix => count = count.saturating_add(1),
            Open::Prefix(_, _) => return Err(cursor.fault(Fault::MixedSigns)),
            _ => break,
        }
    }
    if count >= MAX_PREFIXES {
        return Err(cursor.fault(Fault::TooManySigns));
    }
    Ok(())
}

/// The strength with which the innermost begun part binds the next operand.
pub fn innermost_level(open: &[Open]) -> Level {
    match open.last() {
        Some(Open::Prefix(_, _)) => Level::Prefix,
        Some(Open::Between(level, _, _)) => *level,
        Some(Open::Within(_, _)) => Level::Relation,
        _ => Level::Whole,
    }
}

/// Goes on with the innermost begun part, behind the expression that it waits for.
pub fn close(cursor: &mut Cursor<'_>, open: &mut Vec<Open>, part: Part) -> Result<Next, ReadError> {
    match open.pop() {
        None => Ok(Next::End(part)),
        Some(Open::Prefix(prefix, start)) => close_prefix(cursor, prefix, start, part),
        Some(Open::Between(level, connective, left)) => {
            between(cursor, level, connective, left, part)
        }
        Some(Open::Within(entity_type, left)) => close_within(cursor, entity_type, left, part),
        Some(Open::Test(start)) => {
            cursor.expect("then")?;
            begin(open, Open::Chosen(start, part))
        }
        Some(Open::Chosen(start, test)) => {
            cursor.expect("else")?;
            begin(open, Open::Other(start, test, part))
        }
        Some(Open::Other(start, test, chosen)) => conditional(cursor, start, test, chosen, part),
        Some(Open::Parenthesis(start)) => {
            cursor.expect(")")?;
            Ok(Next::Behind(in_parentheses(cursor, start, part), Level::Member))
        }
        Some(Open::List(list)) => behind_member(cursor, open, list, part),
        Some(Open::Record(fields, key)) => behind_value(cursor, open, fields, key, part),
    }
}

/// The largest expression that ends with this part and needs nothing more.
pub fn close_whole(
    cursor: &mut Cursor<'_>,
    open: &mut Vec<Open>,
    part: Part,
) -> Result<Part, ReadError> {
    let mut whole = part;
    for _ in 0..open.len() {
        if !ends_with_operand(open) {
            break;
        }
        whole = match close(cursor, open, whole)? {
            Next::Behind(part, _) | Next::End(part) => part,
            Next::Operand => return Err(cursor.fault(Fault::Expected(Expected::Expression))),
        };
    }
    Ok(whole)
}

/// Whether the innermost begun part ends with the expression that it waits for.
fn ends_with_operand(open: &[Open]) -> bool {
    matches!(
        open.last(),
        Some(
            Open::Prefix(_, _) | Open::Between(_, _, _) | Open::Within(_, _) | Open::Other(_, _, _)
        )
    )
}

fn close_prefix(
    cursor: &Cursor<'_>,
    prefix: Prefix,
    start: usize,
    operand: Part,
) -> Result<Next, ReadError> {
    let whole = match prefix {
        Prefix::Not => Expr::not(cursor.alloc, operand.expr)?,
        Prefix::Minus => Expr::neg(cursor.alloc, operand.expr)?,
    };
    let whole = part_since(cursor, start, operand.depth, whole)?;
    Ok(Next::Behind(whole, Level::Product))
}

/// Joins both operands. An operator that binds as strongly may follow, but no relation behind a
/// relation.
fn between(
    cursor: &Cursor<'_>,
    level: Level,
    connective: Connective,
    left: Part,
    right: Part,
) -> Result<Next, ReadError> {
    let start = left.covers.start;
    let depth = left
        .depth
        .max(right.depth)
        .saturating_add(nodes_within(connective));
    let place = cursor.since(start);
    let whole = join(cursor.alloc, place, connective, left.expr, right.expr)?;
    let whole = part_since(cursor, start, depth, whole)?;
    let follows = if level == Level::Relation {
        Level::And
    } else {
        level
    };
    Ok(Next::Behind(whole, follows))
}

fn close_within(
    cursor: &Cursor<'_>,
    entity_type: EntityType,
    left: Part,
    right: Part,
) -> Result<Next, ReadError> {
    let start = left.covers.start;
    let depth = left.depth.max(right.depth).saturating_add(1);
    let place = cursor.since(start);
    let whole = is_in(cursor.alloc, place, left.expr, entity_type, right.expr)?;
    let whole = part_since(cursor, start, depth, whole)?;
    Ok(Next::Behind(whole, Level::And))
}

fn conditional(
    cursor: &Cursor<'_>,
    start: usize,
    test: Part,
    chosen: Part,
    other: Part,
) -> Result<Next, ReadError> {
    let depth = test.depth.max(chosen.depth).max(other.depth);
    let whole = Expr::ite(cursor.alloc, test.expr, chosen.expr, other.expr)?;
    let whole = part_since(cursor, start, depth, whole)?;
    Ok(Next::Behind(whole, Level::Whole))
}

/// Reads the text behind a member of a list: a comma, the mark that closes the list, or both.
fn behind_member(
    cursor: &mut Cursor<'_>,
    open: &mut Vec<Open>,
    list: List,
    member: Part,
) -> Result<Next, ReadError> {
    let list = list.with(member)?;
    if cursor.takes(",") {
        return next_member(cursor, open, list);
    }
    cursor.expect(list.closing())?;
    Ok(Next::Behind(list.finish(cursor)?, Level::Member))
}

/// Reads the mark that closes the list, if it comes next; else another member has to follow.
pub fn next_member(
    cursor: &mut Cursor<'_>,
    open: &mut Vec<Open>,
    list: List,
) -> Result<Next, ReadError> {
    if !cursor.takes(list.closing()) {
        return begin(open, Open::List(list));
    }
    Ok(Next::Behind(list.finish(cursor)?, Level::Member))
}

/// Reads the text behind a value of a record: a comma, the brace that closes the record, or both.
fn behind_value(
    cursor: &mut Cursor<'_>,
    open: &mut Vec<Open>,
    fields: Fields,
    key: Key,
    value: Part,
) -> Result<Next, ReadError> {
    let fields = fields.with(key, value)?;
    if cursor.takes(",") {
        return next_value(cursor, open, fields);
    }
    cursor.expect("}")?;
    Ok(Next::Behind(fields.finish(cursor)?, Level::Member))
}

/// Reads the brace that closes the record, if it comes next; else a key, whose value has to follow.
pub fn next_value(
    cursor: &mut Cursor<'_>,
    open: &mut Vec<Open>,
    fields: Fields,
) -> Result<Next, ReadError> {
    if cursor.takes("}") {
        return Ok(Next::Behind(fields.finish(cursor)?, Level::Member));
    }
    let key = Key::read(cursor)?;
    begin(open, Open::Record(fields, key))
}
