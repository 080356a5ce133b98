// Operators, by how strongly they bind.
use crate::cursor::Cursor;
use crate::tokens::TokenKind;
use cedar_types::base::{BinaryOp, EntityType, Expr, Loc};
use std::alloc::{AllocError, Global};

/// The strength with which the parts of an expression bind, the weakest first.
#[derive(Clone, Copy, PartialEq, Eq, PartialOrd, Ord, Debug)]
pub enum Level {
    /// A whole expression, for example the one behind `else`: no operator goes on with it.
    Whole,
    Or,
    And,
    /// Comparisons, `has`, `like` and `is`, none of which goes on with another.
    Relation,
    Sum,
    Product,
    /// `!` and `-` before an operand.
    Prefix,
    /// Accesses and calls of methods.
    Member,
}

/// An operator that goes on with an operand.
#[derive(Clone, Copy)]
pub enum Operator {
    Between(Connective),
    Has,
    Like,
    Is,
    /// A point before an attribute or a method.
    Point,
    /// A bracket before an attribute in quotes.
    Bracket,
}

/// An operator between two operands.
#[derive(Clone, Copy)]
pub enum Connective {
    And,
    Or,
    Binary(BinaryOp),
    /// An operator that is true if this one is false, for example `!=`.
    Negated(BinaryOp),
}

/// The operator that comes next, if there is one, and how strongly it binds.
pub fn next_operator(cursor: &Cursor<'_>) -> Option<(Level, Operator)> {
    let token = cursor.peek();
    match token.kind {
        TokenKind::Mark => mark(token.text),
        TokenKind::Word => word(token.text),
        _ => None,
    }
}

fn mark(text: &str) -> Option<(Level, Operator)> {
    match text {
        "." => Some((Level::Member, Operator::Point)),
        "[" => Some((Level::Member, Operator::Bracket)),
        "&&" => Some((Level::And, Operator::Between(Connective::And))),
        "||" => Some((Level::Or, Operator::Between(Connective::Or))),
        _ => {
            let (level, connective) = comparison_or_sum(text)?;
            Some((level, Operator::Between(connective)))
        }
    }
}

fn comparison_or_sum(text: &str) -> Option<(Level, Connective)> {
    match text {
        "==" => Some((Level::Relation, Connective::Binary(BinaryOp::Eq))),
        "!=" => Some((Level::Relation, Connective::Negated(BinaryOp::Eq))),
        "<" => Some((Level::Relation, Connective::Binary(BinaryOp::Less))),
        ">=" => Some((Level::Relation, Connective::Negated(BinaryOp::Less))),
        "<=" => Some((Level::Relation, Connective::Binary(BinaryOp::LessEq))),
        ">" => Some((Level::Relation, Connective::Negated(BinaryOp::LessEq))),
        "+" => Some((Level::Sum, Connective::Binary(BinaryOp::Add))),
        "-" => Some((Level::Sum, Connective::Binary(BinaryOp::Sub))),
        "*" => Some((Level::Product, Connective::Binary(BinaryOp::Mul))),
        _ => None,
    }
}

fn word(text: &str) -> Option<(Level, Operator)> {
    let operator = match text {
        "in" => Operator::Between(Connective::Binary(BinaryOp::In)),
        "has" => Operator::Has,
        "like" => Operator::Like,
        "is" => Operator::Is,
        _ => return None,
    };
    Some((Level::Relation, operator))
}

/// Both operands, joined by the connective. The whole stands at `place`, also if it is negated.
pub fn join(
    alloc: Global,
    place: Loc,
    connective: Connective,
    left: Expr,
    right: Expr,
) -> Result<Expr, AllocError> {
    match connective {
        Connective::And => Expr::and(alloc, left, right),
        Connective::Or => Expr::or(alloc, left, right),
        Connective::Binary(operator) => Expr::binary_app(alloc, operator, left, right),
        Connective::Negated(operator) => {
            let compared = Expr::binary_app(alloc, operator, left, right)?;
            Expr::not(alloc, compared.with_maybe_source_loc(Some(place)))
        }
    }
}

/// The number of nodes between the node of a connective and its operands.
pub fn nodes_within(connective: Connective) -> usize {
    match connective {
        Connective::Negated(_) => 1,
        _ => 0,
    }
}

/// The expression `left is entity_type && left in right`; both sides stand at `place`.
pub fn is_in(
    alloc: Global,
    place: Loc,
    left: Expr,
    entity_type: EntityType,
    right: Expr,
) -> Result<Expr, AllocError> {
    let copy = left.try_clone(alloc)?;
    let within = Expr::is_in(alloc, copy, right)?;
    let typed = Expr::is_entity_type(alloc, left, entity_type)?;
    Expr::and(
        alloc,
        typed.with_maybe_source_loc(Some(place)),
        within.with_maybe_source_loc(Some(place)),
    )
}

/// The operator that is called like a method of this name, if there is one.
pub fn method(name: &str) -> Option<BinaryOp> {
    match name {
        "contains" => Some(BinaryOp::Contains),
        "containsAll" => Some(BinaryOp::ContainsAll),
        "containsAny" => Some(BinaryOp::ContainsAny),
        "hasTag" => Some(BinaryOp::HasTag),
        "getTag" => Some(BinaryOp::GetTag),
        _ => None,
    }
}
