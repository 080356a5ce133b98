// Binary operators: those of two operands.
use cedar_types::base::{Expr, Loc};
use std::alloc::{AllocError, Global};

/// An operator of two operands, `left` and `right`.
#[derive(Clone, Copy, PartialEq, Eq, Debug)]
pub enum Binary {
    Equal,
    Unequal,
    Less,
    LessOrEqual,
    Greater,
    GreaterOrEqual,
    In,
    And,
    Or,
    Add,
    Subtract,
    Multiply,
    Contains,
    ContainsAll,
    ContainsAny,
    GetTag,
    HasTag,
}

/// Returns the operator of this key, if it is one of two operands.
pub fn binary_of(key: &str) -> Option<Binary> {
    let operator = match key {
        "==" => Binary::Equal,
        "!=" => Binary::Unequal,
        "<" => Binary::Less,
        "<=" => Binary::LessOrEqual,
        ">" => Binary::Greater,
        ">=" => Binary::GreaterOrEqual,
        "in" => Binary::In,
        "&&" => Binary::And,
        "||" => Binary::Or,
        "+" => Binary::Add,
        "-" => Binary::Subtract,
        "*" => Binary::Multiply,
        "contains" => Binary::Contains,
        "containsAll" => Binary::ContainsAll,
        "containsAny" => Binary::ContainsAny,
        "getTag" => Binary::GetTag,
        "hasTag" => Binary::HasTag,
        _ => return None,
    };
    Some(operator)
}

/// Applies an operator to its operands. `!=`, `>` and `>=` become negations of other operators, at
/// the place of the whole.
pub fn apply_binary(
    alloc: Global,
    operator: Binary,
    left: Expr,
    right: Expr,
    place: Loc,
) -> Result<Expr, AllocError> {
    match operator {
        Binary::Equal => Expr::is_eq(alloc, left, right),
        Binary::Unequal => negate(alloc, Expr::is_eq(alloc, left, right)?, place),
        Binary::Less => Expr::less(alloc, left, right),
        Binary::LessOrEqual => Expr::lesseq(alloc, left, right),
        Binary::Greater => negate(alloc, Expr::lesseq(alloc, left, right)?, place),
        Binary::GreaterOrEqual => negate(alloc, Expr::less(alloc, left, right)?, place),
        _ => apply_other(alloc, operator, left, right),
    }
}

/// Applies an operator that is not a comparison.
fn apply_other(
    alloc: Global,
    operator: Binary,
    left: Expr,
    right: Expr,
) -> Result<Expr, AllocError> {
    match operator {
        Binary::In => Expr::is_in(alloc, left, right),
        Binary::And => Expr::and(alloc, left, right),
        Binary::Or => Expr::or(alloc, left, right),
        Binary::Add => Expr::add(alloc, left, right),
        Binary::Subtract => Expr::sub(alloc, left, right),
        Binary::Multiply => Expr::mul(alloc, left, right),
        Binary::Contains => Expr::contains(alloc, left, right),
        Binary::ContainsAll => Expr::contains_all(alloc, left, right),
        Binary::ContainsAny => Expr::contains_any(alloc, left, right),
        Binary::GetTag => Expr::get_tag(alloc, left, right),
        _ => Expr::has_tag(alloc, left, right),
    }
}

fn negate(alloc: Global, inner: Expr, place: Loc) -> Result<Expr, AllocError> {
    Expr::not(alloc, inner.with_maybe_source_loc(Some(place)))
}
