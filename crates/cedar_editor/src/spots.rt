// Parts of conditions at a byte, and the tests that guard them.
use cedar_types::base::{Expr, ExprKind};
use std::alloc::{AllocError, Global};

/// The most parts that may stand inside each other: more than reading admits.
const MAX_STEPS: usize = 1000;

/// A guard: a test whose value is known at the place of a part.
#[derive(Clone, Copy)]
pub enum Guard<'a> {
    /// This test is true.
    True(&'a Expr),
    /// This test is false.
    False(&'a Expr),
}

/// The smallest part at a byte.
#[derive(Drop)]
pub struct Spot<'a> {
    pub part: &'a Expr,
    pub guards: Vec<Guard<'a>>,
    /// The smallest part around the spot that is an operand of `&&`, `||` or `if`; the whole
    /// condition if there is none. A test put before it guards the spot.
    pub operand: &'a Expr,
}

/// The smallest part of a condition at a byte, if one stands there.
pub fn spot_at<'a>(
    alloc: Global,
    condition: &'a Expr,
    at: usize,
) -> Result<Option<Spot<'a>>, AllocError> {
    if !covers(condition, at) {
        return Ok(None);
    }
    let mut part = condition;
    let mut operand = condition;
    let mut guards = Vec::new(alloc);
    for _ in 0..MAX_STEPS {
        let Some(next) = smallest_part(alloc, part, at)? else {
            break;
        };
        if let Some(guard) = guard_before(part, next) {
            guards.push(guard)?;
        }
        if has_guards(part) {
            operand = next;
        }
        part = next;
    }
    Ok(Some(Spot {
        part,
        guards,
        operand,
    }))
}

fn covers(part: &Expr, at: usize) -> bool {
    match part.loc {
        Some(place) => place.start <= at && at < place.end,
        None => false,
    }
}

/// The direct part of an expression at a byte that has the shortest text.
fn smallest_part<'a>(
    alloc: Global,
    whole: &'a Expr,
    at: usize,
) -> Result<Option<&'a Expr>, AllocError> {
    let mut found: Option<&Expr> = None;
    for part in whole.parts(alloc)? {
        let is_shorter = match found {
            Some(other) => size(part) < size(other),
            None => true,
        };
        if covers(part, at) && is_shorter {
            found = Some(part);
        }
    }
    Ok(found)
}

fn size(part: &Expr) -> usize {
    match part.loc {
        Some(place) => place.end.saturating_sub(place.start),
        None => usize::MAX,
    }
}

/// Whether a part of an expression may be a guard of another part.
fn has_guards(whole: &Expr) -> bool {
    matches!(
        &whole.kind,
        ExprKind::And(_, _) | ExprKind::Or(_, _) | ExprKind::If { .. }
    )
}

/// The guard that an expression puts before one of its parts, if it has one: the left operand is
/// true before the right one of `&&`, and false before that of `||`; the test of an `if` is true
/// before `then`, and false before `else`.
fn guard_before<'a>(whole: &'a Expr, next: &Expr) -> Option<Guard<'a>> {
    match &whole.kind {
        ExprKind::And(left, _) if left.loc != next.loc => Some(Guard::True(left)),
        ExprKind::Or(left, _) if left.loc != next.loc => Some(Guard::False(left)),
        ExprKind::If {
            test_expr,
            then_expr,
            ..
        } if test_expr.loc != next.loc => {
            if then_expr.loc == next.loc {
                Some(Guard::True(test_expr))
            } else {
                Some(Guard::False(test_expr))
            }
        }
        _ => None,
    }
}
