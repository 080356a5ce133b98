// Parts of an expression, one after another, and the slots that occur in it.
use cedar_fixtures::negations::{negate, take_apart};
use cedar_types::base::{Expr, ExprIterator, ExprKind, SlotId, Var};
use std::alloc::{AllocError, Global};
use std::test::Fail;

/// The number of negations inside each other.
const DEPTH: usize = 100_000;

/// The number of expressions that are still to come.
fn count(expressions: ExprIterator<'_>) -> Result<usize, AllocError> {
    let mut counted: usize = 0;
    for expr in expressions {
        let _expr = expr?;
        counted = counted.saturating_add(1);
    }
    Ok(counted)
}

/// The variable that comes next; `None` if another expression does.
fn next_variable(visited: &mut ExprIterator<'_>) -> Result<Option<Var>, AllocError> {
    match visited.next().ok_or(AllocError)??.kind {
        ExprKind::Var(variable) => Ok(Some(variable)),
        _ => Ok(None),
    }
}

/// Whether the whole comes, then the action, then the principal, and nothing after them.
fn are_visited(visited: &mut ExprIterator<'_>) -> Result<bool, AllocError> {
    Ok(
        next_variable(visited)?.is_none()
            && next_variable(visited)? == Some(Var::Action)
            && next_variable(visited)? == Some(Var::Principal)
            && visited.next().is_none()
            && visited.next().is_none(),
    )
}

#[test]
fn an_expression_comes_before_its_parts_and_the_last_part_first(
    rt: HostRuntime,
) -> Result<(), Fail> {
    let alloc = rt.alloc();
    let whole = Expr::and(alloc, Expr::var(Var::Principal), Expr::var(Var::Action))?;
    assert!(rt; are_visited(&mut whole.subexpressions(alloc)?)?);
    Ok(())
}

/// The variable that an expression is, if it is one.
fn variable(expr: &Expr) -> Option<Var> {
    match expr.kind {
        ExprKind::Var(variable) => Some(variable),
        _ => None,
    }
}

/// Whether the parts are the test, the branch that it chooses and the other one, without the parts of these.
fn are_direct(parts: &Vec<&Expr>) -> bool {
    parts.len() == 3
        && variable(parts[0]).is_none()
        && variable(parts[1]) == Some(Var::Action)
        && variable(parts[2]) == Some(Var::Principal)
}

#[test]
fn the_parts_of_an_if_are_its_test_and_then_its_branches(rt: HostRuntime) -> Result<(), Fail> {
    let alloc = rt.alloc();
    let test = Expr::not(alloc, Expr::var(Var::Context))?;
    let (chosen, other) = (Expr::var(Var::Action), Expr::var(Var::Principal));
    let whole = Expr::ite(alloc, test, chosen, other)?;
    assert!(rt; are_direct(&whole.parts(alloc)?));
    Ok(())
}

/// The number of parts, if the principal's slot is none of them.
fn count_parts(alloc: Global, whole: &Expr) -> Result<Option<usize>, AllocError> {
    if whole.mentions_slot(alloc, SlotId::Principal)? {
        return Ok(None);
    }
    Ok(Some(count(whole.subexpressions(alloc)?)?))
}

#[test]
fn a_hundred_thousand_negations_are_visited(rt: HostRuntime) -> Result<(), Fail> {
    let whole = negate(rt.alloc(), DEPTH)?;
    let found = count_parts(rt.alloc(), &whole);
    take_apart(whole, DEPTH);
    assert_eq!(rt; found?, Some(DEPTH + 1));
    Ok(())
}
