// Makers of expressions that no program calls.
use cedar_types::base::{Expr, UnaryOp, Var};
use std::alloc::{AllocError, Global};
use std::test::Fail;

/// The right side of each operator.
const R: Var = Var::Resource;

/// Computations on numbers, one operator over another.
fn of_numbers(alloc: Global, e: Expr) -> Result<Expr, AllocError> {
    let e = Expr::sub(alloc, e, Expr::var(R))?;
    let e = Expr::mul(alloc, e, Expr::var(R))?;
    Expr::lesseq(alloc, e, Expr::var(R))
}

/// Questions about sets, one operator over another.
fn of_sets(alloc: Global, e: Expr) -> Result<Expr, AllocError> {
    let e = Expr::contains_all(alloc, e, Expr::var(R))?;
    let e = Expr::contains_any(alloc, e, Expr::var(R))?;
    Expr::unary_app(alloc, UnaryOp::Not, e)
}

#[test]
fn operators_are_made(rt: HostRuntime) -> Result<(), Fail> {
    let alloc = rt.alloc();
    let e = of_numbers(alloc, Expr::var(Var::Principal))?;
    let other = of_sets(alloc, Expr::var(Var::Principal))?;
    assert!(rt; !e.has_shape_of(&other));
    Ok(())
}
