// Deeply nested negations.
use cedar_types::base::{Expr, ExprKind, Literal};
use std::alloc::{AllocError, Global};

/// The literal `true` under this many negations, made from the inside out.
pub fn negate(alloc: Global, count: usize) -> Result<Expr, AllocError> {
    let mut whole = Expr::val(Literal::from(true));
    for _ in 0..count {
        whole = Expr::not(alloc, whole)?;
    }
    Ok(whole)
}

/// Takes negations apart from the outside in, because to drop them at once would recurse as deep as they are nested.
pub fn take_apart(negations: Expr, count: usize) {
    let mut whole = negations;
    for _ in 0..count {
        match whole.into_expr_kind() {
            ExprKind::UnaryApp(_, operand) => whole = Box::into_inner(operand),
            _ => return,
        }
    }
}
