// Depths of conditions.
use cedar_types::base::{Expr, Template};
use std::alloc::{AllocError, Global};

/// Whether the condition of a policy, if it has one, is no deeper than this.
pub fn is_within(alloc: Global, policy: &Template, depth: u32) -> Result<bool, AllocError> {
    match &policy.non_scope_constraints {
        None => Ok(true),
        Some(condition) => has_depth_within(alloc, condition, depth),
    }
}

/// Whether at most `depth` nodes stand inside each other in an expression. The walk goes down by
/// one generation of nodes after another, so the depth takes no stack.
fn has_depth_within(alloc: Global, expr: &Expr, depth: u32) -> Result<bool, AllocError> {
    let mut generation = Vec::new(alloc);
    generation.push(expr)?;
    for _ in 0..depth {
        generation = parts_of(alloc, &generation)?;
        if generation.is_empty() {
            return Ok(true);
        }
    }
    Ok(false)
}

/// The parts of these expressions.
fn parts_of<'a>(alloc: Global, exprs: &Vec<&'a Expr>) -> Result<Vec<&'a Expr>, AllocError> {
    let mut found = Vec::new(alloc);
    for expr in exprs {
        add_parts(alloc, &mut found, *expr)?;
    }
    Ok(found)
}

fn add_parts<'a>(
    alloc: Global,
    found: &mut Vec<&'a Expr>,
    expr: &'a Expr,
) -> Result<(), AllocError> {
    for part in expr.parts(alloc)? {
        found.push(part)?;
    }
    Ok(())
}
