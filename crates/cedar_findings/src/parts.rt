//! Parts of a condition, and the text at their places.
use cedar_types::base::{BinaryOp, Expr, ExprKind, Loc, Template};
use std::alloc::{AllocError, Global};

/// The most bytes of a text that is shown as an example: the reader has a longer one in the policy already.
const MAX_BYTES_SHOWN: usize = 80;

/// An operator and its two operands.
#[derive(Clone, Copy)]
pub struct Operation<'a> {
    pub operator: BinaryOp,
    pub left: &'a Expr,
    pub right: &'a Expr,
}

/// The text at a place, if it is one short line.
pub fn text_at(text: &str, place: Option<Loc>) -> Option<&str> {
    let place = place?;
    let part = text.get(place.start..place.end)?;
    let is_plain = part.len() <= MAX_BYTES_SHOWN && !part.contains('\n') && !part.contains("//");
    (is_plain && !part.is_empty()).then_some(part)
}

/// The operation on two operands at a place, if there is one.
pub fn operation_at(
    alloc: Global,
    policy: &Template,
    place: Option<Loc>,
) -> Result<Option<Operation<'_>>, AllocError> {
    let Some(condition) = &policy.non_scope_constraints else {
        return Ok(None);
    };
    for item in condition.subexpressions(alloc)? {
        let part = item?;
        if part.loc == place {
            if let Some(found) = operation_in(part) {
                return Ok(Some(found));
            }
        }
    }
    Ok(None)
}

/// The operation of a part, if the part has two operands.
pub fn operation_in(part: &Expr) -> Option<Operation<'_>> {
    match &part.kind {
        ExprKind::BinaryApp(operator, left, right) => Some(Operation {
            operator: *operator,
            left,
            right,
        }),
        _ => None,
    }
}

/// The arguments of the call at a place, if there is one.
pub fn arguments_at(
    alloc: Global,
    policy: &Template,
    place: Option<Loc>,
) -> Result<Option<&[Expr]>, AllocError> {
    let Some(condition) = &policy.non_scope_constraints else {
        return Ok(None);
    };
    for item in condition.subexpressions(alloc)? {
        let part = item?;
        if part.loc == place {
            if let ExprKind::ExtensionFunctionApp(_, arguments) = &part.kind {
                return Ok(Some(arguments.as_slice()));
            }
        }
    }
    Ok(None)
}

/// The part of a condition that has the part at a place as an operand, if there is one.
pub fn part_around(
    alloc: Global,
    policy: &Template,
    place: Option<Loc>,
) -> Result<Option<&Expr>, AllocError> {
    let Some(condition) = &policy.non_scope_constraints else {
        return Ok(None);
    };
    for item in condition.subexpressions(alloc)? {
        let part = item?;
        if part.loc != place && has_operand_at(part, place) {
            return Ok(Some(part));
        }
    }
    Ok(None)
}

/// Whether an operand of a part stands at a place.
fn has_operand_at(part: &Expr, place: Option<Loc>) -> bool {
    match &part.kind {
        ExprKind::BinaryApp(_, left, right) => left.loc == place || right.loc == place,
        ExprKind::UnaryApp(_, operand) => operand.loc == place,
        ExprKind::HasAttr(base, _) => base.loc == place,
        ExprKind::Like(operand, _) => operand.loc == place,
        _ => false,
    }
}
