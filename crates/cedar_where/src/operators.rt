// Operators on compiled parts.
ghost use Rattle.std.specs.Prelude.{◌≡◌, IfOk};
ghost use Rattle.cedar_typing.specs.TypedExpr.{typed_tree};
ghost use Rattle.cedar_where.specs.Compiled.{binary_of_terms, binary_term, in_operand, operator_term, unary_term};
ghost use Rattle.cedar_where.specs.Views.{term_in, term_of};

use crate::comparisons::{equality, less, less_or_equal};
use crate::connectives::not_term;
use crate::membership::{entity_literals, in_any, in_term};
use crate::refusals::Reason;
use crate::scopes::Typed;
use crate::terms::{Compiled, Term, refused};
use crate::text_sets::contains_term;
use cedar_types::base::{BinaryOp, ExprKind, Loc, UnaryOp};
use std::alloc::{AllocError, Global};

pub(crate) fn unary_term(
    alloc: Global,
    loc: Option<Loc>,
    op: UnaryOp,
    operand: Compiled,
) -> Result<Compiled, AllocError>
    ensures { IfOk result (λ t. unary_term op (term_in operand) ≡ term_in t) }
{
    match op {
        UnaryOp::Not => not_term(alloc, loc, operand),
        UnaryOp::Neg => refused(loc, Reason::Arithmetic),
        UnaryOp::IsEmpty => refused(loc, Reason::Set),
    }
}

/// An operator on two parts. The right side of `in` may be a set of entities, and the left one of `contains` a set of texts.
pub(crate) fn operator_term(
    alloc: Global,
    loc: Option<Loc>,
    op: BinaryOp,
    left: &Typed,
    right: &Typed,
    sides: (Compiled, Compiled),
) -> Result<Compiled, AllocError>
    ensures { IfOk result (λ t.
        operator_term op (typed_tree left.now) (typed_tree right.now)
        (term_in sides.0) (term_in sides.1) ≡ term_in t) }
{
    match op {
        BinaryOp::In => in_operand(alloc, loc, right, sides),
        BinaryOp::Contains => {
            let (set, member) = sides;
            contains_term(alloc, loc, left, set, member)
        }
        BinaryOp::Eq | BinaryOp::Less | BinaryOp::LessEq => binary_term(alloc, loc, op, sides),
        BinaryOp::Add | BinaryOp::Sub | BinaryOp::Mul => binary_term(alloc, loc, op, sides),
        BinaryOp::ContainsAll | BinaryOp::ContainsAny => binary_term(alloc, loc, op, sides),
        BinaryOp::GetTag | BinaryOp::HasTag => binary_term(alloc, loc, op, sides),
    }
}

fn in_operand(
    alloc: Global,
    loc: Option<Loc>,
    right: &Typed,
    sides: (Compiled, Compiled),
) -> Result<Compiled, AllocError>
    ensures { IfOk result (λ t.
        in_operand (typed_tree right.now) (term_in sides.0) (term_in sides.1) ≡ term_in t) }
{
    match &right.kind {
        ExprKind::Set(members) => {
            // a set has no clause of its own, so the right side as a whole is not looked at
            let (left, _) = sides;
            in_any(alloc, loc, left, entity_literals(alloc, members)?)
        }
        _ => binary_term(alloc, loc, BinaryOp::In, sides),
    }
}

fn binary_term(
    alloc: Global,
    loc: Option<Loc>,
    op: BinaryOp,
    sides: (Compiled, Compiled),
) -> Result<Compiled, AllocError>
    ensures { IfOk result (λ t. binary_term op (term_in sides.0) (term_in sides.1) ≡ term_in t) }
{
    let (left, right) = sides;
    match left {
        Err(refusal) => Ok(Err(refusal)),
        Ok(left) => match right {
            Err(refusal) => Ok(Err(refusal)),
            Ok(right) => binary_of_terms(alloc, loc, op, left, right),
        },
    }
}

fn binary_of_terms(
    alloc: Global,
    loc: Option<Loc>,
    op: BinaryOp,
    left: Term,
    right: Term,
) -> Result<Compiled, AllocError>
    ensures { IfOk result (λ t. binary_of_terms op (term_of left) (term_of right) ≡ term_in t) }
{
    match op {
        BinaryOp::Eq => equality(alloc, left, right),
        BinaryOp::Less => less(alloc, loc, left, right),
        BinaryOp::LessEq => less_or_equal(alloc, loc, left, right),
        BinaryOp::In => in_term(alloc, loc, left, right),
        BinaryOp::Add | BinaryOp::Sub | BinaryOp::Mul => refused(loc, Reason::Arithmetic),
        BinaryOp::Contains | BinaryOp::ContainsAll | BinaryOp::ContainsAny => {
            refused(loc, Reason::Set)
        }
        BinaryOp::GetTag | BinaryOp::HasTag => refused(loc, Reason::Tag),
    }
}
