// Makers of expressions.
use crate::calls::lines::{Probe, Trial};
use crate::outcomes::{Outcome, finish};
use crate::refusals::refuse;
use crate::samples::texts::{entity_type, expression};
use cedar_types::base::{AttrChain, BinaryOp, Expr, PatternElem, UnaryOp};
use std::alloc::{AllocError, Global};

/// Makers of an expression of two others.
#[derive(Clone, Copy)]
pub enum OfTwo {
    And,
    Or,
    Operator(BinaryOp),
    /// The maker that has the name of this operator.
    Maker(BinaryOp),
}

impl Probe for OfTwo {
    fn run(self, alloc: Global, trial: Trial<'_>) -> Result<Outcome, AllocError> {
        let (left, right) = (
            expression(alloc, trial.text)?,
            expression(alloc, trial.text)?,
        );
        refuse(alloc, trial.number);
        let made = match self {
            OfTwo::And => Expr::and(alloc, left, right),
            OfTwo::Or => Expr::or(alloc, left, right),
            OfTwo::Operator(operator) => Expr::binary_app(alloc, operator, left, right),
            OfTwo::Maker(BinaryOp::Eq) => Expr::is_eq(alloc, left, right),
            OfTwo::Maker(BinaryOp::Less) => Expr::less(alloc, left, right),
            OfTwo::Maker(BinaryOp::LessEq) => Expr::lesseq(alloc, left, right),
            OfTwo::Maker(BinaryOp::Add) => Expr::add(alloc, left, right),
            OfTwo::Maker(BinaryOp::Sub) => Expr::sub(alloc, left, right),
            OfTwo::Maker(BinaryOp::Mul) => Expr::mul(alloc, left, right),
            OfTwo::Maker(BinaryOp::In) => Expr::is_in(alloc, left, right),
            OfTwo::Maker(BinaryOp::Contains) => Expr::contains(alloc, left, right),
            OfTwo::Maker(BinaryOp::ContainsAll) => Expr::contains_all(alloc, left, right),
            OfTwo::Maker(BinaryOp::ContainsAny) => Expr::contains_any(alloc, left, right),
            OfTwo::Maker(BinaryOp::GetTag) => Expr::get_tag(alloc, left, right),
            OfTwo::Maker(BinaryOp::HasTag) => Expr::has_tag(alloc, left, right),
        };
        finish(alloc, made, &())
    }
}

/// Makers of an expression of one other.
#[derive(Clone, Copy)]
pub enum OfOne {
    Not,
    Neg,
    IsEmpty,
    Operator(UnaryOp),
    GetAttr,
    HasAttr,
}

impl Probe for OfOne {
    fn run(self, alloc: Global, trial: Trial<'_>) -> Result<Outcome, AllocError> {
        let operand = expression(alloc, trial.text)?;
        refuse(alloc, trial.number);
        let made = match self {
            OfOne::Not => Expr::not(alloc, operand),
            OfOne::Neg => Expr::neg(alloc, operand),
            OfOne::IsEmpty => Expr::is_empty(alloc, operand),
            OfOne::Operator(operator) => Expr::unary_app(alloc, operator, operand),
            OfOne::GetAttr => Expr::get_attr(alloc, operand, "vip"),
            OfOne::HasAttr => Expr::has_attr(alloc, operand, "vip"),
        };
        finish(alloc, made, &())
    }
}

/// Makers of an expression of one other and of further parts.
#[derive(Clone, Copy)]
pub enum OfMore {
    If,
    ExtendedHas,
    Like,
    Is,
}

impl Probe for OfMore {
    fn run(self, alloc: Global, trial: Trial<'_>) -> Result<Outcome, AllocError> {
        let operand = expression(alloc, trial.text)?;
        let (chosen, other) = (
            expression(alloc, trial.text)?,
            expression(alloc, trial.text)?,
        );
        let chain = AttrChain::new(alloc, "owner", &["vip"])?;
        let pattern = vec![in alloc; PatternElem::Char('a'), PatternElem::Wildcard]?;
        let named = entity_type(alloc, "User")?;
        refuse(alloc, trial.number);
        let made = match self {
            OfMore::If => Expr::ite(alloc, operand, chosen, other),
            OfMore::ExtendedHas => Expr::extended_has_attr(alloc, operand, chain),
            OfMore::Like => Expr::like(alloc, operand, pattern),
            OfMore::Is => Expr::is_entity_type(alloc, operand, named),
        };
        finish(alloc, made, &())
    }
}

/// Makers of an expression of two others.
pub const TWO_OPERANDS: [(OfTwo, &str); 15] = [
    (OfTwo::And, "Expr::and | And | true"),
    (OfTwo::Or, "Expr::or | Or | true"),
    (OfTwo::Operator(BinaryOp::Eq), "Expr::binary_app | Eq | 1"),
    (OfTwo::Maker(BinaryOp::Eq), "Expr::is_eq | Eq | 1"),
    (OfTwo::Maker(BinaryOp::Less), "Expr::less | Less | 1"),
    (OfTwo::Maker(BinaryOp::LessEq), "Expr::lesseq | LessEq | 1"),
    (OfTwo::Maker(BinaryOp::Add), "Expr::add | Add | 1"),
    (OfTwo::Maker(BinaryOp::Sub), "Expr::sub | Sub | 1"),
    (OfTwo::Maker(BinaryOp::Mul), "Expr::mul | Mul | 1"),
    (OfTwo::Maker(BinaryOp::In), "Expr::is_in | In | principal"),
    (
        OfTwo::Maker(BinaryOp::Contains),
        "Expr::contains | Contains | [1]",
    ),
    (
        OfTwo::Maker(BinaryOp::ContainsAll),
        "Expr::contains_all | ContainsAll | [1]",
    ),
    (
        OfTwo::Maker(BinaryOp::ContainsAny),
        "Expr::contains_any | ContainsAny | [1]",
    ),
    (
        OfTwo::Maker(BinaryOp::GetTag),
        "Expr::get_tag | GetTag | principal",
    ),
    (
        OfTwo::Maker(BinaryOp::HasTag),
        "Expr::has_tag | HasTag | principal",
    ),
];

/// Makers of an expression of one other.
pub const ONE_OPERAND: [(OfOne, &str); 6] = [
    (
        OfOne::Operator(UnaryOp::Not),
        "Expr::unary_app | Not | true",
    ),
    (OfOne::Not, "Expr::not | Not | true"),
    (OfOne::Neg, "Expr::neg | Neg | 1"),
    (OfOne::IsEmpty, "Expr::is_empty | IsEmpty | [1]"),
    (OfOne::GetAttr, "Expr::get_attr | GetAttr | principal"),
    (OfOne::HasAttr, "Expr::has_attr | HasAttr | principal"),
];

/// Makers of an expression of one other and of further parts.
pub const MORE: [(OfMore, &str); 4] = [
    (OfMore::If, "Expr::ite | If | true"),
    (
        OfMore::ExtendedHas,
        "Expr::extended_has_attr | ExtHasAttr | principal",
    ),
    (OfMore::Like, "Expr::like | Like | principal"),
    (OfMore::Is, "Expr::is_entity_type | Is | principal"),
];
