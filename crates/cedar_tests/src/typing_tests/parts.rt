// Typed expressions, sets of capabilities and answers, written short.
use cedar_types::base::{CedarType, Expr, ExprKind, Literal, Var};
use cedar_types::types::capability::{Capability, CapabilitySet};
use cedar_typing::typecheck::answer::TypecheckAnswer;
use std::alloc::{AllocError, Global};
use std::rc::RcStr;

/// A literal number with this type.
pub fn number(
    alloc: Global,
    value: i64,
    annotation: Option<CedarType>,
) -> Result<Box<Expr<Option<CedarType>>>, AllocError> {
    let kind = ExprKind::Lit(Literal::Long(value));
    let typed = Expr {
        annotation,
        loc: None,
        kind,
    };
    Ok(Box::new(alloc, typed)?)
}

/// A literal number, typed as a long.
pub fn long(alloc: Global, value: i64) -> Result<Box<Expr<Option<CedarType>>>, AllocError> {
    number(alloc, value, Some(CedarType::Long))
}

/// Whether an expression is this literal number, typed as a long.
pub fn is_long(expr: &Expr<Option<CedarType>>, value: i64) -> bool {
    let is_typed = matches!(&expr.annotation, Some(CedarType::Long));
    matches!(&expr.kind, ExprKind::Lit(Literal::Long(found)) if is_typed && *found == value)
}

/// The set of only the capability that the principal has the attribute `attr`.
pub fn knowing<'a>(alloc: Global, attr: &str) -> Result<CapabilitySet<'a>, AllocError> {
    let attr = RcStr::from_str(alloc, attr)?;
    let principal = Expr::var(Var::Principal);
    CapabilitySet::singleton(alloc, Capability::new_attribute_owned(principal, attr))
}

/// Whether a set has the capability that the principal has the attribute `attr`.
pub fn knows(alloc: Global, set: &CapabilitySet<'_>, attr: &str) -> Result<bool, AllocError> {
    let attr = RcStr::from_str(alloc, attr)?;
    let principal = Expr::var(Var::Principal);
    Ok(set.contains(&Capability::new_attribute_owned(principal, attr)))
}

pub fn is_failure(answer: &TypecheckAnswer<'_>) -> bool {
    matches!(answer, TypecheckAnswer::TypecheckFail { .. })
}

pub fn is_limit(answer: &TypecheckAnswer<'_>) -> bool {
    matches!(answer, TypecheckAnswer::RecursionLimit)
}
