// Parts of policies, as tests show them.
use cedar_types::base::{BinaryOp, EntityReference, PrincipalOrResourceConstraint, Var};
use std::alloc::AllocError;

/// Adds the constraint of a scope on its principal or resource; it adds nothing if there is no
/// constraint.
pub fn push_constraint(
    out: &mut String,
    constraint: &PrincipalOrResourceConstraint,
) -> Result<(), AllocError> {
    match constraint {
        PrincipalOrResourceConstraint::Any => Ok(()),
        PrincipalOrResourceConstraint::Eq(reference) => push_reference(out, "==", reference),
        PrincipalOrResourceConstraint::In(reference) => push_reference(out, "in", reference),
        PrincipalOrResourceConstraint::Is(name) => write!(out, " is {name}"),
        PrincipalOrResourceConstraint::IsIn(name, reference) => {
            write!(out, " is {name}")?;
            push_reference(out, "in", reference)
        }
    }
}

fn push_reference(
    out: &mut String,
    word: &str,
    reference: &EntityReference,
) -> Result<(), AllocError> {
    match reference {
        EntityReference::EUID(uid) => write!(out, " {word} {uid}"),
        EntityReference::Slot => write!(out, " {word} ?"),
    }
}

/// The text of a variable in a policy.
pub fn variable_name(variable: Var) -> &'static str {
    match variable {
        Var::Principal => "principal",
        Var::Action => "action",
        Var::Resource => "resource",
        Var::Context => "context",
    }
}

/// The text of an operator on two operands in a policy.
pub fn binary_name(operator: BinaryOp) -> &'static str {
    match operator {
        BinaryOp::Eq => "==",
        BinaryOp::Less => "<",
        BinaryOp::LessEq => "<=",
        BinaryOp::Add => "+",
        BinaryOp::Sub => "-",
        BinaryOp::Mul => "*",
        BinaryOp::In => "in",
        BinaryOp::Contains => "contains",
        BinaryOp::ContainsAll => "containsAll",
        BinaryOp::ContainsAny => "containsAny",
        BinaryOp::GetTag => "getTag",
        BinaryOp::HasTag => "hasTag",
    }
}
