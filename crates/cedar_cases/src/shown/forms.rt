// Names of the forms of expressions.
use cedar_fixtures::shown::binary_name;
use cedar_types::base::{ExprKind, UnaryOp};

/// The name of a form, as a condition writes it.
pub fn form_name<T>(kind: &ExprKind<T>) -> &'static str {
    match kind {
        ExprKind::Lit(_) => "literal",
        ExprKind::Var(_) => "variable",
        ExprKind::Slot(_) => "slot",
        ExprKind::Unknown(_) => "unknown",
        ExprKind::If { .. } => "if",
        ExprKind::And(_, _) => "&&",
        ExprKind::Or(_, _) => "||",
        ExprKind::UnaryApp(operator, _) => unary_name(*operator),
        ExprKind::BinaryApp(operator, _, _) => binary_name(*operator),
        ExprKind::ExtensionFunctionApp(_, _) => "call",
        ExprKind::GetAttr(_, _) => ".",
        ExprKind::HasAttr(_, _) => "has",
        ExprKind::ExtHasAttr(_, _) => "extended has",
        ExprKind::Like(_, _) => "like",
        ExprKind::Is(_, _) => "is",
        ExprKind::Set(_) => "[]",
        ExprKind::Record(_) => "{}",
    }
}

/// The text of an operator on one operand.
pub fn unary_name(operator: UnaryOp) -> &'static str {
    match operator {
        UnaryOp::Not => "!",
        UnaryOp::Neg => "-",
        UnaryOp::IsEmpty => "isEmpty",
    }
}
