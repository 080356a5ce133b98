// Literals, which the arguments of a function with a check must be in Strict.
ghost use Rattle.std.specs.Prelude.{◌≡◌, map};
ghost use Rattle.std.specs.List.{list_all};
ghost use Rattle.cedar_types.specs.Expressions.View.{written};
ghost use Rattle.cedar_typing.specs.Rules.Calls.{is_literal};

use cedar_types::base::{Expr, ExprKind};

/// Whether each argument is a literal.
pub(crate) fn all_literals(arguments: &[Expr]) -> bool
    ensures { result ≡ list_all is_literal (map written arguments.now) }
{
    each_is_literal(arguments)
}

fn each_is_literal(arguments: &[Expr]) -> bool
    ensures { result ≡ list_all (λ e. is_literal (written e)) arguments.now }
{
    arguments.iter().all(|argument| is_literal(argument))
}

fn is_literal(e: &Expr) -> bool
    ensures { result ≡ is_literal (written e.now) }
{
    match &e.kind {
        ExprKind::Lit(_) => true,
        ExprKind::Var(_) => false,
        ExprKind::Slot(_) => false,
        ExprKind::Unknown(_) => false,
        ExprKind::If { .. } => false,
        ExprKind::And(_, _) => false,
        ExprKind::Or(_, _) => false,
        ExprKind::UnaryApp(_, _) => false,
        ExprKind::BinaryApp(_, _, _) => false,
        ExprKind::ExtensionFunctionApp(_, _) => false,
        ExprKind::GetAttr(_, _) => false,
        ExprKind::HasAttr(_, _) => false,
        ExprKind::ExtHasAttr(_, _) => false,
        ExprKind::Like(_, _) => false,
        ExprKind::Is(_, _) => false,
        ExprKind::Set(_) => false,
        ExprKind::Record(_) => false,
    }
}
