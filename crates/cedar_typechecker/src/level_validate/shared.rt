// The one branch of an `if` whose test decides.
ghost use Rattle.std.specs.Prelude.{◌≡◌, option_map};
ghost use Rattle.cedar_typing.specs.TypedExpr.{typed_tree};
ghost use Rattle.cedar_typechecker.specs.Levels.Shared.{BranchesAreShared, constant_branches};

use crate::level_validate::bases::is_constant;
use cedar_types::base::{CedarType, Expr, ExprKind};

/// The one branch of an `if` whose test has the type True or False; `None` for any other expression.
///
/// Typing puts the branch that such a test leaves in the place of both, and shares it. You should walk it once when you walk a
/// typed condition, because 64 nested ones stand for 2^64 copies. In a tree that typing made, both branches are this one (clause
/// `both`; the law `laws::one_branch_is_enough` tells which trees these are). It takes no memory.
///
/// This call is for compilers and other callers. The level walks do without it: they have the test apart already, and go down
/// into it.
pub fn only_branch(e: &Expr<Option<CedarType>>) -> Option<&Expr<Option<CedarType>>>
    ensures branch { option_map (λ b. typed_tree b.now) result
        ≡ option_map (λ p. p.0) (constant_branches (typed_tree e.now)) }
    ensures both { BranchesAreShared (typed_tree e.now)
        → option_map (λ b. (typed_tree b.now, typed_tree b.now)) result
        ≡ constant_branches (typed_tree e.now) }
{
    match &e.kind {
        ExprKind::If {
            test_expr,
            then_expr,
            else_expr: _else_expr,
        } => {
            if is_constant(test_expr) {
                Some(then_expr)
            } else {
                None
            }
        }
        ExprKind::Lit(_) => None,
        ExprKind::Var(_) => None,
        ExprKind::Slot(_) => None,
        ExprKind::Unknown(_) => None,
        ExprKind::And(_, _) => None,
        ExprKind::Or(_, _) => None,
        ExprKind::UnaryApp(_, _) => None,
        ExprKind::BinaryApp(_, _, _) => None,
        ExprKind::ExtensionFunctionApp(_, _) => None,
        ExprKind::GetAttr(_, _) => None,
        ExprKind::HasAttr(_, _) => None,
        ExprKind::ExtHasAttr(_, _) => None,
        ExprKind::Like(_, _) => None,
        ExprKind::Is(_, _) => None,
        ExprKind::Set(_) => None,
        ExprKind::Record(_) => None,
    }
}
