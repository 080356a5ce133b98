// Compilation of a part of a condition to an expression of SQL.
ghost use Rattle.std.specs.Prelude.{◌≡◌, IfOk};
ghost use Rattle.cedar_typing.specs.TypedExpr.{typed_tree};
ghost use Rattle.cedar_where.specs.Compiled.{compiled};
ghost use Rattle.cedar_where.specs.Views.{scope_of, term_in};

use crate::columns::{attribute_term, has_term};
use crate::connectives::{and_term, if_term, or_term};
use crate::leaves::{entity_term, text_term, variable_term};
use crate::operators::{operator_term, unary_term};
use crate::refusals::Reason;
use crate::scopes::{Scope, Typed};
use crate::sql::SqlExpr;
use crate::terms::{Compiled, Kind, made, refused};
use crate::type_tests::{is_term, like_term};
use cedar_types::base::{ExprKind, Literal};
use std::alloc::{AllocError, Global};

/// The expression of SQL for a part of a condition, with its kind.
pub(crate) fn compile(alloc: Global, scope: &Scope<'_>, e: &Typed) -> Result<Compiled, AllocError>
    ensures { IfOk result (λ t. compiled (scope_of scope.now) (typed_tree e.now) ≡ term_in t) }
{
    match &e.kind {
        ExprKind::Lit(Literal::Bool(b)) => made(alloc, SqlExpr::Truth(*b), Kind::Bool, true),
        ExprKind::Lit(Literal::Long(n)) => made(alloc, SqlExpr::Number(*n), Kind::Long, true),
        ExprKind::Lit(Literal::String(text)) => text_term(alloc, e.loc, text, Kind::Text),
        ExprKind::Lit(Literal::EntityUID(uid)) => entity_term(alloc, e.loc, uid),
        ExprKind::Var(variable) => variable_term(alloc, scope, e.loc, *variable),
        ExprKind::Slot(_) => refused(e.loc, Reason::Slot),
        ExprKind::Unknown(_) => refused(e.loc, Reason::Unknown),
        ExprKind::If {
            test_expr,
            then_expr,
            else_expr,
        } => if_term(
            alloc,
            e.loc,
            compile(alloc, scope, test_expr)?,
            compile(alloc, scope, then_expr)?,
            compile(alloc, scope, else_expr)?,
        ),
        ExprKind::And(left, right) => and_term(
            alloc,
            e.loc,
            compile(alloc, scope, left)?,
            compile(alloc, scope, right)?,
        ),
        ExprKind::Or(left, right) => or_term(
            alloc,
            e.loc,
            compile(alloc, scope, left)?,
            compile(alloc, scope, right)?,
        ),
        ExprKind::UnaryApp(op, operand) => {
            unary_term(alloc, e.loc, *op, compile(alloc, scope, operand)?)
        }
        ExprKind::BinaryApp(op, left, right) => {
            let sides = (compile(alloc, scope, left)?, compile(alloc, scope, right)?);
            operator_term(alloc, e.loc, *op, left, right, sides)
        }
        ExprKind::ExtensionFunctionApp(_, _) => refused(e.loc, Reason::ExtensionFunction),
        ExprKind::GetAttr(base, name) => attribute_term(alloc, scope, e.loc, base, name),
        ExprKind::HasAttr(base, name) => has_term(alloc, scope, e.loc, base, name, &[]),
        ExprKind::ExtHasAttr(base, names) => has_term(
            alloc,
            scope,
            e.loc,
            base,
            &names.first,
            &names.rest,
        ),
        ExprKind::Like(operand, pattern) => {
            like_term(alloc, e.loc, compile(alloc, scope, operand)?, pattern)
        }
        ExprKind::Is(operand, entity_type) => {
            is_term(alloc, e.loc, compile(alloc, scope, operand)?, entity_type)
        }
        ExprKind::Set(_) => refused(e.loc, Reason::Set),
        ExprKind::Record(_) => refused(e.loc, Reason::Record),
    }
}
