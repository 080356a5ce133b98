// The rule of `==`, and the type of a set's members, which `contains` compares.
ghost use Rattle.std.specs.Prelude.{◌≡◌, IfOk, option_map};
ghost use Rattle.cedar_types.specs.Types.{ty_of};
ghost use Rattle.cedar_types.specs.Expressions.View.{lit_of, written};
ghost use Rattle.cedar_types.specs.Expressions.TreeEq.{lit_eq};
ghost use Rattle.cedar_typing.specs.Rules.Equality.{action_literal, literal_of, compared_literals, are_apart, equality_type, compared, member_type};
ghost use Rattle.cedar_typing.specs.Views.{env_at, decision_of};

use crate::typecheck::rules::eager::{Decision, gives, gives_unless};
use crate::typecheck::type_env::TypeEnv;
use crate::typecheck::type_tests::{any_bool, is_any_bool_type};
use cedar_types::base::{
    BoolType, CedarType, EntityUID, Expr, ExprKind, Literal, Loc, LubContext, Var,
};
use std::alloc::AllocError;

impl TypeEnv<'_, '_, '_, '_> {
    /// The decision on `left == right` by the types of both sides.
    pub(crate) fn decide_equality<'a>(
        &self,
        loc: Option<Loc>,
        left: &Expr,
        right: &Expr,
        left_type: Option<&CedarType>,
        right_type: Option<&CedarType>,
    ) -> Result<Decision<'a>, AllocError>
        ensures { IfOk result (λ d. decision_of d
            ≡ compared (env_at self.now) loc (written left.now) (written right.now)
            (option_map (λ t. ty_of t.now) left_type.entry)
            (option_map (λ t. ty_of t.now) right_type.entry)) }
    {
        let one = self.literal_of(left)?;
        let other = self.literal_of(right)?;
        let ty = equality_type(&one, &other, left_type, right_type);
        // a decided comparison needs no bound: `1 == "a"` is false, and no mistake, in Strict too
        if !is_any_bool_type(&ty) {
            return Ok(gives(self.alloc, ty));
        }
        // Strict takes a comparison of types without a bound for a mistake
        let errors = self.strict_errors(loc, LubContext::Equality, left_type, right_type)?;
        Ok(gives_unless(self.alloc, errors, ty))
    }

    /// The literal that an expression stands for, if any. The variable `action` counts as the
    /// environment's action.
    pub(crate) fn literal_of(&self, e: &Expr) -> Result<Option<Literal>, AllocError>
        ensures { IfOk result (λ o.
            option_map lit_of o
            ≡ literal_of (env_at self.now).request_env (written e.now)) }
    {
        match &e.kind {
            ExprKind::Lit(literal) => Ok(Some(literal.clone()?)),
            // an environment has one action, so the variable is as good as its literal
            ExprKind::Var(Var::Action) => self.action_literal(),
            ExprKind::Var(Var::Principal | Var::Resource | Var::Context) => Ok(None),
            ExprKind::Slot(_) | ExprKind::Unknown(_) | ExprKind::If { .. } => Ok(None),
            ExprKind::And(_, _) | ExprKind::Or(_, _) | ExprKind::UnaryApp(_, _) => Ok(None),
            ExprKind::BinaryApp(_, _, _) | ExprKind::ExtensionFunctionApp(_, _) => Ok(None),
            ExprKind::GetAttr(_, _) | ExprKind::HasAttr(_, _) => Ok(None),
            ExprKind::ExtHasAttr(_, _) | ExprKind::Like(_, _) | ExprKind::Is(_, _) => Ok(None),
            ExprKind::Set(_) | ExprKind::Record(_) => Ok(None),
        }
    }

    /// The environment's action as a literal; `None` in the environment of undeclared actions.
    fn action_literal(&self) -> Result<Option<Literal>, AllocError>
        ensures { IfOk result (λ o.
            option_map lit_of o ≡ action_literal (env_at self.now).request_env) }
    {
        match self.request_env.action_entity_uid() {
            Some(action) => Ok(Some(Literal::EntityUID(EntityUID::clone(action)?))),
            None => Ok(None),
        }
    }
}

/// The type of `==` before Strict asks for a bound: False for disjoint types, else the result of
/// comparing literals, else Bool.
fn equality_type(
    one: &Option<Literal>,
    other: &Option<Literal>,
    left: Option<&CedarType>,
    right: Option<&CedarType>,
) -> CedarType
    ensures { ty_of result
        ≡ equality_type (option_map lit_of one.now) (option_map lit_of other.now)
        (option_map (λ t. ty_of t.now) left.entry) (option_map (λ t. ty_of t.now) right.entry) }
{
    // entities of disjoint types are never equal, whatever they are
    if are_apart(left, right) {
        return CedarType::Bool(BoolType::False);
    }
    compared_literals(one, other)
}

/// The type of `==` by comparing literals: Bool if a side is not a literal.
fn compared_literals(one: &Option<Literal>, other: &Option<Literal>) -> CedarType
    ensures { ty_of result
        ≡ compared_literals (option_map lit_of one.now) (option_map lit_of other.now) }
{
    // the value of any other expression is not known before there is a request
    let Some(one) = one else {
        return any_bool();
    };
    let Some(other) = other else {
        return any_bool();
    };
    if is_same_literal(one, other) {
        CedarType::Bool(BoolType::True)
    } else {
        CedarType::Bool(BoolType::False)
    }
}

/// Whether both sides have types, and these are disjoint.
fn are_apart(left: Option<&CedarType>, right: Option<&CedarType>) -> bool
    ensures { result
        ≡ are_apart (option_map (λ t. ty_of t.now) left.entry)
        (option_map (λ t. ty_of t.now) right.entry) }
{
    let Some(left) = left else {
        return false;
    };
    let Some(right) = right else {
        return false;
    };
    CedarType::are_types_disjoint(left, right)
}

fn is_same_literal(one: &Literal, other: &Literal) -> bool
    ensures { result ≡ lit_eq (lit_of one.now) (lit_of other.now) }
{
    *one == *other
}

/// The type of a set's members, if the type names one: a set of anything and Never do not.
pub(crate) fn member_type(ty: &Option<CedarType>) -> Option<&CedarType>
    ensures { option_map (λ t. ty_of t.now) result ≡ member_type (option_map ty_of ty.now) }
{
    match ty {
        Some(CedarType::Set(element)) => Some(element),
        Some(CedarType::Never | CedarType::Bool(_) | CedarType::Long | CedarType::String) => None,
        Some(CedarType::AnySet | CedarType::Extension(_)) => None,
        Some(CedarType::Record { .. } | CedarType::Entity(_)) => None,
        None => None,
    }
}
