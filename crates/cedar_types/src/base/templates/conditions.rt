// Conditions of templates, made from their scope and their rest.
ghost use Rattle.std.specs.Prelude.{◌≡◌, IfOk, map, option_map};
ghost use Rattle.cedar_types.specs.Names.{placed_type, placed_uid};
ghost use Rattle.cedar_types.specs.Expressions.Tree.{var, and as and_tree, binary as binary_tree};
ghost use Rattle.cedar_types.specs.Expressions.View.{written, kind_written};
ghost use Rattle.cedar_types.specs.Templates.{template_of, scope_condition, condition_of, with_rest as with_rest_tree, scope_of, scope_at, action_scope_of, action_scope_at, reference_of, reference_at, typed_at, within_at, equal_at, true_at, uid_at, made};

use crate::base::expressions::literals::Literal;
use crate::base::expressions::operators::{BinaryOp, Var};
use crate::base::expressions::{Expr, ExprKind};
use crate::base::location::Loc;
use crate::base::names::entities::{EntityType, EntityUID};
use crate::base::names::slots::SlotId;
use crate::base::templates::Template;
use crate::base::templates::constraints::{
    ActionConstraint, EntityReference, PrincipalOrResourceConstraint,
};
use std::alloc::{AllocError, Global};

impl Template {
    /// The condition of the template: `((P && A) && R) && rest`, or `(P && A) && R` without a rest.
    /// Here P, A and R test the principal, the action and the resource.
    ///
    /// An absent constraint becomes the literal `true`; the others become `v == x`, `v in x`,
    /// `v is T`, `(v is T) && (v in x)` and `action in [a, b]`. These nodes have the template's
    /// place.
    pub fn condition(&self, alloc: Global) -> Result<Expr, AllocError>
        ensures { IfOk result (λ e. written e ≡ condition_of (template_of self.now)) }
    {
        let scope = self.scope_condition(alloc)?;
        with_rest(alloc, self.loc, scope, &self.non_scope_constraints)
    }

    /// The scope's part of the condition: `(P && A) && R`. The call ignores the rest.
    pub fn scope_condition(&self, alloc: Global) -> Result<Expr, AllocError>
        ensures { IfOk result (λ e. written e ≡ scope_condition (template_of self.now)) }
    {
        let loc = self.loc;
        let principal = scope_test(
            alloc,
            loc,
            Var::Principal,
            SlotId::Principal,
            &self.principal_constraint.constraint,
        )?;
        let action = action_test(alloc, loc, &self.action_constraint)?;
        let resource = scope_test(
            alloc,
            loc,
            Var::Resource,
            SlotId::Resource,
            &self.resource_constraint.constraint,
        )?;
        and(alloc, loc, and(alloc, loc, principal, action)?, resource)
    }
}

fn with_rest(
    alloc: Global,
    loc: Option<Loc>,
    scope: Expr,
    rest: &Option<Expr>,
) -> Result<Expr, AllocError>
    ensures { IfOk result (λ e.
        written e ≡ with_rest_tree loc (written scope) (option_map written rest.now)) }
{
    match rest {
        None => Ok(scope),
        Some(rest) => {
            let rest = rest.try_clone(alloc)?;
            and(alloc, loc, scope, rest)
        }
    }
}

fn scope_test(
    alloc: Global,
    loc: Option<Loc>,
    variable: Var,
    slot: SlotId,
    constraint: &PrincipalOrResourceConstraint,
) -> Result<Expr, AllocError>
    ensures { IfOk result (λ e. written e ≡ scope_at loc variable slot (scope_of constraint.now)) }
{
    match constraint {
        PrincipalOrResourceConstraint::Any => Ok(always(loc)),
        PrincipalOrResourceConstraint::Eq(r) => {
            let named = reference(loc, slot, r)?;
            relation(alloc, loc, BinaryOp::Eq, variable, named)
        }
        PrincipalOrResourceConstraint::In(r) => {
            let named = reference(loc, slot, r)?;
            relation(alloc, loc, BinaryOp::In, variable, named)
        }
        PrincipalOrResourceConstraint::Is(t) => type_test(alloc, loc, variable, t),
        PrincipalOrResourceConstraint::IsIn(t, r) => {
            let typed = type_test(alloc, loc, variable, t)?;
            let named = reference(loc, slot, r)?;
            let within = relation(alloc, loc, BinaryOp::In, variable, named)?;
            and(alloc, loc, typed, within)
        }
    }
}

fn action_test(
    alloc: Global,
    loc: Option<Loc>,
    constraint: &ActionConstraint,
) -> Result<Expr, AllocError>
    ensures { IfOk result (λ e. written e ≡ action_scope_at loc (action_scope_of constraint.now)) }
{
    match constraint {
        ActionConstraint::Any => Ok(always(loc)),
        ActionConstraint::Eq(u) => {
            let named = uid_literal(loc, u)?;
            relation(alloc, loc, BinaryOp::Eq, Var::Action, named)
        }
        ActionConstraint::In(us) => {
            let literals = uid_literals(alloc, loc, us)?;
            let named = node(loc, ExprKind::Set(literals));
            relation(alloc, loc, BinaryOp::In, Var::Action, named)
        }
    }
}

/// `v == named` or `v in named`.
fn relation(
    alloc: Global,
    loc: Option<Loc>,
    op: BinaryOp,
    variable: Var,
    named: Expr,
) -> Result<Expr, AllocError>
    ensures { IfOk result (λ e.
        written e ≡ binary_tree (made loc) op (var (made loc) variable) (written named)) }
{
    let left = Box::new(alloc, node(loc, ExprKind::Var(variable)))?;
    let right = Box::new(alloc, named)?;
    Ok(node(loc, ExprKind::BinaryApp(op, left, right)))
}

/// `v is T`.
fn type_test(
    alloc: Global,
    loc: Option<Loc>,
    variable: Var,
    entity_type: &EntityType,
) -> Result<Expr, AllocError>
    ensures { IfOk result (λ e. written e ≡ typed_at loc variable (placed_type entity_type.now)) }
{
    let operand = Box::new(alloc, node(loc, ExprKind::Var(variable)))?;
    let entity_type = entity_type.clone()?;
    Ok(node(loc, ExprKind::Is(operand, entity_type)))
}

fn reference(loc: Option<Loc>, slot: SlotId, named: &EntityReference) -> Result<Expr, AllocError>
    ensures { IfOk result (λ e. written e ≡ reference_at loc slot (reference_of named.now)) }
{
    match named {
        EntityReference::EUID(u) => uid_literal(loc, u),
        EntityReference::Slot => Ok(node(loc, ExprKind::Slot(slot))),
    }
}

fn uid_literals(
    alloc: Global,
    loc: Option<Loc>,
    uids: &Vec<EntityUID>,
) -> Result<Vec<Expr>, AllocError>
    ensures { IfOk result (λ v.
        map written v.items ≡ map (uid_at loc) (map placed_uid uids.now.items)) }
{
    let mut literals = Vec::with_capacity(alloc, uids.len())?;
    for uid in uids {
        literals.push(uid_literal(loc, uid)?)?;
    }
    Ok(literals)
}

fn uid_literal(loc: Option<Loc>, uid: &EntityUID) -> Result<Expr, AllocError>
    ensures { IfOk result (λ e. written e ≡ uid_at loc (placed_uid uid.now)) }
{
    let uid = uid.clone()?;
    Ok(node(loc, ExprKind::Lit(Literal::EntityUID(uid))))
}

/// The literal `true`.
fn always(loc: Option<Loc>) -> Expr
    ensures { written result ≡ true_at loc }
{
    node(loc, ExprKind::Lit(Literal::Bool(true)))
}

fn and(alloc: Global, loc: Option<Loc>, left: Expr, right: Expr) -> Result<Expr, AllocError>
    ensures { IfOk result (λ e. written e ≡ and_tree (made loc) (written left) (written right)) }
{
    let left = Box::new(alloc, left)?;
    let right = Box::new(alloc, right)?;
    Ok(node(loc, ExprKind::And(left, right)))
}

/// A node at the template's place.
fn node(loc: Option<Loc>, kind: ExprKind) -> Expr
    ensures { written result ≡ kind_written loc kind }
{
    Expr {
        annotation: (),
        loc,
        kind,
    }
}
