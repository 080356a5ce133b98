// Policies: the premises of the promises on a policy and on its links.
ghost use Rattle.std.specs.Prelude.{◌≡◌, ◌↔◌, IfOk, IsOk, option_map, is_some};
ghost use Rattle.cedar_types.specs.Expressions.View.{written};
ghost use Rattle.cedar_types.specs.Templates.{template_of};
ghost use Rattle.cedar_typing.specs.Silence.{is_unknown};
ghost use Rattle.cedar_typing.specs.Soundness.Policies.{IsWellFormed};
ghost use Rattle.cedar_conformance.specs.Answers.{fault_in};
ghost use Rattle.cedar_conformance.specs.PolicyTests.{slots_of, rest_has_unknown, mentions_any_slot, rest_mentions_slot, slot_fits, unbound_slot, policy_fault};

use crate::answers::{Checked, Found, answer};
use cedar_types::base::{Expr, ExprKind, SlotEnv, SlotId, Template};
use std::alloc::{AllocError, Global};
use std::fmt;

/// The reason why a policy with these links is not well-formed: the first that applies.
#[derive(Clone, Copy, Debug, PartialEq, Eq)]
pub enum PolicyFault {
    /// The condition has an unknown.
    Unknown,
    /// A slot stands outside the scope.
    SlotOutsideScope,
    /// This slot occurs, but is not bound.
    UnboundSlot(SlotId),
}

impl fmt::Display for PolicyFault {
    fn fmt<W: fmt::Write>(&self, f: &mut fmt::Formatter<W>) -> fmt::Result {
        match self {
            PolicyFault::Unknown => write!(f, "the condition has an unknown"),
            PolicyFault::SlotOutsideScope => write!(f, "a slot stands outside the scope"),
            PolicyFault::UnboundSlot(SlotId::Principal) => write!(f, "?principal is not bound"),
            PolicyFault::UnboundSlot(SlotId::Resource) => write!(f, "?resource is not bound"),
        }
    }
}

/// Checks that a policy is well-formed: it has no unknowns, its slots stand in the scope alone, and
/// each slot that occurs is bound. Otherwise the answer is the first fault, in the order of
/// `PolicyFault`. If memory is refused, the answer is an `AllocError`.
pub fn check_policy(alloc: Global, template: &Template, values: &SlotEnv) -> Checked<PolicyFault>
    ensures exact { IfOk result (λ r.
        IsOk r ↔ IsWellFormed (template_of template.now) (slots_of values.now)) }
    ensures fault { IfOk result (λ r.
        fault_in r ≡ policy_fault (template_of template.now) (slots_of values.now)) }
{
    let found = find_in_policy(alloc, template, values)?;
    Ok(answer(found))
}

fn find_in_policy(alloc: Global, template: &Template, values: &SlotEnv) -> Found<PolicyFault>
    ensures { IfOk result (λ o.
        o ≡ policy_fault (template_of template.now) (slots_of values.now)) }
{
    if rest_has_unknown(alloc, &template.non_scope_constraints)? {
        return Ok(Some(PolicyFault::Unknown));
    }
    if rest_mentions_slot(alloc, &template.non_scope_constraints)? {
        return Ok(Some(PolicyFault::SlotOutsideScope));
    }
    match find_unbound(alloc, template, values)? {
        Some(slot) => Ok(Some(PolicyFault::UnboundSlot(slot))),
        None => Ok(None),
    }
}

/// Returns the first slot that occurs in the template but is not bound.
fn find_unbound(alloc: Global, template: &Template, values: &SlotEnv) -> Found<SlotId>
    ensures { IfOk result (λ o.
        o ≡ unbound_slot (template_of template.now) (slots_of values.now)) }
{
    if !slot_fits(alloc, template, values, SlotId::Principal)? {
        return Ok(Some(SlotId::Principal));
    }
    if !slot_fits(alloc, template, values, SlotId::Resource)? {
        return Ok(Some(SlotId::Resource));
    }
    Ok(None)
}

fn slot_fits(
    alloc: Global,
    template: &Template,
    values: &SlotEnv,
    slot: SlotId,
) -> Result<bool, AllocError>
    ensures { IfOk result (λ b.
        b ≡ slot_fits slot (template_of template.now) (slots_of values.now)) }
{
    let occurs = template.mentions_slot(alloc, slot)?;
    Ok(!occurs || is_bound(values, slot))
}

fn is_bound(values: &SlotEnv, slot: SlotId) -> bool
    ensures { result ≡ is_some (slots_of values.now slot) }
{
    values.contains_key(&slot)
}

/// Returns whether a part of the conditions, at any depth, is an unknown. It does not recurse.
fn rest_has_unknown(alloc: Global, rest: &Option<Expr>) -> Result<bool, AllocError>
    ensures { IfOk result (λ b. b ≡ rest_has_unknown (option_map written rest.now)) }
{
    let Some(rest) = rest else {
        return Ok(false);
    };
    for part in rest.subexpressions(alloc)? {
        if is_unknown(part?) {
            return Ok(true);
        }
    }
    Ok(false)
}

/// Returns whether the expression itself is an unknown.
fn is_unknown(expr: &Expr) -> bool
    ensures { result ≡ is_unknown (written expr.now) }
{
    match &expr.kind {
        ExprKind::Unknown(_) => true,
        _ => false,
    }
}

/// Returns whether a slot occurs in the conditions. It does not recurse.
fn rest_mentions_slot(alloc: Global, rest: &Option<Expr>) -> Result<bool, AllocError>
    ensures { IfOk result (λ b. b ≡ rest_mentions_slot (option_map written rest.now)) }
{
    match rest {
        Some(rest) => mentions_any_slot(alloc, rest),
        None => Ok(false),
    }
}

fn mentions_any_slot(alloc: Global, expr: &Expr) -> Result<bool, AllocError>
    ensures { IfOk result (λ b. b ≡ mentions_any_slot (written expr.now)) }
{
    let has_principal = expr.mentions_slot(alloc, SlotId::Principal)?;
    if has_principal {
        return Ok(true);
    }
    expr.mentions_slot(alloc, SlotId::Resource)
}
