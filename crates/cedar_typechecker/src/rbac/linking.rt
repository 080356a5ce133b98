// The scope of a linked policy, with the bound entities in place of its slots.
ghost use Rattle.std.specs.Prelude.{◌≡◌, IfOk, option_map};
ghost use Rattle.cedar_types.specs.Names.{placed_uid};
ghost use Rattle.cedar_types.specs.Environments.RequestEnvs.{bound_to};
ghost use Rattle.cedar_types.specs.Templates.{reference_of, scope_of};
ghost use Rattle.cedar_typechecker.specs.Applications.{bound_reference, bound_scope};

use cedar_types::base::{
    EntityReference, EntityUID, PrincipalOrResourceConstraint, SlotEnv, SlotId,
};
use std::alloc::AllocError;

/// The entity to which a slot is bound, if it is bound.
pub(crate) fn bound_to(slots: &SlotEnv, slot: SlotId) -> Option<&EntityUID>
    ensures { option_map (λ u. placed_uid u.now) result
        ≡ option_map placed_uid (bound_to slot slots.now.entries) }
{
    slots.get(&slot)
}

/// The constraint with this entity in place of its slot. Without an entity the slot stays.
pub(crate) fn bound_constraint(
    constraint: &PrincipalOrResourceConstraint,
    bound: Option<&EntityUID>,
) -> Result<PrincipalOrResourceConstraint, AllocError>
    ensures { IfOk result (λ c.
        scope_of c
        ≡ bound_scope (option_map (λ u. placed_uid u.now) bound.entry) (scope_of constraint.now)) }
{
    match constraint {
        PrincipalOrResourceConstraint::Any => Ok(PrincipalOrResourceConstraint::Any),
        PrincipalOrResourceConstraint::Eq(r) => {
            let r = bound_reference(r, bound)?;
            Ok(PrincipalOrResourceConstraint::Eq(r))
        }
        PrincipalOrResourceConstraint::In(r) => {
            let r = bound_reference(r, bound)?;
            Ok(PrincipalOrResourceConstraint::In(r))
        }
        PrincipalOrResourceConstraint::Is(t) => Ok(PrincipalOrResourceConstraint::Is(t.clone()?)),
        PrincipalOrResourceConstraint::IsIn(t, r) => {
            let t = t.clone()?;
            let r = bound_reference(r, bound)?;
            Ok(PrincipalOrResourceConstraint::IsIn(t, r))
        }
    }
}

fn bound_reference(
    reference: &EntityReference,
    bound: Option<&EntityUID>,
) -> Result<EntityReference, AllocError>
    ensures { IfOk result (λ r.
        reference_of r
        ≡ bound_reference (option_map (λ u. placed_uid u.now) bound.entry)
        (reference_of reference.now)) }
{
    match (reference, bound) {
        (EntityReference::Slot, Some(uid)) => Ok(EntityReference::EUID(uid.clone()?)),
        (EntityReference::Slot, None) => Ok(EntityReference::Slot),
        (EntityReference::EUID(uid), _) => Ok(EntityReference::EUID(uid.clone()?)),
    }
}
