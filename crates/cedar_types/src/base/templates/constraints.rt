// Constraints of a template's scope.
ghost use Rattle.std.specs.Prelude.{◌≡◌, IfOk, map};
ghost use Rattle.cedar_types.specs.Names.{placed_uid};
ghost use Rattle.cedar_types.specs.Templates.{reference_of, scope_of, action_scope_of};

use crate::base::names::entities::{EntityType, EntityUID};
use std::alloc::{AllocError, Global};

/// The entity that a constraint names, or the slot of the variable that it constrains.
#[derive(Debug, Drop)]
pub enum EntityReference {
    /// This entity.
    EUID(EntityUID),
    /// The entity that the slot of the variable is bound to.
    Slot,
}

impl Clone for EntityReference {
    ghost is_clone = { λ r s. reference_of s ≡ reference_of r };

    fn clone(&self) -> Result<EntityReference, AllocError> {
        match self {
            EntityReference::EUID(u) => Ok(EntityReference::EUID(u.clone()?)),
            EntityReference::Slot => Ok(EntityReference::Slot),
        }
    }
}

/// A constraint on the principal or on the resource: none, `==`, `in`, `is`, or `is .. in`.
#[derive(Debug)]
pub enum PrincipalOrResourceConstraint {
    /// No constraint.
    Any,
    /// `== x`.
    Eq(EntityReference),
    /// `in x`: the entity itself, or one below it.
    In(EntityReference),
    /// `is T`.
    Is(EntityType),
    /// `is T in x`.
    IsIn(EntityType, EntityReference),
}

// `Drop` is written by hand, so that a proof has one call for each dropped constraint.
impl Drop for PrincipalOrResourceConstraint {
    fn drop(self) {
        match self {
            PrincipalOrResourceConstraint::Any => {}
            PrincipalOrResourceConstraint::Eq(_) => {}
            PrincipalOrResourceConstraint::In(_) => {}
            PrincipalOrResourceConstraint::Is(_) => {}
            PrincipalOrResourceConstraint::IsIn(_, _) => {}
        }
    }
}

impl Clone for PrincipalOrResourceConstraint {
    ghost is_clone = { λ c d. scope_of d ≡ scope_of c };

    fn clone(&self) -> Result<PrincipalOrResourceConstraint, AllocError> {
        match self {
            PrincipalOrResourceConstraint::Any => Ok(PrincipalOrResourceConstraint::Any),
            PrincipalOrResourceConstraint::Eq(r) => {
                Ok(PrincipalOrResourceConstraint::Eq(r.clone()?))
            }
            PrincipalOrResourceConstraint::In(r) => {
                Ok(PrincipalOrResourceConstraint::In(r.clone()?))
            }
            PrincipalOrResourceConstraint::Is(t) => {
                Ok(PrincipalOrResourceConstraint::Is(t.clone()?))
            }
            PrincipalOrResourceConstraint::IsIn(t, r) => {
                let t = t.clone()?;
                Ok(PrincipalOrResourceConstraint::IsIn(t, r.clone()?))
            }
        }
    }
}

/// The constraint on the principal.
#[derive(Debug, Drop)]
pub struct PrincipalConstraint {
    pub constraint: PrincipalOrResourceConstraint,
}

/// The constraint on the resource.
#[derive(Debug, Drop)]
pub struct ResourceConstraint {
    pub constraint: PrincipalOrResourceConstraint,
}

/// The constraint on the action: none, `==` one, or `in` a list.
#[derive(Debug)]
pub enum ActionConstraint {
    /// No constraint.
    Any,
    /// `== a`.
    Eq(EntityUID),
    /// `in [a, b]`: one of these, or one below them.
    In(Vec<EntityUID>),
}

// `Drop` is written by hand, so that a proof has one call for each dropped constraint.
impl Drop for ActionConstraint {
    fn drop(self) {
        match self {
            ActionConstraint::Any => {}
            ActionConstraint::Eq(_) => {}
            ActionConstraint::In(_) => {}
        }
    }
}

impl ActionConstraint {
    /// A copy of the constraint.
    pub fn try_clone(&self, alloc: Global) -> Result<ActionConstraint, AllocError>
        ensures { IfOk result (λ c. action_scope_of c ≡ action_scope_of self.now) }
    {
        match self {
            ActionConstraint::Any => Ok(ActionConstraint::Any),
            ActionConstraint::Eq(u) => Ok(ActionConstraint::Eq(u.clone()?)),
            ActionConstraint::In(us) => Ok(ActionConstraint::In(copy_uids(alloc, us)?)),
        }
    }
}

fn copy_uids(alloc: Global, uids: &Vec<EntityUID>) -> Result<Vec<EntityUID>, AllocError>
    ensures { IfOk result (λ v. map placed_uid v.items ≡ map placed_uid uids.now.items) }
{
    let mut copies = Vec::with_capacity(alloc, uids.len())?;
    for uid in uids {
        copies.push(uid.clone()?)?;
    }
    Ok(copies)
}
