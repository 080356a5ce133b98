//! Slots of templates, and the entities to which links bind them.
ghost use Rattle.std.specs.Prelude.{◌≡◌, ◌&&◌, true, is_some, IfOk, IfSome};
ghost use Rattle.cedar_types.specs.Templates.{reference_of, scope_of, template_of};
ghost use Rattle.cedar_verdicts.specs.Links.{bound, filled, fits, fits_in, linked};

use cedar_types::base::{
    EntityReference, EntityType, EntityUID, PolicyID, PrincipalOrResourceConstraint, Template,
};
use std::alloc::{AllocError, Global};

/// The entities to which a link binds slots.
#[derive(Drop)]
pub struct Bound {
    pub principal: Option<EntityUID>,
    pub resource: Option<EntityUID>,
}

impl Bound {
    /// The template with its slots bound, under the id of the link (clause `linked`). There is none
    /// exactly if the link does not bind the slots that the template has (clause `exact`). If
    /// memory is refused, the answer is an `AllocError`.
    pub fn link(
        &self,
        alloc: Global,
        id: &str,
        template: &Template,
    ) -> Result<Option<Template>, AllocError>
        ensures exact { IfOk result (λ made. is_some made
            ≡ (fits_in self.now.principal (scope_of template.now.principal_constraint.constraint)
            && fits_in self.now.resource (scope_of template.now.resource_constraint.constraint))) }
        ensures linked { IfOk result (λ made. IfSome made (λ t. template_of t
            ≡ linked id.now self.now.principal self.now.resource (template_of template.now))) }
    {
        let mut linked = template.try_clone(alloc)?;
        let principal = &mut linked.principal_constraint.constraint;
        let fits_principal = bind(principal, &self.principal)?;
        let resource = &mut linked.resource_constraint.constraint;
        let fits_resource = bind(resource, &self.resource)?;
        if !fits_principal || !fits_resource {
            return Ok(None);
        }
        linked.id = PolicyID::from_string(alloc, id)?;
        Ok(Some(linked))
    }
}

/// Binds the slot of a constraint. Whether there are both a slot and an id for it, or neither.
fn bind(
    constraint: &mut PrincipalOrResourceConstraint,
    uid: &Option<EntityUID>,
) -> Result<bool, AllocError>
    ensures exact { IfOk result (λ it. it ≡ fits_in uid.now (scope_of constraint.old)) }
    ensures bound { IfOk result (λ it. it ≡ true
        → scope_of constraint.new ≡ bound uid.now (scope_of constraint.old)) }
{
    match constraint {
        PrincipalOrResourceConstraint::Eq(reference) => fill(reference, uid),
        PrincipalOrResourceConstraint::In(reference) => fill(reference, uid),
        PrincipalOrResourceConstraint::IsIn(_, reference) => fill(reference, uid),
        PrincipalOrResourceConstraint::Any => Ok(uid.is_none()),
        PrincipalOrResourceConstraint::Is(_) => Ok(uid.is_none()),
    }
}

fn fill(reference: &mut EntityReference, uid: &Option<EntityUID>) -> Result<bool, AllocError>
    ensures exact { IfOk result (λ it. it ≡ fits uid.now (reference_of reference.old)) }
    ensures filled { IfOk result (λ it. it ≡ true
        → reference_of reference.new ≡ filled uid.now (reference_of reference.old)) }
{
    let is_slot = matches!(reference, EntityReference::Slot);
    if let Some(uid) = uid {
        if is_slot {
            *reference = EntityReference::EUID(uid.clone()?);
        }
        return Ok(is_slot);
    }
    Ok(!is_slot)
}

/// Whether the scope of a policy has a slot, so that the policy is a template.
pub fn has_slots(policy: &Template) -> bool {
    is_open(&policy.principal_constraint.constraint)
        || is_open(&policy.resource_constraint.constraint)
}

fn is_open(constraint: &PrincipalOrResourceConstraint) -> bool {
    match constraint {
        PrincipalOrResourceConstraint::Eq(reference)
        | PrincipalOrResourceConstraint::In(reference)
        | PrincipalOrResourceConstraint::IsIn(_, reference) => {
            matches!(reference, EntityReference::Slot)
        }
        PrincipalOrResourceConstraint::Any | PrincipalOrResourceConstraint::Is(_) => false,
    }
}

/// An id without its place, because the place is not in the text of the template that it is bound in.
pub fn without_place(alloc: Global, uid: &EntityUID) -> Result<EntityUID, AllocError> {
    let own_type = EntityType::new(uid.entity_type.name.clone()?, None);
    EntityUID::from_components(alloc, own_type, uid.eid.as_str(), None)
}
