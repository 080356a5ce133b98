// Slots that occur in a template.
ghost use Rattle.std.specs.Prelude.{◌≡◌, IfOk};
ghost use Rattle.cedar_types.specs.declared.base.names.slots.SlotId.{SlotId};
ghost use Rattle.cedar_types.specs.Environments.Linking.{is_slot as reference_is_slot, names_slot as constraint_names_slot, has_slot};
ghost use Rattle.cedar_types.specs.Expressions.Parts.{mentions_slot};
ghost use Rattle.cedar_types.specs.Templates.{template_of, scope_of, reference_of, scope_condition};

use crate::base::expressions::subexpressions::MentionedSlots;
use crate::base::names::slots::SlotId;
use crate::base::templates::Template;
use crate::base::templates::constraints::{EntityReference, PrincipalOrResourceConstraint};
use std::alloc::{AllocError, Global};

impl Template {
    /// Whether the slot occurs in the scope or in the rest. If memory is refused, the answer is an
    /// `AllocError`.
    pub fn mentions_slot(&self, alloc: Global, slot: SlotId) -> Result<bool, AllocError>
        ensures { IfOk result (λ b. b ≡ has_slot slot (template_of self.now)) }
    {
        if self.scope_mentions_slot(slot) {
            return Ok(true);
        }
        match &self.non_scope_constraints {
            None => Ok(false),
            Some(rest) => rest.mentions_slot(alloc, slot),
        }
    }

    /// Which slots occur in the scope or in the rest, which is walked over once. If memory is refused,
    /// the answer is an `AllocError`.
    pub(crate) fn mentioned_slots(&self, alloc: Global) -> Result<MentionedSlots, AllocError>
        ensures principal { IfOk result (λ s.
            s.principal ≡ has_slot SlotId.Principal (template_of self.now)) }
        ensures resource { IfOk result (λ s.
            s.resource ≡ has_slot SlotId.Resource (template_of self.now)) }
    {
        let principal = self.scope_mentions_slot(SlotId::Principal);
        let resource = self.scope_mentions_slot(SlotId::Resource);
        match &self.non_scope_constraints {
            None => Ok(MentionedSlots {
                principal,
                resource,
            }),
            Some(rest) => {
                let in_rest = rest.mentioned_slots(alloc)?;
                Ok(MentionedSlots {
                    principal: principal | in_rest.principal,
                    resource: resource | in_rest.resource,
                })
            }
        }
    }

    fn scope_mentions_slot(&self, slot: SlotId) -> bool
        ensures { result ≡ mentions_slot slot (scope_condition (template_of self.now)) }
    {
        match slot {
            SlotId::Principal => names_slot(&self.principal_constraint.constraint),
            SlotId::Resource => names_slot(&self.resource_constraint.constraint),
        }
    }
}

/// Whether the constraint names the slot of its variable.
fn names_slot(constraint: &PrincipalOrResourceConstraint) -> bool
    ensures { result ≡ constraint_names_slot (scope_of constraint.now) }
{
    match constraint {
        PrincipalOrResourceConstraint::Any => false,
        PrincipalOrResourceConstraint::Eq(r) => is_slot(r),
        PrincipalOrResourceConstraint::In(r) => is_slot(r),
        PrincipalOrResourceConstraint::Is(_) => false,
        PrincipalOrResourceConstraint::IsIn(_, r) => is_slot(r),
    }
}

fn is_slot(reference: &EntityReference) -> bool
    ensures { result ≡ reference_is_slot (reference_of reference.now) }
{
    match reference {
        EntityReference::EUID(_) => false,
        EntityReference::Slot => true,
    }
}
