// Templates and policies.
ghost use Rattle.std.specs.Prelude.{◌≡◌, IfOk, option_map};
ghost use Rattle.cedar_types.specs.Expressions.View.{written};
ghost use Rattle.cedar_types.specs.Templates.{template_of, template_with};

mod conditions;
mod constraint_makers;
pub(crate) mod constraints;
pub(crate) mod effects;
pub(crate) mod mentions;
mod rest_mentions;
mod scope_mentions;
mod slots;

use crate::base::expressions::Expr;
use crate::base::location::Loc;
use crate::base::names::policy_ids::PolicyID;
use crate::base::names::slots::SlotEnv;
use crate::base::templates::constraints::{
    ActionConstraint, PrincipalConstraint, ResourceConstraint,
};
use std::alloc::{AllocError, Global};
use std::rc::Rc;

/// A policy whose scope may have slots: an id, a place in the policy's text, three constraints, and
/// the rest of its condition, if it has one.
#[derive(Debug, Drop)]
pub struct Template {
    pub id: PolicyID,
    pub loc: Option<Loc>,
    pub principal_constraint: PrincipalConstraint,
    pub action_constraint: ActionConstraint,
    pub resource_constraint: ResourceConstraint,
    pub non_scope_constraints: Option<Expr>,
}

impl Template {
    /// The template of these parts. The call allocates no memory.
    pub fn new(
        id: PolicyID,
        loc: Option<Loc>,
        principal_constraint: PrincipalConstraint,
        action_constraint: ActionConstraint,
        resource_constraint: ResourceConstraint,
        non_scope_constraints: Option<Expr>,
    ) -> Template
        ensures { template_of result
            ≡ template_with id loc principal_constraint action_constraint resource_constraint
            non_scope_constraints }
    {
        Template {
            id,
            loc,
            principal_constraint,
            action_constraint,
            resource_constraint,
            non_scope_constraints,
        }
    }

    /// A copy of the template, places included.
    pub fn try_clone(&self, alloc: Global) -> Result<Template, AllocError>
        ensures { IfOk result (λ t. template_of t ≡ template_of self.now) }
    {
        let id = self.id.clone()?;
        let principal_constraint = PrincipalConstraint {
            constraint: self.principal_constraint.constraint.clone()?,
        };
        let action_constraint = self.action_constraint.try_clone(alloc)?;
        let resource_constraint = ResourceConstraint {
            constraint: self.resource_constraint.constraint.clone()?,
        };
        let non_scope_constraints = copy_rest(alloc, &self.non_scope_constraints)?;
        Ok(Template {
            id,
            loc: self.loc,
            principal_constraint,
            action_constraint,
            resource_constraint,
            non_scope_constraints,
        })
    }
}

pub(crate) fn copy_rest(alloc: Global, rest: &Option<Expr>) -> Result<Option<Expr>, AllocError>
    ensures { IfOk result (λ r. option_map written r ≡ option_map written rest.now) }
{
    match rest {
        None => Ok(None),
        Some(e) => Ok(Some(e.try_clone(alloc)?)),
    }
}

/// A linked policy: a template, and the entities that its slots are bound to.
#[derive(Debug, Drop)]
pub struct Policy {
    pub template: Rc<Template>,
    pub values: SlotEnv,
}
