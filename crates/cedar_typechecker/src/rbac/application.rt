// The test whether the scope of a policy fits some action.
ghost use Rattle.std.specs.Prelude.{◌≡◌, map, IfOk};
ghost use Rattle.std.specs.List.{list_any};
ghost use Rattle.cedar_types.specs.Schemas.Declarations.{application};
ghost use Rattle.cedar_types.specs.Errors.{warning_of, invalid_action_application};
ghost use Rattle.cedar_types.specs.Schemas.Contents.{schema_of};
ghost use Rattle.cedar_types.specs.Templates.{template_of, scope_of};
ghost use Rattle.cedar_typechecker.specs.Applications.{fits, AnswersApplication, with_bound_scope};
ghost use Rattle.cedar_typechecker.specs.Scopes.{admitted_types};
ghost use Rattle.cedar_typechecker.specs.ValidatorViews.{schema_in};

use crate::rbac::actions::admitted_applications;
use crate::rbac::admitted::admits_any;
use crate::rbac::flags::{Side, in_might_help};
use crate::rbac::linking::{bound_constraint, bound_to};
use crate::rbac::validator::Validator;
use cedar_types::base::{
    ArgumentCheck, Policy, PrincipalOrResourceConstraint, SlotId, Template, ValidationWarning,
    ValidatorApplySpec, ValidatorSchema,
};
use std::alloc::{AllocError, Global};

impl<C: ArgumentCheck> Validator<'_, C> {
    /// Tests whether the scope of the template fits an action: whether an admitted action that is defined has a principal
    /// type and a resource type among those that the constraints admit. A slot admits each declared type.
    ///
    /// If no action fits, the answer is `Err` of a warning at the policy's place. A flag of the warning says that `in` in
    /// place of `==` might help: the constraint is `==` an entity, no admitted and defined action lists the entity's type,
    /// and one lists a type that is declared as a descendant of it. Where memory is refused, the answer is an `AllocError`.
    #[tactic(auto, unfolding(crate::specs::ValidatorViews::schema_in))]
    pub fn validate_template_action_application(
        &self,
        alloc: Global,
        t: &Template,
    ) -> Result<Result<(), ValidationWarning>, AllocError>
        ensures { IfOk result
            (AnswersApplication (schema_of (schema_in self.now)) (template_of t.now)) }
    {
        let principal = &t.principal_constraint.constraint;
        let resource = &t.resource_constraint.constraint;
        application(&self.schema, alloc, t, principal, resource)
    }

    /// Tests whether the scope of a linked policy fits an action, as `validate_template_action_application` tests a
    /// template's. The entity to which a slot is bound stands in the slot's place; a slot that is not bound stays.
    #[tactic(auto, unfolding(crate::specs::ValidatorViews::schema_in))]
    pub fn validate_linked_action_application(
        &self,
        alloc: Global,
        p: &Policy,
    ) -> Result<Result<(), ValidationWarning>, AllocError>
        ensures { IfOk result
            (AnswersApplication (schema_of (schema_in self.now))
            (with_bound_scope p.now.values.entries (template_of p.now.template.value))) }
    {
        let t = &*p.template;
        let principal = bound_constraint(
            &t.principal_constraint.constraint,
            bound_to(&p.values, SlotId::Principal),
        )?;
        let resource = bound_constraint(
            &t.resource_constraint.constraint,
            bound_to(&p.values, SlotId::Resource),
        )?;
        application(&self.schema, alloc, t, &principal, &resource)
    }
}

/// The test of a template with these constraints on the principal and on the resource.
fn application(
    schema: &ValidatorSchema,
    alloc: Global,
    t: &Template,
    principal: &PrincipalOrResourceConstraint,
    resource: &PrincipalOrResourceConstraint,
) -> Result<Result<(), ValidationWarning>, AllocError>
    ensures { IfOk result (AnswersApplication (schema_of schema.now)
        (record (template_of t.now) {
          principal = scope_of principal.now;
          resource = scope_of resource.now;
        })) }
{
    let listed = admitted_applications(schema, alloc, &t.action_constraint)?;
    let applications = listed.as_slice();
    if has_fitting(schema, applications, principal, resource) {
        return Ok(Ok(()));
    }
    // the flags are asked only here, because a scope that fits needs no hint
    let would_in_fix_principal = in_might_help(schema, Side::Principal, applications, principal);
    let would_in_fix_resource = in_might_help(schema, Side::Resource, applications, resource);
    let warning = warning(t, would_in_fix_principal, would_in_fix_resource)?;
    Ok(Err(warning))
}

/// The warning that no action fits this template, with these flags.
fn warning(
    t: &Template,
    would_in_fix_principal: bool,
    would_in_fix_resource: bool,
) -> Result<ValidationWarning, AllocError>
    ensures { IfOk result (λ w. warning_of w ≡ record {
      place = (template_of t.now).place;
      policy = (template_of t.now).id;
      slip = invalid_action_application would_in_fix_principal would_in_fix_resource;
    }) }
{
    let id = t.id.clone()?;
    Ok(ValidationWarning::invalid_action_application(
        t.loc,
        id,
        would_in_fix_principal,
        would_in_fix_resource,
    ))
}

/// Whether one of these applications has a principal type and a resource type that the constraints admit.
fn has_fitting(
    schema: &ValidatorSchema,
    applications: &[&ValidatorApplySpec],
    principal: &PrincipalOrResourceConstraint,
    resource: &PrincipalOrResourceConstraint,
) -> bool
    ensures { result
        ≡ list_any
        (fits (admitted_types (schema_of schema.now) (scope_of principal.now))
        (admitted_types (schema_of schema.now) (scope_of resource.now)))
        (map (λ a. application a.now) applications.now) }
{
    applications
        .iter()
        .any(|applies_to| fits(schema, applies_to, principal, resource))
}

fn fits(
    schema: &ValidatorSchema,
    applies_to: &ValidatorApplySpec,
    principal: &PrincipalOrResourceConstraint,
    resource: &PrincipalOrResourceConstraint,
) -> bool
    ensures { result
        ≡ fits (admitted_types (schema_of schema.now) (scope_of principal.now))
        (admitted_types (schema_of schema.now) (scope_of resource.now))
        (application applies_to.now) }
{
    admits_any(schema, principal, &applies_to.principal_apply_spec)
        && admits_any(schema, resource, &applies_to.resource_apply_spec)
}
