// Environments of a schema's actions.
ghost use Rattle.std.specs.Prelude.{◌≡◌, ◌++◌, map, Some, IfOk, OnOk};
ghost use Rattle.cedar_types.specs.Names.{type_of, uid_of};
ghost use Rattle.cedar_types.specs.Types.{types_of, ty_of};
ghost use Rattle.cedar_types.specs.Schemas.Declarations.{application};
ghost use Rattle.cedar_types.specs.Schemas.Tables.{actions_in};
ghost use Rattle.cedar_types.specs.Environments.{declared_env, principal_environments, action_environments, environments_of};

use crate::base::names::entities::{EntityType, EntityUID};
use crate::base::schema::actions::ValidatorApplySpec;
use crate::base::schema::request_environments::UnlinkedRequestEnv;
use crate::base::schema::tables::ActionTable;
use std::alloc::{AllocError, Global};

/// The environments: one for each defined action, principal type and resource type that it applies
/// to.
pub(crate) fn declared_environments(
    alloc: Global,
    actions: &ActionTable,
) -> Result<Vec<UnlinkedRequestEnv>, AllocError>
    ensures { IfOk result (λ v.
        map declared_env v.items ≡ environments_of (actions_in actions.now)) }
{
    let mut environments = Vec::new(alloc);
    for action in &actions.declared {
        if let Some(applies_to) = action.defined() {
            add_action(&mut environments, &action.name, applies_to)?;
        }
    }
    Ok(environments)
}

fn add_action(
    environments: &mut Vec<UnlinkedRequestEnv>,
    action: &EntityUID,
    applies_to: &ValidatorApplySpec,
) -> Result<(), AllocError>
    ensures { OnOk result (map declared_env environments.new.items
        ≡ map declared_env environments.old.items
        ++ action_environments (uid_of action.now) (Some (application applies_to.now))) }
{
    for principal in applies_to.principal_apply_spec.iter() {
        add_principal(environments, principal, action, applies_to)?;
    }
    Ok(())
}

fn add_principal(
    environments: &mut Vec<UnlinkedRequestEnv>,
    principal: &EntityType,
    action: &EntityUID,
    applies_to: &ValidatorApplySpec,
) -> Result<(), AllocError>
    ensures { OnOk result (map declared_env environments.new.items
        ≡ map declared_env environments.old.items
        ++ principal_environments (uid_of action.now) (ty_of applies_to.now.context.value)
        (types_of applies_to.now.resource_apply_spec) (type_of principal.now)) }
{
    for resource in applies_to.resource_apply_spec.iter() {
        environments.push(UnlinkedRequestEnv {
            principal: principal.clone()?,
            action: action.clone()?,
            resource: resource.clone()?,
            context: applies_to.context.clone()?,
        })?;
    }
    Ok(())
}
