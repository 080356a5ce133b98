// The environments of one action, from its declaration: a survey goes to those of an admitted action without a look at the
// others.
ghost use Rattle.std.specs.Prelude.{◌≡◌, map, OnOk};
ghost use Rattle.cedar_types.specs.Environments.{principal_environments};
ghost use Rattle.cedar_types.specs.Environments.RequestEnvs.{unlinked};
ghost use Rattle.cedar_types.specs.Names.{type_of, uid_of};
ghost use Rattle.cedar_types.specs.Schemas.Contents.{schema_of};
ghost use Rattle.cedar_types.specs.Templates.{PlainTemplate};
ghost use Rattle.cedar_types.specs.Types.{types_of, ty_of};
ghost use Rattle.cedar_typing.specs.Soundness.Policies.{Basis};
ghost use Rattle.cedar_typechecker.specs.Surveyed.{AreChecksOn, TakesIn, envs_named};

use crate::survey::Survey;
use cedar_types::base::{
    ArgumentCheck, EntityType, EntityUID, ValidatorApplySpec, ValidatorSchema,
};
use cedar_types::types::request_env::RequestEnv;
use cedar_typing::typecheck::RequestEnvChecks;
use std::alloc::{AllocError, Global};

impl Survey {
    /// Takes in the environments of an action, whose slots are not linked. Of an action that is not declared there are none.
    pub(crate) fn take_in_action<C: ArgumentCheck>(
        &mut self,
        alloc: Global,
        schema: &ValidatorSchema,
        checks: &RequestEnvChecks<'_, C>,
        action: &EntityUID,
    ) -> Result<(), AllocError>
        ensures surveys { OnOk result ((b : Basis) (t : PlainTemplate)
            → AreChecksOn C.refusal checks.now schema.now b t
            → TakesIn b t self.old self.new
            (envs_named (schema_of schema.now).actions (uid_of action.now))) }
        ensures policy { self.new.policy_id ≡ self.old.policy_id }
    {
        let Some(declared) = schema.get_action_id(action) else {
            return Ok(());
        };
        let Some(applies_to) = declared.defined() else {
            return Ok(());
        };
        for principal in applies_to.principal_apply_spec.iter() {
            self.take_in_principal(alloc, schema, checks, &declared.name, applies_to, principal)?;
        }
        Ok(())
    }

    /// Takes in the environments of an action and of one of its principal types.
    fn take_in_principal<C: ArgumentCheck>(
        &mut self,
        alloc: Global,
        schema: &ValidatorSchema,
        checks: &RequestEnvChecks<'_, C>,
        action: &EntityUID,
        applies_to: &ValidatorApplySpec,
        principal: &EntityType,
    ) -> Result<(), AllocError>
        ensures surveys { OnOk result ((b : Basis) (t : PlainTemplate)
            → AreChecksOn C.refusal checks.now schema.now b t
            → TakesIn b t self.old self.new (map unlinked
            (principal_environments (uid_of action.now) (ty_of applies_to.now.context.value)
            (types_of applies_to.now.resource_apply_spec) (type_of principal.now)))) }
        ensures policy { self.new.policy_id ≡ self.old.policy_id }
    {
        for resource in applies_to.resource_apply_spec.iter() {
            let env = RequestEnv::DeclaredAction {
                principal,
                action,
                resource,
                context: &applies_to.context,
                principal_slot: None,
                resource_slot: None,
            };
            self.take_in_env(alloc, schema, checks, &env)?;
        }
        Ok(())
    }
}
