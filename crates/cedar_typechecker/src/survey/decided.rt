// The environments of a policy by a schema that alone decides which actions the scope admits: only those of admitted actions
// are typed.
ghost use Rattle.std.specs.Prelude.{◌≡◌, false, [], ◌∷◌, filter, IfOk, OnOk};
ghost use Rattle.std.specs.List.{flat_map};
ghost use Rattle.cedar_types.specs.Environments.RequestEnvs.{env_of, is_partial, undeclared_envs};
ghost use Rattle.cedar_types.specs.Names.{uid_eq};
ghost use Rattle.cedar_types.specs.Schemas.{has_repeat};
ghost use Rattle.cedar_types.specs.Schemas.Contents.{schema_of};
ghost use Rattle.cedar_types.specs.Templates.{PlainTemplate, template_of};
ghost use Rattle.cedar_typing.specs.Soundness.Policies.{Basis};
ghost use Rattle.cedar_typing.specs.Views.EnvironmentChecks.{checks_left};
ghost use Rattle.cedar_typechecker.specs.LeftOut.{is_kept_by, has_links};
ghost use Rattle.cedar_typechecker.specs.Surveyed.{AreChecksOn, TakesIn, IsDecidedOn, IsDecidedFrom, admitted_by, asks_of, envs_named};

use crate::survey::Survey;
use crate::survey::left_out::DecidedScope;
use cedar_types::base::{ArgumentCheck, ValidationMode};
use cedar_types::types::request_env::RequestEnv;
use cedar_typing::typecheck::RequestEnvChecks;
use std::alloc::{AllocError, Global};

impl Survey {
    /// Takes in all environments of a policy: those whose action the scope admits by their checks, and the others by what is
    /// known of them.
    pub(crate) fn take_in_decided<C: ArgumentCheck>(
        &mut self,
        alloc: Global,
        scope: DecidedScope<'_>,
        checks: &mut RequestEnvChecks<'_, C>,
    ) -> Result<(), AllocError>
        ensures surveys { OnOk result ((b : Basis)
            → IsDecidedOn C.refusal checks.old scope.entry b
            → TakesIn b (template_of scope.entry.template.now) self.old self.new
            (checks_left checks.old)) }
        ensures policy { self.new.policy_id ≡ self.old.policy_id }
    {
        let Some(first) = checks.next_env()? else {
            return Ok(());
        };
        if has_links(&first) {
            self.take_in_linked(alloc, scope, &first, checks)?;
            return Ok(());
        }
        self.take_in_unlinked(alloc, scope, &first, checks)?;
        Ok(())
    }

    /// Takes in all environments of a policy whose slots are linked, from `first` on: it looks at each.
    fn take_in_linked<C: ArgumentCheck>(
        &mut self,
        alloc: Global,
        scope: DecidedScope<'_>,
        first: &RequestEnv<'_>,
        checks: &mut RequestEnvChecks<'_, C>,
    ) -> Result<(), AllocError>
        ensures surveys { OnOk result ((b : Basis)
            → IsDecidedFrom C.refusal checks.old scope.entry b (env_of first.now)
            → TakesIn b (template_of scope.entry.template.now) self.old self.new
            (env_of first.now ∷ checks_left checks.old)) }
        ensures policy { self.new.policy_id ≡ self.old.policy_id }
    {
        let mut asked = self.take_in_admitted(alloc, scope, first, checks)?;
        while let Some(env) = checks.next_env()? {
            let asks = self.take_in_admitted(alloc, scope, &env, checks)?;
            asked |= asks;
            drop(env);
        }
        self.demand_in(scope.template, asked)?;
        Ok(())
    }

    /// Takes in an environment whose action the scope admits. Of any other it answers whether it asks a demand.
    fn take_in_admitted<C: ArgumentCheck>(
        &mut self,
        alloc: Global,
        scope: DecidedScope<'_>,
        env: &RequestEnv<'_>,
        checks: &RequestEnvChecks<'_, C>,
    ) -> Result<bool, AllocError>
        ensures surveys { OnOk result ((b : Basis) (t : PlainTemplate)
            → AreChecksOn C.refusal checks.now scope.entry.schema.now b t
            → TakesIn b t self.old self.new
            (filter (is_kept_by (admitted_by scope.entry)) (env_of env.now ∷ []))) }
        ensures asks { IfOk result (λ asked. asked ≡ asks_of scope.entry (env_of env.now)) }
        ensures policy { self.new.policy_id ≡ self.old.policy_id }
    {
        if scope.leaves_out(env) {
            return Ok(scope.asks(env));
        }
        self.take_in_env(alloc, scope.schema, checks, env)?;
        Ok(false)
    }

    /// Takes in all environments of a policy without slots, by the declarations of the actions that the scope admits.
    fn take_in_unlinked<C: ArgumentCheck>(
        &mut self,
        alloc: Global,
        scope: DecidedScope<'_>,
        first: &RequestEnv<'_>,
        checks: &mut RequestEnvChecks<'_, C>,
    ) -> Result<(), AllocError>
        ensures surveys { OnOk result ((b : Basis)
            → IsDecidedFrom C.refusal checks.old scope.entry b (env_of first.now)
            → has_links (env_of first.now) ≡ false
            → TakesIn b (template_of scope.entry.template.now) self.old self.new
            (env_of first.now ∷ checks_left checks.old)) }
        ensures policy { self.new.policy_id ≡ self.old.policy_id }
    {
        self.take_in_actions(alloc, scope, checks)?;
        self.take_in_undeclared(alloc, scope, checks)?;
        self.take_in_left_out(scope, first, checks)?;
        Ok(())
    }

    /// Takes in the environments of the actions that the scope admits, each action once.
    fn take_in_actions<C: ArgumentCheck>(
        &mut self,
        alloc: Global,
        scope: DecidedScope<'_>,
        checks: &RequestEnvChecks<'_, C>,
    ) -> Result<(), AllocError>
        ensures surveys { OnOk result ((b : Basis) (t : PlainTemplate)
            → AreChecksOn C.refusal checks.now scope.entry.schema.now b t
            → TakesIn b t self.old self.new
            (flat_map (envs_named (schema_of scope.entry.schema.now).actions)
            (admitted_by scope.entry))) }
        ensures once { OnOk result (has_repeat uid_eq (admitted_by scope.entry) ≡ false) }
        ensures policy { self.new.policy_id ≡ self.old.policy_id }
    {
        for action in scope.admitted.iter() {
            self.take_in_action(alloc, scope.schema, checks, action)?;
        }
        Ok(())
    }

    /// Takes in the environment of undeclared actions, which counts in Partial alone.
    fn take_in_undeclared<C: ArgumentCheck>(
        &mut self,
        alloc: Global,
        scope: DecidedScope<'_>,
        checks: &RequestEnvChecks<'_, C>,
    ) -> Result<(), AllocError>
        ensures surveys { OnOk result ((b : Basis) (t : PlainTemplate)
            → AreChecksOn C.refusal checks.now scope.entry.schema.now b t
            → TakesIn b t self.old self.new (undeclared_envs (is_partial scope.entry.mode))) }
        ensures policy { self.new.policy_id ≡ self.old.policy_id }
    {
        if scope.mode != ValidationMode::Partial {
            return Ok(());
        }
        self.take_in_env(alloc, scope.schema, checks, &RequestEnv::UndeclaredAction)
    }
}

/// Whether an environment may be one of a policy with slots: a slot is linked, or the action is not declared.
fn has_links(env: &RequestEnv<'_>) -> bool
    ensures { result ≡ has_links (env_of env.now) }
{
    match env {
        RequestEnv::UndeclaredAction => true,
        RequestEnv::DeclaredAction {
            principal_slot,
            resource_slot,
            ..
        } => principal_slot.is_some() || resource_slot.is_some(),
    }
}
