// The survey of a policy: one check in each environment, taken in one after the other.
ghost use Rattle.std.specs.Prelude.{◌≡◌, [], ◌∷◌, List, IfOk, OnOk};
ghost use Rattle.cedar_types.specs.Environments.RequestEnvs.{Env, env_of};
ghost use Rattle.cedar_types.specs.Names.{text_of};
ghost use Rattle.cedar_types.specs.Schemas.{Schema};
ghost use Rattle.cedar_types.specs.Schemas.Contents.{schema_of};
ghost use Rattle.cedar_types.specs.Templates.{PlainTemplate, template_of};
ghost use Rattle.cedar_typing.specs.PolicyCheck.{Verdict};
ghost use Rattle.cedar_typing.specs.PolicyCheck.Outcome.{Adds};
ghost use Rattle.cedar_typing.specs.Soundness.Policies.{Basis};
ghost use Rattle.cedar_typing.specs.TypedExpr.{typed_tree};
ghost use Rattle.cedar_typing.specs.Views.Checks.{verdict_of};
ghost use Rattle.cedar_typing.specs.Views.EnvironmentChecks.{checks_left};
ghost use Rattle.cedar_typechecker.specs.Levels.Demands.{add_demands};
ghost use Rattle.cedar_typechecker.specs.Levels.Views.{surroundings_of, demands_of};
ghost use Rattle.cedar_typechecker.specs.Slices.Surveys.{SurveyIsKept};
ghost use Rattle.cedar_typechecker.specs.Surveyed.{AreChecksOn, AreAllChecksOn, TakesIn};
ghost use Rattle.cedar_typechecker.specs.Surveys.{Surveys, IsSurveyOf};
ghost use Rattle.cedar_typechecker.specs.ValidatorViews.{basis_in};

use crate::level_validate::walk::LevelWalk;
use crate::rbac::Validator;
use crate::survey::Survey;
use crate::survey::demands::insert_all;
use crate::survey::environments::add_errors;
use crate::survey::left_out::DecidedScope;
use crate::survey::scope::admitted;
use cedar_types::base::{
    ArgumentCheck, CedarType, Expr, PolicyID, Template, ValidationMode, ValidatorSchema,
};
use cedar_types::types::request_env::RequestEnv;
use cedar_typing::typecheck::{PolicyCheck, RequestEnvChecks, Typechecker};
use std::alloc::{AllocError, Global};
use std::collections::{BTreeMap, BTreeSet};

impl<C: ArgumentCheck> Validator<'_, C> {
    /// Checks a policy in all of its environments, in a mode, and gathers what is found. Each is typed at most once. If the
    /// schema alone decides which actions the scope admits, the environments of all others are not typed, because their checks
    /// are known (`left_out_is_quiet`). Of a policy without slots they are not even looked at, unless its scope has an `in`.
    ///
    /// One typed condition is held at a time. Where memory is refused, the answer is an `AllocError`.
    pub fn survey(
        &self,
        alloc: Global,
        p: &Template,
        mode: ValidationMode,
    ) -> Result<Survey, AllocError>
        ensures exact { IfOk result (
            IsSurveyOf (basis_in C.refusal self.now mode) (template_of p.now)) }
        ensures kept { IfOk result (
            SurveyIsKept (basis_in C.refusal self.now mode) (template_of p.now)) }
    {
        let checker = Typechecker::new(&self.schema, self.extensions, mode);
        let mut survey = Survey::of_nothing(alloc, p.id.clone()?);
        let mut checks = checker.typecheck_by_request_env(alloc, p)?;
        survey.take_in_policy(alloc, &self.schema, mode, p, &mut checks)?;
        Ok(survey)
    }
}

impl Survey {
    /// The survey of no environment.
    fn of_nothing(alloc: Global, policy_id: PolicyID) -> Survey
        ensures survey { (schema : Schema) → Surveys schema result [] [] }
        ensures policy { text_of result.policy_id.text ≡ text_of policy_id.text }
    {
        Survey {
            policy_id,
            passes: true,
            is_impossible: true,
            fails_without_error: false,
            applicable: 0,
            errors: BTreeMap::new(alloc),
            demands: BTreeSet::new(alloc),
        }
    }

    /// Takes in all environments of a policy.
    fn take_in_policy<C: ArgumentCheck>(
        &mut self,
        alloc: Global,
        schema: &ValidatorSchema,
        mode: ValidationMode,
        template: &Template,
        checks: &mut RequestEnvChecks<'_, C>,
    ) -> Result<(), AllocError>
        ensures surveys { OnOk result ((b : Basis)
            → AreAllChecksOn C.refusal checks.old schema.now mode b (template_of template.now)
            → TakesIn b (template_of template.now) self.old self.new (checks_left checks.old)) }
        ensures policy { self.new.policy_id ≡ self.old.policy_id }
    {
        match admitted(alloc, schema, &template.action_constraint)? {
            None => {
                self.take_in_rest(alloc, schema, checks)?;
                Ok(())
            }
            Some(admitted) => {
                let scope = DecidedScope {
                    schema,
                    mode,
                    template,
                    admitted: &admitted,
                };
                self.take_in_decided(alloc, scope, checks)?;
                Ok(())
            }
        }
    }

    /// Takes in each environment that is still to come.
    fn take_in_rest<C: ArgumentCheck>(
        &mut self,
        alloc: Global,
        schema: &ValidatorSchema,
        checks: &mut RequestEnvChecks<'_, C>,
    ) -> Result<(), AllocError>
        ensures surveys { OnOk result ((b : Basis) (t : PlainTemplate)
            → AreChecksOn C.refusal checks.old schema.now b t
            → TakesIn b t self.old self.new (checks_left checks.old)) }
        ensures policy { self.new.policy_id ≡ self.old.policy_id }
    {
        while let Some(env) = checks.next_env()? {
            self.take_in_env(alloc, schema, checks, &env)?;
            drop(env);
        }
        Ok(())
    }

    /// Takes in one environment more, by its check.
    pub(crate) fn take_in_env<C: ArgumentCheck>(
        &mut self,
        alloc: Global,
        schema: &ValidatorSchema,
        checks: &RequestEnvChecks<'_, C>,
        env: &RequestEnv<'_>,
    ) -> Result<(), AllocError>
        ensures surveys { OnOk result ((b : Basis) (t : PlainTemplate)
            → AreChecksOn C.refusal checks.now schema.now b t
            → TakesIn b t self.old self.new (env_of env.now ∷ [])) }
        ensures policy { self.new.policy_id ≡ self.old.policy_id }
    {
        let check = checks.check(env)?;
        self.take_in(alloc, schema, env, check)?;
        Ok(())
    }

    /// Takes in the check of one environment more. A failed check typed no condition, so it has no demands.
    fn take_in(
        &mut self,
        alloc: Global,
        schema: &ValidatorSchema,
        env: &RequestEnv<'_>,
        check: PolicyCheck,
    ) -> Result<(), AllocError>
        ensures surveys { OnOk result ((envs : List Env) (vs : List Verdict)
            → Surveys (schema_of schema.now) self.old envs vs
            → Surveys (schema_of schema.now) self.new (env_of env.now ∷ envs)
            (verdict_of check ∷ vs)) }
        ensures policy { self.new.policy_id ≡ self.old.policy_id }
    {
        let walk = LevelWalk {
            alloc,
            schema,
            action: env.action_entity_uid(),
            hidden_below: 0,
        };
        match check {
            PolicyCheck::Success(condition) => {
                self.is_impossible = false;
                self.applicable = self.applicable.saturating_add(1);
                self.take_in_demands(&walk, &condition)?;
                Ok(())
            }
            PolicyCheck::Irrelevant(errors, condition) => {
                self.take_in_demands(&walk, &condition)?;
                if errors.is_empty() {
                    return Ok(());
                }
                self.passes = false;
                self.applicable = self.applicable.saturating_add(1);
                add_errors(&mut self.errors, alloc, env, errors)?;
                Ok(())
            }
            PolicyCheck::Fail(errors) => {
                self.is_impossible = false;
                self.passes = false;
                self.fails_without_error |= errors.is_empty();
                self.applicable = self.applicable.saturating_add(1);
                add_errors(&mut self.errors, alloc, env, errors)?;
                Ok(())
            }
        }
    }

    fn take_in_demands(
        &mut self,
        walk: &LevelWalk<'_>,
        condition: &Expr<Option<CedarType>>,
    ) -> Result<(), AllocError>
        ensures demands { OnOk result (Adds (demands_of self.old.demands.keys)
            (add_demands (surroundings_of walk.now) (typed_tree condition.now)
            walk.now.hidden_below [])
            (demands_of self.new.demands.keys)) }
        ensures errors { self.new.errors ≡ self.old.errors }
        ensures passes { self.new.passes ≡ self.old.passes }
        ensures impossible { self.new.is_impossible ≡ self.old.is_impossible }
        ensures silent { self.new.fails_without_error ≡ self.old.fails_without_error }
        ensures applicable { self.new.applicable ≡ self.old.applicable }
        ensures policy { self.new.policy_id ≡ self.old.policy_id }
    {
        let mut found = Vec::new(walk.alloc);
        walk.check(condition, &mut found)?;
        insert_all(&mut self.demands, found)?;
        Ok(())
    }
}
