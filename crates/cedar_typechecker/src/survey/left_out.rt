//! Environments whose action the scope of a policy does not admit: what is known of their checks without a check.
ghost use Rattle.std.specs.Prelude.{◌≡◌, ◌∷◌, map, IfOk, OnOk};
ghost use Rattle.std.specs.List.{list_any};
ghost use Rattle.cedar_types.specs.Environments.RequestEnvs.{env_of};
ghost use Rattle.cedar_types.specs.Names.{type_of, uid_of};
ghost use Rattle.cedar_types.specs.Schemas.Contents.{schema_of};
ghost use Rattle.cedar_types.specs.Templates.{template_of, reference_of, action_scope_of};
ghost use Rattle.cedar_typing.specs.PolicyCheck.Outcome.{Adds};
ghost use Rattle.cedar_typing.specs.Views.EnvironmentChecks.{checks_left};
ghost use Rattle.cedar_typechecker.specs.LeftOut.{LeftOutIsQuiet, lists_actions, has_type, may_equal, visits_in, has_in, is_left_out_by, in_demand, demands_if};
ghost use Rattle.cedar_typechecker.specs.Levels.Views.{demand_of, demands_of};
ghost use Rattle.cedar_typechecker.specs.Surveyed.{asks_of};

use crate::level_validate::demands::{Demand, Need};
use crate::rbac::members::is_same_type;
use crate::survey::Survey;
use cedar_types::base::{
    ActionConstraint, ArgumentCheck, EntityReference, EntityType, EntityUID,
    PrincipalOrResourceConstraint, Template, ValidationMode, ValidatorSchema,
};
use cedar_types::types::request_env::RequestEnv;
use cedar_typing::typecheck::RequestEnvChecks;
use std::alloc::AllocError;
use std::collections::BTreeSet;

/// Where the scope does not admit the action of an environment, and the schema alone decides that, the check of the policy
/// there is irrelevant, without an error. All that its typed condition may demand is a level of 1, for an `in` of the scope: the
/// type of the principal says whether the condition has one.
///
/// So a host need not check such an environment.
pub fn left_out_is_quiet()
    ensures { LeftOutIsQuiet }
{}

/// A policy by a schema that alone decides which actions the scope admits.
#[derive(Clone, Copy)]
pub(crate) struct DecidedScope<'a> {
    pub schema: &'a ValidatorSchema,
    pub mode: ValidationMode,
    pub template: &'a Template,
    pub admitted: &'a BTreeSet<EntityUID>,
}

impl DecidedScope<'_> {
    /// Whether the scope does not admit an environment's action. The scope says nothing of undeclared actions.
    pub fn leaves_out(&self, env: &RequestEnv<'_>) -> bool
        ensures { result
            ≡ is_left_out_by (map uid_of self.now.admitted.now.keys) (env_of env.now) }
    {
        match env {
            RequestEnv::UndeclaredAction => false,
            RequestEnv::DeclaredAction { action, .. } => !self.admitted.contains(*action),
        }
    }

    /// Whether the scope does not admit an environment's action, and the typed condition there has an `in` of the scope.
    pub fn asks(&self, env: &RequestEnv<'_>) -> bool
        ensures { result ≡ asks_of self.now (env_of env.now) }
    {
        match env {
            RequestEnv::UndeclaredAction => false,
            RequestEnv::DeclaredAction { principal, .. } => {
                self.leaves_out(env) && self.visits_in(principal)
            }
        }
    }

    /// Whether an environment asks so, of these from `first` on.
    fn asks_from<C: ArgumentCheck>(
        &self,
        first: &RequestEnv<'_>,
        checks: &mut RequestEnvChecks<'_, C>,
    ) -> Result<bool, AllocError>
        ensures { IfOk result (λ b. b
            ≡ list_any (asks_of self.now) (env_of first.now ∷ checks_left checks.old)) }
    {
        if self.asks(first) {
            return Ok(true);
        }
        let asked = self.asks_in_some(checks)?;
        Ok(asked)
    }

    /// Whether an environment that is still to come asks so.
    fn asks_in_some<C: ArgumentCheck>(
        &self,
        checks: &mut RequestEnvChecks<'_, C>,
    ) -> Result<bool, AllocError>
        ensures { IfOk result (λ b. b ≡ list_any (asks_of self.now) (checks_left checks.old)) }
    {
        while let Some(env) = checks.next_env()? {
            if self.asks(&env) {
                return Ok(true);
            }
        }
        Ok(false)
    }

    /// Whether the scope has an `in`.
    fn has_in(&self) -> bool
        ensures { result ≡ has_in (template_of self.now.template.now) }
    {
        match &self.template.principal_constraint.constraint {
            PrincipalOrResourceConstraint::In(_) => true,
            PrincipalOrResourceConstraint::IsIn(_, _) => true,
            _ => lists_actions(&self.template.action_constraint),
        }
    }

    /// Whether typing goes on to an `in` of the scope, for principals of this type and an action that is not admitted.
    fn visits_in(&self, principal: &EntityType) -> bool
        ensures { result ≡ visits_in (schema_of self.now.schema.now) self.now.mode
            (template_of self.now.template.now) (type_of principal.now) }
    {
        let lists_actions = lists_actions(&self.template.action_constraint);
        match &self.template.principal_constraint.constraint {
            PrincipalOrResourceConstraint::Any => lists_actions,
            PrincipalOrResourceConstraint::Eq(to) => {
                lists_actions && self.may_equal(to, principal)
            }
            PrincipalOrResourceConstraint::In(_) => true,
            PrincipalOrResourceConstraint::Is(of) => lists_actions && is_same_type(of, principal),
            PrincipalOrResourceConstraint::IsIn(of, _) => is_same_type(of, principal),
        }
    }

    /// Whether the types leave open that a principal of this type equals what a constraint names: types are the same, or one
    /// is not known.
    fn may_equal(&self, to: &EntityReference, principal: &EntityType) -> bool
        ensures { result ≡ may_equal (schema_of self.now.schema.now) self.now.mode
            (reference_of to.now) (type_of principal.now) }
    {
        match to {
            EntityReference::Slot => true,
            EntityReference::EUID(entity) => {
                is_same_type(principal, &entity.entity_type) || !self.has_type(entity)
            }
        }
    }

    /// Whether typing finds a type of an entity: in Partial it takes each entity for known.
    fn has_type(&self, entity: &EntityUID) -> bool
        ensures { result
            ≡ has_type (schema_of self.now.schema.now) self.now.mode (uid_of entity.now) }
    {
        if self.mode == ValidationMode::Partial {
            return true;
        }
        if entity.entity_type.is_action() {
            return self.schema.is_known_action_id(entity);
        }
        self.schema.is_known_entity_type(&entity.entity_type)
    }
}

/// Whether a constraint lists actions.
fn lists_actions(constraint: &ActionConstraint) -> bool
    ensures { result ≡ lists_actions (action_scope_of constraint.now) }
{
    match constraint {
        ActionConstraint::Any => false,
        ActionConstraint::Eq(_) => false,
        ActionConstraint::In(_) => true,
    }
}

/// The demand of an `in` of the scope, whose variable is dereferenced at the policy's place.
fn in_demand(template: &Template) -> Demand
    ensures { demand_of result ≡ in_demand (template_of template.now) }
{
    Demand {
        loc: template.loc,
        need: Need::Level(1),
        hidden_below: 0,
    }
}

impl Survey {
    /// Takes in what the environments from `first` on demand whose action the scope does not admit. It looks at each of them
    /// only if the policy has an `in` in its scope that no admitted environment demands.
    pub(crate) fn take_in_left_out<C: ArgumentCheck>(
        &mut self,
        scope: DecidedScope<'_>,
        first: &RequestEnv<'_>,
        checks: &mut RequestEnvChecks<'_, C>,
    ) -> Result<(), AllocError>
        ensures demands { OnOk result (Adds (demands_of self.old.demands.keys)
            (demands_if (list_any (asks_of scope.entry) (env_of first.now ∷ checks_left checks.old))
            (template_of scope.entry.template.now)) (demands_of self.new.demands.keys)) }
        ensures errors { self.new.errors ≡ self.old.errors }
        ensures passes { self.new.passes ≡ self.old.passes }
        ensures impossible { self.new.is_impossible ≡ self.old.is_impossible }
        ensures silent { self.new.fails_without_error ≡ self.old.fails_without_error }
        ensures applicable { self.new.applicable ≡ self.old.applicable }
        ensures policy { self.new.policy_id ≡ self.old.policy_id }
    {
        if !scope.has_in() {
            return Ok(());
        }
        if self.demands.contains(&in_demand(scope.template)) {
            return Ok(());
        }
        let asked = scope.asks_from(first, checks)?;
        self.demand_in(scope.template, asked)?;
        Ok(())
    }

    /// Adds the demand of an `in` of the scope, if an environment asks it.
    pub(crate) fn demand_in(&mut self, template: &Template, asked: bool) -> Result<(), AllocError>
        ensures demands { OnOk result (Adds (demands_of self.old.demands.keys)
            (demands_if asked (template_of template.now)) (demands_of self.new.demands.keys)) }
        ensures errors { self.new.errors ≡ self.old.errors }
        ensures passes { self.new.passes ≡ self.old.passes }
        ensures impossible { self.new.is_impossible ≡ self.old.is_impossible }
        ensures silent { self.new.fails_without_error ≡ self.old.fails_without_error }
        ensures applicable { self.new.applicable ≡ self.old.applicable }
        ensures policy { self.new.policy_id ≡ self.old.policy_id }
    {
        if asked {
            self.demands.insert(in_demand(template))?;
        }
        Ok(())
    }
}
