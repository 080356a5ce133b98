// The check of a policy in one environment.
ghost use Rattle.std.specs.Prelude.{◌≡◌, IfOk, option_map};
ghost use Rattle.cedar_types.specs.Expressions.View.{written};
ghost use Rattle.cedar_types.specs.Templates.{template_of, condition_of, with_rest};
ghost use Rattle.cedar_typing.specs.Views.Checks.{verdict_of, schema_by, extensions_by, mode_by, setting_for};
ghost use Rattle.cedar_typing.specs.PolicyCheck.{PolicyChecks, policy_check};
ghost use Rattle.cedar_typing.specs.Soundness.PolicyCheck.{IsSoundPolicyCheck};
ghost use Rattle.cedar_typing.specs.TypedCopies.{CheckMeansTheSame};

use cedar_types::base::{
    ArgumentCheck, CedarType, Expr, ExtensionSchemas, Template, ValidationError, ValidationMode,
    ValidatorSchema,
};
use cedar_types::types::request_env::RequestEnv;
use std::alloc::{AllocError, Global};

/// The check of a policy in one environment. A list of errors has each error as often as it is found, in any order.
///
/// A policy is refused if it fails in some environment, or is irrelevant there with errors.
#[derive(Debug, Drop)]
pub enum PolicyCheck {
    /// The condition is typed, without an error. Its type is a Boolean other than False; in Partial it may be Never too.
    Success(Expr<Option<CedarType>>),
    /// The typed condition is False: here the policy never applies. Without errors this is no fault. For example, a policy
    /// about another action is irrelevant here.
    Irrelevant(Vec<ValidationError>, Expr<Option<CedarType>>),
    /// The condition has failed, perhaps without an error: an entity whose type the schema does not know, an action that it
    /// does not declare, an unknown, and a part that is nested too deep fail without one. So you must not take a policy without
    /// errors for a clean one. The passes over names and ids report the first two. In Strict and in Permissive there is no
    /// other failure without an error (`composition::failures_have_errors`).
    Fail(Vec<ValidationError>),
}

/// A checker that types policies by a schema and some extension functions, in a mode.
#[derive(Drop)]
pub struct Typechecker<'a, C = Box<dyn ArgumentCheck>> {
    pub(crate) schema: &'a ValidatorSchema,
    pub(crate) extensions: &'a ExtensionSchemas<C>,
    pub(crate) mode: ValidationMode,
}

impl<'a, C: ArgumentCheck> Typechecker<'a, C> {
    ghost use Rattle.std.specs.Prelude.{◌≡◌};

    /// The checker by this schema and these extension functions, in this mode. It takes no memory.
    #[tactic(auto, unfolding(crate::specs::Views::Checks::schema_by, crate::specs::Views::Checks::extensions_by, crate::specs::Views::Checks::mode_by))]
    pub fn new(
        schema: &'a ValidatorSchema,
        extensions: &'a ExtensionSchemas<C>,
        mode: ValidationMode,
    ) -> Typechecker<'a, C>
        ensures schema { schema_by result ≡ schema.entry }
        ensures extensions { extensions_by result ≡ extensions.entry }
        ensures mode { mode_by result ≡ mode }
    {
        Typechecker {
            schema,
            extensions,
            mode,
        }
    }

    /// The check of a template's condition in this environment: a success, irrelevant, or failed, perhaps without an error
    /// (`PolicyCheck::Fail`).
    ///
    /// In Strict and in Permissive (clause `sound`), by a schema without external declarations, in
    /// one of its own environments, whose slots are linked in any way: if a request and slots fit the environment, the store
    /// conforms, the extension functions keep to their table and each slot of the condition is bound, then a success promises
    /// that evaluation gives a boolean or fails only for a missing entity, an overflow or an extension function, and an
    /// irrelevant condition is never true. Nothing is promised of another environment, nor in Partial.
    ///
    /// On these premises, and even if slots that are linked to no type are not bound (clause `same`),
    /// the typed condition of a success and of an irrelevant check evaluates exactly as the condition does, to its value or its
    /// failure. So a host may go on with the typed condition, from which typing dropped the parts that are never evaluated.
    ///
    /// This check does not look for types and actions that the policy names and the schema does not know, nor for unknown ids
    /// of enumerated types, because some of them stand in parts that typing does not visit. You must run the passes over names
    /// and ids too.
    ///
    /// The rest of the policy is typed where it stands: no copy of it is made, and no part of it that lies deeper than
    /// `MAX_TYPED_DEPTH` is visited. The caller drops its own tree, and dropping a deep one takes a deep stack. Where memory is
    /// refused, the answer is an `AllocError`.
    pub fn typecheck_by_single_request_env(
        &self,
        alloc: Global,
        t: &Template,
        env: &RequestEnv<'_>,
    ) -> Result<PolicyCheck, AllocError>
        ensures exact { IfOk result (λ r.
            PolicyChecks (setting_for C.refusal self.now t.now env.now)
            (condition_of (template_of t.now)) (verdict_of r)) }
        ensures sound { IfOk result (λ r.
            IsSoundPolicyCheck (setting_for C.refusal self.now t.now env.now)
            (condition_of (template_of t.now)) (verdict_of r)) }
        ensures same { IfOk result (λ r.
            CheckMeansTheSame (setting_for C.refusal self.now t.now env.now)
            (condition_of (template_of t.now)) (verdict_of r)) }
    {
        let scope = t.scope_condition(alloc)?;
        let check = self.check_with_scope(alloc, t, &scope, env)?;
        Ok(check)
    }

    /// The check of a template in this environment, for a caller who has the scope's condition already.
    pub(crate) fn check_with_scope(
        &self,
        alloc: Global,
        t: &Template,
        scope: &Expr,
        env: &RequestEnv<'_>,
    ) -> Result<PolicyCheck, AllocError>
        ensures { IfOk result (λ r.
            verdict_of r
            ≡ policy_check (setting_for C.refusal self.now t.now env.now)
            (with_rest t.now.loc (written scope.now)
            (option_map written t.now.non_scope_constraints))) }
    {
        let checker = self.in_environment(alloc, &t.id, env)?;
        let check = checker.check_condition(t.loc, scope, &t.non_scope_constraints)?;
        Ok(check.into_policy_check())
    }
}
