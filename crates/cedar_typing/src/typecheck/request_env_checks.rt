// The checks of a template, one environment after another.
ghost use Rattle.cedar_types.specs.Environments.LinkViews.{HoldsFewLinks};

use crate::typecheck::typechecker::{PolicyCheck, Typechecker};
use cedar_types::base::{ArgumentCheck, Expr, Template};
use cedar_types::types::linked_envs::LinkedRequestEnvs;
use cedar_types::types::request_env::RequestEnv;
use std::alloc::{AllocError, Global};

/// The checks of a template in each of its environments, one at a time and in any order. This iterator keeps none of them: it
/// holds the condition that the scope makes, and for one environment of the schema the remaining ways to link its slots. It
/// holds at most twice as many links as there are declared entity types, and two.
///
/// An environment comes as often as there are ways to link the slots so. Where memory is refused, an item is an `AllocError`,
/// and there is none after it.
#[derive(Drop)]
pub struct RequestEnvChecks<'b, C = Box<dyn ArgumentCheck>> {
    alloc: Global,
    checker: &'b Typechecker<'b, C>,
    template: &'b Template,
    scope: Expr,
    linked: LinkedRequestEnvs<'b>,
    ended: bool,
    ghost few_links: { HoldsFewLinks linked },
}

impl<'a, C: ArgumentCheck> Typechecker<'a, C> {
    ghost use Rattle.std.specs.Prelude.{◌≡◌, false, IfOk, IsPermutation};
    ghost use Rattle.cedar_types.specs.Templates.{template_of, condition_of};
    ghost use Rattle.cedar_typing.specs.Views.Checks.{envs_for};
    ghost use Rattle.cedar_typing.specs.Views.EnvironmentChecks.{checks_left, checks_are_over, checker_of, template_in, condition_in};

    /// The checks of this template in all of its environments: those of the schema, each with the template's slots linked in
    /// all ways. Where memory is refused, the answer is an `AllocError`.
    #[tactic(auto, unfolding(crate::specs::Views::EnvironmentChecks::checks_left, crate::specs::Views::EnvironmentChecks::checks_are_over, crate::specs::Views::EnvironmentChecks::checker_of, crate::specs::Views::EnvironmentChecks::template_in, crate::specs::Views::EnvironmentChecks::condition_in))]
    pub fn typecheck_by_request_env<'b>(
        &'b self,
        alloc: Global,
        t: &'b Template,
    ) -> Result<RequestEnvChecks<'b, C>, AllocError>
        ensures checker { IfOk result (λ c. checker_of c ≡ self.now) }
        ensures template { IfOk result (λ c. template_in c ≡ t.now) }
        ensures condition { IfOk result (λ c. condition_in c ≡ condition_of (template_of t.now)) }
        ensures begun { IfOk result (λ c. checks_are_over c ≡ false) }
        ensures left { IfOk result (λ c. IsPermutation (checks_left c)
            (envs_for self.now t.now)) }
    {
        let scope = t.scope_condition(alloc)?;
        let linked = self.schema.linked_request_envs(alloc, self.mode, t)?;
        Ok(RequestEnvChecks {
            alloc,
            checker: self,
            template: t,
            scope,
            linked,
            ended: false,
        })
    }
}

impl<'b, C: ArgumentCheck> Iterator for RequestEnvChecks<'b, C> {
    ghost use Rattle.cedar_types.specs.FallibleIterators.{calls_left};
    ghost use Rattle.cedar_typing.specs.Views.EnvironmentChecks.{checks_left, checks_are_over, GivesChecks};

    type Item = Result<(RequestEnv<'b>, PolicyCheck), AllocError>;

    ghost next_gives = { GivesChecks C.refusal };

    ghost remaining = { calls_left checks_left checks_are_over };

    #[tactic(auto, unfolding(crate::specs::Views::EnvironmentChecks::checks_left, crate::specs::Views::EnvironmentChecks::checks_are_over, crate::specs::Views::EnvironmentChecks::checker_of, crate::specs::Views::EnvironmentChecks::template_in, crate::specs::Views::EnvironmentChecks::condition_in))]
    fn next(&mut self) -> Option<Result<(RequestEnv<'b>, PolicyCheck), AllocError>> {
        if self.ended {
            return None;
        }
        match self.linked.next() {
            None => {
                self.ended = true;
                None
            }
            Some(Err(refused)) => {
                self.ended = true;
                Some(Err(refused))
            }
            Some(Ok(env)) => match self.check(&env) {
                Ok(check) => Some(Ok((env, check))),
                Err(refused) => {
                    self.ended = true;
                    Some(Err(refused))
                }
            },
        }
    }
}

#[tactic(auto, unfolding(crate::specs::Views::EnvironmentChecks::checks_left, crate::specs::Views::EnvironmentChecks::checks_are_over, crate::specs::Views::EnvironmentChecks::checker_of, crate::specs::Views::EnvironmentChecks::template_in, crate::specs::Views::EnvironmentChecks::condition_in))]
impl<'b, C: ArgumentCheck> RequestEnvChecks<'b, C> {
    ghost use Rattle.std.specs.Prelude.{◌≡◌, [], ◌∷◌, IfOk, MatchOption, OnOk};
    ghost use Rattle.cedar_types.specs.Environments.RequestEnvs.{env_of};
    ghost use Rattle.cedar_typing.specs.Views.Checks.{setting_for, verdict_of};
    ghost use Rattle.cedar_typing.specs.Views.EnvironmentChecks.{checker_of, template_in, condition_in, checks_left, SameInput};
    ghost use Rattle.cedar_typing.specs.PolicyCheck.{PolicyChecks};

    /// The next environment, without its check, for a caller who may know the check without asking; `None` after the last.
    /// Where memory is refused, the answer is an `AllocError`, and no environment comes after it.
    pub fn next_env(&mut self) -> Result<Option<RequestEnv<'b>>, AllocError>
        ensures next { IfOk result (λ o. MatchOption o
            (checks_left self.old ≡ [])
            (λ e. checks_left self.old ≡ env_of e ∷ checks_left self.new)) }
        ensures input { OnOk result (SameInput self.old self.new) }
    {
        if self.ended {
            return Ok(None);
        }
        match self.linked.next() {
            None => {
                self.ended = true;
                Ok(None)
            }
            Some(Err(refused)) => {
                self.ended = true;
                Err(refused)
            }
            Some(Ok(env)) => Ok(Some(env)),
        }
    }

    /// The check of the template in an environment, which is that of `Typechecker::typecheck_by_single_request_env`. Where
    /// memory is refused, the answer is an `AllocError`.
    pub fn check(&self, env: &RequestEnv<'_>) -> Result<PolicyCheck, AllocError>
        ensures { IfOk result (λ r.
            PolicyChecks (setting_for C.refusal (checker_of self.now) (template_in self.now)
            env.now)
            (condition_in self.now) (verdict_of r)) }
    {
        let check = self
            .checker
            .check_with_scope(self.alloc, self.template, &self.scope, env)?;
        Ok(check)
    }
}
