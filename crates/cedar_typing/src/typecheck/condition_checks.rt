// The check of a policy's condition in one environment, with its typed tree also where it fails.
ghost use Rattle.std.specs.Prelude.{◌≡◌, IfOk, map, option_map};
ghost use Rattle.cedar_types.specs.Errors.{finding_of};
ghost use Rattle.cedar_types.specs.Expressions.View.{written};
ghost use Rattle.cedar_types.specs.Templates.{template_of, condition_of, with_rest};
ghost use Rattle.cedar_typing.specs.PolicyCheck.Trees.{HasTypedCondition, condition_tree, part_tree};
ghost use Rattle.cedar_typing.specs.PolicyCheck.{PolicyChecks, policy_check, part_verdict};
ghost use Rattle.cedar_typing.specs.TypedExpr.{typed_tree};
ghost use Rattle.cedar_typing.specs.Views.Checks.{setting_for, verdict_of};
ghost use Rattle.cedar_typing.specs.Views.ConditionChecks.{verdict_seen, tree_seen};
ghost use Rattle.cedar_typing.specs.Views.Settings.{setting_at};
ghost use Rattle.cedar_typing.specs.Views.{part_of};

use crate::typecheck::answer::Part;
use crate::typecheck::capabilities::no_capabilities;
use crate::typecheck::operands::Expected;
use crate::typecheck::prior::Prior;
use crate::typecheck::rules::decisions::Operands;
use crate::typecheck::rules::short_circuit::Connective;
use crate::typecheck::single_env::SingleEnvTypechecker;
use crate::typecheck::type_tests::is_typed_false;
use crate::typecheck::typechecker::{PolicyCheck, Typechecker};
use cedar_types::base::{ArgumentCheck, CedarType, Expr, Loc, Template, ValidationError};
use cedar_types::types::request_env::RequestEnv;
use std::alloc::{AllocError, Global};

/// The check of a policy in one environment, as `PolicyCheck` has it, with the typed condition also where the check fails.
#[derive(Debug, Drop)]
pub enum ConditionCheck {
    /// A `PolicyCheck::Success`, with the typed condition.
    Success(Expr<Option<CedarType>>),
    /// A `PolicyCheck::Irrelevant`, with its errors and the typed condition.
    Irrelevant(Vec<ValidationError>, Expr<Option<CedarType>>),
    /// A `PolicyCheck::Fail`, with its errors and the condition with all types that were found. A part that failed may have
    /// no type. If a part is nested too deep, there is no tree.
    Fail(Vec<ValidationError>, Option<Expr<Option<CedarType>>>),
}

impl<'a, C: ArgumentCheck> Typechecker<'a, C> {
    /// The check of `typecheck_by_single_request_env`, with the typed condition also where it fails (clause `tree`): both
    /// calls answer by the same rules (clause `exact`), so all that is promised of a `PolicyCheck` holds of this one.
    ///
    /// The tree is that of `typecheck_expr` for the condition without prior capabilities, except that a condition that is
    /// not a Boolean has no type at its root. Where memory is refused, the answer is an `AllocError`.
    pub fn typecheck_condition(
        &self,
        alloc: Global,
        t: &Template,
        env: &RequestEnv<'_>,
    ) -> Result<ConditionCheck, AllocError>
        ensures exact { IfOk result (λ r.
            PolicyChecks (setting_for C.refusal self.now t.now env.now)
            (condition_of (template_of t.now)) (verdict_seen r)) }
        ensures tree { IfOk result (λ r.
            HasTypedCondition (setting_for C.refusal self.now t.now env.now)
            (condition_of (template_of t.now)) (tree_seen r)) }
    {
        let scope = t.scope_condition(alloc)?;
        let checker = self.in_environment(alloc, &t.id, env)?;
        let check = checker.check_condition(t.loc, &scope, &t.non_scope_constraints)?;
        Ok(check)
    }
}

impl ConditionCheck {
    /// The typed condition, of a failed check too. There is none if a part is nested too deep.
    pub fn typed(&self) -> Option<&Expr<Option<CedarType>>>
        ensures { option_map (λ e. typed_tree e.now) result ≡ tree_seen self.now }
    {
        match self {
            ConditionCheck::Success(typed) => Some(typed),
            ConditionCheck::Irrelevant(_errors, typed) => Some(typed),
            ConditionCheck::Fail(_errors, Some(typed)) => Some(typed),
            ConditionCheck::Fail(_errors, None) => None,
        }
    }

    /// The check as a `PolicyCheck`, without the tree of a failure.
    pub fn into_policy_check(self) -> PolicyCheck
        ensures { verdict_of result ≡ verdict_seen self }
    {
        match self {
            ConditionCheck::Success(typed) => PolicyCheck::Success(typed),
            ConditionCheck::Irrelevant(errors, typed) => PolicyCheck::Irrelevant(errors, typed),
            ConditionCheck::Fail(errors, _typed) => PolicyCheck::Fail(errors),
        }
    }
}

impl<C: ArgumentCheck> SingleEnvTypechecker<'_, '_, '_, '_, C> {
    /// The check of the scope's condition and the rest of the policy. The rest is typed where it stands: we make no copy of
    /// it, and visit no part of it beyond the limit.
    pub(crate) fn check_condition(
        &self,
        loc: Option<Loc>,
        scope: &Expr,
        rest: &Option<Expr>,
    ) -> Result<ConditionCheck, AllocError>
        ensures verdict { IfOk result (λ r.
            verdict_seen r
            ≡ policy_check (setting_at C.refusal self.now)
            (with_rest loc (written scope.now) (option_map written rest.now))) }
        ensures tree { IfOk result (λ r.
            tree_seen r
            ≡ condition_tree (setting_at C.refusal self.now)
            (with_rest loc (written scope.now) (option_map written rest.now))) }
    {
        let mut errors = Vec::new(self.env.alloc);
        let nothing = no_capabilities(self.env.alloc);
        let known = Prior::of(&nothing);
        match rest {
            None => {
                // without a rest, the scope is the whole condition
                let part = self.type_part(&known, 1, Expected::Bool, scope, &mut errors)?;
                Ok(check_of(part, errors))
            }
            Some(rest) => {
                // the condition is `scope && rest`, so the rest is not typed where the scope is False
                let operands = Operands {
                    left: scope,
                    right: rest,
                };
                let connective = Connective::And;
                let answer = self.type_short_circuit(
                    &known,
                    1,
                    loc,
                    connective,
                    operands,
                    &mut errors,
                )?;
                let part = self.env.expect(Expected::Bool, loc, answer, &mut errors)?;
                Ok(check_of(part, errors))
            }
        }
    }
}

/// The check of a condition, from its typed copy and its errors. Without a copy, a part was too deep.
fn check_of(part: Option<Part<'_>>, errors: Vec<ValidationError>) -> ConditionCheck
    ensures verdict { verdict_seen result
        ≡ part_verdict (option_map part_of part.entry) (map finding_of errors.items) }
    ensures tree { tree_seen result ≡ option_map part_tree (option_map part_of part.entry) }
{
    // a part was too deep, so the condition may be anything
    let Some(part) = part else {
        return ConditionCheck::Fail(errors, None);
    };
    // False is asked first, because a condition that has failed, but is False, never applies here
    if is_typed_false(&part.typed) {
        return ConditionCheck::Irrelevant(errors, Box::into_inner(part.typed));
    }
    if part.succeeded {
        ConditionCheck::Success(Box::into_inner(part.typed))
    } else {
        ConditionCheck::Fail(errors, Some(Box::into_inner(part.typed)))
    }
}
