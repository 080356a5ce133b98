//! Typed conditions of a policy, for a host that goes on with them: for example a compiler of policies to queries, or an editor
//! that shows which part of a policy is left in an environment.
ghost use Rattle.std.specs.Prelude.{◌≡◌, IfOk, option_map};
ghost use Rattle.cedar_types.specs.Templates.{template_of};
ghost use Rattle.cedar_typing.specs.TypedExpr.{typed_tree};
ghost use Rattle.cedar_typing.specs.Views.Checks.{basis_of, verdict_of};
ghost use Rattle.cedar_host.specs.Conditions.{AreConditionsOf, MeanItIfThere, typed_condition_in};

use cedar_types::base::{ArgumentCheck, CedarType, Expr, Template};
use cedar_types::types::request_env::RequestEnv;
use cedar_typing::typecheck::{PolicyCheck, Typechecker};
use std::alloc::{AllocError, Global};

/// The condition of a policy as it was typed in an environment: with its types, and without the parts that typing drops,
/// because they are never evaluated there.
#[derive(Drop)]
pub struct TypedCondition<'a> {
    pub env: RequestEnv<'a>,
    pub condition: Expr<Option<CedarType>>,
}

/// The typed conditions of a policy, one for each of its environments, in any order; `None` if its check fails in some
/// environment. If slots can be linked in several ways, an environment comes once for each. A policy that is irrelevant in an
/// environment has its condition there even if it has errors there. `typecheck_policy` refuses such a policy, so you must call
/// that first.
///
/// In Strict and in Permissive, by a schema without external declarations, each typed condition evaluates as the policy's
/// condition does in the worlds of its environment, and each conforming request has one of them as its own (clause `meaning`).
/// So a host that has compiled all of them takes the one with the request's principal type, action and resource type, and with
/// each slot linked to its variable's own type.
///
/// If memory is refused, the answer is an `AllocError`.
pub fn typed_conditions<'a, C: ArgumentCheck>(
    alloc: Global,
    typechecker: &'a Typechecker<'a, C>,
    policy: &'a Template,
) -> Result<Option<Vec<TypedCondition<'a>>>, AllocError>
    ensures exact { IfOk result (λ found.
        AreConditionsOf (basis_of C.refusal typechecker.now) (template_of policy.now)
        (option_map (λ cs. cs.items) found)) }
    ensures meaning { IfOk result (λ found.
        MeanItIfThere (basis_of C.refusal typechecker.now) (template_of policy.now)
        (option_map (λ cs. cs.items) found)) }
{
    let mut found = Vec::new(alloc);
    for item in typechecker.typecheck_by_request_env(alloc, policy)? {
        let (env, check) = item?;
        let Some(condition) = condition_of(check) else {
            return Ok(None);
        };
        found.push(TypedCondition { env, condition })?;
    }
    Ok(Some(found))
}

/// The typed condition of a check, if it has one.
fn condition_of(check: PolicyCheck) -> Option<Expr<Option<CedarType>>>
    ensures { option_map typed_tree result ≡ typed_condition_in (verdict_of check) }
{
    match check {
        PolicyCheck::Success(typed) => Some(typed),
        PolicyCheck::Irrelevant(_errors, typed) => Some(typed),
        PolicyCheck::Fail(_errors) => None,
    }
}
