// Parts of a policy that make it impossible.
use crate::settings::Settings;
use cedar_findings::hints::hint_for_undeclared;
use cedar_findings::search_room::SearchRoom;
use cedar_typechecker::survey::Environments;
use cedar_typechecker::typecheck::{PolicyCheck, Typechecker};
use cedar_types::base::{
    ActionConstraint, ArgumentCheck, BoolType, CedarType, Expr, ExprKind, Loc, Template,
    ValidatorSchema,
};
use cedar_types::types::request_env::RequestEnv;
use std::alloc::{AllocError, Global};

/// The number of environments that are checked. A policy with more is not explained, because each takes a typing of its own.
const MAX_CHECKS: usize = 200;

/// The number of parts that are named. A policy with more is not explained.
const MAX_PARTS: usize = 5;

/// A bound on parts that stand inside each other: more than typing descends.
const MAX_DEPTH: usize = 1000;

type Typed = Expr<Option<CedarType>>;

/// A part of a condition that is false, and its environments; none if it is false in all that the scope admits.
#[derive(Drop)]
pub struct FalsePart {
    pub place: Loc,
    pub environments: Environments,
    /// The attribute that may be meant, if the part tests for one that is never there; else empty.
    pub hint: String,
}

/// The smallest false part of the conditions for each environment that the scope admits. No part is given if the scope admits
/// no environment, or if an environment has no false part with a place.
pub fn false_parts<C: ArgumentCheck>(
    alloc: Global,
    settings: &Settings<'_, C>,
    policy: &Template,
    room: &mut SearchRoom,
) -> Result<Vec<FalsePart>, AllocError> {
    let schema = settings.validator.schema();
    let typechecker = Typechecker::new(schema, settings.validator.extensions(), settings.mode);
    let mut checks = typechecker.typecheck_by_request_env(alloc, policy)?;
    let mut parts = Vec::new(alloc);
    let mut count = 0usize;
    for _ in 0..u32::MAX {
        let Some(env) = checks.next_env()? else {
            break;
        };
        if !is_of_action(&env, &policy.action_constraint) {
            continue;
        }
        if count >= MAX_CHECKS {
            return Ok(Vec::new(alloc));
        }
        count = count.saturating_add(1);
        let check = checks.check(&env)?;
        let part = false_part(&check);
        if part.and_then(|it: &Typed| it.loc) == policy.loc {
            // the scope does not admit the environment
            continue;
        }
        if !add_part(alloc, schema, &mut parts, part, &env, room)? {
            return Ok(Vec::new(alloc));
        }
    }
    forget_only_environments(alloc, &mut parts);
    Ok(parts)
}

/// Adds an environment to its false part. The answer is false if there is no part, if the part has no place, or if it would be
/// one part too many.
fn add_part(
    alloc: Global,
    schema: &ValidatorSchema,
    parts: &mut Vec<FalsePart>,
    part: Option<&Typed>,
    env: &RequestEnv<'_>,
    room: &mut SearchRoom,
) -> Result<bool, AllocError> {
    let Some(own) = part else {
        return Ok(false);
    };
    let Some(place) = own.loc else {
        return Ok(false);
    };
    for part in parts.iter_mut() {
        if part.place == place {
            part.environments.add(alloc, env)?;
            return Ok(true);
        }
    }
    if parts.len() >= MAX_PARTS {
        return Ok(false);
    }
    let mut environments = Environments::none(alloc);
    environments.add(alloc, env)?;
    parts.push(FalsePart {
        place,
        environments,
        hint: hint_for(alloc, schema, own, room)?,
    })?;
    Ok(true)
}

/// The attribute that may be meant, if a part tests for one that is never there.
fn hint_for(
    alloc: Global,
    schema: &ValidatorSchema,
    part: &Typed,
    room: &mut SearchRoom,
) -> Result<String, AllocError> {
    let ExprKind::HasAttr(base, attribute) = &part.kind else {
        return Ok(String::new(alloc));
    };
    match &base.annotation {
        Some(ty) => hint_for_undeclared(alloc, schema, ty, attribute, room),
        None => Ok(String::new(alloc)),
    }
}

/// Clears the environments of a single part, because it is false in all that the scope admits.
fn forget_only_environments(alloc: Global, parts: &mut Vec<FalsePart>) {
    if parts.len() > 1 {
        return;
    }
    for part in parts.iter_mut() {
        part.environments = Environments::none(alloc);
    }
}

/// Whether a scope may admit an environment's action. Only `action == ..` is decided here, which saves a typing; any other
/// scope shows in the typed condition.
fn is_of_action(env: &RequestEnv<'_>, constraint: &ActionConstraint) -> bool {
    match (constraint, env.action_entity_uid()) {
        (ActionConstraint::Eq(wanted), Some(action)) => wanted == action,
        _ => true,
    }
}

/// The smallest part that makes a condition false.
fn false_part(check: &PolicyCheck) -> Option<&Typed> {
    match check {
        PolicyCheck::Irrelevant(_, condition) => Some(smallest_false(condition)),
        PolicyCheck::Success(_) | PolicyCheck::Fail(_) => None,
    }
}

fn smallest_false(condition: &Typed) -> &Typed {
    let mut part = condition;
    for _ in 0..MAX_DEPTH {
        match false_operand(part) {
            Some(operand) => part = operand,
            None => break,
        }
    }
    part
}

/// The part of a false expression that makes it false, if a single one does.
fn false_operand(expr: &Typed) -> Option<&Typed> {
    match &expr.kind {
        ExprKind::And(left, right) => {
            part_behind([
                (left, BoolType::False, left),
                (right, BoolType::False, right),
            ])
        }
        ExprKind::If {
            test_expr,
            then_expr,
            else_expr,
        } => {
            part_behind([
                (test_expr, BoolType::True, then_expr),
                (test_expr, BoolType::False, else_expr),
            ])
        }
        _ => None,
    }
}

/// The part behind the first test that always has the value beside it, if one has.
fn part_behind<'a>(tests: [(&Typed, BoolType, &'a Typed); 2]) -> Option<&'a Typed> {
    for (test, value, part) in tests {
        if is_always(test, value) {
            return Some(part);
        }
    }
    None
}

fn is_always(expr: &Typed, value: BoolType) -> bool {
    match &expr.annotation {
        Some(CedarType::Bool(own)) => *own == value,
        _ => false,
    }
}
