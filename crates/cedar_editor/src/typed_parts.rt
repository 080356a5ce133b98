// Types of a part of a condition, in each environment that the policy's scope admits. Slots are not linked.
use crate::spots::Guard;
use cedar_typechecker::typecheck::answer::TypecheckAnswer;
use cedar_typechecker::typecheck::{ExpressionCheck, PolicyCheck, Typechecker};
use cedar_types::base::{
    ActionConstraint, ArgumentCheck, BoolType, CedarType, Expr, PolicyID, PrincipalConstraint,
    RequestType, ResourceConstraint, Template, ValidatorSchema,
};
use cedar_types::types::capability::{Capability, CapabilitySet};
use cedar_types::types::request_env::RequestEnv;
use cedar_verdicts::settings::Settings;
use std::alloc::{AllocError, Global};
use std::rc::RcStr;

/// The most environments in which a part is typed.
const MAX_ENVIRONMENTS: usize = 200;

/// A type of a part, with the environments in which the part has it.
#[derive(Drop)]
pub struct TypedPart {
    pub ty: CedarType,
    /// The optional attributes of the part that are known to be there, in the first of the environments.
    pub known: Vec<RcStr>,
    /// The first of the environments, and their number.
    pub request: Option<RequestType>,
    pub count: usize,
}

/// The types of a part of a policy's condition, each once. In an environment in which the part is never evaluated it has no
/// type.
pub fn types_of<'x, C: ArgumentCheck>(
    alloc: Global,
    settings: &Settings<'_, C>,
    template: &Template,
    guards: &[Guard<'x>],
    part: &'x Expr,
) -> Result<Vec<TypedPart>, AllocError> {
    let schema = settings.validator.schema();
    let mode = settings.mode;
    let typechecker = Typechecker::new(schema, settings.validator.extensions(), mode);
    let scope = scope_alone(alloc, template)?;
    let mut types = Vec::new(alloc);
    let mut count = 0usize;
    for env in schema.unlinked_request_envs(mode) {
        // a scope that names one action need not be typed by the others, because it is false there
        if names_other_action(&template.action_constraint, &env)
            || !is_admitted(alloc, &typechecker, &scope, &env)?
        {
            continue;
        }
        count = count.saturating_add(1);
        if count > MAX_ENVIRONMENTS {
            break;
        }
        let id = &template.id;
        if let Some(known) = known_behind(alloc, &typechecker, id, &env, guards)? {
            let check = typechecker.typecheck_expr(alloc, id, &env, &known, part)?;
            if let Some(ty) = check.typed().and_then(|typed| typed.annotation.as_ref()) {
                add_type(alloc, schema, &env, ty, &known, part, &mut types)?;
            }
        }
    }
    Ok(types)
}

/// Adds an environment to the type that a part has there, or the type if it is new.
fn add_type<'x>(
    alloc: Global,
    schema: &ValidatorSchema,
    env: &RequestEnv<'_>,
    ty: &CedarType,
    known: &CapabilitySet<'x>,
    part: &'x Expr,
    types: &mut Vec<TypedPart>,
) -> Result<(), AllocError> {
    for typed in types.iter_mut() {
        if typed.ty == *ty {
            typed.count = typed.count.saturating_add(1);
            return Ok(());
        }
    }
    types.push(TypedPart {
        ty: ty.clone()?,
        known: known_attributes(alloc, schema, ty, known, part)?,
        request: env.to_request_type(alloc)?,
        count: 1,
    })?;
    Ok(())
}

/// The policy without its conditions.
fn scope_alone(alloc: Global, template: &Template) -> Result<Template, AllocError> {
    let principal = PrincipalConstraint {
        constraint: template.principal_constraint.constraint.clone()?,
    };
    let resource = ResourceConstraint {
        constraint: template.resource_constraint.constraint.clone()?,
    };
    let action = template.action_constraint.try_clone(alloc)?;
    let id = template.id.clone()?;
    Ok(Template::new(id, template.loc, principal, action, resource, None))
}

/// Whether a constraint names one action, and it is not the environment's.
fn names_other_action(constraint: &ActionConstraint, env: &RequestEnv<'_>) -> bool {
    match (constraint, env.action_entity_uid()) {
        (ActionConstraint::Eq(named), Some(action)) => *named != *action,
        _ => false,
    }
}

/// Whether a scope may be true in an environment.
fn is_admitted<C: ArgumentCheck>(
    alloc: Global,
    typechecker: &Typechecker<'_, C>,
    scope: &Template,
    env: &RequestEnv<'_>,
) -> Result<bool, AllocError> {
    let check = typechecker.typecheck_by_single_request_env(alloc, scope, env)?;
    Ok(!matches!(check, PolicyCheck::Irrelevant(_, _)))
}

/// The optional attributes of a part that are known to be there.
fn known_attributes<'x>(
    alloc: Global,
    schema: &ValidatorSchema,
    ty: &CedarType,
    prior: &CapabilitySet<'x>,
    part: &'x Expr,
) -> Result<Vec<RcStr>, AllocError> {
    let mut known = Vec::new(alloc);
    let attributes = ty.attributes(alloc, schema)?;
    for (name, attribute) in attributes.attrs.iter() {
        if attribute.is_required {
            continue;
        }
        let capability = Capability::new_attribute(part, name.clone()?);
        if prior.contains(&capability) {
            known.push(name.clone()?)?;
        }
    }
    Ok(known)
}

/// The capabilities behind guards; `None` if a guard cannot hold, because the part behind it is never evaluated then.
fn known_behind<'x, C: ArgumentCheck>(
    alloc: Global,
    typechecker: &Typechecker<'_, C>,
    id: &PolicyID,
    env: &RequestEnv<'_>,
    guards: &[Guard<'x>],
) -> Result<Option<CapabilitySet<'x>>, AllocError> {
    let mut known = CapabilitySet::new(alloc);
    for guard in guards {
        let (test, never) = match guard {
            Guard::True(test) => (*test, BoolType::False),
            Guard::False(test) => (*test, BoolType::True),
        };
        let check = typechecker.typecheck_expr(alloc, id, env, &known, test)?;
        if check.answer.contains_type(&CedarType::Bool(never)) {
            return Ok(None);
        }
        if never == BoolType::False {
            known = with_capabilities(alloc, known, &check)?;
        }
    }
    Ok(Some(known))
}

/// The known capabilities, together with those that a test gives if it is true.
fn with_capabilities<'x>(
    alloc: Global,
    known: CapabilitySet<'x>,
    test: &ExpressionCheck<'x>,
) -> Result<CapabilitySet<'x>, AllocError> {
    match &test.answer {
        TypecheckAnswer::TypecheckSuccess {
            expr_capability,
            ..
        } => known.union(alloc, expr_capability),
        _ => Ok(known),
    }
}
