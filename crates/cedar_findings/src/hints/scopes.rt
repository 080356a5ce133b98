// Hints against scopes that no action fits.
use cedar_types::base::{
    ActionConstraint, EntityReference, EntityType, EntityUID, PrincipalOrResourceConstraint,
    Template, ValidatorActionId, ValidatorApplySpec, ValidatorSchema,
};
use std::alloc::{AllocError, Global};

/// The side of a scope that a type stands on.
#[derive(Clone, Copy)]
enum Side {
    Principal,
    Resource,
}

/// The side of a scope that names a type which no action applies to, or not the one action of the scope; empty if the reason is
/// another.
pub fn hint_for_scope(
    alloc: Global,
    schema: &ValidatorSchema,
    policy: &Template,
) -> Result<String, AllocError> {
    let action = match &policy.action_constraint {
        ActionConstraint::Eq(action) => Some(action),
        ActionConstraint::Any | ActionConstraint::In(_) => None,
    };
    for side in [Side::Principal, Side::Resource] {
        let constraint = match side {
            Side::Principal => &policy.principal_constraint.constraint,
            Side::Resource => &policy.resource_constraint.constraint,
        };
        let Some(named) = type_of(constraint) else {
            continue;
        };
        if !is_applied_to(alloc, schema, action, side, named)? {
            return explain_side(alloc, action, side, named);
        }
    }
    Ok(String::new(alloc))
}

/// The entity type that a constraint admits, if it admits one.
fn type_of(constraint: &PrincipalOrResourceConstraint) -> Option<&EntityType> {
    match constraint {
        PrincipalOrResourceConstraint::Eq(EntityReference::EUID(uid)) => Some(&uid.entity_type),
        PrincipalOrResourceConstraint::Is(named) => Some(named),
        PrincipalOrResourceConstraint::IsIn(named, _) => Some(named),
        _ => None,
    }
}

/// Whether this action applies to this type; if none is given, whether some action does.
fn is_applied_to(
    alloc: Global,
    schema: &ValidatorSchema,
    action: Option<&EntityUID>,
    side: Side,
    named: &EntityType,
) -> Result<bool, AllocError> {
    if let Some(action) = action {
        return Ok(match schema.get_action_id(action) {
            Some(declared) => applies_to(declared, side, named),
            // an undeclared action has an error of its own
            None => true,
        });
    }
    for declared in schema.action_ids(alloc)? {
        if applies_to(declared, side, named) {
            return Ok(true);
        }
    }
    Ok(false)
}

fn applies_to(action: &ValidatorActionId, side: Side, named: &EntityType) -> bool {
    match action.defined() {
        Some(spec) => has_type(spec, side, named),
        None => true,
    }
}

fn has_type(spec: &ValidatorApplySpec, side: Side, named: &EntityType) -> bool {
    match side {
        Side::Principal => spec.principal_apply_spec.contains(named),
        Side::Resource => spec.resource_apply_spec.contains(named),
    }
}

fn explain_side(
    alloc: Global,
    action: Option<&EntityUID>,
    side: Side,
    named: &EntityType,
) -> Result<String, AllocError> {
    let side = match side {
        Side::Principal => "principal",
        Side::Resource => "resource",
    };
    match action {
        Some(action) => {
            format!(in alloc; "`{action}` applies to no {side} of the type `{named}`")
        }
        None => format!(in alloc; "no action applies to a {side} of the type `{named}`"),
    }
}
