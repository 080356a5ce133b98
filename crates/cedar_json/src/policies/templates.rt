// One policy: its effect, its scope and its conditions.
use crate::forms::{FormError, FormFault, Object, check_annotations, expected, items_of, text_of};
use crate::policies::constraints::{action_constraint, entity_constraint};
use crate::policies::entities::Slots;
use crate::policies::expressions::{Depth, expression};
use crate::values::{MAX_DEPTH, Value};
use cedar_types::base::{
    Effect, Expr, Loc, PolicyID, PrincipalConstraint, ResourceConstraint, SlotId, Template,
};
use std::alloc::Global;

/// A policy that was read: its effect, and its template.
#[derive(Debug, Drop)]
pub struct ReadPolicy {
    pub effect: Effect,
    pub template: Template,
}

/// Reads a policy of this id, which stands at this place.
pub fn policy(
    alloc: Global,
    slots: &Slots,
    id: PolicyID,
    body: &Value,
    place: Loc,
) -> Result<ReadPolicy, FormError> {
    let object = Object::of(body)?;
    object.allow(&[
        "effect",
        "principal",
        "action",
        "resource",
        "conditions",
        "annotations",
    ])?;
    check_annotations(object)?;
    let effect = effect(object.need("effect")?)?;
    let principal = object.need("principal")?;
    let resource = object.need("resource")?;
    let principal = entity_constraint(alloc, slots, SlotId::Principal, principal)?;
    let action = action_constraint(alloc, object.need("action")?)?;
    let resource = entity_constraint(alloc, slots, SlotId::Resource, resource)?;
    let rest = conditions(alloc, slots, object.get("conditions"))?;
    let template = Template::new(
        id,
        Some(place),
        PrincipalConstraint {
            constraint: principal,
        },
        action,
        ResourceConstraint {
            constraint: resource,
        },
        rest,
    );
    Ok(ReadPolicy { effect, template })
}

/// Reads the effect of a policy.
fn effect(value: &Value) -> Result<Effect, FormError> {
    match text_of(value)? {
        "permit" => Ok(Effect::Permit),
        "forbid" => Ok(Effect::Forbid),
        _ => Err(expected(value, "`permit` or `forbid`")),
    }
}

/// Reads the conditions of a policy, all of which have to hold.
fn conditions(
    alloc: Global,
    slots: &Slots,
    value: Option<&Value>,
) -> Result<Option<Expr>, FormError> {
    let Some(value) = value else {
        return Ok(None);
    };
    let items = items_of(value)?;
    // each condition nests those before it one deeper
    if items.len() > MAX_DEPTH {
        return Err(FormError::At(value.place.start, FormFault::TooDeep));
    }
    let mut whole = None;
    for item in items {
        let next = condition(alloc, slots, item)?;
        whole = Some(with_next(alloc, value.place.start, whole, next, item.place)?);
    }
    Ok(whole)
}

/// Joins both conditions, from `start` to the end of the next one. Without a condition before, it
/// is the next one alone.
fn with_next(
    alloc: Global,
    start: usize,
    before: Option<Expr>,
    next: Expr,
    place: Loc,
) -> Result<Expr, FormError> {
    let Some(before) = before else {
        return Ok(next);
    };
    let whole = Expr::and(alloc, before, next)?;
    Ok(whole.with_maybe_source_loc(Some(Loc {
        start,
        end: place.end,
    })))
}

/// Reads a condition. The body of `unless` is negated.
fn condition(alloc: Global, slots: &Slots, value: &Value) -> Result<Expr, FormError> {
    let object = Object::of(value)?;
    object.allow(&["kind", "body"])?;
    let kind = object.need("kind")?;
    let depth = Depth {
        alloc,
        left: MAX_DEPTH,
        is_copied: false,
    };
    let read = expression(slots, object.need("body")?, depth)?;
    match text_of(kind)? {
        "when" => Ok(read),
        "unless" => {
            let whole = Expr::not(alloc, read)?;
            Ok(whole.with_maybe_source_loc(Some(value.place)))
        }
        _ => Err(expected(kind, "`when` or `unless`")),
    }
}
