// The actions that the scope of a policy admits, and the types to which they apply.
ghost use Rattle.std.specs.Prelude.{◌≡◌, map, IfOk};
ghost use Rattle.cedar_types.specs.Schemas.Declarations.{application, declared_action};
ghost use Rattle.cedar_types.specs.Names.{placed_uid, uid_of};
ghost use Rattle.cedar_types.specs.Schemas.Contents.{schema_of};
ghost use Rattle.cedar_types.specs.Templates.{action_scope_of, within_actions};
ghost use Rattle.cedar_typechecker.specs.Members.{SameMembers};
ghost use Rattle.cedar_typechecker.specs.Scopes.{declarations, admitted_actions, applications, admitted_applications};

use cedar_types::base::{
    ActionConstraint, EntityUID, ValidatorActionId, ValidatorApplySpec, ValidatorSchema,
};
use std::alloc::{AllocError, Global};

/// The applications of the admitted actions that are defined: the principal types and resource types to which
/// each applies.
pub(crate) fn admitted_applications<'b>(
    schema: &'b ValidatorSchema,
    alloc: Global,
    constraint: &'b ActionConstraint,
) -> Result<Vec<&'b ValidatorApplySpec>, AllocError>
    ensures { IfOk result (λ v. SameMembers
        (map (λ a. application a.now) v.items)
        (admitted_applications (schema_of schema.now) (action_scope_of constraint.now))) }
{
    let actions = admitted_actions(schema, alloc, constraint)?;
    let applications = applications(alloc, actions.as_slice())?;
    Ok(applications)
}

/// The declarations of the actions that the constraint admits.
fn admitted_actions<'b>(
    schema: &'b ValidatorSchema,
    alloc: Global,
    constraint: &'b ActionConstraint,
) -> Result<Vec<&'b ValidatorActionId>, AllocError>
    ensures { IfOk result (λ v. SameMembers
        (map (λ a. declared_action a.now) v.items)
        (admitted_actions (schema_of schema.now).actions (action_scope_of constraint.now))) }
{
    match constraint {
        ActionConstraint::Any => {
            let actions = schema.action_ids(alloc)?;
            Ok(actions)
        }
        ActionConstraint::Eq(uid) => declarations(schema, alloc, &[uid]),
        ActionConstraint::In(uids) => { actions_within(schema, alloc, uids) }
    }
}

/// The declarations of these actions and of their descendants, or none at all if one of them is not declared.
fn actions_within<'b>(
    schema: &'b ValidatorSchema,
    alloc: Global,
    uids: &'b [EntityUID],
) -> Result<Vec<&'b ValidatorActionId>, AllocError>
    ensures { IfOk result (λ v. SameMembers
        (map (λ a. declared_action a.now) v.items)
        (admitted_actions (schema_of schema.now).actions
        (within_actions (map placed_uid uids.now)))) }
{
    let ids = schema.get_actions_in_set(alloc, uids)?;
    match ids {
        Some(ids) => {
            let actions = declarations(schema, alloc, ids.as_slice())?;
            Ok(actions)
        }
        None => Ok(Vec::new(alloc)),
    }
}

/// The declarations of these actions. Actions that are not declared are left out.
fn declarations<'b>(
    schema: &'b ValidatorSchema,
    alloc: Global,
    uids: &[&EntityUID],
) -> Result<Vec<&'b ValidatorActionId>, AllocError>
    ensures { IfOk result (λ v.
        map (λ a. declared_action a.now) v.items
        ≡ declarations (schema_of schema.now).actions (map (λ u. uid_of u.now) uids.now)) }
{
    let mut declared = Vec::new(alloc);
    for uid in uids {
        if let Some(action) = schema.get_action_id(uid) {
            declared.push(action)?;
        }
    }
    Ok(declared)
}

/// The applications of these actions. Actions that are not defined are left out.
fn applications<'b>(
    alloc: Global,
    actions: &[&'b ValidatorActionId],
) -> Result<Vec<&'b ValidatorApplySpec>, AllocError>
    ensures { IfOk result (λ v.
        map (λ a. application a.now) v.items
        ≡ applications (map (λ a. declared_action a.now) actions.now)) }
{
    let mut defined = Vec::new(alloc);
    for action in actions {
        if let Some(applies_to) = action.defined() {
            defined.push(applies_to)?;
        }
    }
    Ok(defined)
}
