// The actions that the scope of a policy admits, where the schema alone decides which.
ghost use Rattle.std.specs.Prelude.{◌≡◌, map, option_map, IfOk};
ghost use Rattle.cedar_types.specs.Names.{Uid, type_of, uid_of};
ghost use Rattle.cedar_types.specs.Schemas.{uid_is_among};
ghost use Rattle.cedar_types.specs.Schemas.Contents.{schema_of};
ghost use Rattle.cedar_types.specs.Templates.{action_scope_of};
ghost use Rattle.cedar_typechecker.specs.LeftOut.{are_of_type, are_of_one_action_type, AdmitsIfDecided};

use crate::rbac::members::is_same_type;
use cedar_types::base::{ActionConstraint, EntityType, EntityUID, ValidatorSchema};
use std::alloc::{AllocError, Global};
use std::collections::BTreeSet;

/// The actions that a scope admits, where the schema alone decides that: where it names one, or lists declared ones of one
/// type.
pub(crate) fn admitted(
    alloc: Global,
    schema: &ValidatorSchema,
    scope: &ActionConstraint,
) -> Result<Option<BTreeSet<EntityUID>>, AllocError>
    ensures { IfOk result (λ o. AdmitsIfDecided (schema_of schema.now).actions
        (action_scope_of scope.now) (option_map (λ us. map uid_of us.keys) o)) }
{
    match scope {
        ActionConstraint::Any => Ok(None),
        ActionConstraint::Eq(action) => {
            let mut only = BTreeSet::new(alloc);
            only.insert(action.clone()?)?;
            Ok(Some(only))
        }
        ActionConstraint::In(actions) => {
            if !are_of_one_action_type(actions) {
                return Ok(None);
            }
            match schema.get_actions_in_set(alloc, actions)? {
                None => Ok(None),
                Some(within) => Ok(Some(set_of(alloc, &within)?)),
            }
        }
    }
}

/// Whether these are of one type, which is an action's.
fn are_of_one_action_type(actions: &[EntityUID]) -> bool
    ensures { result ≡ are_of_one_action_type (map uid_of actions.now) }
{
    match actions.first() {
        None => false,
        Some(first) => { first.entity_type.is_action() && are_of_type(&first.entity_type, actions) }
    }
}

fn are_of_type(entity_type: &EntityType, actions: &[EntityUID]) -> bool
    ensures { result ≡ are_of_type (type_of entity_type.now) (map uid_of actions.now) }
{
    actions
        .iter()
        .all(|action| is_same_type(&action.entity_type, entity_type))
}

/// The set of these.
fn set_of(alloc: Global, actions: &[&EntityUID]) -> Result<BTreeSet<EntityUID>, AllocError>
    ensures { IfOk result (λ s. (u : Uid) → uid_is_among (map uid_of s.keys) u
        ≡ uid_is_among (map (λ a. uid_of a.now) actions.now) u) }
{
    let mut set = BTreeSet::new(alloc);
    for action in actions.iter() {
        set.insert((*action).clone()?)?;
    }
    Ok(set)
}
