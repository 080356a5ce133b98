// Whether the scope of a policy admits a type to which an action applies.
ghost use Rattle.std.specs.Prelude.{◌≡◌};
ghost use Rattle.std.specs.List.{list_any};
ghost use Rattle.cedar_types.specs.Environments.Linking.{type_names};
ghost use Rattle.cedar_types.specs.Names.{type_of};
ghost use Rattle.cedar_types.specs.Schemas.Contents.{schema_of};
ghost use Rattle.cedar_types.specs.Schemas.Listings.{types_within};
ghost use Rattle.cedar_types.specs.Schemas.{is_among, declares_type, descendants_of};
ghost use Rattle.cedar_types.specs.Templates.{scope_of};
ghost use Rattle.cedar_types.specs.Types.{types_of};
ghost use Rattle.cedar_typechecker.specs.Scopes.{admitted_types, only_if};

use crate::rbac::entity_types::is_within;
use crate::rbac::members::has_type;
use cedar_types::base::{
    EntityReference, EntityType, PrincipalOrResourceConstraint, ValidatorSchema,
};
use std::collections::BTreeSet;

/// Whether a constraint admits a type of this set. The set is an action's, which has few types, so we ask the schema for these
/// and list none of the types that the constraint admits, which may be thousands.
pub(crate) fn admits_any(
    schema: &ValidatorSchema,
    constraint: &PrincipalOrResourceConstraint,
    types: &BTreeSet<EntityType>,
) -> bool
    ensures { result
        ≡ list_any (is_among (types_of types.now))
        (admitted_types (schema_of schema.now) (scope_of constraint.now)) }
{
    match constraint {
        PrincipalOrResourceConstraint::Any => has_declared(schema, types),
        PrincipalOrResourceConstraint::Eq(EntityReference::Slot) => has_declared(schema, types),
        PrincipalOrResourceConstraint::In(EntityReference::Slot) => has_declared(schema, types),
        PrincipalOrResourceConstraint::Eq(EntityReference::EUID(uid)) => {
            has_type_if(types, true, &uid.entity_type)
        }
        PrincipalOrResourceConstraint::In(EntityReference::EUID(uid)) => {
            has_within(schema, types, &uid.entity_type)
        }
        PrincipalOrResourceConstraint::Is(entity_type)
        | PrincipalOrResourceConstraint::IsIn(entity_type, EntityReference::Slot) => {
            let is_known = schema.is_known_entity_type(entity_type);
            has_type_if(types, is_known, entity_type)
        }
        PrincipalOrResourceConstraint::IsIn(entity_type, EntityReference::EUID(uid)) => {
            let is_within = is_within(schema, &uid.entity_type, entity_type);
            has_type_if(types, is_within, entity_type)
        }
    }
}

/// Whether the set has this type, if the test holds.
fn has_type_if(types: &BTreeSet<EntityType>, holds: bool, entity_type: &EntityType) -> bool
    ensures { result
        ≡ list_any (is_among (types_of types.now)) (only_if holds (type_of entity_type.now)) }
{
    holds && has_type(types, entity_type)
}

/// Whether the set has a declared type.
fn has_declared(schema: &ValidatorSchema, types: &BTreeSet<EntityType>) -> bool
    ensures { result
        ≡ list_any (is_among (types_of types.now)) (type_names (schema_of schema.now).types) }
{
    declares_any(schema, types)
}

/// Whether the schema declares a type of the set.
fn declares_any(schema: &ValidatorSchema, types: &BTreeSet<EntityType>) -> bool
    ensures { result
        ≡ list_any (declares_type (schema_of schema.now).types) (types_of types.now) }
{
    for entity_type in types.iter() {
        if declares(schema, entity_type) {
            return true;
        }
    }
    false
}

fn declares(schema: &ValidatorSchema, entity_type: &EntityType) -> bool
    ensures { result ≡ declares_type (schema_of schema.now).types (type_of entity_type.now) }
{
    schema.get_entity_type(entity_type).is_some()
}

/// Whether the set has the type `above` or a descendant of it.
fn has_within(schema: &ValidatorSchema, types: &BTreeSet<EntityType>, above: &EntityType) -> bool
    ensures { result
        ≡ list_any (is_among (types_of types.now))
        (types_within (schema_of schema.now).types (type_of above.now)) }
{
    has_type(types, above) || has_below(schema, types, above)
}

/// Whether the set has a descendant of the type `above`.
fn has_below(schema: &ValidatorSchema, types: &BTreeSet<EntityType>, above: &EntityType) -> bool
    ensures { result
        ≡ list_any (is_among (types_of types.now))
        (descendants_of (schema_of schema.now).types (type_of above.now)) }
{
    match schema.get_entity_type(above) {
        Some(declared) => share_a_type(types, &declared.descendants),
        None => false,
    }
}

/// Whether two sets share a type.
fn share_a_type(types: &BTreeSet<EntityType>, others: &BTreeSet<EntityType>) -> bool
    ensures { result ≡ list_any (is_among (types_of types.now)) (types_of others.now) }
{
    for other in others.iter() {
        if has_type(types, other) {
            return true;
        }
    }
    false
}
