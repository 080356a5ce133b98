// The flags of the warning that no action fits: whether `in` in place of `==` might help.
ghost use Rattle.std.specs.Prelude.{◌≡◌, map, option_map};
ghost use Rattle.std.specs.List.{list_any};
ghost use Rattle.cedar_types.specs.Schemas.Declarations.{application};
ghost use Rattle.cedar_types.specs.Names.{type_of};
ghost use Rattle.cedar_types.specs.Schemas.Contents.{schema_of};
ghost use Rattle.cedar_types.specs.Schemas.{is_among, descendants_of};
ghost use Rattle.cedar_types.specs.Templates.{scope_of};
ghost use Rattle.cedar_types.specs.Types.{types_of};
ghost use Rattle.cedar_typechecker.specs.Applications.{types_on, equal_type, in_might_help};

use crate::rbac::members::{has_declared_below, has_type};
use cedar_types::base::{
    EntityReference, EntityType, PrincipalOrResourceConstraint, ValidatorApplySpec, ValidatorSchema,
};
use std::collections::BTreeSet;

/// A variable of the scope whose value is an entity with a type that the constraint limits.
#[derive(Clone, Copy, Debug)]
pub(crate) enum Side {
    Principal,
    Resource,
}

/// Whether `in` might help: the constraint is `==` an entity whose type no application lists, and one lists
/// a descendant of it.
pub(crate) fn in_might_help(
    schema: &ValidatorSchema,
    side: Side,
    applications: &[&ValidatorApplySpec],
    constraint: &PrincipalOrResourceConstraint,
) -> bool
    ensures { result
        ≡ in_might_help (schema_of schema.now) side
        (map (λ a. application a.now) applications.now) (scope_of constraint.now) }
{
    match equal_type(constraint) {
        Some(named) => {
            // if an application lists the type itself, `==` is not the reason that none fits
            !list_type(side, applications, named) && list_below(schema, side, applications, named)
        }
        None => false,
    }
}

/// The type of the entity that the variable must equal; `None` for another constraint.
fn equal_type(constraint: &PrincipalOrResourceConstraint) -> Option<&EntityType>
    ensures { option_map (λ t. type_of t.now) result ≡ equal_type (scope_of constraint.now) }
{
    match constraint {
        PrincipalOrResourceConstraint::Eq(EntityReference::EUID(uid)) => Some(&uid.entity_type),
        _ => None,
    }
}

/// Whether some application lists this type.
fn list_type(side: Side, applications: &[&ValidatorApplySpec], named: &EntityType) -> bool
    ensures { result
        ≡ list_any (λ a. is_among (types_on side a) (type_of named.now))
        (map (λ a. application a.now) applications.now) }
{
    applications
        .iter()
        .any(|applies_to| has_type(types_on(side, applies_to), named))
}

/// Whether some application lists a type that is declared as a descendant of this one.
fn list_below(
    schema: &ValidatorSchema,
    side: Side,
    applications: &[&ValidatorApplySpec],
    named: &EntityType,
) -> bool
    ensures { result
        ≡ list_any
        (λ a. list_any
        (is_among (descendants_of (schema_of schema.now).types (type_of named.now)))
        (types_on side a))
        (map (λ a. application a.now) applications.now) }
{
    applications.iter().any(|applies_to| has_declared_below(
        schema,
        named,
        types_on(side, applies_to),
    ))
}

/// The types of principals, or of resources, to which an action applies.
fn types_on(side: Side, applies_to: &ValidatorApplySpec) -> &BTreeSet<EntityType>
    ensures { types_of result.now ≡ types_on side (application applies_to.now) }
{
    match side {
        Side::Principal => &applies_to.principal_apply_spec,
        Side::Resource => &applies_to.resource_apply_spec,
    }
}
