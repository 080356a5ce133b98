// Membership in sets of entity types, and in the descendants of a type.
ghost use Rattle.std.specs.Prelude.{◌≡◌};
ghost use Rattle.std.specs.List.{list_any};
ghost use Rattle.cedar_types.specs.Names.{type_of, path_eq};
ghost use Rattle.cedar_types.specs.Schemas.Contents.{schema_of};
ghost use Rattle.cedar_types.specs.Schemas.{is_among, descendants_of};
ghost use Rattle.cedar_types.specs.Types.{types_of};

use cedar_types::base::{EntityType, ValidatorSchema};
use std::collections::BTreeSet;

/// Whether two entity types have the same name.
pub(crate) fn is_same_type(left: &EntityType, right: &EntityType) -> bool
    ensures { result ≡ path_eq (type_of left.now) (type_of right.now) }
{
    left == right
}

/// Whether a set of types has this type.
pub(crate) fn has_type(types: &BTreeSet<EntityType>, name: &EntityType) -> bool
    ensures { result ≡ is_among (types_of types.now) (type_of name.now) }
{
    types.contains(name)
}

/// Whether the type `below` is declared as a descendant of the type `above`.
pub(crate) fn is_declared_below(
    schema: &ValidatorSchema,
    above: &EntityType,
    below: &EntityType,
) -> bool
    ensures { result
        ≡ is_among (descendants_of (schema_of schema.now).types (type_of above.now))
        (type_of below.now) }
{
    match schema.get_entity_type(above) {
        Some(declared) => has_type(&declared.descendants, below),
        None => false,
    }
}

/// Whether a type of the set is declared as a descendant of the type `above`.
pub(crate) fn has_declared_below(
    schema: &ValidatorSchema,
    above: &EntityType,
    types: &BTreeSet<EntityType>,
) -> bool
    ensures { result
        ≡ list_any (is_among (descendants_of (schema_of schema.now).types (type_of above.now)))
        (types_of types.now) }
{
    for below in types.iter() {
        if is_declared_below(schema, above, below) {
            return true;
        }
    }
    false
}
