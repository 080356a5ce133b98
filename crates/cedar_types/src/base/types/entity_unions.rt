// Unions of sets of entity types, and common members.
ghost use Rattle.std.specs.Prelude.{◌≡◌, IfOk};
ghost use Rattle.std.specs.List.{list_any};
ghost use Rattle.cedar_types.specs.Names.{type_of, path_eq};
ghost use Rattle.cedar_types.specs.Types.{lub_of, types_of};
ghost use Rattle.cedar_types.specs.Types.Bounds.{union};

use crate::base::names::entities::EntityType;
use crate::base::types::entity_sets::EntityLUB;
use std::alloc::AllocError;
use std::collections::BTreeSet;

/// The union of both sets.
pub(crate) fn union_of(
    xs: &BTreeSet<EntityType>,
    ys: &BTreeSet<EntityType>,
) -> Result<BTreeSet<EntityType>, AllocError>
    ensures { IfOk result (λ all. types_of all ≡ union (types_of xs.now) (types_of ys.now)) }
{
    let mine = xs.clone()?;
    let all = add_types(mine, ys)?;
    Ok(all)
}

/// The union of both sets. The call consumes the first.
pub(crate) fn add_types(
    xs: BTreeSet<EntityType>,
    ys: &BTreeSet<EntityType>,
) -> Result<BTreeSet<EntityType>, AllocError>
    ensures { IfOk result (λ all. types_of all ≡ union (types_of xs) (types_of ys.now)) }
{
    let mut all = xs;
    for y in ys.iter() {
        all.insert(y.clone()?)?;
    }
    Ok(all)
}

/// Whether some type is in both sets.
pub(crate) fn shares(xs: &BTreeSet<EntityType>, ys: &EntityLUB) -> bool
    ensures { result ≡ list_any (λ k. list_any (path_eq (type_of k)) (lub_of ys.now)) xs.now.keys }
{
    xs.iter().any(|x| ys.contains_entity_type(x))
}
