// Sets of one entity type alone, which variables, slots and literals of this type share.
ghost use Rattle.std.specs.Prelude.{◌≡◌, [], ◌∷◌, IfOk, OnOk};
ghost use Rattle.cedar_types.specs.Names.{type_of};
ghost use Rattle.cedar_types.specs.Types.{lub_of};
ghost use Rattle.cedar_types.specs.Schemas.References.{HasOwnSets};

use crate::base::names::entities::EntityType;
use crate::base::schema::actions::ValidatorActionId;
use crate::base::schema::entity_types::ValidatorEntityType;
use crate::base::types::entity_sets::EntityLUB;
use std::alloc::{AllocError, Global};
use std::collections::BTreeMap;

/// The set of one type alone, for each entity type of a schema and each type of its actions.
#[derive(Debug, Drop)]
pub(crate) struct EntityReferences {
    sets: BTreeMap<EntityType, EntityLUB>,
    ghost own: { HasOwnSets sets.entries },
}

impl EntityReferences {
    /// The sets of no types.
    pub(crate) fn empty(alloc: Global) -> EntityReferences {
        EntityReferences {
            sets: BTreeMap::new(alloc),
        }
    }

    /// The sets of these types and of the types of these actions.
    pub(crate) fn new(
        alloc: Global,
        types: &[ValidatorEntityType],
        actions: &[ValidatorActionId],
    ) -> Result<EntityReferences, AllocError> {
        let mut sets = BTreeMap::new(alloc);
        for entity_type in types {
            add_set(alloc, &mut sets, &entity_type.name)?;
        }
        for action in actions {
            add_set(alloc, &mut sets, &action.name.entity_type)?;
        }
        Ok(EntityReferences { sets })
    }

    /// The set of this type alone: the shared one, or a new one if there is none.
    pub(crate) fn set_of(&self, alloc: Global, name: &EntityType) -> Result<EntityLUB, AllocError>
        ensures { IfOk result (λ s. lub_of s ≡ type_of name.now ∷ []) }
    {
        match self.sets.get(name) {
            Some(set) => Ok(set.clone()?),
            None => EntityLUB::single_entity(alloc, name.clone()?),
        }
    }
}

/// Adds the set of a type alone, unless it is there.
fn add_set(
    alloc: Global,
    sets: &mut BTreeMap<EntityType, EntityLUB>,
    name: &EntityType,
) -> Result<(), AllocError>
    requires { HasOwnSets sets.old.entries }
    ensures { OnOk result (HasOwnSets sets.new.entries) }
{
    if sets.contains_key(name) {
        return Ok(());
    }
    let key = name.clone()?;
    let set = EntityLUB::single_entity(alloc, name.clone()?)?;
    drop(sets.insert(key, set)?);
    Ok(())
}
