// Sets of entity types that are never empty.
ghost use Rattle.std.specs.Prelude.{◌≡◌, true};
ghost use Rattle.cedar_types.specs.Names.Ascending.{has_members, types_ascend};

use crate::base::names::entities::EntityType;
use crate::base::types::entity_unions::{add_types, shares, union_of};
use std::alloc::{AllocError, Global};
use std::collections::btree_set::{self, BTreeSet};
use std::rc::Rc;

/// A set of entity types, never empty: a value has one of them.
#[derive(PartialEq, Eq, PartialOrd, Ord, Hash, Debug, Drop)]
pub struct EntityLUB {
    pub(crate) lub_elements: Rc<BTreeSet<EntityType>>,
    ghost has_members: { has_members lub_elements.value.keys ≡ true },
    ghost ascends: { types_ascend lub_elements.value.keys ≡ true },
}

impl Clone for EntityLUB {
    ghost use Rattle.std.specs.Prelude.{◌≡◌};

    ghost is_clone = { λ s t. t.lub_elements.value ≡ s.lub_elements.value };

    fn clone(&self) -> Result<EntityLUB, AllocError> {
        Ok(EntityLUB {
            lub_elements: self.lub_elements.clone()?,
        })
    }
}

#[tactic(auto, unfolding(crate::specs::Types::lub_of))]
impl EntityLUB {
    ghost use Rattle.std.specs.Map.Iter.{ShowsInOrder, deref};
    ghost use Rattle.cedar_types.specs.declared.base.names.entities.EntityType.{EntityType};
    ghost use Rattle.std.specs.Prelude.{◌≡◌, [], ◌∷◌, IfOk, map, option_map, not};
    ghost use Rattle.std.specs.List.{list_any};
    ghost use Rattle.cedar_types.specs.Names.{type_of, path_eq};
    ghost use Rattle.cedar_types.specs.Types.{lub_of, types_of, lub_from, sole};
    ghost use Rattle.cedar_types.specs.Types.Bounds.{union, share_member};

    /// The set of this one type.
    pub fn single_entity(
        alloc: Global,
        entity_type_name: EntityType,
    ) -> Result<EntityLUB, AllocError>
        ensures { IfOk result (λ s. lub_of s ≡ type_of entity_type_name ∷ []) }
    {
        let mut types = BTreeSet::new(alloc);
        types.insert(entity_type_name)?;
        EntityLUB::of_members(alloc, types)
    }

    /// The set of these types; `None` if there are none.
    pub fn from_types(
        alloc: Global,
        types: BTreeSet<EntityType>,
    ) -> Result<Option<EntityLUB>, AllocError>
        ensures { IfOk result (λ o. option_map lub_of o ≡ lub_from (types_of types)) }
    {
        if types.len() == 0 {
            return Ok(None);
        }
        Ok(Some(EntityLUB::of_members(alloc, types)?))
    }

    fn of_members(alloc: Global, types: BTreeSet<EntityType>) -> Result<EntityLUB, AllocError>
        requires { has_members types.keys ≡ true }
        ensures { IfOk result (λ s. lub_of s ≡ types_of types) }
    {
        prove!(types.len() > 0);
        Ok(EntityLUB {
            lub_elements: Rc::new(alloc, types)?,
        })
    }

    /// The types, in ascending order.
    pub fn iter(&self) -> btree_set::Iter<'_, EntityType>
        ensures rest { map type_of result ≡ lub_of self.now }
        ensures runs { ShowsInOrder (deref {X = EntityType}) }
    {
        self.lub_elements.iter()
    }

    /// Whether this type is in the set.
    pub fn contains_entity_type(&self, entity_type: &EntityType) -> bool
        ensures { result ≡ list_any (path_eq (type_of entity_type.now)) (lub_of self.now) }
    {
        self.lub_elements.contains(entity_type)
    }

    /// The only type of the set; `None` if it has several.
    pub fn get_single_entity(&self) -> Option<&EntityType>
        ensures { option_map (λ t. type_of t.now) result ≡ sole (lub_of self.now) }
    {
        let mut types = self.lub_elements.iter();
        let first = types.next()?;
        match types.next() {
            Some(_) => None,
            None => Some(first),
        }
    }

    /// The union of both sets.
    pub fn least_upper_bound(
        &self,
        alloc: Global,
        other: &EntityLUB,
    ) -> Result<EntityLUB, AllocError>
        ensures { IfOk result (λ s. lub_of s ≡ union (lub_of self.now) (lub_of other.now)) }
    {
        let all = union_of(&self.lub_elements, &other.lub_elements)?;
        EntityLUB::of_members(alloc, all)
    }

    /// The union of both sets. The call consumes this set, and copies it only if it is shared.
    pub(crate) fn into_union(
        self,
        alloc: Global,
        other: &EntityLUB,
    ) -> Result<EntityLUB, AllocError>
        ensures { IfOk result (λ s. lub_of s ≡ union (lub_of self) (lub_of other.now)) }
    {
        let mine = Rc::unwrap_or_clone(self.lub_elements)?;
        let all = add_types(mine, &other.lub_elements)?;
        let united = EntityLUB::of_members(alloc, all)?;
        Ok(united)
    }

    /// Whether no type is in both sets.
    pub fn is_disjoint(&self, other: &EntityLUB) -> bool
        ensures { result ≡ not (share_member (lub_of self.now) (lub_of other.now)) }
    {
        !shares(&self.lub_elements, other)
    }
}
