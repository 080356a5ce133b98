// Entities as a program holds them.
ghost use Rattle.std.specs.Prelude.{◌≡◌, ◌↔◌, [], ◌∷◌, ◌++◌, IfOk, IsTrue, OnOk, OnErr, is_some, length, not, option_map};
ghost use Rattle.cedar_types.specs.Names.{uid_of};
ghost use Rattle.cedar_types.specs.Values.Stores.{IsBare, entity_at};
ghost use Rattle.cedar_conformance.specs.Entities.{entity_of, store_of, stored_all, IsSameStore};

use crate::ids::Ids;
use crate::values::Record;
use cedar_types::base::EntityUID;
use std::alloc::{AllocError, Global};
use std::collections::BTreeMap;

/// The stored data of an entity.
#[derive(Debug, Drop)]
pub struct Entity {
    pub attributes: Record,
    /// All entities that the entity is in, at any distance.
    pub ancestors: Ids,
    pub tags: Record,
}

impl Entity {
    /// Makes an entity without attributes, ancestors and tags.
    pub fn bare(alloc: Global) -> Entity
        ensures { IsBare (entity_of result) }
    {
        Entity {
            attributes: BTreeMap::new(alloc),
            ancestors: Ids::new(alloc),
            tags: BTreeMap::new(alloc),
        }
    }
}

/// Entities by their ids. If several entries have one id, the first counts.
#[derive(Debug, Drop)]
pub struct Entities {
    pub(crate) entries: BTreeMap<EntityUID, Entity>,
}

impl Entities {
    /// Makes the store without entities.
    pub fn new(alloc: Global) -> Entities
        ensures { store_of result ≡ [] }
    {
        Entities {
            entries: BTreeMap::new(alloc),
        }
    }

    /// Makes the store of these entries. If several entries have one id, the first counts.
    pub fn from_list(
        alloc: Global,
        listed: Vec<(EntityUID, Entity)>,
    ) -> Result<Entities, AllocError>
        ensures { IfOk result (λ e. IsSameStore (store_of e) (stored_all listed.items)) }
    {
        let mut all = Entities::new(alloc);
        for (id, entity) in listed {
            all.add(id, entity)?;
        }
        Ok(all)
    }

    /// Adds an entity behind the others, and returns whether it counts: it counts if the store had
    /// none of its id. If memory is refused, nothing changes.
    pub fn add(&mut self, id: EntityUID, entity: Entity) -> Result<bool, AllocError>
        ensures ok { OnOk result (IsSameStore (store_of self.new)
            (store_of self.old ++ (uid_of id, entity_of entity) ∷ [])) }
        ensures counts { IfOk result (λ r.
            r ≡ not (is_some (entity_at (store_of self.old) (uid_of id)))) }
        ensures err { OnErr result (store_of self.new ≡ store_of self.old) }
    {
        if self.entries.contains_key(&id) {
            return Ok(false);
        }
        self.entries.insert(id, entity)?;
        Ok(true)
    }

    /// Returns the stored data of the entity of this id.
    pub fn get(&self, id: &EntityUID) -> Option<&Entity>
        ensures { option_map (λ e. entity_of e.now) result
            ≡ entity_at (store_of self.now) (uid_of id.now) }
    {
        self.entries.get(id)
    }

    /// Returns the number of entities.
    pub fn len(&self) -> usize
        ensures { result ≡ length (store_of self.now) }
    {
        self.entries.len()
    }

    /// Returns whether there are no entities.
    pub fn is_empty(&self) -> bool
        ensures { IsTrue result ↔ (length (store_of self.now) ≡ 0) }
    {
        self.len() == 0
    }
}
