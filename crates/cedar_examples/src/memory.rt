//! Entities in memory, each with one attribute.
ghost use Rattle.std.specs.Prelude.{◌≡◌, IfOk, map};
ghost use Rattle.cedar_types.specs.Names.{uid_of, uid_eq};

use cedar_host::loading::Entities;
use cedar_types::base::EntityUID;
use std::alloc::{AllocError, Global};
use std::cell::Cell;
use std::rc::RcStr;

/// An entity, whose one attribute is a set of others.
#[derive(Drop)]
pub struct Linked {
    pub id: EntityUID,
    pub links: Vec<EntityUID>,
}

/// Entities, the number of questions for the ids inside one, and the greatest number of ids at any of them, counted by the ids
/// that share the name of their type.
#[derive(Drop)]
pub struct Memory {
    pub entities: Vec<Linked>,
    pub asked: Cell<i64>,
    pub most: Cell<usize>,
}

impl Entities for Memory {
    ghost use Rattle.std.specs.Prelude.{map};
    ghost use Rattle.cedar_examples.specs.Memory.{stored, links_of, links_are_held};

    ghost store = { λ m. map stored m.entities.items };

    ghost answered = { λ m u. links_of m.entities.items u };

    ghost complete = { λ m u. links_are_held m.entities.items u };

    fn held(&self, alloc: Global, id: &EntityUID) -> Result<Vec<EntityUID>, AllocError> {
        self.asked.set(self.asked.get().wrapping_add(1));
        let sharing = RcStr::strong_count(&id.entity_type.name.basename);
        self.most.set(self.most.get().max(sharing));
        for entity in &self.entities {
            if is_same(id, &entity.id) {
                return copies(alloc, &entity.links);
            }
        }
        Ok(Vec::new(alloc))
    }
}

fn is_same(one: &EntityUID, other: &EntityUID) -> bool
    ensures { result ≡ uid_eq (uid_of one.now) (uid_of other.now) }
{
    one == other
}

fn copies(alloc: Global, ids: &[EntityUID]) -> Result<Vec<EntityUID>, AllocError>
    ensures { IfOk result (λ v. map uid_of v.items ≡ map uid_of ids.now) }
{
    let mut copies = Vec::with_capacity(alloc, ids.len())?;
    for id in ids {
        copies.push(id.clone()?)?;
    }
    Ok(copies)
}
