// Numbers for the ids of a list of entities, in the order of the ids.
use crate::listed::List;
use crate::reached::Ancestors;
use cedar_conformance::ids::Ids;
use cedar_types::base::EntityUID;
use std::alloc::{AllocError, Global};
use std::collections::BTreeSet;
use std::rc::Rc;

/// The ids of listed entities and of their parents, and the ids that the parents are declared to be
/// in. The number of an id is its place in their order.
#[derive(Drop)]
pub(crate) struct Numbers {
    pub(crate) alloc: Global,
    ids: Vec<Rc<EntityUID>>,
}

impl Numbers {
    /// Collects the ids of a list. It copies each id once.
    pub(crate) fn new(
        alloc: Global,
        list: &List<'_>,
        declared: &Ancestors,
    ) -> Result<Numbers, AllocError> {
        let mut known = BTreeSet::new(alloc);
        for listed in &list.entries {
            add_id(&mut known, &listed.id)?;
            for parent in &listed.parents {
                // A known id needs no second look, because its declared ancestors are known too.
                if add_id(&mut known, &parent.id)? && !list.places.contains_key(&parent.id) {
                    add_declared(&mut known, declared, &parent.id)?;
                }
            }
        }
        let mut ids = Vec::with_capacity(alloc, known.len())?;
        for id in known {
            ids.push(Rc::new(alloc, id)?)?;
        }
        Ok(Numbers { alloc, ids })
    }

    /// Returns the number of ids.
    pub(crate) fn len(&self) -> usize {
        self.ids.len()
    }

    /// Returns the number of an id, if it is one of them.
    pub(crate) fn number_of(&self, id: &EntityUID) -> Option<usize> {
        self.ids.binary_search_by(|own| (**own).cmp(id)).ok()
    }

    /// Returns the id of a number.
    pub(crate) fn id_at(&self, number: usize) -> Option<&EntityUID> {
        match self.ids.get(number) {
            Some(id) => Some(&**id),
            None => None,
        }
    }

    /// Returns the numbers of both lists, in ascending order and each once.
    pub(crate) fn sorted(&self, some: &[usize], more: &[usize]) -> Result<Vec<usize>, AllocError> {
        let mut sorted = Vec::with_capacity(self.alloc, some.len().saturating_add(more.len()))?;
        for number in some {
            sorted.push(*number)?;
        }
        for number in more {
            sorted.push(*number)?;
        }
        sorted.sort()?;
        sorted.dedup();
        Ok(sorted)
    }

    /// Returns the ids of these numbers.
    pub(crate) fn ids_at(&self, numbers: &[usize]) -> Result<Ids, AllocError> {
        let mut ids = Ids::new(self.alloc);
        ids.reserve(numbers.len())?;
        for number in numbers {
            if let Some(id) = self.ids.get(*number) {
                ids.share(id.clone()?)?;
            }
        }
        Ok(ids)
    }
}

/// Adds the ids that a parent is declared to be in.
fn add_declared(
    known: &mut BTreeSet<EntityUID>,
    declared: &Ancestors,
    parent: &EntityUID,
) -> Result<(), AllocError> {
    if let Some(ancestors) = declared.get(parent) {
        for id in ancestors.as_slice() {
            add_id(known, id)?;
        }
    }
    Ok(())
}

/// Adds an id. Returns whether it is new.
fn add_id(known: &mut BTreeSet<EntityUID>, id: &EntityUID) -> Result<bool, AllocError> {
    if known.contains(id) {
        return Ok(false);
    }
    known.insert(id.clone()?)?;
    Ok(true)
}
