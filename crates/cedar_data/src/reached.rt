// Ancestors of all entities of a list: the transitive closure of a graph without circles, by
// Goralčíková and Koubek.
//
// The entities come in topological order. An entity takes over all ancestors of the parent with the
// most. A walk goes upwards from each other parent, and ends at ids that are reached already. A
// parent that another parent reaches adds nothing, and no later walk goes along its edge. An entity
// takes as many steps as it has ancestors, and one for each edge that goes up from an ancestor that
// its first parent lacks.
use crate::listed::{List, Listed};
use crate::numbers::Numbers;
use crate::walks::{Marks, Node};
use cedar_conformance::ids::Ids;
use cedar_types::base::EntityUID;
use std::alloc::{AllocError, Global};
use std::collections::BTreeMap;

/// The number of ancestors that the entities of a text may have together.
pub const MAX_ANCESTORS: usize = 4_000_000;

/// The ancestors of each id.
pub(crate) type Ancestors = BTreeMap<EntityUID, Ids>;

/// The entities of a list and their parents, by numbers.
#[derive(Drop)]
pub(crate) struct Graph {
    numbers: Numbers,
    /// The entities in the order of the list.
    entries: Vec<usize>,
    /// The nodes by number; an id that is not listed has no parents.
    nodes: Vec<Node>,
    marks: Marks,
    /// The number of further ancestors that fit the limit.
    room: usize,
}

impl Graph {
    /// Builds the graph of a list. A parent that is not listed brings the ids that it is declared
    /// to be in.
    pub(crate) fn new(
        alloc: Global,
        list: &List<'_>,
        declared: &Ancestors,
    ) -> Result<Graph, AllocError> {
        let numbers = Numbers::new(alloc, list, declared)?;
        let mut entries = Vec::with_capacity(alloc, list.entries.len())?;
        let mut nodes = Vec::with_capacity(alloc, numbers.len())?;
        for _ in 0..numbers.len() {
            nodes.push(Node::new(alloc))?;
        }
        for listed in &list.entries {
            let number = numbers.number_of(&listed.id).unwrap_or(0);
            entries.push(number)?;
            let own = node_of(&numbers, list, declared, listed)?;
            if let Some(node) = nodes.get_mut(number) {
                *node = own;
            }
        }
        let marks = Marks::new(alloc, numbers.len())?;
        Ok(Graph {
            numbers,
            entries,
            nodes,
            marks,
            room: MAX_ANCESTORS,
        })
    }

    /// Returns all ids that the entity at this place of the list is in. You must call it for each
    /// listed parent first. If the ids, or the steps to them, are too many, the answer is `None`.
    pub(crate) fn close(&mut self, at: usize) -> Result<Option<Ids>, AllocError> {
        let number = self.entries.get(at).copied().unwrap_or(0);
        let closed = self.closed(number)?;
        let found = self.numbers.sorted(&closed.above, &closed.beyond)?;
        let Some(left) = self.room.checked_sub(found.len()) else {
            return Ok(None);
        };
        if !self.marks.has_steps() {
            return Ok(None);
        }
        self.room = left;
        if let Some(node) = self.nodes.get_mut(number) {
            *node = closed;
        }
        let ids = self.numbers.ids_at(&found)?;
        Ok(Some(ids))
    }

    /// Returns a node with all ids that the entity is in.
    fn closed(&mut self, number: usize) -> Result<Node, AllocError> {
        let alloc = self.numbers.alloc;
        let mut closed = Node::new(alloc);
        let Some(own) = self.nodes.get(number) else {
            return Ok(closed);
        };
        let parents = by_size(alloc, &self.nodes, &own.parents)?;
        if let Some((_, first)) = parents.last() {
            if let Some(first) = self.nodes.get(*first) {
                self.marks.take_over(number, first, &mut closed)?;
            }
        }
        for (_, parent) in parents.iter().rev() {
            if self.marks.reaches(number, *parent) {
                closed.parents.push(*parent)?;
                closed.above.push(*parent)?;
                self.marks.walk(number, &self.nodes, *parent, &mut closed)?;
            }
        }
        for other in &own.others {
            closed.others.push(*other)?;
            if self.marks.meets(number, *other) {
                closed.beyond.push(*other)?;
            }
        }
        Ok(closed)
    }
}

/// Returns the node of a listed entity, with its parents.
fn node_of(
    numbers: &Numbers,
    list: &List<'_>,
    declared: &Ancestors,
    listed: &Listed<'_>,
) -> Result<Node, AllocError> {
    let mut node = Node::new(numbers.alloc);
    let mut others = Vec::new(numbers.alloc);
    for parent in &listed.parents {
        if let Some(number) = numbers.number_of(&parent.id) {
            if list.places.contains_key(&parent.id) {
                node.parents.push(number)?;
            } else {
                others.push(number)?;
            }
        }
    }
    others.sort()?;
    others.dedup();
    for other in &others {
        add_other(numbers, &mut node, declared, *other)?;
    }
    node.others.sort()?;
    node.others.dedup();
    Ok(node)
}

/// Adds a parent that is not listed, and the ids that it is declared to be in.
fn add_other(
    numbers: &Numbers,
    node: &mut Node,
    declared: &Ancestors,
    other: usize,
) -> Result<(), AllocError> {
    node.others.push(other)?;
    let Some(id) = numbers.id_at(other) else {
        return Ok(());
    };
    let Some(above) = declared.get(id) else {
        return Ok(());
    };
    for id in above.as_slice() {
        if let Some(number) = numbers.number_of(id) {
            node.others.push(number)?;
        }
    }
    Ok(())
}

/// Returns the parents with their sizes, in ascending order. An entity is larger than each that it
/// is in.
fn by_size(
    alloc: Global,
    nodes: &[Node],
    parents: &[usize],
) -> Result<Vec<(usize, usize)>, AllocError> {
    let mut sized = Vec::with_capacity(alloc, parents.len())?;
    for parent in parents {
        if let Some(node) = nodes.get(*parent) {
            sized.push((node.size(), *parent))?;
        }
    }
    sized.sort()?;
    Ok(sized)
}
