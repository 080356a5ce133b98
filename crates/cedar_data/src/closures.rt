// Closures: the ancestors of listed entities, in topological order by Kahn's algorithm, and the
// circles that the algorithm leaves.
use crate::collected::Collected;
use crate::faults::Problem;
use crate::listed::{List, Listed, Parent};
use crate::reached::{Ancestors, Graph};
use cedar_types::base::Loc;
use std::alloc::{AllocError, Global};
use std::collections::BTreeMap;

/// Gives each entity of a list its ancestors. Actions that the list lacks get their declared ones.
/// Entities in a circle, or below one, get none, and each circle is listed as a mistake.
pub(crate) fn add_ancestors(
    collected: &mut Collected<'_>,
    list: &mut List<'_>,
    declared: &Ancestors,
) -> Result<(), AllocError> {
    let mut order = Order::new(collected.alloc, list)?;
    let mut graph = Graph::new(collected.alloc, list, declared)?;
    for _ in 0..list.entries.len() {
        let Some(at) = order.next()? else {
            break;
        };
        let Some(ancestors) = graph.close(at)? else {
            return add_excess(collected, list, at);
        };
        if let Some(listed) = list.entries.get_mut(at) {
            listed.entity.ancestors = ancestors;
        }
    }
    add_cycles(collected, list, &order)
}

/// Lists that there are too many ancestors, at the entity that exceeds a limit.
fn add_excess(collected: &mut Collected<'_>, list: &List<'_>, at: usize) -> Result<(), AllocError> {
    let place = match list.entries.get(at) {
        Some(listed) => listed.place,
        None => Loc { start: 0, end: 0 },
    };
    collected.faults.add(place, Problem::TooManyAncestors)
}

/// The entities of a list, each after the listed entities that it is in.
#[derive(Drop)]
struct Order {
    /// The children of each entity: those that have it as a parent.
    children: Vec<Vec<usize>>,
    /// The number of parents of each entity that did not come yet.
    waiting: Vec<usize>,
    ready: Vec<usize>,
}

impl Order {
    /// Starts with all entities still to come.
    fn new(alloc: Global, list: &List<'_>) -> Result<Order, AllocError> {
        let mut order = Order {
            children: Vec::with_capacity(alloc, list.entries.len())?,
            waiting: Vec::with_capacity(alloc, list.entries.len())?,
            ready: Vec::new(alloc),
        };
        for _ in &list.entries {
            order.children.push(Vec::new(alloc))?;
        }
        for (at, listed) in list.entries.iter().enumerate() {
            let mut count = 0usize;
            for parent in &listed.parents {
                if let Some(above) = list.places.get(&parent.id) {
                    count = count.saturating_add(1);
                    order.add_child(*above, at)?;
                }
            }
            order.waiting.push(count)?;
            if count == 0 {
                order.ready.push(at)?;
            }
        }
        Ok(order)
    }

    fn add_child(&mut self, above: usize, at: usize) -> Result<(), AllocError> {
        if let Some(children) = self.children.get_mut(above) {
            children.push(at)?;
        }
        Ok(())
    }

    /// Takes the next entity, if one is ready.
    fn next(&mut self) -> Result<Option<usize>, AllocError> {
        let Some(at) = self.ready.pop() else {
            return Ok(None);
        };
        if let Some(children) = self.children.get(at) {
            for child in children {
                if ends_wait(&mut self.waiting, *child) {
                    self.ready.push(*child)?;
                }
            }
        }
        Ok(Some(at))
    }

    /// Returns whether an entity did not come.
    fn is_left(&self, at: usize) -> bool {
        self.waiting.get(at).copied().unwrap_or(0) > 0
    }

    /// Returns a parent that did not come either, and its place in the list. Each entity that is
    /// left has one.
    fn parent_left<'a>(
        &self,
        list: &List<'_>,
        listed: &'a Listed<'_>,
    ) -> Option<(&'a Parent, usize)> {
        for parent in &listed.parents {
            if let Some(above) = list.places.get(&parent.id) {
                if self.is_left(*above) {
                    return Some((parent, *above));
                }
            }
        }
        None
    }
}

/// Counts one parent of an entity as done. Returns whether it was the last.
fn ends_wait(waiting: &mut Vec<usize>, at: usize) -> bool {
    match waiting.get_mut(at) {
        Some(count) => {
            *count = count.saturating_sub(1);
            *count == 0
        }
        None => false,
    }
}

/// Lists circles. Each entity that did not come leads to one.
fn add_cycles(
    collected: &mut Collected<'_>,
    list: &List<'_>,
    order: &Order,
) -> Result<(), AllocError> {
    let mut seen = BTreeMap::new(collected.alloc);
    for start in 0..list.entries.len() {
        if order.is_left(start) && !seen.contains_key(&start) {
            if let Some(at) = find_repeated(list, order, &mut seen, start)? {
                add_cycle(collected, list, order, at)?;
            }
        }
    }
    Ok(())
}

/// Walks from parent to parent until an entity was seen before. Returns that entity, if this walk
/// saw it.
fn find_repeated(
    list: &List<'_>,
    order: &Order,
    seen: &mut BTreeMap<usize, usize>,
    start: usize,
) -> Result<Option<usize>, AllocError> {
    let mut at = start;
    for _ in 0..=list.entries.len() {
        if let Some(way) = seen.get(&at) {
            return Ok((*way == start).then_some(at));
        }
        drop(seen.insert(at, start)?);
        let Some(listed) = list.entries.get(at) else {
            return Ok(None);
        };
        let Some((_, above)) = order.parent_left(list, listed) else {
            return Ok(None);
        };
        at = above;
    }
    Ok(None)
}

/// Lists the circle through an entity, at the place where the entity names its parent.
fn add_cycle(
    collected: &mut Collected<'_>,
    list: &List<'_>,
    order: &Order,
    start: usize,
) -> Result<(), AllocError> {
    let mut ids = Vec::new(collected.alloc);
    let mut place = None;
    let mut at = start;
    for _ in 0..list.entries.len() {
        let Some(listed) = list.entries.get(at) else {
            break;
        };
        let Some((parent, above)) = order.parent_left(list, listed) else {
            break;
        };
        ids.push(listed.id.clone()?)?;
        place = place.or(Some(parent.place));
        at = above;
        if at == start {
            break;
        }
    }
    let place = place.unwrap_or(Loc { start: 0, end: 0 });
    collected.faults.add(place, Problem::Cycle(ids))
}
