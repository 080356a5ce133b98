// Strongly connected components of a graph of numbers, by two depth-first searches (Kosaraju's
// algorithm); the second search is breadth-first here, because its order does not matter. All
// members of a component reach the same numbers, so those are found once for each component.
use std::alloc::{AllocError, Global};

/// A directed graph: the direct successors and predecessors of each number.
#[derive(Drop)]
pub struct Graph {
    alloc: Global,
    successors: Vec<Vec<usize>>,
    predecessors: Vec<Vec<usize>>,
    edge_count: usize,
}

impl Graph {
    /// A graph of `count` numbers without edges.
    pub fn new(alloc: Global, count: usize) -> Result<Graph, AllocError> {
        Ok(Graph {
            alloc,
            successors: empty_lists(alloc, count)?,
            predecessors: empty_lists(alloc, count)?,
            edge_count: 0,
        })
    }

    /// Adds an edge from `number` to `successor`.
    pub fn add_successor(&mut self, successor: usize, number: usize) -> Result<(), AllocError> {
        push_at(&mut self.successors, number, successor)?;
        push_at(&mut self.predecessors, successor, number)?;
        self.edge_count = self.edge_count.saturating_add(1);
        Ok(())
    }

    /// All numbers in postorder: each behind the numbers that it reaches and that do not reach it.
    fn depth_first_postorder(&self) -> Result<Vec<usize>, AllocError> {
        let count = self.successors.len();
        let mut order = Vec::new(self.alloc);
        let mut is_seen = repeat(self.alloc, false, count)?;
        for number in 0..count {
            self.search_from(number, &mut is_seen, &mut order)?;
        }
        Ok(order)
    }

    /// Searches depth first from `first`, unless it was seen, and adds the finished numbers.
    fn search_from(
        &self,
        first: usize,
        is_seen: &mut Vec<bool>,
        order: &mut Vec<usize>,
    ) -> Result<(), AllocError> {
        let mut path = Vec::new(self.alloc);
        if mark(is_seen, first) {
            path.push((first, 0usize))?;
        }
        // each turn follows an edge, or finishes a number
        for _ in 0..self.successors.len().saturating_add(self.edge_count) {
            let Some((number, followed)) = path.pop() else {
                break;
            };
            let Some(successor) = item_of(&self.successors, number, followed) else {
                order.push(number)?;
                continue;
            };
            path.push((number, followed.saturating_add(1)))?;
            if mark(is_seen, successor) {
                path.push((successor, 0))?;
            }
        }
        Ok(())
    }
}

/// The strongly connected components of a graph, in topological order.
#[derive(Drop)]
pub struct Components {
    /// The members of each component. The other components that a component reaches are behind it.
    members: Vec<Vec<usize>>,
    component_of: Vec<Option<usize>>,
    /// The components that each component reaches: itself too, if it has a cycle.
    reachable: Vec<Vec<usize>>,
}

impl Components {
    /// The components of a graph. `Err` has a number at which the count of reachable numbers,
    /// summed over all numbers, exceeds `most`.
    pub fn new(graph: &Graph, most: usize) -> Result<Result<Components, usize>, AllocError> {
        let mut found = find_components(graph)?;
        let mut found_from = repeat(graph.alloc, 0, found.members.len())?;
        let mut count = 0usize;
        for component in (0..found.members.len()).rev() {
            let reachable = found.reachable_components(graph, component, &mut found_from)?;
            let size = found.size_of(reachable.as_slice());
            count = count.saturating_add(size.saturating_mul(length_at(&found.members, component)));
            if count > most {
                return Ok(Err(item_of(&found.members, component, 0).unwrap_or(0)));
            }
            if let Some(place) = found.reachable.get_mut(component) {
                *place = reachable;
            }
        }
        Ok(Ok(found))
    }

    /// The components that `component` reaches, if those of each component behind it are known.
    /// `found_from` has for each component the last one from which it was found, counted from 1.
    fn reachable_components(
        &self,
        graph: &Graph,
        component: usize,
        found_from: &mut Vec<usize>,
    ) -> Result<Vec<usize>, AllocError> {
        let mut reachable = Vec::new(graph.alloc);
        // the first in topological order come first, because they are likely to reach the others
        for next in &self.next_components(graph, component)? {
            if add_component(*next, component, found_from, &mut reachable)? && *next != component {
                self.add_reachable(*next, component, found_from, &mut reachable)?;
            }
        }
        Ok(reachable)
    }

    /// The components of the successors of a component's members, in ascending order.
    fn next_components(&self, graph: &Graph, component: usize) -> Result<Vec<usize>, AllocError> {
        let mut components = Vec::new(graph.alloc);
        for member in items_at(&self.members, component) {
            for successor in items_at(&graph.successors, *member) {
                if let Some(Some(of_successor)) = self.component_of.get(*successor) {
                    components.push(*of_successor)?;
                }
            }
        }
        components.sort()?;
        components.dedup();
        Ok(components)
    }

    /// Adds the components that `next` reaches.
    fn add_reachable(
        &self,
        next: usize,
        component: usize,
        found_from: &mut Vec<usize>,
        reachable: &mut Vec<usize>,
    ) -> Result<(), AllocError> {
        for other in items_at(&self.reachable, next) {
            add_component(*other, component, found_from, reachable)?;
        }
        Ok(())
    }

    /// The number of members of these components together.
    fn size_of(&self, components: &[usize]) -> usize {
        let mut size = 0usize;
        for component in components {
            size = size.saturating_add(length_at(&self.members, *component));
        }
        size
    }

    /// The components that a number reaches, by one edge or more.
    pub fn reachable_from(&self, number: usize) -> &[usize] {
        match self.component_of.get(number) {
            Some(Some(component)) => items_at(&self.reachable, *component),
            _ => &[],
        }
    }

    /// The members of a component.
    pub fn members(&self, component: usize) -> &[usize] {
        items_at(&self.members, component)
    }
}

/// The component of each number; numbers that reach each other are in one component.
pub fn component_of_each(graph: &Graph) -> Result<Vec<Option<usize>>, AllocError> {
    Ok(find_components(graph)?.component_of)
}

/// The components of a graph, without the components that each reaches.
fn find_components(graph: &Graph) -> Result<Components, AllocError> {
    let count = graph.successors.len();
    let mut found = Components {
        members: Vec::new(graph.alloc),
        component_of: repeat(graph.alloc, None, count)?,
        reachable: Vec::new(graph.alloc),
    };
    for number in graph.depth_first_postorder()?.iter().rev() {
        let members = component_from(graph, *number, found.members.len(), &mut found.component_of)?;
        if !members.is_empty() {
            found.members.push(members)?;
        }
    }
    found.reachable = empty_lists(graph.alloc, found.members.len())?;
    Ok(found)
}

/// The members of `component`, by the second search, against the edges: `first` and all numbers
/// that reach it, without those that have a component. Empty if `first` has one.
fn component_from(
    graph: &Graph,
    first: usize,
    component: usize,
    component_of: &mut Vec<Option<usize>>,
) -> Result<Vec<usize>, AllocError> {
    let mut members = Vec::new(graph.alloc);
    if assign(component_of, first, component) {
        members.push(first)?;
    }
    for at in 0..graph.predecessors.len() {
        let Some(member) = members.get(at).copied() else {
            break;
        };
        for predecessor in items_at(&graph.predecessors, member) {
            if assign(component_of, *predecessor, component) {
                members.push(*predecessor)?;
            }
        }
    }
    Ok(members)
}

/// Assigns a number to a component, unless it has one. Returns whether it had none.
fn assign(component_of: &mut Vec<Option<usize>>, number: usize, component: usize) -> bool {
    match component_of.get_mut(number) {
        Some(place) if place.is_none() => {
            *place = Some(component);
            true
        }
        _ => false,
    }
}

/// Adds `found` to the reach of `component`, unless it is there. Returns whether it was added.
fn add_component(
    found: usize,
    component: usize,
    found_from: &mut Vec<usize>,
    reachable: &mut Vec<usize>,
) -> Result<bool, AllocError> {
    let own = component.saturating_add(1);
    match found_from.get_mut(found) {
        Some(last) if *last != own => {
            *last = own;
            reachable.push(found)?;
            Ok(true)
        }
        _ => Ok(false),
    }
}

/// Marks a number. Returns whether it was unmarked before.
fn mark(is_marked: &mut Vec<bool>, number: usize) -> bool {
    match is_marked.get_mut(number) {
        Some(place) if !*place => {
            *place = true;
            true
        }
        _ => false,
    }
}

fn empty_lists(alloc: Global, count: usize) -> Result<Vec<Vec<usize>>, AllocError> {
    let mut lists = Vec::new(alloc);
    for _ in 0..count {
        lists.push(Vec::new(alloc))?;
    }
    Ok(lists)
}

fn repeat<T: Copy>(alloc: Global, item: T, count: usize) -> Result<Vec<T>, AllocError> {
    let mut items = Vec::new(alloc);
    for _ in 0..count {
        items.push(item)?;
    }
    Ok(items)
}

fn push_at(lists: &mut Vec<Vec<usize>>, at: usize, item: usize) -> Result<(), AllocError> {
    if let Some(list) = lists.get_mut(at) {
        list.push(item)?;
    }
    Ok(())
}

fn items_at(lists: &Vec<Vec<usize>>, at: usize) -> &[usize] {
    match lists.get(at) {
        Some(list) => list.as_slice(),
        None => &[],
    }
}

fn item_of(lists: &Vec<Vec<usize>>, at: usize, index: usize) -> Option<usize> {
    items_at(lists, at).get(index).copied()
}

fn length_at(lists: &Vec<Vec<usize>>, at: usize) -> usize {
    items_at(lists, at).len()
}
