// Descendants of names, over any number of steps.
use crate::faults::{Fault, ReadError};
use crate::schemas::components::{Components, Graph};
use crate::schemas::declarations::Declaration;
use crate::schemas::written::Placed;
use std::alloc::{AllocError, Global};
use std::collections::{BTreeMap, BTreeSet};

/// The largest number of descendants of all names together; also the largest number of parents that
/// the declarations may give their names.
pub const MAX_DESCENDANTS: usize = 1 << 17;

/// The descendants of each declared name, over any number of steps.
#[derive(Drop)]
pub struct Family<'a, N: Ord> {
    alloc: Global,
    /// The declared names that are in others or have others in them, each once.
    names: Vec<&'a N>,
    /// The position of each name in `names`.
    numbers: BTreeMap<&'a N, usize>,
    components: Components,
}

impl<'a, N: Ord + Clone + Drop> Family<'a, N> {
    /// The family of these declarations. It fails if there are too many descendants or parents.
    pub fn new<K>(
        alloc: Global,
        declared: &'a [Declaration<N, K>],
    ) -> Result<Family<'a, N>, ReadError> {
        check_parents(declared)?;
        let (names, numbers) = number_names(alloc, declared)?;
        let mut graph = Graph::new(alloc, names.len())?;
        for declaration in declared {
            add_edges(&mut graph, &numbers, declaration)?;
        }
        let components = match Components::new(&graph, MAX_DESCENDANTS)? {
            Ok(components) => components,
            Err(number) => return Err(too_many(declared, names.get(number).copied())),
        };
        Ok(Family {
            alloc,
            names,
            numbers,
            components,
        })
    }

    /// The descendants of a declared name. They include the name itself if it is in one of its
    /// descendants.
    pub fn descendants_of(&self, own: &'a N) -> Result<BTreeSet<N>, AllocError> {
        let mut found = BTreeSet::new(self.alloc);
        let Some(number) = self.numbers.get(&own) else {
            return Ok(found);
        };
        for component in self.components.reachable_from(*number) {
            self.add_members(*component, &mut found)?;
        }
        Ok(found)
    }

    /// Adds the names of a component.
    fn add_members(&self, component: usize, found: &mut BTreeSet<N>) -> Result<(), AllocError> {
        for member in self.components.members(component) {
            if let Some(name) = self.names.get(*member) {
                found.insert((*name).clone()?)?;
            }
        }
        Ok(())
    }
}

/// Fails if the declarations give their names too many parents; each parent of a name is an edge.
fn check_parents<N, K>(declared: &[Declaration<N, K>]) -> Result<(), ReadError> {
    let mut edges = 0usize;
    for declaration in declared {
        let own = declaration.names.len();
        edges = edges.saturating_add(own.saturating_mul(declaration.parents.len()));
        if edges > MAX_DESCENDANTS {
            return Err(fault_at(declaration.names.first()));
        }
    }
    Ok(())
}

/// The declared names that are in others or have others in them, each once, and the position of
/// each.
fn number_names<'a, N: Ord, K>(
    alloc: Global,
    declared: &'a [Declaration<N, K>],
) -> Result<(Vec<&'a N>, BTreeMap<&'a N, usize>), AllocError> {
    let above = all_parents(alloc, declared)?;
    let mut names = Vec::new(alloc);
    let mut numbers = BTreeMap::new(alloc);
    if above.is_empty() {
        return Ok((names, numbers));
    }
    for declaration in declared {
        let is_in_some = !declaration.parents.is_empty();
        for own in &declaration.names {
            let name: &'a N = &own.name;
            if (is_in_some || above.contains(&name)) && numbers.get(&name).is_none() {
                numbers.insert(name, names.len())?;
                names.push(name)?;
            }
        }
    }
    Ok((names, numbers))
}

/// The names that are parents of others.
fn all_parents<'a, N: Ord, K>(
    alloc: Global,
    declared: &'a [Declaration<N, K>],
) -> Result<BTreeSet<&'a N>, AllocError> {
    let mut above = BTreeSet::new(alloc);
    for parent in declared.iter().flat_map(|d| d.parents.iter()) {
        let name: &'a N = &parent.name;
        above.insert(name)?;
    }
    Ok(above)
}

/// Adds the edges of a declaration to the graph, from each parent to each name.
fn add_edges<'a, N: Ord, K>(
    graph: &mut Graph,
    numbers: &BTreeMap<&'a N, usize>,
    declaration: &'a Declaration<N, K>,
) -> Result<(), AllocError> {
    for own in &declaration.names {
        for parent in &declaration.parents {
            let child: &'a N = &own.name;
            let parent: &'a N = &parent.name;
            let child = numbers.get(&child).copied();
            let parent = numbers.get(&parent).copied();
            if let (Some(child), Some(parent)) = (child, parent) {
                graph.add_successor(child, parent)?;
            }
        }
    }
    Ok(())
}

/// The fault at the declaration of `name`, which has too many descendants.
fn too_many<N: Ord, K>(declared: &[Declaration<N, K>], name: Option<&N>) -> ReadError {
    let own = declared
        .iter()
        .flat_map(|d| d.names.iter())
        .find(|own| Some(&own.name) == name);
    fault_at(own)
}

fn fault_at<N>(own: Option<&Placed<N>>) -> ReadError {
    ReadError::At(start_of(own), Fault::TooMany)
}

/// The byte of a declared name; the beginning of the text if there is no name.
pub fn start_of<N>(own: Option<&Placed<N>>) -> usize {
    match own {
        Some(own) => own.start,
        None => 0,
    }
}
