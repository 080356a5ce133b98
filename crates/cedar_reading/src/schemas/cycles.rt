// Cycles of aliases: common types that stand in their own types.
use crate::notes::AliasUse;
use crate::schemas::components::{Graph, component_of_each};
use crate::schemas::declarations::Declared;
use std::alloc::{AllocError, Global};
use std::collections::{BTreeMap, BTreeSet};

/// For each cycle of aliases, the byte at which the first of them stands in the type of one.
pub fn alias_cycles(
    alloc: Global,
    declared: &Declared,
    uses: &[AliasUse],
) -> Result<Vec<usize>, AllocError> {
    let mut numbers = BTreeMap::new(alloc);
    for (number, alias) in declared.aliases.values().enumerate() {
        numbers.insert(alias.own_start, number)?;
    }
    let mut graph = Graph::new(alloc, numbers.len())?;
    for it in uses {
        if let (Some(user), Some(used)) = (numbers.get(&it.user), numbers.get(&it.used)) {
            graph.add_successor(*used, *user)?;
        }
    }
    let components = component_of_each(&graph)?;
    let mut told = BTreeSet::new(alloc);
    let mut found = Vec::new(alloc);
    for it in uses {
        let of_user = component_of(&numbers, &components, it.user);
        if of_user.is_some() && of_user == component_of(&numbers, &components, it.used) {
            if told.insert(of_user)? {
                found.push(it.start)?;
            }
        }
    }
    Ok(found)
}

/// The component of the alias that is declared at the byte `own_start`.
fn component_of(
    numbers: &BTreeMap<usize, usize>,
    components: &Vec<Option<usize>>,
    own_start: usize,
) -> Option<usize> {
    match numbers.get(&own_start) {
        Some(number) => components.get(*number).copied().flatten(),
        None => None,
    }
}
