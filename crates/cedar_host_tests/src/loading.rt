// Ids that a host finds in a small store, and the number of times that it asks for the ids inside an entity.
use cedar_examples::memory::{Linked, Memory};
use cedar_host::loading::ids_within;
use cedar_types::base::{EntityType, EntityUID, Name};
use std::alloc::{AllocError, Global};
use std::cell::Cell;
use std::collections::BTreeSet;
use std::process::Abort;
use std::test::Fail;

fn user(alloc: Global, eid: &str) -> Result<EntityUID, AllocError> {
    let users = EntityType::from(Name::unqualified_name(alloc, "User")?);
    EntityUID::from_components(alloc, users, eid, None)
}

/// Users of these ids.
pub fn users(alloc: Global, eids: &[&str]) -> Result<Vec<EntityUID>, AllocError> {
    let mut users = Vec::new(alloc);
    for eid in eids {
        users.push(user(alloc, eid)?)?;
    }
    Ok(users)
}

/// An entity of this id, which is linked to these.
fn link(alloc: Global, eid: &str, links: &[&str]) -> Result<Linked, AllocError> {
    let links = users(alloc, links)?;
    let id = user(alloc, eid)?;
    Ok(Linked { id, links })
}

/// `ann` is linked to `bob` and `cal`, these to `dan`, he to `ann` and to `gil`, who is not stored; `eve` is linked to `fay`.
const LINKS: [(&str, &[&str]); 6] = [
    ("ann", &["bob", "cal"]),
    ("bob", &["dan"]),
    ("cal", &["dan", "cal"]),
    ("dan", &["ann", "gil"]),
    ("eve", &["fay"]),
    ("fay", &[]),
];

/// The store of these users, which was not asked yet.
pub fn memory(alloc: Global) -> Result<Memory, AllocError> {
    let mut entities = Vec::new(alloc);
    for (eid, links) in LINKS {
        entities.push(link(alloc, eid, links)?)?;
    }
    Ok(Memory {
        entities,
        asked: Cell::new(0),
        most: Cell::new(0),
    })
}

/// The number of steps, the ids that are found within them from `ann`, and the number of questions to the store.
const WANTED: [(u32, &[&str], i64); 6] = [
    (0, &[], 0),
    (1, &["ann"], 0),
    (2, &["ann", "bob", "cal"], 1),
    (3, &["ann", "bob", "cal", "dan"], 3),
    (4, &["ann", "bob", "cal", "dan", "gil"], 4),
    (u32::MAX, &["ann", "bob", "cal", "dan", "gil"], 5),
];

/// The ids within this many steps of `ann`, which is named twice.
fn find(alloc: Global, memory: &Memory, steps: u32) -> Result<BTreeSet<EntityUID>, AllocError> {
    let start = users(alloc, &["ann", "ann"])?;
    ids_within(alloc, memory, &start, steps)
}

/// Checks that these are the ids.
pub fn are_users(
    rt: &impl Abort,
    alloc: Global,
    ids: &BTreeSet<EntityUID>,
    eids: &[&str],
) -> Result<(), AllocError> {
    assert_eq!(rt; ids.len(), eids.len());
    for eid in eids {
        assert!(rt; ids.contains(&user(alloc, eid)?));
    }
    Ok(())
}

/// Checks that these ids are found within `steps` steps, and the number of questions to the store.
fn are_found(
    rt: &impl Abort,
    alloc: Global,
    steps: u32,
    wanted: &[&str],
    asked: i64,
) -> Result<(), AllocError> {
    let memory = memory(alloc)?;
    are_users(rt, alloc, &find(alloc, &memory, steps)?, wanted)?;
    assert_eq!(rt; memory.asked.get(), asked);
    Ok(())
}

#[test]
fn what_is_reached_is_found_and_no_entity_asked_twice(rt: HostRuntime) -> Result<(), Fail> {
    for (steps, wanted, asked) in WANTED {
        are_found(&rt, rt.alloc(), steps, wanted, asked)?;
    }
    Ok(())
}

/// This many users, whose ids share the name of their type.
fn numbered(alloc: Global, count: usize) -> Result<Vec<EntityUID>, AllocError> {
    let of_users = EntityType::from(Name::unqualified_name(alloc, "User")?);
    let mut users = Vec::new(alloc);
    for number in 0..count {
        let eid = format!(in alloc; "{number}")?;
        let own = of_users.clone()?;
        users.push(EntityUID::from_components(alloc, own, eid.as_str(), None)?)?;
    }
    Ok(users)
}

fn copies(ids: &[EntityUID], alloc: Global) -> Result<Vec<EntityUID>, AllocError> {
    let mut copies = Vec::new(alloc);
    for id in ids {
        copies.push(id.clone()?)?;
    }
    Ok(copies)
}

/// The number of users, each of which is linked to all.
const MANY: usize = 40;

#[test]
fn what_many_hold_is_not_gathered(rt: HostRuntime) -> Result<(), Fail> {
    let alloc = rt.alloc();
    let users = numbered(alloc, MANY)?;
    let mut entities = Vec::new(alloc);
    for user in &users {
        let id = user.clone()?;
        let links = copies(&users, alloc)?;
        entities.push(Linked { id, links })?;
    }
    let memory = Memory {
        entities,
        asked: Cell::new(0),
        most: Cell::new(0),
    };
    let ids = ids_within(alloc, &memory, users.as_slice().get(..1).unwrap_or(&[]), 3)?;
    assert_eq!(rt; ids.len(), MANY);
    // the store holds MANY times MANY ids, and a few times MANY are found
    let most = memory.most.get();
    assert!(rt; most < MANY * MANY + 8 * MANY, "{most}");
    Ok(())
}
