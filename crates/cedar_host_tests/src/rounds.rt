// Questions to a host, round by round, with an error of its own, and the ends of the rounds.
use crate::loading::{are_users, memory, users};
use cedar_examples::in_rounds::{held_by, ids_in_rounds};
use cedar_host::rounds::Rounds;
use cedar_types::base::EntityUID;
use std::alloc::{AllocError, Global};
use std::process::Abort;
use std::test::Fail;

/// The ids that each round wants if `ann` is the start: those that are reached in no step, in one, in two, and in three.
const ROUNDS: [&[&str]; 4] = [&["ann"], &["bob", "cal"], &["dan"], &["gil"]];

/// The number of steps, and the ids that are reached from `ann` within them.
const WITHIN: [(u32, &[&str]); 6] = [
    (0, &[]),
    (1, &["ann"]),
    (2, &["ann", "bob", "cal"]),
    (3, &["ann", "bob", "cal", "dan"]),
    (4, &["ann", "bob", "cal", "dan", "gil"]),
    (9, &["ann", "bob", "cal", "dan", "gil"]),
];

/// The reason why a host has no slice.
#[derive(Debug, Drop)]
enum LoadError {
    Memory,
    Closed,
}

impl From<AllocError> for LoadError {
    fn from(_error: AllocError) -> LoadError {
        LoadError::Memory
    }
}

/// The ids that these entities hold, by one query, which is closed to `gil`.
fn query(alloc: Global, wanted: &[EntityUID]) -> Result<Vec<EntityUID>, LoadError> {
    if wanted.iter().any(|id| id.eid.as_str() == "gil") {
        return Err(LoadError::Closed);
    }
    Ok(held_by(alloc, &memory(alloc)?, wanted)?)
}

/// Checks that these ids are wanted, in this order.
fn are_wanted(
    rt: &impl Abort,
    alloc: Global,
    rounds: &Rounds,
    eids: &[&str],
) -> Result<(), AllocError> {
    let wanted = rounds.wanted();
    let users = users(alloc, eids)?;
    assert_eq!(rt; wanted.len(), users.len());
    for (id, user) in wanted.iter().zip(&users) {
        assert!(rt; id == user);
    }
    Ok(())
}

/// The number of ids in a slice, if the ids inside the entities of the last round are not asked for.
fn load(alloc: Global, steps: u32) -> Result<usize, LoadError> {
    let mut rounds = Rounds::begin(alloc, &users(alloc, &["ann"])?, steps)?;
    for _round in 1..steps {
        let held = query(alloc, rounds.wanted())?;
        rounds = rounds.hand_in(alloc, &held)?;
    }
    Ok(rounds.into_ids().len())
}

#[test]
fn each_round_wants_what_the_last_one_held(rt: HostRuntime) -> Result<(), Fail> {
    let alloc = rt.alloc();
    let memory = memory(alloc)?;
    let mut rounds = Rounds::begin(alloc, &users(alloc, &["ann", "ann"])?, 4)?;
    for (round, eids) in ROUNDS.iter().enumerate() {
        are_wanted(&rt, alloc, &rounds, eids)?;
        assert_eq!(rt; rounds.is_last(), round == 3);
        let held = held_by(alloc, &memory, rounds.wanted())?;
        rounds = rounds.hand_in(alloc, &held)?;
    }
    are_wanted(&rt, alloc, &rounds, &[])?;
    are_users(
        &rt,
        alloc,
        &rounds.into_ids(),
        &["ann", "bob", "cal", "dan", "gil"],
    )?;
    Ok(())
}

#[test]
fn rounds_end_where_they_find_nothing_new(rt: HostRuntime) -> Result<(), Fail> {
    let alloc = rt.alloc();
    let start = users(alloc, &["fay"])?;
    let rounds = Rounds::begin(alloc, &start, 7)?;
    let rounds = rounds.hand_in(alloc, &start)?;
    assert!(rt; rounds.wanted().is_empty());
    assert!(rt; !rounds.is_last());
    are_users(&rt, alloc, &rounds.into_ids(), &["fay"])?;
    Ok(())
}

#[test]
fn a_host_finds_in_rounds_what_is_within_some_steps(rt: HostRuntime) -> Result<(), Fail> {
    let alloc = rt.alloc();
    let memory = memory(alloc)?;
    let start = users(alloc, &["ann", "ann"])?;
    for (steps, eids) in WITHIN {
        let ids = ids_in_rounds(alloc, &memory, &start, steps)?;
        are_users(&rt, alloc, &ids, eids)?;
    }
    Ok(())
}

#[test]
fn a_host_has_errors_of_its_own(rt: HostRuntime) {
    let alloc = rt.alloc();
    assert!(rt; matches!(load(alloc, 4), Ok(5)));
    assert!(rt; matches!(load(alloc, 5), Err(LoadError::Closed)));
}
