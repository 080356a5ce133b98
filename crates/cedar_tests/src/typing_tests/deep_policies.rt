// A policy far deeper than the limit: it gets an answer, and nothing recurses beyond the limit.
use crate::typing_tests::checks::{check_policy, outcome, permit_when};
use cedar_fixtures::negations::{negate, take_apart};
use cedar_types::base::Template;
use std::test::Fail;

/// The number of negations inside each other.
const DEPTH: usize = 100_000;

#[test]
fn a_policy_of_100_000_negations_is_answered(rt: HostRuntime) -> Result<(), Fail> {
    let alloc = rt.alloc();
    let policy = permit_when(alloc, negate(alloc, DEPTH)?)?;
    let check = check_policy(alloc, &policy);
    let Template {
        id: _id,
        loc: _loc,
        principal_constraint: _principal,
        action_constraint: _action,
        resource_constraint: _resource,
        non_scope_constraints: rest,
    } = policy;
    if let Some(rest) = rest {
        take_apart(rest, DEPTH);
    }
    let found = outcome(alloc, &check?)?;
    assert_eq!(rt; found.as_str(), "failure");
    Ok(())
}
