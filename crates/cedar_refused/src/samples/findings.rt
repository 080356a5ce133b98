// Errors and warnings that stand in a set before a call.
use crate::samples::texts::MANY;
use cedar_types::base::{
    CedarType, Loc, PolicyID, ValidationError, ValidationWarning, types_in_order,
};
use std::alloc::{AllocError, Global};
use std::collections::HashSet;
use std::hash::Hash;

/// The place of this number.
fn place(number: usize) -> Option<Loc> {
    let start = number.saturating_mul(10);
    let end = start.saturating_add(5);
    Some(Loc { start, end })
}

/// This many findings of another policy, each made of a place of its own.
fn findings<T: Eq + Hash + Drop, F: Fn(Option<Loc>, PolicyID) -> T>(
    alloc: Global,
    count: usize,
    finding: F,
) -> Result<HashSet<T>, AllocError>
    requires { F.IsAlwaysCallable finding }
{
    let mut findings = HashSet::new(alloc);
    for number in 0..count {
        let policy = PolicyID::from_string(alloc, "other")?;
        findings.insert(finding(place(number), policy))?;
    }
    Ok(findings)
}

/// This many errors of another policy.
pub fn errors(alloc: Global, count: usize) -> Result<HashSet<ValidationError>, AllocError> {
    findings(alloc, count, ValidationError::empty_set_forbidden)
}

/// This many warnings of another policy.
pub fn warnings(alloc: Global, count: usize) -> Result<HashSet<ValidationWarning>, AllocError> {
    findings(alloc, count, ValidationWarning::impossible_policy)
}

/// The first of many findings: a string in place of a Long.
pub fn first_finding(alloc: Global) -> Result<ValidationError, AllocError> {
    let policy = PolicyID::from_string(alloc, "policy0")?;
    let expected = types_in_order(alloc, vec![in alloc; CedarType::primitive_long()]?)?;
    let actual = CedarType::primitive_string();
    let first = MANY.find(r#""a""#).map(|start| Loc {
        start,
        end: start.saturating_add(3),
    });
    Ok(ValidationError::expected_one_of_types(first, policy, expected, actual))
}
