// Levels of policies with errors: a level is given only if nothing else is found against the policy, neither an error nor a
// part that is nested too deep.
use crate::verdicts_tests::said::{schema_of, verdicts_shown};
use cedar_typechecker::rbac::Validator;
use cedar_types::base::{ExtensionSchemas, ValidationMode};
use cedar_verdicts::settings::Settings;
use std::alloc::{AllocError, Global};
use std::test::Fail;

const SCHEMA: &str = "entity User { boss: User, age: Long };
entity Robot { age: Long };
entity File;
action view appliesTo { principal: [User, Robot], resource: File };
";

/// The level of the settings, the number of comparisons in the branch for robots, the rest of the condition, and the verdict.
const CASES: [(Option<u32>, usize, &str, &str); 7] = [
    (
        Some(1),
        1,
        "principal.boss.age > 3",
        "policy0 refused, level 2, error level\n",
    ),
    (
        Some(2),
        1,
        "principal.boss.age > 3",
        "policy0 accepted, level 2\n",
    ),
    (
        Some(1),
        450,
        "principal.boss.age > 3",
        "policy0 refused, error level\n",
    ),
    (
        Some(2),
        450,
        "principal.boss.age > 3",
        "policy0 refused, error unchecked\n",
    ),
    (
        None,
        450,
        "principal.boss.age > 3",
        "policy0 refused, error unchecked\n",
    ),
    (
        None,
        1,
        "principal.bos.age > 3",
        "policy0 refused, error unknown-attribute\n",
    ),
    (
        Some(1),
        1,
        "principal.boss.age > 3 || (true || ip(\"x\").isIpv4())",
        "policy0 refused, error level, error bad-argument\n",
    ),
];

#[test]
fn where_a_level_is_said(rt: HostRuntime) -> Result<(), Fail> {
    let alloc = rt.alloc();
    for (level, comparisons, rest, wanted) in &CASES {
        let text = policy(alloc, *comparisons, rest)?;
        let said = said_of(alloc, *level, text.as_str())?;
        assert_eq!(rt; said.as_str(), *wanted, "{comparisons} {rest}");
    }
    Ok(())
}

/// A policy with this number of comparisons for robots, and `rest` for all others.
fn policy(alloc: Global, comparisons: usize, rest: &str) -> Result<String, AllocError> {
    let mut text = String::from_str(
        alloc,
        "permit(principal, action, resource) when { if principal is Robot then principal.age == 0",
    )?;
    for _ in 1..comparisons {
        text.push_str(" && principal.age == 1")?;
    }
    write!(text, " else {rest} }};")?;
    Ok(text)
}

/// The verdict on a policy at a level, without the places of its findings.
fn said_of(alloc: Global, level: Option<u32>, text: &str) -> Result<String, AllocError> {
    let extensions = ExtensionSchemas::default(alloc);
    let Some(schema) = schema_of(alloc, SCHEMA)? else {
        return Ok(String::new(alloc));
    };
    let validator = Validator::new(schema, &extensions);
    let settings = Settings {
        validator: &validator,
        mode: ValidationMode::Strict,
        level,
        syntax: None,
    };
    let shown = verdicts_shown(alloc, &settings, text)?;
    without_places(alloc, shown.as_str())
}

fn without_places(alloc: Global, shown: &str) -> Result<String, AllocError> {
    let mut said = String::new(alloc);
    let mut is_behind_error = false;
    for word in shown.split(' ') {
        if !is_behind_error {
            said.push_str(if said.is_empty() { "" } else { " " })?;
            said.push_str(word)?;
        }
        is_behind_error = word == "error" || word == "warning";
    }
    Ok(said)
}
