// Policies that are read one after another: some faults belong to the text, and some to one policy.
use crate::json_tests::cases::{check, check_faults};
use crate::json_tests::policy_trees::show_policies;
use std::alloc::{AllocError, Global};
use std::test::Fail;

/// A policy without constraints.
const ALL: &str =
    r#"{"effect": "permit", "principal": {"op": "All"}, "action": {"op": "All"}, "resource": {"op": "All"}}"#;

/// The shown policy without constraints, behind its id.
const ANY: &str = "permit any any any;";

/// The first text `count` times, and then the second as often.
fn nested(alloc: Global, count: usize, before: &str, behind: &str) -> Result<String, AllocError> {
    let mut text = String::new(alloc);
    for _ in 0..count {
        text.push_str(before)?;
    }
    for _ in 0..count {
        text.push_str(behind)?;
    }
    Ok(text)
}

/// A policy that is nested too deep loses itself alone. Brackets in quotes count for nothing.
#[test]
fn too_deep(rt: HostRuntime) -> Result<(), Fail> {
    let alloc = rt.alloc();
    let lists = nested(alloc, 500, "[", "]")?;
    let deep = format!(in alloc; "{{\"effect\": {lists}, \"x\": \"]\\\"}}\"}}")?;
    // the first bracket of the list is the second one that is open, so the 400th of it is one too many
    let list = format!(in alloc; "[{ALL}, {deep}, {ALL}]")?;
    let in_list = ALL.len().saturating_add(3 + 11 + 398);
    let wanted = format!(in alloc; "policy0 {ANY}{in_list} Json(TooDeep);policy2 {ANY}")?;
    check(
        &rt,
        alloc,
        show_policies,
        &[(list.as_str(), wanted.as_str())],
    )?;
    // in a set one more bracket is open
    let set = format!(in alloc; "{{\"staticPolicies\": {{\"a\": {deep}, \"b\": {ALL}}}}}")?;
    let in_set = 20 + 5 + 11 + 397;
    let wanted = format!(in alloc; "{in_set} Json(TooDeep);b {ANY}")?;
    check(
        &rt,
        alloc,
        show_policies,
        &[(set.as_str(), wanted.as_str())],
    )?;
    // a policy without an end leaves the text without one
    let open = nested(alloc, 500, "[", "")?;
    let wanted = "400 Json(TooDeep)";
    check(&rt, alloc, show_policies, &[(open.as_str(), wanted)])
}

/// Texts with a fault of JSON behind a policy: no policy is read.
const FAULTS_OF_TEXTS: [(&str, &str); 8] = [
    (r#"[{"effect": "permit"}, §x]"#, "Json(Value)"),
    (r#"[{"effect": "permit"}§"#, "Json(InArray)"),
    (r#"[{"effect": "permit"}] §1"#, "Json(Trailing)"),
    (r#"{"a": {}, "b": {"c": 1, §"c": 2}}"#, "Json(SameKey)"),
    (r#"{"a": {}, §"a": {}}"#, "Json(SameKey)"),
    (
        r#"{"staticPolicies": {"a": {}, §"a": {}}}"#,
        "Json(SameKey)",
    ),
    (
        r#"{"templateLinks": [{}, {§1}], "templates": 1}"#,
        "Json(Key)",
    ),
    (r#"{"a": {} §"b": {}}"#, "Json(InObject)"),
];

#[test]
fn faults_of_texts(rt: HostRuntime) -> Result<(), Fail> {
    check_faults(&rt, rt.alloc(), show_policies, ("", ""), &FAULTS_OF_TEXTS)
}

/// Policy sets with a part of another form. The first in this order is told: a key, `templates`, `staticPolicies`,
/// `templateLinks`.
const FAULTS_OF_SETS: [(&str, &str); 5] = [
    (
        r#"{"templates": 1, "staticPolicies": 1, §"other": 1}"#,
        "UnknownKey",
    ),
    (
        r#"{"staticPolicies": 1, "templates": §[]}"#,
        r#"Expected("an object")"#,
    ),
    (
        r#"{"templateLinks": 1, "staticPolicies": §"a"}"#,
        r#"Expected("an object")"#,
    ),
    (
        r#"{"templates": {}, "templateLinks": §{}}"#,
        r#"Expected("a list")"#,
    ),
    (r#"{"templates": §null}"#, "Null"),
];

#[test]
fn faults_of_sets(rt: HostRuntime) -> Result<(), Fail> {
    check_faults(&rt, rt.alloc(), show_policies, ("", ""), &FAULTS_OF_SETS)
}

/// The parts of a set may come in any order, and a link finds a template that stands behind it.
#[test]
fn parts_in_another_order(rt: HostRuntime) -> Result<(), Fail> {
    let alloc = rt.alloc();
    let json = format!(in alloc;
        "{{\"templateLinks\": [{{\"templateId\": \"u\", \"newId\": \"l\", \"values\": {{}}}}], \"templates\": {{\"t\": {ALL}, \"u\": {ALL}}}, \"staticPolicies\": {{\"s\": {ALL}}}}}"
    )?;
    let wanted = format!(in alloc; "s {ANY}t {ANY}u {ANY}l {ANY}")?;
    check(
        &rt,
        alloc,
        show_policies,
        &[(json.as_str(), wanted.as_str())],
    )
}
