// Faults of policies in JSON, with their places.
use crate::json_tests::cases::check_faults;
use crate::json_tests::policies::CONDITION;
use crate::json_tests::policy_trees::show_policies;
use std::test::Fail;

/// Conditions with a fault at the mark, and the fault.
const CONDITIONS: [(&str, &str); 18] = [
    ("§1", r#"Expected("an object")"#),
    ("§{}", r#"Expected("an expression")"#),
    (r#"{"Value": 1, §"Var": "principal"}"#, "UnknownKey"),
    (
        r#"{"Var": §"who"}"#,
        r#"Expected("`principal`, `action`, `resource` or `context`")"#,
    ),
    (
        r#"{"Slot": §"?who"}"#,
        r#"Expected("`?principal` or `?resource`")"#,
    ),
    (r#"{"!": §{}}"#, r#"Missing("arg")"#),
    (r#"{"==": §{"left": {"Value": 1}}}"#, r#"Missing("right")"#),
    (
        r#"{"==": {"left": {"Value": 1}, "right": {"Value": 1}, §"x": 1}}"#,
        "UnknownKey",
    ),
    (r#"{"frob": §1}"#, r#"Expected("a list")"#),
    (r#"{§"a b": []}"#, "Name"),
    (
        r#"{"Value": {"__entity": §{"type": "U"}}}"#,
        r#"Missing("id")"#,
    ),
    (
        r#"{"Value": {"__entity": {"type": §"U-V", "id": "a"}}}"#,
        "Name",
    ),
    (
        r#"{"Value": {"__extn": {"fn": "ip", "arg": "a"}, §"x": 1}}"#,
        "UnknownKey",
    ),
    (
        r#"{"like": {"left": {"Value": "x"}, "pattern": §"a*"}}"#,
        r#"Expected("a list")"#,
    ),
    (
        r#"{"like": {"left": {"Value": "x"}, "pattern": [§"a"]}}"#,
        r#"Expected("`Wildcard` or `Literal`")"#,
    ),
    (
        r#"{"has": {"left": {"Var": "context"}, "attr": §[]}}"#,
        r#"Expected("an attribute")"#,
    ),
    (
        r#"{"is": {"left": {"!": {"arg": {"is": §{"left": {"Var": "principal"}, "entity_type": "U", "in": {"Var": "resource"}}}}}, "entity_type": "U", "in": {"Var": "resource"}}}"#,
        "Twice",
    ),
    (r#"{"Value": 1§.5}"#, "Json(Fraction)"),
];

#[test]
fn in_conditions(rt: HostRuntime) -> Result<(), Fail> {
    check_faults(&rt, rt.alloc(), show_policies, CONDITION, &CONDITIONS)
}

/// Policies and sets of policies with a fault at the mark, and the fault.
const POLICIES: [(&str, &str); 16] = [
    ("§1", r#"Expected("an object")"#),
    ("[§1]", r#"Expected("an object")"#),
    (r#"§{"effect": "permit"}"#, r#"Missing("principal")"#),
    (r#"{"effect": "permit", §"when": 1}"#, "UnknownKey"),
    (
        r#"{"effect": §"allow", "principal": {}, "action": {}, "resource": {}}"#,
        r#"Expected("`permit` or `forbid`")"#,
    ),
    (
        r#"{"effect": "permit", "principal": §{}, "action": {}, "resource": {}}"#,
        r#"Missing("op")"#,
    ),
    (
        r#"{"effect": "permit", "principal": {"op": §"="}, "action": {}, "resource": {}}"#,
        r#"Expected("`All`, `==`, `in` or `is`")"#,
    ),
    (
        r#"{"effect": "permit", "principal": {"op": "==", "slot": §"?resource"}, "action": {}, "resource": {}}"#,
        r#"Expected("the slot of this variable")"#,
    ),
    (
        r#"{"effect": "permit", "principal": §{"op": "=="}, "action": {}, "resource": {}}"#,
        r#"Missing("entity")"#,
    ),
    (
        r#"{"effect": "permit", "principal": {"op": "All"}, "action": {"op": "==", "entity": §{"type": "Act", "id": "a"}}, "resource": {"op": "All"}}"#,
        "ActionType",
    ),
    (
        r#"{"effect": "permit", "principal": {"op": "All"}, "action": {"op": "All"}, "resource": {"op": "All"}, "annotations": {"a": §1}}"#,
        r#"Expected("a text")"#,
    ),
    (
        r#"{"effect": "permit", "principal": {"op": "All"}, "action": {"op": "All"}, "resource": {"op": "All"}, "conditions": [{"kind": §"if", "body": {"Value": true}}]}"#,
        r#"Expected("`when` or `unless`")"#,
    ),
    (r#"{"staticPolicies": {}, §"policies": {}}"#, "UnknownKey"),
    (r#"{"templateLinks": §{}}"#, r#"Expected("a list")"#),
    (r#"{"templateLinks": [§{}]}"#, r#"Missing("templateId")"#),
    (
        r#"{"templates": {"t": {}}, "templateLinks": [], §"x": 1}"#,
        "UnknownKey",
    ),
];

#[test]
fn in_policies(rt: HostRuntime) -> Result<(), Fail> {
    check_faults(&rt, rt.alloc(), show_policies, ("", ""), &POLICIES)
}
