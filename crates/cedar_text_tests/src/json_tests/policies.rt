// Policies of JSON: their conditions and scopes as trees, or their faults.
use crate::frames::Frame;
use crate::json_tests::cases::check;
use crate::json_tests::policy_trees::show_policies;
use cedar_json::{Policies, ReadPolicy};
use cedar_types::base::Loc;
use std::alloc::{AllocError, Global};
use std::test::Fail;

/// The text before and behind the condition of a policy without constraints.
pub const CONDITION: Frame<'static> = (
    r#"{"effect": "permit", "principal": {"op": "All"}, "action": {"op": "All"}, "resource": {"op": "All"}, "conditions": [{"kind": "when", "body": "#,
    "}]}",
);

/// The tree of a condition in a policy without constraints.
fn show_condition(alloc: Global, condition: &str) -> Result<String, AllocError> {
    let (before, behind) = CONDITION;
    let json = format!(in alloc; "{before}{condition}{behind}")?;
    let given = show_policies(alloc, json.as_str())?;
    let rest = given.as_str().strip_prefix("policy0 permit any any any ");
    String::from_str(alloc, rest.unwrap_or(given.as_str()).trim_end_matches(';'))
}

/// Values, variables, sets and records.
const VALUES: [(&str, &str); 16] = [
    (r#"{"Value": true}"#, "true"),
    (r#"{"Value": -7}"#, "-7"),
    (r#"{"Value": "a*"}"#, "`a*`"),
    (r#"{"Value": [1, [2]]}"#, "[1 [2 ] ]"),
    (
        r#"{"Value": {"b": 1, "a": {"c": "d"}}}"#,
        "{a: {c: `d` } b: 1 }",
    ),
    (
        r#"{"Value": {"__entity": {"type": "N::User", "id": "a\"b"}}}"#,
        r#"N::User::"a\"b""#,
    ),
    (
        r#"{"Value": {"__extn": {"fn": "ip", "arg": "1.2.3.4"}}}"#,
        "(ip `1.2.3.4`)",
    ),
    (r#"{"Var": "principal"}"#, "principal"),
    (r#"{"Var": "action"}"#, "action"),
    (r#"{"Var": "resource"}"#, "resource"),
    (r#"{"Var": "context"}"#, "context"),
    (r#"{"Slot": "?resource"}"#, "?resource"),
    (r#"{"Unknown": {"name": "x"}}"#, "unknown:x"),
    (
        r#"{"Set": [{"Value": 1}, {"Var": "context"}]}"#,
        "[1 context ]",
    ),
    (r#"{"Set": []}"#, "[]"),
    (
        r#"{"Record": {"b": {"Value": 1}, "a": {"Value": 2}}}"#,
        "{a: 2 b: 1 }",
    ),
];

/// Operators on two operands, with their trees of 1 and 2.
const OPERATORS: [(&str, &str); 17] = [
    ("==", "(== 1 2)"),
    ("!=", "(not (== 1 2))"),
    ("<", "(< 1 2)"),
    ("<=", "(<= 1 2)"),
    (">", "(not (<= 1 2))"),
    (">=", "(not (< 1 2))"),
    ("in", "(in 1 2)"),
    ("&&", "(and 1 2)"),
    ("||", "(or 1 2)"),
    ("+", "(+ 1 2)"),
    ("-", "(- 1 2)"),
    ("*", "(* 1 2)"),
    ("contains", "(contains 1 2)"),
    ("containsAll", "(containsAll 1 2)"),
    ("containsAny", "(containsAny 1 2)"),
    ("getTag", "(getTag 1 2)"),
    ("hasTag", "(hasTag 1 2)"),
];

/// The tree of an operator on 1 and 2.
fn show_operator(alloc: Global, key: &str) -> Result<String, AllocError> {
    let condition = format!(in alloc;
        "{{\"{key}\": {{\"left\": {{\"Value\": 1}}, \"right\": {{\"Value\": 2}}}}}}"
    )?;
    show_condition(alloc, condition.as_str())
}

/// The other forms of conditions.
const OTHER_FORMS: [(&str, &str); 13] = [
    (r#"{"!": {"arg": {"Value": true}}}"#, "(not true)"),
    (r#"{"neg": {"arg": {"Value": 1}}}"#, "(neg 1)"),
    (r#"{"isEmpty": {"arg": {"Set": []}}}"#, "(isEmpty [])"),
    (
        r#"{".": {"left": {"Var": "context"}, "attr": "a b"}}"#,
        "(. context a b)",
    ),
    (
        r#"{"has": {"left": {"Var": "context"}, "attr": "a"}}"#,
        "(has context a)",
    ),
    (
        r#"{"has": {"left": {"Var": "context"}, "attr": ["a"]}}"#,
        "(has context a)",
    ),
    (
        r#"{"has": {"left": {"Var": "context"}, "attr": ["a", "b", "c"]}}"#,
        "(has context a.b.c)",
    ),
    (
        r#"{"like": {"left": {"Value": "x"}, "pattern": ["Wildcard", {"Literal": "a*"}, "Wildcard"]}}"#,
        "(like `x` *a_*_*)",
    ),
    (
        r#"{"is": {"left": {"Var": "principal"}, "entity_type": "N::User"}}"#,
        "(is principal N::User)",
    ),
    (
        r#"{"is": {"left": {"Var": "principal"}, "entity_type": "User", "in": {"Var": "resource"}}}"#,
        "(and (is principal User) (in principal resource))",
    ),
    (
        r#"{"if-then-else": {"if": {"Value": true}, "then": {"Value": 1}, "else": {"Value": 2}}}"#,
        "(if true 1 2)",
    ),
    (r#"{"decimal": [{"Value": "1.0"}]}"#, "(decimal `1.0`)"),
    (
        r#"{"isInRange": [{"Value": 1}, {"Value": 2}]}"#,
        "(isInRange 1 2)",
    ),
];

#[test]
fn conditions(rt: HostRuntime) -> Result<(), Fail> {
    check(&rt, rt.alloc(), show_condition, &VALUES)?;
    check(&rt, rt.alloc(), show_operator, &OPERATORS)?;
    check(&rt, rt.alloc(), show_condition, &OTHER_FORMS)
}

/// Policies with constraints, and with several conditions.
const SCOPES: [(&str, &str); 4] = [
    (
        r#"{"effect": "forbid", "principal": {"op": "==", "entity": {"type": "U", "id": "a"}}, "action": {"op": "==", "entity": {"type": "N::Action", "id": "v"}}, "resource": {"op": "in", "entity": {"__entity": {"type": "F", "id": "b"}}}}"#,
        r#"policy0 forbid == U::"a" == N::Action::"v" in F::"b";"#,
    ),
    (
        r#"{"effect": "permit", "principal": {"op": "==", "slot": "?principal"}, "action": {"op": "in", "entities": [{"type": "Action", "id": "v"}, {"type": "Action", "id": "w"}]}, "resource": {"op": "in", "slot": "?resource"}, "annotations": {"id": "mine"}, "conditions": []}"#,
        r#"mine permit == ? in Action::"v" Action::"w" in ?;"#,
    ),
    (
        r#"{"effect": "permit", "principal": {"op": "is", "entity_type": "U"}, "action": {"op": "in", "entity": {"type": "Action", "id": "v"}}, "resource": {"op": "is", "entity_type": "F", "in": {"slot": "?resource"}}}"#,
        r#"policy0 permit is U in Action::"v" is F in ?;"#,
    ),
    (
        r#"{"effect": "permit", "principal": {"op": "All"}, "action": {"op": "All"}, "resource": {"op": "All"}, "conditions": [{"kind": "when", "body": {"Value": 1}}, {"kind": "unless", "body": {"Value": 2}}, {"kind": "when", "body": {"Value": 3}}]}"#,
        "policy0 permit any any any (and (and 1 (not 2)) 3);",
    ),
];

#[test]
fn scopes(rt: HostRuntime) -> Result<(), Fail> {
    check(&rt, rt.alloc(), show_policies, &SCOPES)
}

const SET: &str =
    r#"{"staticPolicies": {"s": {"effect": "permit", "principal": {"op": "All"}, "action": {"op": "All"}, "resource": {"op": "All"}}},
 "templates": {"t": {"effect": "permit", "principal": {"op": "==", "slot": "?principal"}, "action": {"op": "All"}, "resource": {"op": "is", "entity_type": "F", "in": {"slot": "?resource"}}, "conditions": [{"kind": "when", "body": {"Slot": "?principal"}}]}},
 "templateLinks": [{"templateId": "t", "newId": "l", "values": {"?principal": {"type": "U", "id": "a"}, "?resource": {"__entity": {"type": "F", "id": "b"}}}},
  {"templateId": "t", "newId": "m", "values": {"?principal": {"type": "U", "id": "a"}}},
  {"templateId": "x", "newId": "n", "values": {}}]}"#;

#[test]
fn sets(rt: HostRuntime) -> Result<(), Fail> {
    let wanted =
        r#"s permit any any any;t permit == ? any is F in ? ?principal;l permit == U::"a" any is F in F::"b" U::"a";591 Missing("?resource");651 Undeclared;"#;
    let all =
        r#"{"effect": "permit", "principal": {"op": "All"}, "action": {"op": "All"}, "resource": {"op": "All"}}"#;
    let alloc = rt.alloc();
    let list = format!(in alloc; "[{all}, {all}]")?;
    let named = format!(in alloc; "{{\"b\": {all}, \"a\": {all}}}")?;
    let cases = [
        (SET, wanted),
        (
            list.as_str(),
            "policy0 permit any any any;policy1 permit any any any;",
        ),
        (named.as_str(), "b permit any any any;a permit any any any;"),
        ("[]", ""),
        ("{}", ""),
        (
            r#"{"staticPolicies": {}, "templates": {}, "templateLinks": []}"#,
            "",
        ),
    ];
    check(&rt, alloc, show_policies, &cases)
}

#[test]
fn places(rt: HostRuntime) -> Result<(), Fail> {
    let alloc = rt.alloc();
    let json =
        r#"{"p": {"effect": "permit", "principal": {"op": "All"}, "action": {"op": "All"}, "resource": {"op": "All"}, "conditions": [{"kind": "when", "body": {"!": {"arg": {"Value": true}}}}]}}"#;
    let mut policies = Policies::new(alloc, json)?;
    let mut places = Vec::new(alloc);
    if let Some(read) = policies.next_policy() {
        let ReadPolicy {
            effect: _,
            template,
        } = read?;
        places.push(template.loc)?;
        if let Some(rest) = &template.non_scope_constraints {
            places.push(rest.loc)?;
        }
    }
    // the policy from its key on, and the condition
    let wanted = [
        Some(Loc { start: 1, end: 181 }),
        Some(Loc {
            start: 147,
            end: 178,
        }),
    ];
    assert_eq!(rt; places.as_slice(), wanted.as_slice());
    Ok(())
}
