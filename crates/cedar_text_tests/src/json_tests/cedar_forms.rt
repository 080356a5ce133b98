// Forms in which Cedar itself writes or reads JSON: `null` for an option, and other words for one
// meaning.
use crate::frames::Frame;
use crate::json_tests::cases::{check, check_faults};
use crate::json_tests::policies::CONDITION;
use crate::json_tests::policy_trees::show_policies;
use crate::json_tests::schemas::show_schema;
use std::test::Fail;

/// The text before and behind the annotations of a policy without constraints.
const ANNOTATIONS: Frame<'static> = (
    r#"{"effect": "permit", "principal": {"op": "All"}, "action": {"op": "All"}, "resource": {"op": "All"}, "conditions": [], "annotations": "#,
    "}",
);

/// The text before and behind the type of the tags of an entity type `A`.
const TAGS: Frame<'static> = (
    r#"{"": {"entityTypes": {"A": {"tags": "#,
    r#"}}, "actions": {}}}"#,
);

/// The text before and behind an action `a`.
const ACTION: Frame<'static> = (r#"{"": {"entityTypes": {}, "actions": {"a": "#, "}}}");

/// An annotation without a value is as `@doc` in Cedar's own syntax, and its value is the empty
/// text.
#[test]
fn annotations_without_values(rt: HostRuntime) -> Result<(), Fail> {
    let (before, behind) = ANNOTATIONS;
    for (annotations, wanted) in [
        (r#"{"doc": null}"#, "policy0 permit any any any;"),
        (r#"{"doc": null, "id": "mine"}"#, "mine permit any any any;"),
        (r#"{"id": null}"#, " permit any any any;"),
        ("null", "policy0 permit any any any;"),
    ] {
        let json = format!(in rt.alloc(); "{before}{annotations}{behind}")?;
        check(&rt, rt.alloc(), show_policies, &[(json.as_str(), wanted)])?;
    }
    Ok(())
}

/// The constraints of scopes.
const SCOPES: [(&str, &str); 2] = [
    (
        r#"{"effect": "permit", "principal": {"op": "all"}, "action": {"op": "all"}, "resource": {"op": "all"}, "conditions": []}"#,
        "policy0 permit any any any;",
    ),
    (
        r#"{"effect": "permit", "principal": {"op": "is", "entity_type": "U", "in": null}, "action": {"op": "All"}, "resource": {"op": "is", "entity_type": "F", "in": null}, "conditions": []}"#,
        "policy0 permit is U any is F;",
    ),
];

#[test]
fn scopes(rt: HostRuntime) -> Result<(), Fail> {
    check(&rt, rt.alloc(), show_policies, &SCOPES)
}

/// Conditions with their trees.
const CONDITIONS: [(&str, &str); 4] = [
    (
        r#"{"is": {"left": {"Var": "principal"}, "entity_type": "U", "in": null}}"#,
        "(is principal U)",
    ),
    (
        r#"{"Value": {"__extn": {"fn": "ip", "args": ["1.2.3.4"]}}}"#,
        "(ip `1.2.3.4`)",
    ),
    (
        r#"{"Value": {"__extn": {"fn": "offset", "args": [{"__extn": {"fn": "datetime", "arg": "1970-01-01"}}, {"__extn": {"fn": "duration", "arg": "1ms"}}]}}}"#,
        "(offset (datetime `1970-01-01`) (duration `1ms`))",
    ),
    (r#"{"Value": {"__extn": {"fn": "f", "args": []}}}"#, "(f)"),
];

#[test]
fn conditions(rt: HostRuntime) -> Result<(), Fail> {
    let (before, behind) = CONDITION;
    for (condition, tree) in CONDITIONS {
        let json = format!(in rt.alloc(); "{before}{condition}{behind}")?;
        let wanted = format!(in rt.alloc(); "policy0 permit any any any {tree};")?;
        check(
            &rt,
            rt.alloc(),
            show_policies,
            &[(json.as_str(), wanted.as_str())],
        )?;
    }
    Ok(())
}

/// Conditions with a fault at the mark, and the fault.
const FAULTS_OF_CONDITIONS: [(&str, &str); 6] = [
    (r#"{"Value": §null}"#, "Null"),
    (r#"{"Value": [1, {"a": §null}]}"#, "Null"),
    (r#"{"!": {"arg": §null}}"#, "Null"),
    (
        r#"{"Value": {"__extn": {"fn": "ip", §"arg": "a", "args": ["b"]}}}"#,
        "UnknownKey",
    ),
    (
        r#"{"Value": {"__extn": {"fn": "ip", "args": §null}}}"#,
        "Null",
    ),
    (
        r#"{"Value": {"__extn": {"fn": "ip", "args": §"b"}}}"#,
        r#"Expected("a list")"#,
    ),
];

#[test]
fn faults_of_conditions(rt: HostRuntime) -> Result<(), Fail> {
    check_faults(
        &rt,
        rt.alloc(),
        show_policies,
        CONDITION,
        &FAULTS_OF_CONDITIONS,
    )
}

/// A `null` in place of a value is a fault of its policy alone.
#[test]
fn a_null_of_one_policy(rt: HostRuntime) -> Result<(), Fail> {
    let (before, behind) = ANNOTATIONS;
    let good = format!(in rt.alloc(); "{before}{{}}{behind}")?;
    let json = format!(in rt.alloc(); "[{good}, {{\"effect\": null}}, {good}, null]")?;
    // `null` stands behind the bracket, the first policy, `, ` and `{"effect": `; the last one
    // stands before the closing bracket.
    let first = good.len().saturating_add(14);
    let last = json.len().saturating_sub(5);
    let wanted = format!(in rt.alloc();
        "policy0 permit any any any;{first} Null;policy2 permit any any any;{last} Null;"
    )?;
    check(
        &rt,
        rt.alloc(),
        show_policies,
        &[(json.as_str(), wanted.as_str())],
    )
}

/// Types by their names, and their text in Cedar's own syntax.
const TYPES: [(&str, &str); 4] = [
    (r#"{"type": "ipaddr"}"#, "__cedar::ipaddr"),
    (r#"{"type": "decimal"}"#, "__cedar::decimal"),
    (r#"{"type": "datetime"}"#, "__cedar::datetime"),
    (
        r#"{"type": "Set", "element": {"type": "duration"}}"#,
        "Set<__cedar::duration>",
    ),
];

#[test]
fn extension_types_by_name(rt: HostRuntime) -> Result<(), Fail> {
    let (before, behind) = TAGS;
    for (ty, written) in TYPES {
        let json = format!(in rt.alloc(); "{before}{ty}{behind}")?;
        let wanted = format!(in rt.alloc(); "entity A tags {written};\n")?;
        check(
            &rt,
            rt.alloc(),
            show_schema,
            &[(json.as_str(), wanted.as_str())],
        )?;
    }
    // a common type of the name comes first
    let declared =
        r#"{"": {"commonTypes": {"ipaddr": {"type": "Long"}}, "entityTypes": {"A": {"tags": {"type": "ipaddr"}}}, "actions": {}}}"#;
    let wanted = "type ipaddr = __cedar::Long;\nentity A tags ipaddr;\n";
    check(&rt, rt.alloc(), show_schema, &[(declared, wanted)])
}

/// Tags with a fault at the mark, and the fault: no primitive type is an extension type, and an
/// entity has values only.
const FAULTS_OF_TAGS: [(&str, &str); 5] = [
    (r#"{"type": "Extension", "name": §"Long"}"#, "Undeclared"),
    (r#"{"type": "Extension", "name": §"String"}"#, "Undeclared"),
    (r#"{"type": "Extension", "name": §"Bool"}"#, "Undeclared"),
    (r#"{"type": §null}"#, "Null"),
    (r#"{"type": "Set", "element": §null}"#, "Null"),
];

#[test]
fn faults_of_tags(rt: HostRuntime) -> Result<(), Fail> {
    check_faults(&rt, rt.alloc(), show_schema, TAGS, &FAULTS_OF_TAGS)
}

/// Schemas with a name, at the mark, that nothing declares although it has a meaning in Cedar's own
/// syntax.
const NAMES_OF_OTHERS: [(&str, &str); 4] = [
    (
        r#"{"": {"commonTypes": {"C": {"type": "Long"}}, "entityTypes": {"A": {"tags": {"type": "Entity", "name": §"C"}}}, "actions": {}}}"#,
        "Undeclared",
    ),
    (
        r#"{"": {"entityTypes": {"A": {"tags": {"type": §"A"}}}, "actions": {}}}"#,
        "Undeclared",
    ),
    (
        r#"{"": {"entityTypes": {"A": {"tags": {"type": "Entity", "name": §"__cedar::Long"}}}, "actions": {}}}"#,
        "Undeclared",
    ),
    (
        r#"{"": {"entityTypes": {"A": {"tags": {"type": "Entity", "name": §"ipaddr"}}}, "actions": {}}}"#,
        "Undeclared",
    ),
];

#[test]
fn names_of_others(rt: HostRuntime) -> Result<(), Fail> {
    check_faults(&rt, rt.alloc(), show_schema, ("", ""), &NAMES_OF_OTHERS)
}

/// A shape is a record, and an extension type is none.
#[test]
fn an_extension_type_as_a_shape(rt: HostRuntime) -> Result<(), Fail> {
    let frame = (
        r#"{"": {"entityTypes": {"A": {"shape": {"type": "#,
        r#"}}}, "actions": {}}}"#,
    );
    let cases = [(r#"§"ipaddr""#, r#"Expected("a record")"#)];
    check_faults(&rt, rt.alloc(), show_schema, frame, &cases)
}

/// Declarations with `null` in place of an option of Cedar.
const DECLARATIONS: [(&str, &str); 3] = [
    (
        r#"{"": {"annotations": {"doc": null}, "entityTypes": {"A": {"tags": null, "annotations": {"doc": null}}}, "actions": {}}}"#,
        "entity A;\n",
    ),
    (
        r#"{"": {"entityTypes": {}, "actions": {"a": {"memberOf": null, "appliesTo": null, "attributes": null, "annotations": null}}}}"#,
        "action \"a\";\n",
    ),
    (
        r#"{"": {"entityTypes": {}, "actions": {"a": {"memberOf": [{"id": "b", "type": null}]}, "b": {}}}}"#,
        "action \"a\" in [\"b\", ];\naction \"b\";\n",
    ),
];

#[test]
fn declarations(rt: HostRuntime) -> Result<(), Fail> {
    check(&rt, rt.alloc(), show_schema, &DECLARATIONS)
}

/// Actions with `null` in place of a value of Cedar, at the mark.
const FAULTS_OF_ACTIONS: [(&str, &str); 3] = [
    (r#"{"memberOf": [§null]}"#, "Null"),
    (r#"{"memberOf": [{"id": §null}]}"#, "Null"),
    (
        r#"{"appliesTo": {"principalTypes": §null, "resourceTypes": []}}"#,
        "Null",
    ),
];

#[test]
fn faults_of_actions(rt: HostRuntime) -> Result<(), Fail> {
    check_faults(&rt, rt.alloc(), show_schema, ACTION, &FAULTS_OF_ACTIONS)
}
