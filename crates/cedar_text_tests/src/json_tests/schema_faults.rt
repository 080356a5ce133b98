// Faults of schemas in JSON, with their places.
use crate::frames::Frame;
use crate::json_tests::cases::check_faults;
use crate::json_tests::schemas::show_schema;
use cedar_json::{PlacedFault, schema_text_or_faults};
use std::alloc::{AllocError, Global};
use std::process::Abort;
use std::test::Fail;

/// Schemas with a fault at the mark, and the fault.
const WHOLE: [(&str, &str); 13] = [
    ("§[]", r#"Expected("an object")"#),
    (r#"{"N": §1}"#, r#"Expected("an object")"#),
    (r#"{"N": §{"actions": {}}}"#, r#"Missing("entityTypes")"#),
    (r#"{"N": §{"entityTypes": {}}}"#, r#"Missing("actions")"#),
    (r#"{§"N M": {"entityTypes": {}, "actions": {}}}"#, "Name"),
    (
        r#"{"N": {"entityTypes": {§"A::B": {}}, "actions": {}}}"#,
        "Name",
    ),
    (
        r#"{"N": {"entityTypes": {§"A; entity B": {}}, "actions": {}}}"#,
        "Name",
    ),
    (
        r#"{"N": {"entityTypes": {§"1A": {}}, "actions": {}}}"#,
        "Name",
    ),
    (
        r#"{"N": {"commonTypes": {"A": {"type": "Long"}}, "entityTypes": {"A": {"tags": {"type": "Entity", "name": §"A"}}}, "actions": {}}}"#,
        "Hidden",
    ),
    (
        r#"{"N": {"commonTypes": {"R": {"type": "R"}}, "entityTypes": {"A": {"shape": §{"type": "R"}}}, "actions": {}}}"#,
        "Circular",
    ),
    (
        r#"{"N": {"annotations": {"a": §1}, "entityTypes": {}, "actions": {}}}"#,
        r#"Expected("a text")"#,
    ),
    (
        r#"{"N": {"entityTypes": {}, "actions": {}}, §"N": {}}"#,
        "Json(SameKey)",
    ),
    (r#"{"N": {"entityTypes": {}, "actions": §null}}"#, "Null"),
];

#[test]
fn in_schemas(rt: HostRuntime) -> Result<(), Fail> {
    check_faults(&rt, rt.alloc(), show_schema, ("", ""), &WHOLE)
}

/// The text before and behind an entity type `A` of the namespace `N`.
const ENTITY_TYPE: Frame<'static> = (r#"{"N": {"entityTypes": {"A": "#, r#"}, "actions": {}}}"#);

/// Bodies of entity types.
const ENTITY_TYPES: [(&str, &str); 5] = [
    (r#"{§"parents": []}"#, "UnknownKey"),
    (r#"{"enum": [], §"tags": {"type": "Long"}}"#, "UnknownKey"),
    (r#"{"memberOfTypes": §"B"}"#, r#"Expected("a list")"#),
    (r#"{"memberOfTypes": [§"B :: C"]}"#, "Name"),
    (r#"{"enum": [§1]}"#, r#"Expected("a text")"#),
];

#[test]
fn in_entity_types(rt: HostRuntime) -> Result<(), Fail> {
    check_faults(&rt, rt.alloc(), show_schema, ENTITY_TYPE, &ENTITY_TYPES)
}

/// Types, here those of the tags of an entity type.
const TYPES: [(&str, &str); 4] = [
    (r#"{"type": "Entity", "name": §"Long"}"#, "Undeclared"),
    (r#"§{"name": "A"}"#, r#"Missing("type")"#),
    (r#"§{"type": "Set"}"#, r#"Missing("element")"#),
    (
        r#"{"type": "Long", §"element": {"type": "Long"}}"#,
        "UnknownKey",
    ),
];

#[test]
fn in_types(rt: HostRuntime) -> Result<(), Fail> {
    check_member(&rt, rt.alloc(), "tags", &TYPES)
}

/// Types that must be records.
const SHAPES: [(&str, &str); 3] = [
    (r#"{"type": §"Long"}"#, r#"Expected("a record")"#),
    (
        r#"{"type": "Record", "attributes": {}, "additionalAttributes": §true}"#,
        "OpenRecord",
    ),
    (
        r#"{"type": "Record", "attributes": {"a": {"type": "Long", "required": §1}}}"#,
        r#"Expected("`true` or `false`")"#,
    ),
];

#[test]
fn in_shapes(rt: HostRuntime) -> Result<(), Fail> {
    check_member(&rt, rt.alloc(), "shape", &SHAPES)
}

/// Checks that each text, as the member of this name of an entity type, has this fault at its mark.
fn check_member(
    rt: &impl Abort,
    alloc: Global,
    name: &str,
    cases: &[(&str, &str)],
) -> Result<(), Fail> {
    let (before, behind) = ENTITY_TYPE;
    let before = format!(in alloc; "{before}{{\"{name}\": ")?;
    let behind = format!(in alloc; "}}{behind}")?;
    let frame = (before.as_str(), behind.as_str());
    check_faults(rt, alloc, show_schema, frame, cases)
}

/// Bodies of actions.
const ACTIONS: [(&str, &str); 4] = [
    (r#"{"attributes": §{"b": 1}}"#, "ActionAttributes"),
    (r#"{"memberOf": [§{}]}"#, r#"Missing("id")"#),
    (r#"{"memberOf": [{"id": "b", "type": §"A\""}]}"#, "Name"),
    (
        r#"{"appliesTo": §{"principalTypes": []}}"#,
        r#"Missing("resourceTypes")"#,
    ),
];

#[test]
fn in_actions(rt: HostRuntime) -> Result<(), Fail> {
    let before = r#"{"N": {"entityTypes": {}, "actions": {"a": "#;
    check_faults(&rt, rt.alloc(), show_schema, (before, "}}}"), &ACTIONS)
}

/// The faults of a schema, and its rest, in which a type with a fault is a record without attributes.
fn show_rest(alloc: Global, json: &str) -> Result<String, AllocError> {
    let mut shown = String::new(alloc);
    let rest = match schema_text_or_faults(alloc, json)? {
        Ok(written) => Some(written),
        Err(faulty) => {
            for PlacedFault { start, fault } in &faulty.faults {
                write!(shown, "{start} {fault:?}; ")?;
            }
            faulty.rest
        }
    };
    match &rest {
        Some(rest) => shown.push_str(rest.text())?,
        None => shown.push_str("no rest")?,
    }
    Ok(shown)
}

#[test]
fn rests(rt: HostRuntime) -> Result<(), Fail> {
    for (json, wanted) in [
        (
            r#"{"": {"entityTypes": {"A": {"tags": {"type": "Set", "element": 1}, "enm": 2}, "B": 3}, "actions": {"a": 4}}}"#,
            "63 Expected(\"an object\"); 67 UnknownKey; 83 Expected(\"an object\"); 104 Expected(\"an object\"); \
             entity A tags Set<{}>;\nentity B;\naction \"a\";\n",
        ),
        (
            r#"{"": {"entityTypes": {"A": {"shape": {"type": "Record", "attributes": {"b": {"type": "Entity", "name": ""}}}}}, "actions": {}}}"#,
            "103 Name; entity A = {\"b\": {}, };\n",
        ),
        (
            r#"{"": {"entityTypes": {"A": {"shape": {"type": "R"}}}, "actions": 5}}"#,
            "65 Expected(\"an object\"); no rest",
        ),
        ("[", "1 Json(Value); no rest"),
    ] {
        let got = show_rest(rt.alloc(), json)?;
        assert_eq!(rt; got.as_str(), wanted, "{json}");
    }
    Ok(())
}
