// Schemas of JSON in Cedar's own syntax.
use crate::json_tests::cases::check;
use cedar_json::{FormError, schema_text};
use cedar_types::base::Loc;
use std::alloc::{AllocError, Global};
use std::test::Fail;

/// The text of a schema of JSON in Cedar's syntax.
pub fn show_schema(alloc: Global, json: &str) -> Result<String, AllocError> {
    match schema_text(alloc, json) {
        Ok(written) => String::from_str(alloc, written.text()),
        Err(FormError::Memory(error)) => Err(error),
        Err(FormError::At(at, fault)) => format!(in alloc; "{at} {fault:?}"),
    }
}

/// Schemas with entity types.
const ENTITY_TYPES: [(&str, &str); 7] = [
    ("{}", ""),
    (r#"{"": {"entityTypes": {}, "actions": {}}}"#, ""),
    (
        r#"{"N::M": {"entityTypes": {"A": {}}, "actions": {}}}"#,
        "namespace N::M {\nentity A;\n}\n",
    ),
    (
        r#"{"": {"entityTypes": {"A": {"memberOfTypes": ["B", "N::C"]}, "B": {"memberOfTypes": []}}, "actions": {}}}"#,
        "entity A in [B, N::C, ];\nentity B in [];\n",
    ),
    (
        r#"{"": {"entityTypes": {"A": {"enum": ["x", "y\"\n"]}}, "actions": {}}}"#,
        "entity A enum [\"x\", \"y\\\"\\u{a}\", ];\n",
    ),
    (
        r#"{"": {"entityTypes": {"A": {"shape": {"type": "Record", "attributes": {}}, "tags": {"type": "Long"}}}, "actions": {}}}"#,
        "entity A = {} tags __cedar::Long;\n",
    ),
    (
        r#"{"": {"annotations": {"doc": "d"}, "entityTypes": {"A": {"annotations": {"doc": "d"}}}, "actions": {}}}"#,
        "entity A;\n",
    ),
];

/// Types, and their text in Cedar's own syntax.
const TYPES: [(&str, &str); 8] = [
    (r#"{"type": "Long"}"#, "__cedar::Long"),
    (r#"{"type": "String"}"#, "__cedar::String"),
    (r#"{"type": "Boolean"}"#, "__cedar::Bool"),
    (
        r#"{"type": "Extension", "name": "ipaddr"}"#,
        "__cedar::ipaddr",
    ),
    (r#"{"type": "__cedar::Long"}"#, "__cedar::Long"),
    (r#"{"type": "EntityOrCommon", "name": "Long"}"#, "Long"),
    (
        r#"{"type": "Set", "element": {"type": "Set", "element": {"type": "Long"}}}"#,
        "Set<Set<__cedar::Long>>",
    ),
    (
        r#"{"type": "Record", "attributes": {"a b": {"type": "Long", "required": true}, "c": {"type": "String", "required": false, "annotations": {"d": "e"}}}, "additionalAttributes": false}"#,
        r#"{"a b": __cedar::Long, "c"?: __cedar::String, }"#,
    ),
];

/// The text of a common type of JSON in Cedar's syntax, or the whole schema if that is not a common type alone.
fn show_type(alloc: Global, written: &str) -> Result<String, AllocError> {
    let json = format!(in alloc;
        "{{\"\": {{\"commonTypes\": {{\"T\": {written}}}, \"entityTypes\": {{}}, \"actions\": {{}}}}}}"
    )?;
    let given = show_schema(alloc, json.as_str())?;
    let alone = given
        .as_str()
        .strip_prefix("type T = ")
        .and_then(|rest| rest.strip_suffix(";\n"));
    String::from_str(alloc, alone.unwrap_or(given.as_str()))
}

/// Schemas with common types that name others.
const COMMON_TYPES: [(&str, &str); 2] = [
    (
        r#"{"": {"commonTypes": {"T": {"type": "Entity", "name": "A"}}, "entityTypes": {"A": {}}, "actions": {}}}"#,
        "type T = A;\nentity A;\n",
    ),
    (
        r#"{"": {"commonTypes": {"T": {"type": "U"}, "U": {"type": "T"}}, "entityTypes": {}, "actions": {}}}"#,
        "type T = U;\ntype U = T;\n",
    ),
];

/// Schemas whose names are looked up in their namespace and outside.
const NAMES_OF_NAMESPACES: [(&str, &str); 3] = [
    // the namespace's own name comes first, and an outer one second
    (
        r#"{"": {"entityTypes": {"B": {}}, "actions": {}}, "N": {"commonTypes": {"T": {"type": "Entity", "name": "A"}, "U": {"type": "EntityOrCommon", "name": "B"}, "V": {"type": "T"}}, "entityTypes": {"A": {}}, "actions": {}}}"#,
        "entity B;\nnamespace N {\ntype T = N::A;\ntype U = B;\ntype V = N::T;\nentity A;\n}\n",
    ),
    // a record of another namespace is written with the meaning that its names have there
    (
        r#"{"N": {"commonTypes": {"R": {"type": "Record", "attributes": {"a": {"type": "Entity", "name": "A"}}}}, "entityTypes": {"A": {}}, "actions": {}}, "M": {"entityTypes": {"A": {"shape": {"type": "N::R"}}}, "actions": {}}}"#,
        "namespace N {\ntype R = {\"a\": N::A, };\nentity A;\n}\nnamespace M {\nentity A = {\"a\": N::A, };\n}\n",
    ),
    // a shape goes through common types up to a record
    (
        r#"{"": {"commonTypes": {"R": {"type": "EntityOrCommon", "name": "S"}, "S": {"type": "Record", "attributes": {}}}, "entityTypes": {"A": {"shape": {"type": "R"}}}, "actions": {}}}"#,
        "type R = S;\ntype S = {};\nentity A = {};\n",
    ),
];

/// Schemas with actions.
const ACTIONS: [(&str, &str); 5] = [
    (
        r#"{"": {"entityTypes": {}, "actions": {"a b": {}}}}"#,
        "action \"a b\";\n",
    ),
    (
        r#"{"": {"entityTypes": {}, "actions": {"a": {"memberOf": [{"id": "b"}, {"id": "c", "type": "N::Action"}], "attributes": {}}}}}"#,
        "action \"a\" in [\"b\", N::Action::\"c\", ];\n",
    ),
    (
        r#"{"": {"entityTypes": {"A": {}}, "actions": {"a": {"appliesTo": {"principalTypes": ["A"], "resourceTypes": ["A", "A"]}}}}}"#,
        "entity A;\naction \"a\" appliesTo { principal: [A, ], resource: [A, A, ] };\n",
    ),
    (
        r#"{"": {"entityTypes": {"A": {}}, "actions": {"a": {"appliesTo": {"principalTypes": ["A"], "resourceTypes": ["A"], "context": {"type": "Record", "attributes": {"b": {"type": "Boolean"}}}}}}}}"#,
        "entity A;\naction \"a\" appliesTo { principal: [A, ], resource: [A, ], context: {\"b\": __cedar::Bool, } };\n",
    ),
    // an action without a principal type or a resource type applies to nothing
    (
        r#"{"": {"entityTypes": {"A": {}}, "actions": {"a": {"appliesTo": {"principalTypes": [], "resourceTypes": ["A"]}}}}}"#,
        "entity A;\naction \"a\";\n",
    ),
];

#[test]
fn schemas(rt: HostRuntime) -> Result<(), Fail> {
    check(&rt, rt.alloc(), show_schema, &ENTITY_TYPES)?;
    check(&rt, rt.alloc(), show_type, &TYPES)?;
    check(&rt, rt.alloc(), show_schema, &COMMON_TYPES)?;
    check(&rt, rt.alloc(), show_schema, &NAMES_OF_NAMESPACES)?;
    check(&rt, rt.alloc(), show_schema, &ACTIONS)
}

#[test]
fn places(rt: HostRuntime) -> Result<(), Fail> {
    let alloc = rt.alloc();
    let json = r#"{"": {"entityTypes": {"A": {"memberOfTypes": ["Bcd"]}}, "actions": {}}}"#;
    let written = schema_text(alloc, json)?;
    assert_eq!(rt; written.text(), "entity A in [Bcd, ];\n");
    // `entity ` belongs to no part, `A` to its key, ` in ` and the bracket to the list, and `Bcd` and the rest to the name.
    for (at, start, end) in [
        (0, 0, 0),
        (6, 0, 0),
        (7, 22, 25),
        (8, 45, 52),
        (12, 45, 52),
        (13, 46, 51),
        (15, 46, 51),
        (1000, 46, 51),
    ] {
        assert_eq!(rt; written.origin_of(at), Loc { start, end });
    }
    Ok(())
}
