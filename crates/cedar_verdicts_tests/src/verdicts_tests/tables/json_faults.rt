// Policies and schemas in JSON with a fault, and the answers.
use crate::verdicts_tests::tables::teams::{JSON_BEFORE, JSON_BEHIND};

/// The line of the counts if there is one fault.
pub const ONE_FAULT: &str = "policies: 0, accepted: 0, refused: 0, warnings: 0, faults: 1";

/// Policies in JSON by their parts, and the fault of each.
pub const FAULTS: [(&[&str], &str); 23] = [
    (
        &[JSON_BEFORE, r#"{"Slot": "?principal"}"#, JSON_BEHIND],
        "p:1:191: fault: a slot can stand in the scope alone, before the conditions",
    ),
    (
        &[JSON_BEFORE, r#"{"Unknown": {"name": "x"}}"#, JSON_BEHIND],
        "p:1:191: fault: an unknown has no value",
    ),
    (
        &[
            "{\"effect\": \"permit\",\n",
            r#" "principal" {"op": "All"}}"#,
        ],
        "p:2:14: fault: `:` is expected, where `{` is read",
    ),
    (
        &[
            "[{\"effect\": \"permit\"\n",
            r#" "principal": {"op": "All"}}]"#,
        ],
        "p:2:2: fault: `,` or `}` is expected, where `\"principal\"` is read",
    ),
    (
        &["[1,\n", " 2"],
        "p:2:3: fault: `,` or `]` is expected, where the text ends",
    ),
    (
        &["[] x"],
        "p:1:4: fault: the end is expected, where `x` is read",
    ),
    (
        &["['a']"],
        "p:1:2: fault: a value is expected, where `'` is read; texts stand in double quotes",
    ),
    (
        &["{effect: 1}"],
        "p:1:2: fault: a key in quotes is expected, where `effect` is read",
    ),
    (
        &[r#"{"effect": null}"#],
        "p:1:12: fault: `null` has no meaning here; what is not there is left out with its \
         key",
    ),
    (
        &[r#"{"a": 1.5}"#],
        "p:1:8: fault: a number with a fraction, where `.5` is read; numbers are whole",
    ),
    (
        &[r#"{"a": 9223372036854775808}"#],
        "p:1:7: fault: a number out of range, where `9223372036854775808` is read",
    ),
    (
        &["{\"a\": \"b\n", "\"}"],
        "p:1:9: fault: a control character in a text",
    ),
    (
        &[r#"{"a": {}, "b": {}, "a": {}}"#],
        "p:1:20: fault: the same key twice: `a`",
    ),
    (
        &[r#"[{"effect": "permit"}]"#],
        "p:1:2: fault: the key `principal` is missing",
    ),
    (
        &[r#"["permit"]"#],
        "p:1:2: fault: an object is expected, where `\"permit\"` is read",
    ),
    (
        &[
            r#"{"effect": "allow", "principal": {"op": "All"}, "action": {"op": "==", "#,
            r#""entity": {"type": "Team::Action", "id": "view"}}, "resource": {"op": "All"}}"#,
        ],
        "p:1:12: fault: `permit` or `forbid` is expected, where `\"allow\"` is read",
    ),
    (
        &[
            r#"{"a": {"efect": "permit", "principal": {"op": "All"}, "action": {"op": "==", "#,
            r#""entity": {"type": "Team::Action", "id": "view"}}, "resource": {"op": "All"}}}"#,
        ],
        "p:1:8: fault: a key that has no meaning here: `efect`",
    ),
    (
        &[JSON_BEFORE, r#"{"Var": "user"}"#, JSON_BEHIND],
        "p:1:199: fault: `principal`, `action`, `resource` or `context` is expected, where \
         `\"user\"` is read",
    ),
    (
        &[
            r#"{"effect": "permit", "principal": {"op": "=", "entity": {"type": "Team::User", "#,
            r#""id": "a"}}, "action": {"op": "==", "entity": {"type": "Team::Action", "#,
            r#""id": "view"}}, "resource": {"op": "All"}}"#,
        ],
        "p:1:42: fault: `All`, `==`, `in` or `is` is expected, where `\"=\"` is read",
    ),
    (
        &[
            r#"{"effect": "permit", "principal": {"op": "is", "entity_type": "Team User"}, "#,
            r#""action": {"op": "==", "entity": {"type": "Team::Action", "id": "view"}}, "#,
            r#""resource": {"op": "All"}}"#,
        ],
        "p:1:63: fault: a name is expected, as words with `::` between them, where `\"Team \
         User\"` is read",
    ),
    (
        &[
            r#"{"effect": "permit", "principal": {"op": "All"}, "action": {"op": "==", "#,
            r#""entity": {"type": "Team::User", "id": "a"}}, "resource": {"op": "All"}}"#,
        ],
        "p:1:83: fault: the type of an action has to be named `Action`",
    ),
    (
        &[r#"{"": {"entityTypes": {}, "actions": {}}}"#],
        "p:1:7: fault: a key that has no meaning here: `entityTypes`; the schema is the first \
         file, and policies come behind it",
    ),
    (
        &[r#"{"templates": {}, "policies": {}}"#],
        "p:1:19: fault: a key that has no meaning here: `policies`",
    ),
];

/// Policies in JSON by their pieces, each with its number of repetitions, and the fault of each.
pub const NESTED: [(&[(&str, usize)], &str); 2] = [
    (
        &[("[", 400), ("[", 100000)],
        "p:1:401: fault: nested too deep: 400 objects and lists may stand inside each other",
    ),
    (
        &[("{", 1), ("\"a\": {", 399), ("\"a\": ", 1), ("{", 100000)],
        "p:1:2401: fault: nested too deep: 400 objects and lists may stand inside each other",
    ),
];

/// Schemas in JSON by their parts, and the fault of each.
pub const SCHEMAS: [(&[&str], &str); 8] = [
    (
        &[r#"{"": {"actions": {}}}"#],
        "s:1:6: fault: the key `entityTypes` is missing",
    ),
    (
        &[
            r#"{"": {"entityTypes": {"A": {"shape": {"type": "Record", "#,
            r#""attributes": {"a": {"type": "Lnog"}}}}}, "actions": {}}}"#,
        ],
        "s:1:86: fault: a type that is not declared: `Lnog`",
    ),
    (
        &[
            r#"{"": {"entityTypes": {"A": {"shape": {"type": "Record", "#,
            r#""attributes": {"a": {"type": "EntityOrCommon", "name": "B"}}}}}, "actions": {}}}"#,
        ],
        "s:1:112: fault: a type that is not declared: `B`",
    ),
    (
        &[
            r#"{"": {"entityTypes": {"A": {"memberOfTypes": ["B"], "shape": {"type": "Record", "#,
            r#""attributes": {"a": {"type": "Long"}}}}}, "actions": {}}}"#,
        ],
        "s:1:47: fault: a name that is not declared, where `B` is read",
    ),
    (
        &[
            r#"{"": {"entityTypes": {"A": {"shape": {"type": "Record", "#,
            r#""additionalAttributes": true, "attributes": {"a": {"type": "Long"}}}}}, "#,
            r#""actions": {}}}"#,
        ],
        "s:1:81: fault: a record that is open to other attributes",
    ),
    (
        &[
            r#"{"": {"commonTypes": {"Long": {"type": "String"}}, "#,
            r#""entityTypes": {"A": {"shape": {"type": "Record", "#,
            r#""attributes": {"a": {"type": "Long"}}}}}, "actions": {}}}"#,
        ],
        "s:1:23: fault: a name that the language keeps for itself, where `Long` is read",
    ),
    (
        &[r#"{"effect": "permit"}"#],
        "s:1:12: fault: an object is expected, where `\"permit\"` is read; the schema is the \
         first file, and policies come behind it",
    ),
    (
        &[
            r#"{"": {"entityTypes": {"A": {}}, "#,
            r#""actions": {"a": {"appliesTo": {"principalTypes": ["A"], "resourceTypes": ["B"]}}}}}"#,
        ],
        "s:1:108: fault: a type that is not declared: `B`",
    ),
];
