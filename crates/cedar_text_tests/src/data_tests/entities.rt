// Lists of entities, and their mistakes.
use crate::data_tests::shown::check_entities;
use crate::frames::Frame;
use std::test::Fail;

/// A list of one entity.
const ALONE: Frame<'_> = ("[", "]");

/// A user with a name and further attributes.
const OF_A_USER: Frame<'_> = (
    r#"[{"uid": {"type": "User", "id": "a"}, "parents": [], "attrs": {"name": "A", "#,
    "}}]",
);

/// Entities without a mistake.
const GOOD_ENTITIES: [&str; 7] = [
    "",
    r#"{"uid": {"type": "Org", "id": "o"}, "attrs": {}, "parents": []}"#,
    r#"{"uid": {"__entity": {"type": "Org", "id": "o"}}, "attrs": {}, "parents": [], "tags": {}}"#,
    r#"{"parents": [], "tags": {"k": ["a", "b"], "l": []}, "attrs": {"name": ""}, "uid": {"id": "", "type": "User"}}"#,
    r#"{"uid": {"type": "Color", "id": "red"}, "attrs": {}, "parents": []}"#,
    r#"{"uid": {"type": "Action", "id": "write"}, "attrs": {}, "parents": []}"#,
    r#"{"uid": {"type": "Action", "id": "view"}, "attrs": {}, "parents": [{"type": "Action", "id": "read"}]}"#,
];

/// Attributes without a mistake.
const GOOD_VALUES: [&str; 12] = [
    r#""age": -9223372036854775808"#,
    r#""boss": {"type": "User", "id": "b"}"#,
    r#""boss": {"__entity": {"type": "User", "id": "b"}}"#,
    r#""address": {"street": "s", "zip": 1}"#,
    r#""homes": []"#,
    r#""homes": [{"street": "s", "zip": 1}, {"zip": 2, "street": "t"}]"#,
    r#""from": "10.0.0.1""#,
    r#""from": {"fn": "ip", "arg": "10.0.0.1"}"#,
    r#""from": {"fn": "ip", "args": ["10.0.0.1"]}"#,
    r#""from": {"__extn": {"fn": "ip", "arg": "10.0.0.1"}}"#,
    r#""seen": ["2024-01-01", {"fn": "datetime", "arg": "2024-01-02"}]"#,
    r#""call": {"fn": "ip", "arg": 3}"#,
];

/// Attributes with values of other types, and the mistakes of each.
const VALUES_OF_OTHER_TYPES: [(&str, &str); 13] = [
    (
        r#""age": "3""#,
        "\"3\" | User::\"a\".age: expected Long, found String\n",
    ),
    (
        r#""age": true"#,
        "true | User::\"a\".age: expected Long, found Bool\n",
    ),
    (
        r#""boss": "User::\"b\"""#,
        "\"User::\\\"b\\\"\" | User::\"a\".boss: expected User, found String\n",
    ),
    (
        r#""boss": {"type": "Org", "id": "b"}"#,
        "{\"type\": \"Org\", \"id\": \"b\"} | User::\"a\".boss: expected User, found Org\n",
    ),
    (
        r#""boss": {"name": "b"}"#,
        "{\"name\": \"b\"} | User::\"a\".boss: expected User, found Record\n",
    ),
    (
        r#""address": {"street": 1, "zip": "x"}"#,
        "1 | User::\"a\".address.street: expected String, found Long\n\"x\" | User::\"a\".address.zip: expected Long, found String\n",
    ),
    (
        r#""address": {"zip": 1}"#,
        "{\"zip\": 1} | User::\"a\".address.street: expected String, found nothing\n",
    ),
    (
        r#""address": {"zip": 1, "street": "s", "zap": 1}"#,
        "\"zap\" | User::\"a\".address.zap: the attribute is not declared\n",
    ),
    (
        r#""homes": [{"street": "s", "zip": 1}, {"street": "s", "zip": "2"}, 7]"#,
        "\"2\" | User::\"a\".homes[1].zip: expected Long, found String\n7 | User::\"a\".homes[2]: expected {street: String, zip: Long}, found Long\n",
    ),
    (
        r#""from": 7"#,
        "7 | User::\"a\".from: expected ipaddr, found Long\n",
    ),
    (
        r#""from": {"__extn": {"fn": "decimal", "arg": "1.0"}}"#,
        "{\"__extn\": {\"fn\": \"decimal\", \"arg\": \"1.0\"}} | User::\"a\".from: expected ipaddr, found decimal\n",
    ),
    (
        r#""call": {"__extn": {"fn": "ip", "arg": "::1"}}"#,
        "{\"__extn\": {\"fn\": \"ip\", \"arg\": \"::1\"}} | User::\"a\".call: expected {arg: Long, fn: String}, found ipaddr\n",
    ),
    (
        r#""aeg": 3"#,
        "\"aeg\" | User::\"a\".aeg: the attribute is not declared\n",
    ),
];

/// Entities of other forms, and the mistakes of each.
const ENTITIES_OF_OTHER_FORMS: [(&str, &str); 9] = [
    (
        r#"{"uid": {"type": "Usr", "id": "a"}, "attrs": {"x": 1}, "parents": []}"#,
        "{\"type\": \"Usr\", \"id\": \"a\"} | Usr::\"a\": it is not declared\n",
    ),
    (
        r#"{"uid": {"type": "User", "id": "a"}, "attrs": {}, "parents": []}"#,
        "{} | User::\"a\".name: expected String, found nothing\n",
    ),
    (
        r#"{"uid": {"type": "Org", "id": "o"}, "attrs": {}, "parents": [], "tags": {"a": 1}}"#,
        "\"tags\" | Org::\"o\": its type has no tags\n",
    ),
    (
        r#"{"uid": {"type": "User", "id": "a"}, "attrs": {"name": "A"}, "parents": [], "tags": {"a": ["x", 1], "b": 2}}"#,
        "1 | User::\"a\".getTag(\"a\")[1]: expected String, found Long\n2 | User::\"a\".getTag(\"b\"): expected Set<String>, found Long\n",
    ),
    (
        r#"{"uid": {"type": "Color", "id": "blue"}, "attrs": {}, "parents": []}"#,
        "{\"type\": \"Color\", \"id\": \"blue\"} | Color::\"blue\": the type `Color` does not have this id\n",
    ),
    (
        r#"{"uid": {"type": "Color", "id": "red"}, "attrs": {"x": 1}, "parents": []}"#,
        "\"attrs\" | Color::\"red\": it may have no attributes\n",
    ),
    (
        r#"{"uid": {"type": "Action", "id": "vew"}, "attrs": {}, "parents": []}"#,
        "{\"type\": \"Action\", \"id\": \"vew\"} | Action::\"vew\": it is not declared\n",
    ),
    (
        r#"{"uid": {"type": "Action", "id": "read"}, "attrs": {}, "parents": []}"#,
        "\"parents\" | Action::\"read\": it is declared to be in Action::\"write\", and is not\n",
    ),
    (
        r#"{"uid": {"type": "Action", "id": "read"}, "attrs": {}, "parents": [{"type": "Action", "id": "view"}]}"#,
        "{\"type\": \"Action\", \"id\": \"view\"} | Action::\"read\": it is not declared to be in Action::\"view\"\n",
    ),
];

#[test]
fn without_a_mistake(rt: HostRuntime) -> Result<(), Fail> {
    for entity in GOOD_ENTITIES {
        check_entities(&rt, rt.alloc(), ALONE, &[(entity, "")])?;
    }
    for attributes in GOOD_VALUES {
        check_entities(&rt, rt.alloc(), OF_A_USER, &[(attributes, "")])?;
    }
    Ok(())
}

#[test]
fn with_mistakes(rt: HostRuntime) -> Result<(), Fail> {
    check_entities(&rt, rt.alloc(), OF_A_USER, &VALUES_OF_OTHER_TYPES)?;
    check_entities(&rt, rt.alloc(), ALONE, &ENTITIES_OF_OTHER_FORMS)
}
