// Answers on texts that conform: each value of an entity and of a request.
use crate::data_tests::shown::test_schema;
use cedar_data::{check_entities_text, check_entry_text, check_request_text};
use cedar_reading::uid_alone;
use std::alloc::{AllocError, Global};
use std::process::Abort;
use std::test::Fail;

/// A user with a value of each form, and the user's group.
const ENTITIES: &str = r#"[
  {"uid": {"type": "User", "id": "a"},
   "attrs": {"name": "\u00e9\n\"", "age": -9223372036854775808, "boss": {"type": "User", "id": "b"},
     "homes": [{"zip": 2, "street": "t"}, {"street": "", "zip": 1}], "seen": ["2024-01-01"],
     "from": {"fn": "ip", "arg": "10.0.0.1"}, "call": {"fn": "ip", "arg": 3}},
   "parents": [{"type": "Group", "id": "g"}], "tags": {"k": ["y", "x"], "": []}},
  {"uid": {"__entity": {"type": "Group", "id": "g"}}, "attrs": {"owner": {"type": "User", "id": "a"}},
   "parents": [{"type": "Org", "id": "o"}]}
]"#;

/// Each entity of a list has its own attributes, ancestors and tags, and so has an action that is not listed.
#[test]
fn entities_as_they_stand(rt: HostRuntime) -> Result<(), Fail> {
    let cases = [
        (
            "User::\"a\"",
            r#"age: -9223372036854775808; boss: User::"b"; call: {"arg": 3, "fn": "ip"}; from: ipaddr("10.0.0.1"); homes: [{"street": "t", "zip": 2}, {"street": "", "zip": 1}]; name: "é\n\""; seen: [datetime("2024-01-01")]; in Group::"g"; in Org::"o"; tag : []; tag k: ["y", "x"]; "#,
        ),
        ("Group::\"g\"", r#"owner: User::"a"; in Org::"o"; "#),
        (
            "Action::\"view\"",
            r#"in Action::"read"; in Action::"write"; "#,
        ),
        ("User::\"b\"", "not stored"),
    ];
    for (id, wanted) in cases {
        assert_eq!(rt;
            stored_shown(rt.alloc(), ENTITIES, id)?.as_str(),
            wanted,
            "{id}"
        );
    }
    Ok(())
}

/// The stored parts of an entity of a text.
pub fn stored_shown(alloc: Global, text: &str, id: &str) -> Result<String, AllocError> {
    let schema = test_schema(alloc);
    let checked = check_entities_text(alloc, &schema, text);
    let (Ok(checked), Ok(id)) = (checked, uid_alone(alloc, id)) else {
        return String::from_str(alloc, "not read");
    };
    let Some(entities) = &checked.conforming else {
        return format!(in alloc; "{}", checked.faults);
    };
    let Some(entity) = entities.get(&id) else {
        return String::from_str(alloc, "not stored");
    };
    let mut shown = String::new(alloc);
    for (name, value) in entity.attributes.iter() {
        write!(shown, "{name}: {value}; ")?;
    }
    for ancestor in entity.ancestors.as_slice() {
        write!(shown, "in {ancestor}; ")?;
    }
    for (name, value) in entity.tags.iter() {
        write!(shown, "tag {name}: {value}; ")?;
    }
    Ok(shown)
}

/// Each part of a request is the value of its key.
#[test]
fn a_request_as_it_stands(rt: HostRuntime) -> Result<(), Fail> {
    let text =
        r#"{"context": {"ways": [{"cost": "1.0"}], "ip": "::1", "color": {"type": "Color", "id": "green"}},
  "resource": {"type": "Group", "id": "g"}, "action": "Action::\"view\"", "principal": "User::\"\\u{e9}\""}"#;
    let wanted =
        r#"User::"é" Action::"view" Group::"g" color: Color::"green"; ip: ipaddr("::1"); ways: [{"cost": decimal("1.0")}]; "#;
    assert_eq!(&rt; request_parts_shown(rt.alloc(), text)?.as_str(), wanted);
    Ok(())
}

/// The parts of the request in a text.
fn request_parts_shown(alloc: Global, text: &str) -> Result<String, AllocError> {
    let schema = test_schema(alloc);
    let Ok(checked) = check_request_text(alloc, &schema, text) else {
        return String::from_str(alloc, "not read");
    };
    let Some(request) = &checked.conforming else {
        return format!(in alloc; "{}", checked.faults);
    };
    let (principal, action) = (&request.principal, &request.action);
    let mut shown = format!(in alloc; "{principal} {action} {} ", request.resource)?;
    for (name, value) in request.context.iter() {
        write!(shown, "{name}: {value}; ")?;
    }
    Ok(shown)
}

/// An entity in a text of its own has its own attributes.
#[test]
fn an_entry_as_it_stands(rt: HostRuntime) -> Result<(), Fail> {
    let text =
        r#"{"uid": {"type": "User", "id": "a"}, "attrs": {"name": "A", "age": 7}, "parents": []}"#;
    let wanted = r#"User::"a" age: 7; name: "A"; "#;
    assert_eq!(&rt; attributes_shown(rt.alloc(), text)?.as_str(), wanted);
    Ok(())
}

/// The id and the attributes of the entity in a text.
fn attributes_shown(alloc: Global, text: &str) -> Result<String, AllocError> {
    let schema = test_schema(alloc);
    let Ok(checked) = check_entry_text(alloc, &schema, text) else {
        return String::from_str(alloc, "not read");
    };
    let Some((id, entity)) = &checked.conforming else {
        return format!(in alloc; "{}", checked.faults);
    };
    let mut shown = format!(in alloc; "{id} ")?;
    for (name, value) in entity.attributes.iter() {
        write!(shown, "{name}: {value}; ")?;
    }
    Ok(shown)
}
