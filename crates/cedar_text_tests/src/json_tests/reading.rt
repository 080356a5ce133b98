// Schemas of JSON, read in Cedar's own syntax: their declarations, and the places of their faults in the text of JSON.
use crate::json_tests::cases::check_faults;
use cedar_json::{FormError, schema_text};
use cedar_reading::{
    ReadError, RefusedName, SchemaReadError, refused_name, schema, shadowing_name,
};
use std::alloc::{AllocError, Global};
use std::test::Fail;

/// `read`, or the fault of a schema, and its byte in the text of JSON.
fn read_schema(alloc: Global, json: &str) -> Result<String, AllocError> {
    let written = match schema_text(alloc, json) {
        Ok(written) => written,
        Err(FormError::Memory(error)) => return Err(error),
        Err(FormError::At(at, fault)) => return format!(in alloc; "{at} {fault:?}"),
    };
    let text = written.text();
    let (at, fault) = match schema(alloc, text) {
        Ok(_) => match shadowing_name(alloc, text)? {
            Some(hidden) => (hidden.start, String::from_str(alloc, "Shadowing")?),
            None => return String::from_str(alloc, "read"),
        },
        Err(SchemaReadError::Read(ReadError::Memory(error))) => return Err(error),
        Err(SchemaReadError::Read(ReadError::At(at, fault))) => {
            (at, format!(in alloc; "{fault:?}")?)
        }
        Err(SchemaReadError::Refused(fault)) => {
            let name = refused_name(alloc, text, &fault)?;
            (start_of(name), format!(in alloc; "{fault:?}")?)
        }
    };
    format!(in alloc; "{} {fault}", written.origin_of(at).start)
}

fn start_of(name: Option<RefusedName>) -> usize {
    match name {
        Some(name) => name.start,
        None => 0,
    }
}

const PHOTOS: &str = r#"{"N": {
  "commonTypes": {
    "Address": {"type": "Record", "attributes": {"street": {"type": "String"}, "zip": {"type": "Long", "required": false}}},
    "Places": {"type": "Set", "element": {"type": "Address"}}
  },
  "entityTypes": {
    "User": {
      "memberOfTypes": ["Group"],
      "shape": {"type": "Record", "attributes": {
        "home": {"type": "Address"},
        "all": {"type": "EntityOrCommon", "name": "Places"},
        "boss": {"type": "Entity", "name": "User", "required": false},
        "ip": {"type": "Extension", "name": "ipaddr"},
        "is": {"type": "Boolean", "annotations": {"doc": "whether"}}
      }},
      "tags": {"type": "EntityOrCommon", "name": "String"}
    },
    "Group": {"shape": {"type": "Address"}},
    "Kind": {"enum": ["a", "b"]}
  },
  "actions": {
    "view": {
      "memberOf": [{"id": "all"}],
      "appliesTo": {"principalTypes": ["User"], "resourceTypes": ["N::Kind", "Group"], "context": {"type": "Address"}}
    },
    "all": {"annotations": {"doc": "each"}}
  }
}}"#;

#[test]
fn schemas(rt: HostRuntime) -> Result<(), Fail> {
    let alloc = rt.alloc();
    for json in [
        PHOTOS,
        "{}",
        r#"{"": {"entityTypes": {}, "actions": {"a": {"memberOf": [{"id": "b", "type": "Action"}]}, "b": {}}}}"#,
    ] {
        let given = read_schema(alloc, json)?;
        assert_eq!(rt; given.as_str(), "read", "{json}");
    }
    Ok(())
}

/// Schemas with a fault at the mark, and the fault.
const FAULTS: [(&str, &str); 16] = [
    (
        r#"{"": {"entityTypes": {"A": {"memberOfTypes": [§"B"]}}, "actions": {}}}"#,
        "Undeclared",
    ),
    (
        r#"{"": {"entityTypes": {§"if": {}}, "actions": {}}}"#,
        "Reserved",
    ),
    (
        r#"{§"__cedar": {"entityTypes": {}, "actions": {}}}"#,
        "Reserved",
    ),
    (
        r#"{"": {"commonTypes": {§"Long": {"type": "Long"}}, "entityTypes": {}, "actions": {}}}"#,
        "Reserved",
    ),
    (
        r#"{"": {"entityTypes": {"A": {"tags": {"type": "Extension", "name": §"ip"}}}, "actions": {}}}"#,
        "Undeclared",
    ),
    (
        r#"{"": {"entityTypes": {§"A": {"enum": []}}, "actions": {}}}"#,
        "EmptyEnum",
    ),
    (
        r#"{"": {"entityTypes": {§"Action": {}}, "actions": {}}}"#,
        "ActionTypeDeclared",
    ),
    (
        r#"{"": {"entityTypes": {"A": {"tags": {"type": "EntityOrCommon", "name": §"B"}}}, "actions": {}}}"#,
        "UnknownType",
    ),
    (
        r#"{"": {"entityTypes": {"A": {"tags": {"type": "Entity", "name": §"B"}}}, "actions": {}}}"#,
        "UnknownType",
    ),
    (
        r#"{"": {"entityTypes": {"A": {"tags": {"type": §"Lnog"}}}, "actions": {}}}"#,
        "UnknownType",
    ),
    (
        r#"{"": {"entityTypes": {"A": {}}, "actions": {"a": {"appliesTo": {"principalTypes": ["A"], "resourceTypes": ["A", §"B"]}}}}}"#,
        "UnknownType",
    ),
    (
        r#"{"": {"entityTypes": {}, "actions": {"a": {"memberOf": [{"id": §"b"}]}}}}"#,
        "Undeclared",
    ),
    (
        r#"{"": {"entityTypes": {}, "actions": {"a": {"memberOf": [{"id": "b", "type": §"N::Action"}]}}}}"#,
        "Undeclared",
    ),
    (
        r#"{"": {"commonTypes": {"C": {"type": "Long"}}, "entityTypes": {"A": {}}, "actions": {"a": {"appliesTo": {"principalTypes": ["A"], "resourceTypes": ["A"], "context": {"type": §"C"}}}}}}"#,
        "VagueType",
    ),
    (
        r#"{"": {"entityTypes": {"A": {}}, "actions": {}}, "N": {"entityTypes": {§"A": {}}, "actions": {}}}"#,
        "Shadowing",
    ),
    (
        r#"{"": {"entityTypes": {}, "actions": {"a": {}}}, "N": {"entityTypes": {}, "actions": {§"a": {}}}}"#,
        "Shadowing",
    ),
];

#[test]
fn faults(rt: HostRuntime) -> Result<(), Fail> {
    check_faults(&rt, rt.alloc(), read_schema, ("", ""), &FAULTS)
}
