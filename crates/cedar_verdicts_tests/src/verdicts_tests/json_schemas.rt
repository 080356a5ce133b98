// Faults of schemas in JSON: those of form, and all undeclared names, in the order of their places.
use cedar_verdicts::schemas::json_schema_or_faults;
use std::alloc::{AllocError, Global};
use std::test::Fail;

/// Undeclared types, types of principals and of resources, parents, and an alias.
const UNKNOWN: &str = r#"{"": {"entityTypes": {
  "A": {"memberOfTypes": ["Nope"]},
  "B": {"memberOfTypes": ["Nope2"], "shape": {"type": "Record", "attributes": {"a": {"type": "Entity", "name": "Nope3"}}}},
  "C": {"shape": {"type": "Record", "attributes": {"a": {"type": "Lng"}}}}},
 "actions": {"v": {"appliesTo": {"principalTypes": ["X"], "resourceTypes": ["Y"]}}}}}"#;

/// A record with an undeclared name, which is the shape of two types.
const SHARED: &str =
    r#"{"": {"commonTypes": {"R": {"type": "Record", "attributes": {"a": {"type": "Nope"}}}}, "entityTypes": {
  "A": {"shape": {"type": "R"}}, "B": {"shape": {"type": "R"}}}, "actions": {}}}"#;

/// A schema with faults of form, and with undeclared names beside them. A type without a kind is told by its brace.
const FORMS: &str = r#"{"N": {"annotations": {"a": 1},
 "commonTypes": {"T": {"type": "Record", "attributes": {"x": {"typ": "Long"}, "y": {"type": "Nope"}}}},
 "entityTypes": {"A": {"parents": [], "memberOfTypes": ["A", 5, "Gone"], "tags": {"type": "Set"}},
  "B": 7, "C": {"enum": ["x", 2]}, "D": {"shape": {"type": "T"}, "tags": {"type": "Long", "name": "T"}}},
 "actions": {"v": {"memberOf": [{"id": 3}, {"id": "v"}], "appliesTo":
  {"principalTypes": ["A", "B C", "X"], "resourceTypes": ["C"], "contxt": 4, "context": {"type": null}}}, "w": []}}}"#;

/// The parts at which these faults stand.
const PARTS_OF_FORMS: &str =
    "1\n{\n\"Nope\"\n\"parents\"\n5\n\"Gone\"\n{\n7\n2\n\"name\"\n3\n\"B C\"\n\"X\"\n\"contxt\"\nnull\n[\n";

/// A schema with a fault at its declarations: no name is told, because the meant one may be declared there.
const UNSURE: &str = r#"{"": {"entityType": {}, "entityTypes": {"A B": {}, "C":
  {"memberOfTypes": ["Gone"], "shape": {"type": "R"}, "tags": {"type": "Lng"}}}, "actions": {"a": 1}}}"#;

/// The parts of a text at which its faults stand.
fn faulty_parts(alloc: Global, json: &str) -> Result<String, AllocError> {
    let mut shown = String::new(alloc);
    if let Err(faults) = json_schema_or_faults(alloc, json)? {
        for fault in &faults {
            let part = json.get(fault.place.start..fault.place.end);
            writeln!(shown, "{}", part.unwrap_or("?"))?;
        }
    }
    Ok(shown)
}

/// The first hundred of more faults.
#[test]
fn many(rt: HostRuntime) -> Result<(), Fail> {
    let alloc = rt.alloc();
    let mut json = String::from_str(alloc, r#"{"": {"actions": {}, "entityTypes": {"#)?;
    for number in 0..120 {
        write!(json, "\"A{number}\": {{\"memberOfTypes\": [1, \"B\"]}}, ")?;
    }
    json.push_str(r#""C": {}}}}"#)?;
    let parts = faulty_parts(alloc, json.as_str())?;
    let wanted = "1\n\"B\"\n";
    assert_eq!(rt; parts.as_str().lines().count(), 100);
    assert!(rt; parts.as_str().starts_with(wanted), "{parts}");
    Ok(())
}

#[test]
fn all_faults(rt: HostRuntime) -> Result<(), Fail> {
    for (json, wanted) in [
        (
            UNKNOWN,
            "\"Nope\"\n\"Nope2\"\n\"Nope3\"\n\"Lng\"\n\"X\"\n\"Y\"\n",
        ),
        (SHARED, "\"Nope\"\n"),
        (FORMS, PARTS_OF_FORMS),
        (UNSURE, "\"entityType\"\n\"A B\"\n1\n"),
        (
            r#"{"": {"commonTypes": {"T": {"type": "Nope"}}, "entityTypes": {}, "actions": {}}}"#,
            "\"Nope\"\n",
        ),
        (
            r#"{"": {"entityTypes": {"A": {"tags": null}}, "actions": {}}}"#,
            "",
        ),
        (r#"{"": {"entityTypes": {}}}"#, "{\n"),
    ] {
        let parts = faulty_parts(rt.alloc(), json)?;
        assert_eq!(rt; parts.as_str(), wanted, "{json}");
    }
    Ok(())
}
