// Completions that are put in: each text is read again, and has the name that the item shows.
use crate::editor_tests::judged::{document_by, judge_by, unmarked};
use cedar_editor::completions::{Completion, completion_at};
use cedar_editor::schemas::SchemaDocument;
use cedar_findings::syntaxes::Syntax;
use cedar_types::base::{ExtensionSchemas, Loc};
use std::alloc::{AllocError, Global};
use std::test::Fail;

/// A schema with names that are no words.
const ODD: &str = r#"entity User {
  "odd key": Bool, "a-b"?: Bool, "if": Bool, "": Bool, "q\"r": Bool, name: Bool,
  seen: { "last day": Long, hour: Long },
};
entity Colour enum ["dark red", "q\"r"];
action "view photo", edit appliesTo { principal: User, resource: [User, Colour] };
"#;

/// The beginning of a policy, up to its condition.
const ANY: &str = "permit(principal, action, resource) when { ";

/// The beginning of a policy, its rest with the mark `^`, the label of an item, and the rest with the item.
const WRITTEN: [(&str, &str, &str, &str); 24] = [
    (ANY, "principal.^ };", "name", "principal.name };"),
    // an attribute that is no word stands in brackets
    (
        ANY,
        "principal.^ };",
        "odd key",
        r#"principal["odd key"] };"#,
    ),
    (
        ANY,
        "principal.od^ };",
        "odd key",
        r#"principal["odd key"] };"#,
    ),
    (ANY, "principal . ^ };", "a-b", r#"principal ["a-b"] };"#),
    (ANY, "principal.^ };", "if", r#"principal["if"] };"#),
    (ANY, "principal.^ };", "", r#"principal[""] };"#),
    (ANY, "principal.^ };", "q\"r", r#"principal["q\"r"] };"#),
    (
        ANY,
        "principal.seen.^ > 3 };",
        "last day",
        r#"principal.seen["last day"] > 3 };"#,
    ),
    // and in quotes behind `has`
    (ANY, "principal has ^ };", "name", "principal has name };"),
    (
        ANY,
        "principal has ^ };",
        "odd key",
        r#"principal has "odd key" };"#,
    ),
    (ANY, "principal has i^ };", "if", r#"principal has "if" };"#),
    (
        ANY,
        r#"principal has "od^" };"#,
        "odd key",
        r#"principal has "odd key" };"#,
    ),
    (
        ANY,
        r#"principal has "^" };"#,
        "name",
        r#"principal has "name" };"#,
    ),
    (
        ANY,
        "principal has seen.^ };",
        "hour",
        "principal has seen.hour };",
    ),
    // an entity is compared, and no type
    (
        ANY,
        "principal == ^ };",
        "User",
        r#"principal == User::"" };"#,
    ),
    (
        ANY,
        "resource == ^ };",
        r#"Colour::"dark red""#,
        r#"resource == Colour::"dark red" };"#,
    ),
    (
        ANY,
        r#"resource == Colour::"q^" };"#,
        r#"Colour::"q\"r""#,
        r#"resource == Colour::"q\"r" };"#,
    ),
    (ANY, "principal is ^ };", "User", "principal is User };"),
    (
        ANY,
        "principal is User in ^ };",
        "User",
        r#"principal is User in User::"" };"#,
    ),
    (
        ANY,
        "context == ^ };",
        "ip",
        r#"context == ip("10.0.0.0/8") };"#,
    ),
    (
        "permit(",
        "principal == Us^, action, resource);",
        "User",
        r#"principal == User::"", action, resource);"#,
    ),
    (
        "permit(",
        "principal in ^, action, resource);",
        "User",
        r#"principal in User::"", action, resource);"#,
    ),
    (
        "permit(",
        "principal, action == ^, resource);",
        r#"Action::"view photo""#,
        r#"principal, action == Action::"view photo", resource);"#,
    ),
    (
        "permit(",
        r#"principal, action in [Action::"edit", Action::"view p^], resource);"#,
        r#"Action::"view photo""#,
        r#"principal, action in [Action::"edit", Action::"view photo"], resource);"#,
    ),
];

/// The text of a policy with the item of a label, if there is such an item.
fn with_item(
    alloc: Global,
    text: &str,
    found: &Completion,
    label: &str,
) -> Result<Option<String>, AllocError> {
    for item in &found.items {
        if item.label.as_str() != label {
            continue;
        }
        let (place, own): (Loc, &str) = match &item.writing {
            Some(writing) => (writing.place, writing.text.as_str()),
            None => (found.place, label),
        };
        let front = text.get(..place.start).unwrap_or("");
        let behind = text.get(place.end..).unwrap_or("");
        return Ok(Some(format!(in alloc; "{front}{own}{behind}")?));
    }
    Ok(None)
}

#[test]
fn items_that_are_put_in(rt: HostRuntime) -> Result<(), Fail> {
    let alloc = rt.alloc();
    let extensions = ExtensionSchemas::default(alloc);
    let schema = SchemaDocument::new(alloc, &extensions, Syntax::Cedar, ODD)?;
    let judge = judge_by(&schema, None).ok_or("there is a schema")?;
    let settings = judge.settings().ok_or("there are settings")?;
    for (front, rest, label, wanted) in &WRITTEN {
        let marked = format!(in alloc; "{front}{rest}")?;
        let wanted = format!(in alloc; "{front}{wanted}")?;
        let (text, byte) = unmarked(alloc, marked.as_str())?;
        let document = document_by(alloc, &schema, text.as_str())?;
        let placed = document.policy_at(byte).ok_or("a policy")?;
        let found = completion_at(alloc, &settings, placed.policy(), byte)?;
        let written = with_item(alloc, text.as_str(), &found, label)?.ok_or("an item")?;
        assert_eq!(rt; written.as_str(), wanted.as_str(), "{label} for {marked}");
        let document = document_by(alloc, &schema, written.as_str())?;
        let placed = document.policy_at(byte).ok_or("a policy")?;
        assert!(rt; placed.policy().fault.is_none(), "{written}");
    }
    Ok(())
}

/// A test of several attributes can only name words.
#[test]
fn names_that_cannot_be_written(rt: HostRuntime) -> Result<(), Fail> {
    let alloc = rt.alloc();
    let extensions = ExtensionSchemas::default(alloc);
    let schema = SchemaDocument::new(alloc, &extensions, Syntax::Cedar, ODD)?;
    let judge = judge_by(&schema, None).ok_or("there is a schema")?;
    let settings = judge.settings().ok_or("there are settings")?;
    let marked = format!(in alloc; "{ANY}principal has seen.^ }};")?;
    let (text, byte) = unmarked(alloc, marked.as_str())?;
    let document = document_by(alloc, &schema, text.as_str())?;
    let placed = document.policy_at(byte).ok_or("a policy")?;
    let found = completion_at(alloc, &settings, placed.policy(), byte)?;
    assert_eq!(rt; found.items.len(), 1);
    assert_eq!(rt; found.items[0].label.as_str(), "hour");
    Ok(())
}
