// Entities that are read one after another: a `null` is a mistake of its own entity, and a fault of JSON is one of the whole
// text.
use crate::data_tests::shown::{check_entities, entry_shown};
use crate::frames::Frame;
use std::test::Fail;

/// The text around the attributes of a user, between two entities of which the last has a mistake.
const BETWEEN: Frame<'_> = (
    r#"[{"uid": {"type": "Org", "id": "o"}, "attrs": {}, "parents": []}, {"uid": {"type": "User", "id": "a"}, "parents": [], "attrs": {"name": "A", "#,
    r#"}}, {"uid": {"type": "Org", "id": "p"}, "attrs": {"x": 1}, "parents": []}]"#,
);

/// Attributes with `null`, and texts that are no JSON.
const ATTRIBUTES: [(&str, &str); 6] = [
    (
        r#""age": null"#,
        " | `null` has no meaning here\n\"x\" | Org::\"p\".x: the attribute is not declared\n",
    ),
    (
        r#""homes": [{"street": "s", "zip": null}]"#,
        " | `null` has no meaning here\n\"x\" | Org::\"p\".x: the attribute is not declared\n",
    ),
    (
        r#""boss": {"__entity": null}"#,
        " | `null` has no meaning here\n\"x\" | Org::\"p\".x: the attribute is not declared\n",
    ),
    (r#""age": nul"#, "148 a value is expected\n"),
    (r#""age": 1, "age": 2"#, "151 the same key twice\n"),
    (r#""age": 1 "boss": 2"#, "150 `,` or `}` is expected\n"),
];

#[test]
fn nulls_and_faults(rt: HostRuntime) -> Result<(), Fail> {
    check_entities(&rt, rt.alloc(), BETWEEN, &ATTRIBUTES)
}

/// Texts that end elsewhere than behind the list.
const ENDS: [(&str, &str); 6] = [
    (" [ ] ", ""),
    ("[] ]", "3 the end is expected\n"),
    ("[1,]", "3 a value is expected\n"),
    ("[1 2]", "3 `,` or `]` is expected\n"),
    ("[1, 2", "5 `,` or `]` is expected\n"),
    (" null ", " | `null` has no meaning here\n"),
];

#[test]
fn ends(rt: HostRuntime) -> Result<(), Fail> {
    check_entities(&rt, rt.alloc(), ("", ""), &ENDS)
}

/// A mistake in the text of one entity stands in its own part of the text, which is read again for it.
#[test]
fn an_entity_behind_blanks(rt: HostRuntime) -> Result<(), Fail> {
    let text = r#"  {"uid": {"type": "Org", "id": "p"}, "attrs": {"x": 1}, "parents": []} "#;
    let shown = entry_shown(rt.alloc(), text)?;
    let wanted = "at byte 48: Org::\"p\".x: the attribute is not declared";
    assert_eq!(rt; shown.as_str(), wanted);
    Ok(())
}
