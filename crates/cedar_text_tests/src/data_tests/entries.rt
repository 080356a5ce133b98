// Entities in texts of their own.
use crate::data_tests::shown::entry_shown;
use std::process::Abort;
use std::test::Fail;

/// The parents are all ancestors, because other entities are not looked up.
#[test]
fn an_entity_alone(rt: HostRuntime) -> Result<(), Fail> {
    let cases = [
        (
            r#"{"uid": {"type": "Org", "id": "o"}, "attrs": {}, "parents": []}"#,
            "Org::\"o\" in ",
        ),
        (
            r#"{"uid": {"type": "Group", "id": "g"}, "attrs": {}, "parents": [{"type": "Org", "id": "o"}]}"#,
            "Group::\"g\" in Org::\"o\" ",
        ),
        (
            r#"{"uid": {"type": "Action", "id": "view"}, "attrs": {}, "parents": [{"type": "Action", "id": "read"}, {"type": "Action", "id": "write"}]}"#,
            "Action::\"view\" in Action::\"read\" Action::\"write\" ",
        ),
    ];
    for (text, wanted) in cases {
        assert_eq!(rt; entry_shown(rt.alloc(), text)?.as_str(), wanted, "{text}");
    }
    Ok(())
}

/// All mistakes are on one line, each with its place.
#[test]
fn an_entity_alone_has_mistakes(rt: HostRuntime) -> Result<(), Fail> {
    let cases = [
        (
            r#"{"uid": {"type": "Color", "id": "red"}, "attrs": {"a": 1}, "parents": []}"#,
            "at byte 40: Color::\"red\": it may have no attributes",
        ),
        (
            r#"{"uid": {"type": "Color", "id": "blue"}, "attrs": {}, "parents": [{"type": "Color", "id": "x"}]}"#,
            "at byte 8: Color::\"blue\": the type `Color` does not have this id; at byte 54: Color::\"blue\": it may be in no other; at byte 66: Color::\"x\": the type `Color` does not have this id",
        ),
        (r#"{"uid": null}"#, "at byte 8: `null` has no meaning here"),
    ];
    for (text, wanted) in cases {
        assert_eq!(rt; entry_shown(rt.alloc(), text)?.as_str(), wanted, "{text}");
    }
    Ok(())
}
