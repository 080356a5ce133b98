// Parents and ancestors of entities.
use crate::data_tests::shown::{ancestors_shown, entities_shown};
use std::alloc::{AllocError, Global};
use std::process::Abort;
use std::test::Fail;

/// Checks that each list has the mistakes beside it. An entity of a list is given by its type, its id, and the types and ids of
/// its parents.
fn check(rt: &impl Abort, alloc: Global, cases: &[(&[&[(&str, &str)]], &str)]) -> Result<(), Fail> {
    for (entities, wanted) in cases {
        let mut text = String::from_str(alloc, "[")?;
        for entity in *entities {
            push_entity(&mut text, entity)?;
        }
        let listed = text.strip_suffix(',').unwrap_or("[");
        let whole = format!(in alloc; "{listed}]")?;
        let shown = entities_shown(alloc, whole.as_str())?;
        assert_eq!(rt; shown.as_str(), *wanted, "{whole}");
    }
    Ok(())
}

/// Adds an entity and a comma.
fn push_entity(text: &mut String, entity: &[(&str, &str)]) -> Result<(), AllocError> {
    for (number, (entity_type, id)) in entity.iter().enumerate() {
        let (before, behind) = match number {
            0 => (r#"{"attrs":{},"uid":"#, r#","parents":["#),
            1 => ("", ""),
            _ => (",", ""),
        };
        write!(
            text,
            "{before}{{\"type\":\"{entity_type}\",\"id\":\"{id}\"}}{behind}"
        )?;
    }
    text.push_str("]},")
}

/// A chain, two ways to one entity, and a parent that is named twice.
const GOOD_PARENTS: [(&[&[(&str, &str)]], &str); 3] = [
    (
        &[
            &[("Group", "a"), ("Group", "b")],
            &[("Group", "b"), ("Group", "c")],
            &[("Group", "c"), ("Org", "o"), ("Group", "d")],
        ],
        "",
    ),
    (
        &[
            &[("Group", "a"), ("Group", "b"), ("Group", "c")],
            &[("Group", "b"), ("Org", "o")],
            &[("Group", "c"), ("Org", "o")],
        ],
        "",
    ),
    (&[&[("Group", "a"), ("Group", "b"), ("Group", "b")]], ""),
];

/// Circles by themselves and beside other parents.
const CIRCLES: [(&[&[(&str, &str)]], &str); 4] = [
    (
        &[&[("Group", "a"), ("Group", "a")]],
        "{\"type\":\"Group\",\"id\":\"a\"} | parents in a circle: Group::\"a\" in Group::\"a\"\n",
    ),
    (
        &[
            &[("Group", "a"), ("Group", "b")],
            &[("Group", "b"), ("Org", "o"), ("Group", "a")],
        ],
        "{\"type\":\"Group\",\"id\":\"b\"} | parents in a circle: Group::\"a\" in Group::\"b\" in Group::\"a\"\n",
    ),
    (
        &[
            &[("Group", "x"), ("Group", "a")],
            &[("Group", "a"), ("Group", "b")],
            &[("Group", "b"), ("Group", "a")],
        ],
        "{\"type\":\"Group\",\"id\":\"b\"} | parents in a circle: Group::\"a\" in Group::\"b\" in Group::\"a\"\n",
    ),
    (
        &[
            &[("Group", "a"), ("Group", "a")],
            &[("Group", "b"), ("Org", "o")],
            &[("Group", "c"), ("Group", "c")],
        ],
        "{\"type\":\"Group\",\"id\":\"a\"} | parents in a circle: Group::\"a\" in Group::\"a\"\n{\"type\":\"Group\",\"id\":\"c\"} | parents in a circle: Group::\"c\" in Group::\"c\"\n",
    ),
];

/// Parents that the schema does not allow, and an entity that is listed twice.
const OTHER_PARENTS: [(&[&[(&str, &str)]], &str); 4] = [
    (
        &[&[("Org", "o"), ("Group", "a")]],
        "{\"type\":\"Group\",\"id\":\"a\"} | Org::\"o\": it may not be in Group::\"a\"\n",
    ),
    (
        &[
            &[("Group", "a"), ("Group", "b")],
            &[("Group", "b"), ("Color", "red")],
            &[("Group", "c"), ("Group", "b")],
        ],
        "{\"type\":\"Color\",\"id\":\"red\"} | Group::\"b\": it may not be in Color::\"red\"\n",
    ),
    (
        &[&[("Group", "a"), ("Color", "blue")]],
        "{\"type\":\"Color\",\"id\":\"blue\"} | Color::\"blue\": the type `Color` does not have this id\n{\"type\":\"Color\",\"id\":\"blue\"} | Group::\"a\": it may not be in Color::\"blue\"\n",
    ),
    (
        &[&[("Org", "o")], &[("Org", "o")]],
        "{\"type\":\"Org\",\"id\":\"o\"} | Org::\"o\": it is listed twice\n",
    ),
];

#[test]
fn parents(rt: HostRuntime) -> Result<(), Fail> {
    check(&rt, rt.alloc(), &GOOD_PARENTS)?;
    check(&rt, rt.alloc(), &CIRCLES)?;
    check(&rt, rt.alloc(), &OTHER_PARENTS)
}

/// A hundred of a hundred and one mistakes are shown.
#[test]
fn many_mistakes(rt: HostRuntime) -> Result<(), Fail> {
    let alloc = rt.alloc();
    for (count, is_cut) in [(100, false), (101, true)] {
        let mut text = String::from_str(alloc, "[")?;
        for number in 0..count {
            let separator = if number == 0 { "" } else { "," };
            write!(text, "{separator}{number}")?;
        }
        text.push_str("]")?;
        let shown = entities_shown(alloc, text.as_str())?;
        assert_eq!(&rt; shown.as_str().ends_with("more\n"), is_cut);
        let lines = shown.as_str().lines().count();
        assert_eq!(&rt; lines, if is_cut { 101 } else { 100 });
    }
    Ok(())
}

/// The ancestors of an entity by way of others are stored with it, and so are declared actions.
#[test]
fn stored_ancestors(rt: HostRuntime) -> Result<(), Fail> {
    let text = r#"[
        {"uid": {"type": "User", "id": "u"}, "attrs": {"name": "U"}, "parents": [{"type": "Group", "id": "b"}]},
        {"uid": {"type": "Group", "id": "a"}, "attrs": {}, "parents": [{"type": "Org", "id": "o"}]},
        {"uid": {"type": "Group", "id": "b"}, "attrs": {}, "parents": [{"type": "Group", "id": "a"}, {"type": "Group", "id": "c"}]}
    ]"#;
    let cases = [
        (
            "User::\"u\"",
            "Group::\"a\" Group::\"b\" Group::\"c\" Org::\"o\" ",
        ),
        ("Group::\"a\"", "Org::\"o\" "),
        ("Group::\"b\"", "Group::\"a\" Group::\"c\" Org::\"o\" "),
        ("Action::\"view\"", "Action::\"read\" Action::\"write\" "),
        ("Action::\"write\"", ""),
        ("Group::\"c\"", "not stored"),
    ];
    for (id, wanted) in &cases {
        let shown = ancestors_shown(rt.alloc(), text, id)?;
        assert_eq!(&rt; shown.as_str(), *wanted, "{id}");
    }
    Ok(())
}
