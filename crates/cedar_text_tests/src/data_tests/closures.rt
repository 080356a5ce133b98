// Ancestors of groups by way of others: graphs in which several ways lead to an entity.
use crate::data_tests::shown::ancestors_shown;
use std::alloc::{AllocError, Global};
use std::test::Fail;

/// A list of groups, each with its parents: `a: b c; b: c` has `a` in `b` and `c`, and `b` in `c`.
fn groups(alloc: Global, edges: &str) -> Result<String, AllocError> {
    let mut text = String::from_str(alloc, "[")?;
    for (number, group) in edges.split("; ").enumerate() {
        let (own, parents) = group.split_once(':').unwrap_or((group, ""));
        let before = if number == 0 { "" } else { ", " };
        write!(
            text,
            r#"{before}{{"attrs": {{}}, "uid": {{"type": "Group", "id": "{own}"}}, "parents": ["#
        )?;
        for (count, parent) in parents.split_whitespace().enumerate() {
            let before = if count == 0 { "" } else { ", " };
            write!(text, r#"{before}{{"type": "Group", "id": "{parent}"}}"#)?;
        }
        text.push_str("]}")?;
    }
    text.push_str("]")?;
    Ok(text)
}

/// Ancestors are shown in the order of their ids, each once, whatever the order of the list and of the parents.
#[test]
fn ways_through_graphs(rt: HostRuntime) -> Result<(), Fail> {
    let cases = [
        // A parent that is in another parent.
        ("a: b c; b: c; c: d", "a", "b c d"),
        ("c: d; b: c; a: c b d b", "a", "b c d"),
        // Two ways to one group, of one and of three steps.
        ("a: b e; b: c; c: d; d: e", "a", "b c d e"),
        // The parent with the most ancestors lacks one that another parent has by way of a third.
        ("a: b g; b: c; c: d; d: e; g: h; h: i", "a", "b c d e g h i"),
        (
            "a: b g; b: c; c: d; d: e; g: h; h: d i",
            "a",
            "b c d e g h i",
        ),
        ("a: b g; b: c; c: d; d: e; g: h; h: d i", "g", "d e h i"),
        // Layers of two, each in both groups of the layer above.
        (
            "a: c d; b: c d; c: e f; d: e f; e: g h; f: g h",
            "a",
            "c d e f g h",
        ),
        (
            "a: c d; b: c d; c: e f; d: e f; e: g h; f: g h",
            "b",
            "c d e f g h",
        ),
        ("a: c d; b: c d; c: e f; d: e f; e: g h; f: g h", "f", "g h"),
        // Each group in all before.
        ("a:; b: a; c: a b; d: a b c; e: a b c d", "e", "a b c d"),
        ("a:; b: a; c: a b; d: a b c; e: a b c d", "a", ""),
    ];
    for (edges, own, wanted) in cases {
        let alloc = rt.alloc();
        let text = groups(alloc, edges)?;
        let id = format!(in alloc; "Group::\"{own}\"")?;
        let shown = ancestors_shown(alloc, text.as_str(), id.as_str())?;
        let mut ids = String::new(alloc);
        for other in wanted.split_whitespace() {
            write!(ids, "Group::\"{other}\" ")?;
        }
        assert_eq!(&rt; shown.as_str(), ids.as_str(), "{edges}");
    }
    Ok(())
}
