// Texts that are no JSON, or no list of entities.
use crate::data_tests::shown::check_entities;
use crate::frames::Frame;
use std::test::Fail;

/// An empty frame.
const WHOLE: Frame<'_> = ("", "");

/// A user with one attribute more than a name.
const BOSS: Frame<'_> = (
    r#"[{"uid": {"type": "User", "id": "a"}, "parents": [], "attrs": {"name": "A", "boss": "#,
    "}}]",
);

/// Texts that are no JSON, and the fault of each.
const BROKEN_TEXTS: [(&str, &str); 7] = [
    ("", "0 a value is expected\n"),
    ("[", "1 a value is expected\n"),
    ("[] x", "3 the end is expected\n"),
    (r#"[{"uid": 1.5}]"#, "10 a number with a fraction\n"),
    (
        r#"[{"uid": 9223372036854775808}]"#,
        "9 a number out of range\n",
    ),
    (r#"[{"uid": 1, "uid": 2}]"#, "12 the same key twice\n"),
    (r#"["\ud800"]"#, "2 half of a surrogate pair\n"),
];

/// JSON that is no list of entities.
const OTHER_SHAPES: [(&str, &str); 11] = [
    ("{}", " | a list is expected\n"),
    ("[3]", " | an object is expected\n"),
    ("[{}]", " | the key `uid` is missing\n"),
    (r#"[{"uid": null}]"#, " | `null` has no meaning here\n"),
    (
        r#"[{"uid": "User::\"a\"", "attrs": {}, "parents": []}]"#,
        " | an object is expected\n",
    ),
    (
        r#"[{"uid": {"type": "Org"}, "attrs": {}, "parents": []}]"#,
        " | the key `id` is missing\n",
    ),
    (
        r#"[{"uid": {"type": "Org:", "id": "o"}, "attrs": {}, "parents": []}]"#,
        " | a name is expected, as words with `::` between them\n",
    ),
    (
        r#"[{"uid": {"type": "Org", "id": 3}, "attrs": {}, "parents": []}]"#,
        " | a text is expected\n",
    ),
    (
        r#"[{"uid": {"type": "Org", "id": "o"}}]"#,
        " | the key `attrs` is missing\n | the key `parents` is missing\n",
    ),
    (
        r#"[{"uid": {"type": "Org", "id": "o"}, "attrs": [], "parents": {}}]"#,
        " | an object is expected\n | a list is expected\n",
    ),
    (
        r#"[{"uid": {"type": "Org", "id": "o"}, "attrs": {}, "parents": [], "tag": {}}]"#,
        "\"tag\" | a key that has no meaning here\n",
    ),
];

/// Values of `boss` that have no meaning, or another one than they seem to have.
const OTHER_VALUES: [(&str, &str); 8] = [
    (
        r#"{"__entity": {"type": "User", "id": "a"}, "x": 1}"#,
        " | a key that has no meaning here\n",
    ),
    (r#"{"__entity": "User"}"#, " | an object is expected\n"),
    (
        r#"{"__expr": "1"}"#,
        " | a value in place of `__expr`, which Cedar no longer reads is expected\n",
    ),
    (
        r#"{"__extn": {"fn": "ipp", "arg": "1"}}"#,
        " | `ip`, `decimal`, `datetime` or `duration` is expected\n",
    ),
    (
        r#"{"__extn": {"fn": "ip"}}"#,
        " | the key `arg` is missing\n",
    ),
    (
        r#"{"__extn": {"fn": "ip", "args": ["1", "2"]}}"#,
        " | one argument is expected\n",
    ),
    (
        r#"{"__extn": {"fn": "ip", "arg": 3}}"#,
        " | a text is expected\n",
    ),
    (r#"{"type": "User"}"#, " | the key `id` is missing\n"),
];

#[test]
fn forms(rt: HostRuntime) -> Result<(), Fail> {
    check_entities(&rt, rt.alloc(), WHOLE, &BROKEN_TEXTS)?;
    check_entities(&rt, rt.alloc(), WHOLE, &OTHER_SHAPES)?;
    check_entities(&rt, rt.alloc(), BOSS, &OTHER_VALUES)
}
