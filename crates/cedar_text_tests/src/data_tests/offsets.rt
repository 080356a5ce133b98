// Points in time as Cedar writes them: `offset` of a point and a duration.
use crate::data_tests::answers::stored_shown;
use crate::data_tests::shown::check_entities;
use crate::frames::Frame;
use std::alloc::{AllocError, Global};
use std::test::Fail;

/// A user who was seen at one point in time.
const SEEN: Frame<'_> = (
    r#"[{"uid": {"type": "User", "id": "a"}, "parents": [], "attrs": {"name": "A", "seen": ["#,
    "]}}]",
);

/// Points in time, durations, and the points so much later. `1704067200` is the Unix time of the
/// beginning of 2024, and `951868800` of the first of March 2000.
const OFFSETS: [(&str, &str, &str); 15] = [
    ("1970-01-01", "1ms", "1970-01-01T00:00:00.001Z"),
    ("1970-01-01", "-1ms", "1969-12-31T23:59:59.999Z"),
    ("1970-01-01", "1704067200000ms", "2024-01-01T00:00:00.000Z"),
    ("1970-01-01", "951868800000ms", "2000-03-01T00:00:00.000Z"),
    ("2024-02-28T23:59:59Z", "1s", "2024-02-29T00:00:00.000Z"),
    ("2023-02-28", "1d", "2023-03-01T00:00:00.000Z"),
    ("1900-02-28", "1d", "1900-03-01T00:00:00.000Z"),
    ("2000-03-01", "-1d", "2000-02-29T00:00:00.000Z"),
    (
        "2024-01-01T00:00:00+0100",
        "0ms",
        "2023-12-31T23:00:00.000Z",
    ),
    (
        "2024-01-01T00:00:00.500-0130",
        "1h",
        "2024-01-01T02:30:00.500Z",
    ),
    (
        "2024-12-31T23:59:59.999Z",
        "1d2h3m4s5ms",
        "2025-01-02T02:03:04.004Z",
    ),
    ("0000-01-01", "0h", "0000-01-01T00:00:00.000Z"),
    ("0000-03-01", "-1d", "0000-02-29T00:00:00.000Z"),
    ("0000-01-01", "3652424d", "9999-12-31T00:00:00.000Z"),
    ("9999-12-31", "23h59m59s999ms", "9999-12-31T23:59:59.999Z"),
];

#[test]
fn points_behind_others(rt: HostRuntime) -> Result<(), Fail> {
    let alloc = rt.alloc();
    let (before, behind) = SEEN;
    for (time, span, wanted) in &OFFSETS {
        let call = call_of(alloc, time, span)?;
        let text = format!(in alloc; "{before}{call}{behind}")?;
        let shown = stored_shown(alloc, text.as_str(), "User::\"a\"")?;
        let wanted = format!(in alloc; "name: \"A\"; seen: [datetime(\"{wanted}\")]; ")?;
        assert_eq!(rt; shown.as_str(), wanted.as_str(), "{time} {span}");
    }
    Ok(())
}

/// The call as Cedar writes it.
fn call_of(alloc: Global, time: &str, span: &str) -> Result<String, AllocError> {
    format!(in alloc;
        "{{\"__extn\": {{\"fn\": \"offset\", \"args\": [{{\"__extn\": {{\"fn\": \"datetime\", \"arg\": \
         \"{time}\"}}}}, {{\"__extn\": {{\"fn\": \"duration\", \"arg\": \"{span}\"}}}}]}}}}"
    )
}

/// Calls of `offset`, and their mistakes.
const MISTAKES: [(&str, &str); 8] = [
    (
        r#"{"fn": "offset", "args": [{"fn": "datetime", "arg": "1970-01-01"}, {"fn": "duration", "args": ["1ms"]}]}"#,
        "",
    ),
    (
        r#"{"fn": "offset", "args": [{"fn": "datetime", "arg": "9999-12-31"}, {"fn": "duration", "arg": "1d"}]}"#,
        " | a time in the years 0 to 9999 is expected\n",
    ),
    (
        r#"{"fn": "offset", "args": [{"fn": "datetime", "arg": "0000-01-01"}, {"fn": "duration", "arg": "-1ms"}]}"#,
        " | a time in the years 0 to 9999 is expected\n",
    ),
    (
        r#"{"fn": "offset", "args": [{"fn": "datetime", "arg": "1970-01-01"}]}"#,
        " | a `datetime` and a `duration` is expected\n",
    ),
    (
        r#"{"fn": "offset", "arg": "1970-01-01"}"#,
        " | a key that has no meaning here\n",
    ),
    (
        r#"{"fn": "offset", "args": [{"fn": "duration", "arg": "1d"}, {"fn": "duration", "arg": "1d"}]}"#,
        " | a `datetime` is expected\n",
    ),
    (
        r#"{"fn": "offset", "args": [{"fn": "datetime", "arg": "1970-01-01"}, {"fn": "ip", "arg": "::1"}]}"#,
        " | a `duration` is expected\n",
    ),
    (
        r#"{"fn": "offset", "args": ["1970-01-01", "1d"]}"#,
        " | an object is expected\n",
    ),
];

#[test]
fn calls_of_offset(rt: HostRuntime) -> Result<(), Fail> {
    check_entities(&rt, rt.alloc(), SEEN, &MISTAKES)
}
