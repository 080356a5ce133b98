// Faults of texts of JSON, with their places.
use cedar_findings::faults::{TextFault, Written};
use cedar_findings::json_faults::form_fault;
use cedar_json::{FormError, Policies, schema_text};
use cedar_reading::Position;
use cedar_types::base::Loc;
use std::alloc::Global;
use std::test::Fail;

/// Policies of JSON, and their first fault.
const POLICIES: [(&str, &str); 12] = [
    (
        "permit",
        "1:1-7: a value is expected, where `permit` is read; this is no JSON",
    ),
    (
        "",
        "1:1-1: a value is expected, where the text ends; this is no JSON",
    ),
    (
        "[\n 'a']",
        "2:2-3: a value is expected, where `'` is read; texts stand in double quotes",
    ),
    (
        "[{} {}]",
        "1:5-6: `,` or `]` is expected, where `{` is read",
    ),
    ("[{\"a\" 1}]", "1:7-8: `:` is expected, where `1` is read"),
    (
        "{\"a\\\"b\": 1, \"a\\\"b\": 2}",
        "1:13-19: the same key twice: `a\\\"b`",
    ),
    (
        "{\"a\": null}",
        "1:7-11: `null` has no meaning here; what is not there is left out with its key",
    ),
    (
        "{\"a\": 1e5}",
        "1:8-10: a number with an exponent, where `e5` is read; numbers are whole",
    ),
    ("{\"a\": \"b", "1:7-9: a text that does not end"),
    (
        "[\"a\"]",
        "1:2-5: an object is expected, where `\"a\"` is read",
    ),
    (
        "{\n\"effect\": \"permit\"}",
        "1:1-2: the key `principal` is missing",
    ),
    (
        "{\"\": {\"actions\": {}}}",
        "1:7-16: a key that has no meaning here: `actions`; the schema is the first file, and \
         policies come behind it",
    ),
];

#[test]
fn of_policies(rt: HostRuntime) -> Result<(), Fail> {
    let alloc = rt.alloc();
    for (json, wanted) in &POLICIES {
        let got = match policies_fault(alloc, json) {
            Some(error) => describe(alloc, Written::Policies, json, error)?,
            None => String::new(alloc),
        };
        assert_eq!(rt; got.as_str(), *wanted, "{json}");
    }
    Ok(())
}

/// The fault of the first policy of a text, or of the whole text.
fn policies_fault(alloc: Global, json: &str) -> Option<FormError> {
    match Policies::new(alloc, json) {
        Ok(mut policies) => policies.next_policy()?.err(),
        Err(error) => Some(error),
    }
}

#[test]
fn of_schemas(rt: HostRuntime) -> Result<(), Fail> {
    let alloc = rt.alloc();
    for (json, wanted) in [
        ("[]", "1:1-2: an object is expected, where `[` is read"),
        ("{\"\": {}}", "1:6-7: the key `entityTypes` is missing"),
        (
            "{\"effect\":\n\"permit\"}",
            "2:1-9: an object is expected, where `\"permit\"` is read; the schema is the first \
             file, and policies come behind it",
        ),
    ] {
        let got = match schema_text(alloc, json) {
            Ok(_) => String::new(alloc),
            Err(error) => describe(alloc, Written::Schema, json, error)?,
        };
        assert_eq!(rt; got.as_str(), wanted, "{json}");
    }
    Ok(())
}

/// The place of a fault, up to the column behind it, and the words.
fn describe(alloc: Global, written: Written, json: &str, error: FormError) -> Result<String, Fail> {
    let TextFault { place, text } = form_fault(alloc, written, json, error)?;
    let Loc { start, end } = place;
    let Position { line, column } = Position::in_text(json, start);
    let last = Position::in_text(json, end).column;
    Ok(format!(in alloc; "{line}:{column}-{last}: {text}")?)
}
