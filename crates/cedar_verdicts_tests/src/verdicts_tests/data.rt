// Verdicts on data.
use crate::verdicts_tests::said::{SCHEMA, schema_of};
use cedar_verdicts::data::{DataKind, judge_data};
use std::alloc::{AllocError, Global};
use std::test::Fail;

/// The kind of data, a text, and the verdict on it.
const CASES: [(DataKind, &str, &str); 5] = [
    (DataKind::Entities, "[]", "accepted, entities 0"),
    (
        DataKind::Entities,
        r#"[{"uid": {"type": "File", "id": "f"}, "attrs": {"owner": {"type": "User", "id": "u"}}, "parents": []}]"#,
        "accepted, entities 1",
    ),
    (
        DataKind::Entities,
        r#"[{"uid": {"type": "File", "id": "f"}, "attrs": {}, "parents": []}]"#,
        "refused, entities 1, 47 data-missing",
    ),
    (DataKind::Entities, "[", "refused, entities 0, 1 fault"),
    (
        DataKind::Request,
        r#"{"principal": "User::\"a\"", "action": "Action::\"vew\"", "resource": "File::\"f\"", "context": {}}"#,
        "refused, entities 0, 39 data-undeclared",
    ),
];

#[test]
fn verdicts_of_data(rt: HostRuntime) -> Result<(), Fail> {
    for (kind, text, wanted) in &CASES {
        let shown = data_shown(rt.alloc(), *kind, text)?;
        assert_eq!(rt; shown.as_str(), *wanted, "{text}");
    }
    Ok(())
}

fn data_shown(alloc: Global, kind: DataKind, text: &str) -> Result<String, AllocError> {
    let mut shown = String::new(alloc);
    let Some(schema) = schema_of(alloc, SCHEMA)? else {
        return Ok(shown);
    };
    let verdict = judge_data(alloc, &schema, kind, text)?;
    shown.push_str(if verdict.is_accepted {
        "accepted"
    } else {
        "refused"
    })?;
    write!(shown, ", entities {}", verdict.entities)?;
    for finding in &verdict.findings {
        write!(shown, ", {} {}", finding.place.start, finding.code.text())?;
    }
    Ok(shown)
}
