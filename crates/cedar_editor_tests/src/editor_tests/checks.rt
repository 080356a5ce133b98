// Single policies, read and judged.
use crate::editor_tests::judged::{SCHEMA, judge_by, text_at};
use cedar_editor::checks::{check_policy, place_of, read_alone};
use cedar_editor::schemas::SchemaDocument;
use cedar_findings::syntaxes::Syntax;
use cedar_types::base::ExtensionSchemas;
use std::test::Fail;

/// Policies, the id of each behind three others, whether an error is shown, the number of findings, and the part with the error
/// of the verdict.
const CHECKED: [(&str, &str, bool, usize, &str); 13] = [
    (
        "permit(principal, action, resource);",
        "policy3",
        false,
        0,
        "",
    ),
    (
        "@id(\"a\") permit(principal, action, resource);",
        "a",
        false,
        0,
        "",
    ),
    (
        "@level(\"3\") @id(\"policy0\") permit(principal, action, resource);",
        "policy0",
        false,
        0,
        "",
    ),
    // an annotation without a text has an empty one
    ("@id permit(principal, action, resource);", "", false, 0, ""),
    (
        "@note(\"@id\") permit(principal, action, resource);",
        "policy3",
        false,
        0,
        "",
    ),
    (
        "@note @id(\"b\") permit(principal, action, resource);",
        "b",
        false,
        0,
        "",
    ),
    (
        "permit(principal is Team, action, resource);",
        "policy3",
        false,
        2,
        "",
    ),
    (
        "permit(principal is User, action, resource) when { principal.vip };",
        "policy3",
        true,
        1,
        "principal.vip",
    ),
    (
        "@id(\"c\") permit(principal is Usr, action, resource) when { principal.",
        "c",
        true,
        2,
        "Usr",
    ),
    ("@id(\"d\") permit", "d", true, 1, ""),
    // an id that cannot be read is none
    ("@id(\"e permit", "policy3", true, 1, ""),
    (
        "@id(e) permit(principal, action, resource);",
        "policy3",
        true,
        1,
        "",
    ),
    ("}", "policy3", true, 1, ""),
];

/// Annotations of a policy, the number of policies before it, and its id.
const IDS: [(&str, usize, &str); 7] = [
    ("@id", 3, ""),
    ("@id(\"a\")", 3, "a"),
    ("@id(\"é 7\")", 0, "é 7"),
    ("@name(\"a\")", 0, "policy0"),
    ("", 7, "policy7"),
    ("", 10, "policy10"),
    ("", 18446744073709551615, "policy18446744073709551615"),
];

#[test]
fn policies_alone(rt: HostRuntime) -> Result<(), Fail> {
    let alloc = rt.alloc();
    let extensions = ExtensionSchemas::default(alloc);
    let schema = SchemaDocument::new(alloc, &extensions, Syntax::Cedar, SCHEMA)?;
    let judge = judge_by(&schema, None).ok_or("there is a schema")?;
    let settings = judge.settings().ok_or("there are settings")?;
    for (text, id, has_error, count, part) in &CHECKED {
        let policy = check_policy(alloc, &settings, text)?.ok_or("a policy")?;
        let own = policy.id(alloc, 3)?;
        assert_eq!(rt; own.as_str(), *id, "{text}");
        assert_eq!(rt; policy.has_error(), *has_error, "{text}");
        assert_eq!(rt; policy.finding_count(), *count, "{text}");
        assert_eq!(rt; policy.text.as_str(), *text);
        let verdict = policy.verdict.as_ref().ok_or("a verdict")?;
        for error in &verdict.errors {
            assert_eq!(rt; text_at(text, place_of(error)), *part, "{text}");
        }
        let read = read_alone(alloc, &extensions, text)?.ok_or("a policy")?;
        let own = read.id(alloc, 3)?;
        assert_eq!(rt; own.as_str(), *id, "{text}");
        assert_eq!(rt; read.has_error(), read.fault.is_some(), "{text}");
        assert_eq!(rt; read.fault.is_some(), policy.fault.is_some(), "{text}");
        assert!(rt; read.verdict.is_none(), "{text}");
    }
    for text in ["", "  \n", "// permit"] {
        assert!(rt; check_policy(alloc, &settings, text)?.is_none(), "{text}");
        assert!(rt; read_alone(alloc, &extensions, text)?.is_none(), "{text}");
    }
    for (annotation, number, id) in &IDS {
        let text = format!(in alloc; "{annotation} permit(principal, action, resource);")?;
        let policy = read_alone(alloc, &extensions, text.as_str())?.ok_or("a policy")?;
        let own = policy.id(alloc, *number)?;
        assert_eq!(rt; own.as_str(), *id, "{annotation}");
    }
    Ok(())
}
