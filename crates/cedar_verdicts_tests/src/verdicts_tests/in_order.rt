// Answers in the order of a text: each policy gets one, read or not.
use crate::verdicts_tests::said::{SCHEMA, schema_of, verdicts_shown};
use cedar_typechecker::rbac::Validator;
use cedar_types::base::{ExtensionSchemas, ValidationMode};
use cedar_verdicts::settings::Settings;
use std::alloc::{AllocError, Global};
use std::test::Fail;

/// Texts, and the answer on each of their policies, without the words of faults.
const TEXTS: [(&str, &str); 6] = [
    ("", ""),
    (
        "permit(principal, action, resource);",
        "policy0 accepted, level 0\n",
    ),
    (
        "permit(;\npermit(principal, action, resource);\nforbid(;\n",
        "fault\npolicy1 accepted, level 0\nfault\n",
    ),
    (
        "permit(principal, action, resource) when { ?principal == principal };\n\
         forbid(principal, action, resource);",
        "fault\npolicy1 accepted, level 0\n",
    ),
    ("{\"staticPolicies\": {}}", ""),
    (
        "{\"staticPolicies\": {\"a\": {}, \"b\": {\"effect\": \"permit\", \"principal\": {\"op\": \"All\"}, \
         \"action\": {\"op\": \"All\"}, \"resource\": {\"op\": \"All\"}, \"conditions\": []}}}",
        "fault\nb accepted, level 0\n",
    ),
];

#[test]
fn one_word_for_each_policy(rt: HostRuntime) -> Result<(), Fail> {
    for (text, wanted) in &TEXTS {
        let shown = shown(rt.alloc(), text)?;
        let said = without_words(rt.alloc(), shown.as_str())?;
        assert_eq!(rt; said.as_str(), *wanted, "{text}");
    }
    Ok(())
}

/// The answers, without the words of faults.
fn without_words(alloc: Global, shown: &str) -> Result<String, AllocError> {
    let mut said = String::new(alloc);
    for line in shown.lines() {
        let is_fault = line.starts_with("fault: ");
        said.push_str(if is_fault { "fault" } else { line })?;
        said.push_str("\n")?;
    }
    Ok(said)
}

/// A hundred faults are told, and then the text is cut if more policies come; else it is not.
#[test]
fn a_hundred_faults(rt: HostRuntime) -> Result<(), Fail> {
    for (faults, behind, lines, last) in [
        (
            99,
            "forbid(principal, action, resource);",
            100,
            "policy99 accepted, level 0",
        ),
        (
            100,
            "",
            100,
            "fault: `principal` is expected, where `;` is read",
        ),
        (100, "forbid(principal, action, resource);", 101, "cut"),
        (101, "", 101, "cut"),
    ] {
        let mut text = String::new(rt.alloc());
        for _ in 0..faults {
            text.push_str("permit(;\n")?;
        }
        text.push_str(behind)?;
        let shown = shown(rt.alloc(), text.as_str())?;
        assert_eq!(rt; shown.as_str().lines().count(), lines, "{faults}");
        assert_eq!(rt; shown.as_str().lines().last(), Some(last), "{faults}");
    }
    Ok(())
}

fn shown(alloc: Global, text: &str) -> Result<String, AllocError> {
    let extensions = ExtensionSchemas::default(alloc);
    let Some(schema) = schema_of(alloc, SCHEMA)? else {
        return Ok(String::new(alloc));
    };
    let validator = Validator::new(schema, &extensions);
    let settings = Settings {
        validator: &validator,
        mode: ValidationMode::Strict,
        level: None,
        syntax: None,
    };
    verdicts_shown(alloc, &settings, text)
}
