// Texts that cannot be formatted, and texts that are formatted at the limit of nesting.
use crate::writing_tests::formatting::shown;
use cedar_writing::{FormatFault, Layout, both_say_the_same, examples_of_pieces, format_policies};
use std::alloc::{AllocError, Global};
use std::test::Fail;

/// Texts with a fault, and the fault.
const FAULTS: [(&str, &str); 6] = [
    (
        "permit(principal,action,resource)",
        "at byte 33: `when`, `unless` or `;` is expected",
    ),
    (
        "permit(principal,action,resource);permit",
        "at byte 40: ( is expected",
    ),
    (
        "permit(principal,action,resource) when {1 == 2 == 3};",
        "at byte 47: } is expected",
    ),
    (
        "permit(principal,action,resource) when {\"a\\q\"};",
        "at byte 40: a text that does not end, or an escape that is none",
    ),
    (
        "permit(principal,\u{a0}action,resource);",
        "at byte 17: a blank outside of ASCII",
    ),
    (
        "permit(principal,action,resource) // a\u{a0}b\nwhen {a::\"\u{a0}\".b\u{3000}};",
        "at byte 57: a blank outside of ASCII",
    ),
];

#[test]
fn faults_of_texts(rt: HostRuntime) -> Result<(), Fail> {
    let alloc = rt.alloc();
    for (text, wanted) in &FAULTS {
        let wanted = format!(in alloc; "fault: {wanted}")?;
        assert_eq!(rt; shown(alloc, text)?.as_str(), wanted.as_str(), "{text}");
    }
    Ok(())
}

/// So many brackets may be begun at a place of a condition.
const DEPTH: usize = 798;

fn nested(alloc: Global, open: &str, close: &str) -> Result<String, AllocError> {
    let mut out = String::from_str(alloc, "permit(principal,action,resource) when{")?;
    for _ in 0..DEPTH {
        out.push_str(open)?;
    }
    out.push_str("1")?;
    for _ in 0..DEPTH {
        out.push_str(close)?;
    }
    out.push_str("};")?;
    Ok(out)
}

#[test]
fn nesting_at_the_limit(rt: HostRuntime) -> Result<(), Fail> {
    let alloc = rt.alloc();
    let parentheses = nested(alloc, "(", ")")?;
    let wanted = "permit (principal, action, resource)\nwhen { 1 };\n";
    assert_eq!(rt; shown(alloc, parentheses.as_str())?.as_str(), wanted);
    for (open, close) in &[("[", "]"), ("{a:", "}"), ("if true then ", " else 2")] {
        let text = nested(alloc, open, close)?;
        let formatted = shown(alloc, text.as_str())?;
        assert!(rt;
            formatted
                .as_str()
                .starts_with("permit (principal, action, resource)\nwhen {\n")
        );
        assert!(rt; formatted.as_str().ends_with("\n};\n"), "{open}");
    }
    Ok(())
}

#[test]
fn both_texts_say_the_same(rt: HostRuntime) -> Result<(), Fail> {
    let alloc = rt.alloc();
    examples_of_pieces();
    let text =
        "@id(\"a\")permit(principal,action,resource);forbid(principal,action,resource)unless{true};";
    match format_policies(alloc, text, Layout::of_cedar()) {
        Ok(formatted) => {
            assert_eq!(rt; formatted.policies.len(), 2);
            for kept in &formatted.policies {
                both_say_the_same(kept);
                assert!(rt; kept.before.effect == kept.after.effect);
                assert!(rt; kept.before.template.id == kept.after.template.id);
            }
        }
        Err(FormatFault::Memory(error)) => return Err(Fail::from(error)),
        Err(fault) => assert!(rt; false, "{fault}"),
    }
    Ok(())
}
