// Verdicts on policies in any format: a repeated id, an unread text and a level count.
use crate::verdicts_tests::said::{SCHEMA, mode_of, push_verdict, schema_of, verdicts_shown};
use cedar_reading::Policies;
use cedar_typechecker::rbac::Validator;
use cedar_types::base::{ExtensionSchemas, Template, ValidationMode};
use cedar_verdicts::sets::judge_set;
use cedar_verdicts::settings::Settings;
use cedar_verdicts::verdicts::judge;
use std::alloc::{AllocError, Global};
use std::test::Fail;

/// The mode, the level, policies, and the verdict on each.
const CASES: [(&str, Option<u32>, &str, &str); 14] = [
    (
        "strict",
        None,
        "permit(principal, action, resource);",
        "policy0 accepted, level 0\n",
    ),
    (
        "strict",
        None,
        "permit(principal, action, resource) when { principal.boss.age > 3 };",
        "policy0 accepted, level 2\n",
    ),
    (
        "strict",
        Some(2),
        "permit(principal, action, resource) when { principal.boss.age > 3 };",
        "policy0 accepted, level 2\n",
    ),
    (
        "permissive",
        Some(1),
        "permit(principal, action, resource) when { principal.boss.age > 3 };",
        "policy0 refused, level 2, error 43 level\n",
    ),
    (
        "partial",
        Some(1),
        "permit(principal, action, resource) when { principal.boss.age > 3 };",
        "policy0 accepted\n",
    ),
    (
        "strict",
        None,
        "permit(principal, action, resource) when { principal.agee > 3 };",
        "policy0 refused, error 43 unknown-attribute\n",
    ),
    (
        "strict",
        None,
        "permit(principal is Usr, action, resource);",
        "policy0 refused, error 20 unknown-type\n",
    ),
    (
        "partial",
        None,
        "permit(principal is Usr, action, resource);",
        "policy0 accepted\n",
    ),
    (
        "strict",
        None,
        "permit(principal, action, resource) when { true || ip(\"x\").isIpv4() };",
        "policy0 refused, error 51 bad-argument\n",
    ),
    (
        "partial",
        None,
        "permit(principal, action, resource) when { true || ip(\"x\").isIpv4() };",
        "policy0 refused, error 51 bad-argument\n",
    ),
    (
        "strict",
        None,
        "@id(\"a\") permit(principal, action, resource); @id(\"b\") forbid(principal, action, resource);",
        "a accepted, level 0\nb accepted, level 0\n",
    ),
    (
        "strict",
        None,
        "@id(\"a\") permit(principal, action, resource); @id(\"b\") forbid(principal, action, resource);\
         @id(\"a\") permit(principal, action, resource); @id(\"a\") permit(principal, action, resource);",
        "a accepted, level 0\nb accepted, level 0\na refused, level 0, error 91 same-id\na refused, level 0, error 137 same-id\n",
    ),
    (
        "strict",
        None,
        "@id(\"a\") permit(principal, action, resource) when { 1 }; @id(\"a\") permit(principal, action, resource);",
        "a refused, error 52 unexpected-type\na refused, level 0, error 57 same-id\n",
    ),
    (
        "strict",
        None,
        "permit(principal, action, resource) when { };",
        "fault: an expression is expected, where `}` is read\n",
    ),
];

#[test]
fn verdicts_of_texts(rt: HostRuntime) -> Result<(), Fail> {
    for (mode, level, text, wanted) in &CASES {
        let shown = shown_by(rt.alloc(), mode, *level, text)?;
        assert_eq!(rt; shown.as_str(), *wanted, "{text}");
    }
    Ok(())
}

/// The verdicts on the policies of a text, in the mode of this name and at a level, if there is one.
fn shown_by(
    alloc: Global,
    mode: &str,
    level: Option<u32>,
    text: &str,
) -> Result<String, AllocError> {
    let extensions = ExtensionSchemas::default(alloc);
    let Some(schema) = schema_of(alloc, SCHEMA)? else {
        return Ok(String::new(alloc));
    };
    let validator = Validator::new(schema, &extensions);
    let settings = Settings {
        validator: &validator,
        mode: mode_of(mode),
        level,
        syntax: None,
    };
    verdicts_shown(alloc, &settings, text)
}

/// The policies of a text.
fn policies_of(alloc: Global, text: &str) -> Result<Vec<Template>, Fail> {
    let mut policies = Policies::new(alloc, text)?;
    let mut read = Vec::new(alloc);
    for _ in 0..text.len() {
        let Some(next) = policies.next_policy() else {
            break;
        };
        read.push(next?.template)?;
    }
    Ok(read)
}

/// Two policies of one id: the second is refused in the set, and accepted by itself.
#[test]
fn a_policy_alone_and_in_a_set(rt: HostRuntime) -> Result<(), Fail> {
    let alloc = rt.alloc();
    let text =
        "@id(\"a\") permit(principal, action, resource);\n@id(\"a\") permit(principal, action, resource);";
    let extensions = ExtensionSchemas::default(alloc);
    let Some(schema) = schema_of(alloc, SCHEMA)? else {
        return Ok(());
    };
    let validator = Validator::new(schema, &extensions);
    let settings = Settings {
        validator: &validator,
        mode: ValidationMode::Strict,
        level: Some(0),
        syntax: None,
    };
    let policies = policies_of(alloc, text)?;
    let mut shown = String::new(alloc);
    for verdict in judge_set(alloc, &settings, text, policies.as_slice())? {
        push_verdict(&mut shown, &verdict)?;
        for error in &verdict.errors {
            writeln!(shown, "{}", error.text)?;
        }
    }
    for policy in &policies {
        push_verdict(&mut shown, &judge(alloc, &settings, text, policy)?)?;
    }
    let wanted = " accepted, level 0\n refused, level 0, error 46 same-id\n\
         the policy at 1:1 of this file has the same id\n accepted, level 0\n accepted, level 0\n";
    assert_eq!(rt; shown.as_str(), wanted);
    Ok(())
}

/// A hundred and fifty warnings before an error, in the order of the text: the error is among the first hundred, because errors
/// are listed first.
#[test]
fn errors_come_first(rt: HostRuntime) -> Result<(), Fail> {
    let alloc = rt.alloc();
    let mut text = String::from_str(alloc, "permit(principal, action, resource) when { ")?;
    for _ in 0..150 {
        text.push_str("\"\u{202e}\" == \"a\" || ")?;
    }
    text.push_str("principal.agee > 3 };")?;
    let extensions = ExtensionSchemas::default(alloc);
    let Some(schema) = schema_of(alloc, SCHEMA)? else {
        return Ok(());
    };
    let validator = Validator::new(schema, &extensions);
    let settings = Settings {
        validator: &validator,
        mode: ValidationMode::Strict,
        level: None,
        syntax: None,
    };
    for policy in policies_of(alloc, text.as_str())? {
        let verdict = judge(alloc, &settings, text.as_str(), &policy)?;
        assert_eq!(rt; verdict.errors.len(), 1);
        assert_eq!(rt; verdict.warnings.len(), 99);
        assert_eq!(rt; verdict.others, 51);
        assert_eq!(rt; verdict.warning_count, 150);
    }
    Ok(())
}
