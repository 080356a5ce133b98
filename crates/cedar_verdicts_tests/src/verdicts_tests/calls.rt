// Calls of undefined functions: each is a fault of its own policy, in both syntaxes, even if typing never looks there.
use crate::verdicts_tests::said::{SCHEMA, schema_of, verdicts_shown};
use cedar_typechecker::rbac::Validator;
use cedar_types::base::{CedarType, ExtensionFunctionType, ExtensionSchemas, Name, ValidationMode};
use cedar_verdicts::settings::Settings;
use std::alloc::Global;
use std::collections::BTreeSet;
use std::test::Fail;

/// The hint with all functions and methods.
const ALL: &str =
    "; there are `contains`, `containsAll`, `containsAny`, `isEmpty`, `hasTag`, `getTag`, and the functions of the extensions";

/// Conditions, and the lines on their policies.
const CASES: [(&str, &str); 14] = [
    (
        "false && foo(1)",
        "fault: undefined extension function `foo`ALL\n",
    ),
    (
        "true || principal.foo(1)",
        "fault: undefined extension function `foo`ALL\n",
    ),
    (
        "true || contains(1, 2)",
        "fault: undefined extension function `contains`; it is a method: `1.contains(2)`\n",
    ),
    (
        "true || isEmpty([1])",
        "fault: undefined extension function `isEmpty`; it is a method: `[1].isEmpty()`\n",
    ),
    (
        "if true then true else principal.lower()",
        "fault: undefined extension function `lower`ALL\n",
    ),
    (
        "true || __cedar::ip(\"1.1.1.1\").isIpv4()",
        "fault: undefined extension function `__cedar::ip`; `ip` stands without a path\n",
    ),
    (
        "true || N::ip(\"1.1.1.1\")",
        "fault: undefined extension function `N::ip`; `ip` stands without a path\n",
    ),
    (
        "true || principal(\"a\")",
        "fault: undefined extension function `principal`ALL\n",
    ),
    (
        "true || hasTag(principal, \"a\")",
        "fault: undefined extension function `hasTag`; it is a method: `principal.hasTag(\"a\")`\n",
    ),
    (
        "true || isIpv4()",
        "fault: `isIpv4` is a method: `a.isIpv4()`\n",
    ),
    // a call of a defined function is no fault of this kind, whatever its arguments are
    (
        "true || ip(\"1.1.1.1\", \"2\")",
        "policy0 accepted, level 0\n",
    ),
    (
        "true || ip(\"1.1.1.1\").isIpv4(1)",
        "policy0 accepted, level 0\n",
    ),
    ("true || principal.isIpv4", "policy0 accepted, level 0\n"),
    (
        "true || ours(1) || principal.ours()",
        "policy0 accepted, level 0\n",
    ),
];

/// The functions of a host as a table: `ours`, which takes a number.
fn functions_of_host(alloc: Global) -> Result<ExtensionSchemas, Fail> {
    let mut functions = Vec::new(alloc);
    let mut argument_types = Vec::new(alloc);
    argument_types.push(CedarType::primitive_long())?;
    functions.push(ExtensionFunctionType {
        name: Name::unqualified_name(alloc, "ours")?,
        argument_types,
        is_variadic: false,
        return_type: CedarType::primitive_boolean(),
        check_arguments: None,
    })?;
    Ok(ExtensionSchemas::new(functions, BTreeSet::new(alloc))?)
}

/// The verdicts on the policies of a text by the functions of Cedar and these.
fn shown_by(alloc: Global, functions: &ExtensionSchemas, text: &str) -> Result<String, Fail> {
    let Some(schema) = schema_of(alloc, SCHEMA)? else {
        return Ok(String::new(alloc));
    };
    let validator = Validator::new(schema, functions);
    let settings = Settings {
        validator: &validator,
        mode: ValidationMode::Strict,
        level: None,
        syntax: None,
    };
    Ok(verdicts_shown(alloc, &settings, text)?)
}

#[test]
fn calls_where_typing_never_looks(rt: HostRuntime) -> Result<(), Fail> {
    let alloc = rt.alloc();
    let functions = functions_of_host(alloc)?;
    for (condition, wanted) in &CASES {
        let text = format!(in alloc;
            "permit(principal, action, resource) when {{ {condition} }};"
        )?;
        let shown = shown_by(alloc, &functions, text.as_str())?;
        let wanted = wanted.replace(alloc, "ALL", ALL)?;
        assert_eq!(rt; shown.as_str(), wanted.as_str(), "{condition}");
    }
    Ok(())
}

/// A function of a host is undefined without its table.
#[test]
fn functions_of_no_host(rt: HostRuntime) -> Result<(), Fail> {
    let alloc = rt.alloc();
    let text = "permit(principal, action, resource) when { true || ours(1) };";
    let shown = shown_by(alloc, &ExtensionSchemas::default(alloc), text)?;
    assert!(rt;
        shown
            .as_str()
            .starts_with("fault: undefined extension function `ours`; ")
    );
    Ok(())
}

/// The fault belongs to its own policy alone, and stands at the call.
#[test]
fn other_policies(rt: HostRuntime) -> Result<(), Fail> {
    let alloc = rt.alloc();
    let text =
        "permit(principal, action, resource) when { foo(1) };\npermit(principal, action, resource);";
    let shown = shown_by(alloc, &ExtensionSchemas::default(alloc), text)?;
    assert_eq!(rt; shown.as_str().lines().count(), 2);
    assert_eq!(rt;
        shown.as_str().lines().next_back().unwrap_or(""),
        "policy1 accepted, level 0"
    );
    Ok(())
}

/// A policy of JSON whose condition is `true || CALL`.
fn policy_of_json(alloc: Global, call: &str) -> Result<String, Fail> {
    Ok(format!(in alloc;
        "{{\"effect\": \"permit\", \"principal\": {{\"op\": \"All\"}}, \"action\": {{\"op\": \"All\"}}, \
         \"resource\": {{\"op\": \"All\"}}, \"conditions\": [{{\"kind\": \"when\", \"body\": {{\"||\": {{\
         \"left\": {{\"Value\": true}}, \"right\": {call}}}}}}}]}}"
    )?)
}

#[test]
fn calls_in_json(rt: HostRuntime) -> Result<(), Fail> {
    let alloc = rt.alloc();
    let functions = functions_of_host(alloc)?;
    for (call, wanted) in [
        (
            "{\"foo\": [{\"Value\": 1}]}",
            "fault: undefined extension function `foo`ALL\n",
        ),
        (
            "{\"ours\": [{\"Value\": 1}]}",
            "policy0 accepted, level 0\n",
        ),
        (
            "{\"ip\": [{\"Value\": \"1.1.1.1\"}]}",
            "policy0 accepted, level 0\n",
        ),
    ] {
        let text = policy_of_json(alloc, call)?;
        let shown = shown_by(alloc, &functions, text.as_str())?;
        let wanted = wanted.replace(alloc, "ALL", ALL)?;
        assert_eq!(rt; shown.as_str(), wanted.as_str(), "{call}");
    }
    Ok(())
}
