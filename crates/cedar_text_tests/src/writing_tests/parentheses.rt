// Parentheses stand exactly where precedence asks for them.
use crate::writing_tests::formatting::shown;
use std::test::Fail;

/// Conditions, and how they are formatted.
const CASES: [(&str, &str); 44] = [
    ("((action))", "action"),
    (
        "(action && resource) && context",
        "action && resource && context",
    ),
    (
        "action && (resource && context)",
        "action && (resource && context)",
    ),
    (
        "(action && resource) || context",
        "action && resource || context",
    ),
    (
        "action && (resource || context)",
        "action && (resource || context)",
    ),
    (
        "(action || resource) && context",
        "(action || resource) && context",
    ),
    (
        "(action || resource) || (context)",
        "action || resource || context",
    ),
    (
        "action || (resource || context)",
        "action || (resource || context)",
    ),
    (
        "(action == resource) && (context < principal)",
        "action == resource && context < principal",
    ),
    (
        "(action == resource) == context",
        "(action == resource) == context",
    ),
    (
        "action == (resource == context)",
        "action == (resource == context)",
    ),
    (
        "(action + resource) == (context - principal)",
        "action + resource == context - principal",
    ),
    (
        "(action + resource) - context",
        "action + resource - context",
    ),
    (
        "action - (resource - context)",
        "action - (resource - context)",
    ),
    (
        "action + (resource * context)",
        "action + resource * context",
    ),
    (
        "(action + resource) * context",
        "(action + resource) * context",
    ),
    (
        "action * (resource * context)",
        "action * (resource * context)",
    ),
    (
        "(action * resource) * context",
        "action * resource * context",
    ),
    ("!(action)", "!action"),
    ("!(action.b)", "!action.b"),
    ("!(action == resource)", "!(action == resource)"),
    ("(!action) == resource", "!action == resource"),
    ("(!action).b", "(!action).b"),
    ("-(action)", "-action"),
    ("(-action) * (-resource)", "-action * -resource"),
    ("action - (-resource)", "action - -resource"),
    // a minus before digits would belong to the number
    ("-(5)", "-(5)"),
    ("-((5))", "-(5)"),
    ("(-5)", "-5"),
    ("(-5).a", "(-5).a"),
    ("-(5.a)", "-(5.a)"),
    ("(5).a", "5.a"),
    ("-(-5)", "-(-5)"),
    ("(action).b[\"c\"]", "action.b[\"c\"]"),
    ("(action + resource).c", "(action + resource).c"),
    ("(action)[\"b\"]", "action[\"b\"]"),
    (
        "(action.b).contains((context))",
        "action.b.contains(context)",
    ),
    (
        "[(action), (resource && context),]",
        "[action, resource && context]",
    ),
    (
        "{\"k\": (action || resource)} == (context)",
        "{\"k\": action || resource} == context",
    ),
    (
        "(if action then (resource) else (context)) == principal",
        "(if action then resource else context) == principal",
    ),
    (
        "(if (action) then resource else (if context then principal else true))",
        "if action then resource else if context then principal else true",
    ),
    (
        "((action) has b) && ((action) like \"*\")",
        "action has b && action like \"*\"",
    ),
    (
        "((action) is T) && (action is T in (resource))",
        "action is T && action is T in resource",
    ),
    (
        "(action in resource) in (context + principal)",
        "(action in resource) in context + principal",
    ),
];

#[test]
fn parentheses_that_stay(rt: HostRuntime) -> Result<(), Fail> {
    let alloc = rt.alloc();
    for (condition, wanted) in &CASES {
        let text = format!(in alloc; "permit(principal,action,resource)when{{{condition}}};")?;
        let wanted = format!(in alloc;
            "permit (principal, action, resource)\nwhen {{ {wanted} }};\n"
        )?;
        assert_eq!(rt;
            shown(alloc, text.as_str())?.as_str(),
            wanted.as_str(),
            "{condition}"
        );
    }
    Ok(())
}
