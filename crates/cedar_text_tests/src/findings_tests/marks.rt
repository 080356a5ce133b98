// Marks of direction in policies.
use crate::findings_tests::cases::check;
use cedar_findings::marks::marked_parts;
use cedar_reading::Policies;
use std::alloc::Global;
use std::test::Fail;

/// Policies, and the texts of their warnings with a `;` behind each.
const POLICIES: [(&str, &str); 8] = [
    ("permit(principal, action, resource);", ""),
    (
        "permit(principal == User::\"a\u{202e}\", action, resource);",
        ID,
    ),
    (
        "permit(principal, action in [Action::\"a\u{2066}\", Action::\"b\"], resource is A in A::\"\\u{2069}\");",
        ID_TWICE,
    ),
    (
        "permit(principal, action, resource) when { \"\\u{202a}\" == \"a\" };",
        TEXT,
    ),
    (
        "permit(principal, action, resource) when { context.a like \"a*\u{202c}\" };",
        TEXT,
    ),
    (
        "permit(principal, action, resource) when { context[\"\u{202d}\"] || context has \"\u{202d}\" };",
        ATTRIBUTE_TWICE,
    ),
    (
        "permit(principal, action, resource) when { context.a[\"\u{2067}\"] || {\"\u{2068}\": 1} == context };",
        ATTRIBUTE_TWICE,
    ),
    (
        "permit(principal, action, resource) when { resource in User::\"\u{202b}\" };",
        ID,
    ),
];

const ID: &str = "an id with marks of direction, which may be shown in another order;";

const ID_TWICE: &str =
    "an id with marks of direction, which may be shown in another order;an id with marks of direction, \
     which may be shown in another order;";

const TEXT: &str = "a text with marks of direction, which may be shown in another order;";

const ATTRIBUTE_TWICE: &str =
    "an attribute with marks of direction, which may be shown in another order;an attribute with \
     marks of direction, which may be shown in another order;";

/// The texts of a policy's warnings.
fn show_warnings(alloc: Global, text: &str) -> Result<String, Fail> {
    let mut got = String::new(alloc);
    let mut policies = Policies::new(alloc, text)?;
    if let Some(read) = policies.next_policy() {
        for marked in marked_parts(alloc, &read?.template)? {
            got.push_str(marked.text)?;
            got.push_str(";")?;
        }
    }
    Ok(got)
}

#[test]
fn warnings(rt: HostRuntime) -> Result<(), Fail> {
    check(&rt, show_warnings, &POLICIES)
}
