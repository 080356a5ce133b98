// Characters that show nothing, in the names of policies.
use crate::findings_tests::cases::check;
use cedar_findings::marks::marked_parts;
use cedar_reading::Policies;
use std::alloc::Global;
use std::test::Fail;

/// Characters that show nothing, or a blank: the soft hyphen, blanks and joiners of no width, selectors, tags, fillers.
const INVISIBLE: [char; 17] = [
    '\u{ad}',
    '\u{a0}',
    '\u{34f}',
    '\u{115f}',
    '\u{180e}',
    '\u{200b}',
    '\u{200c}',
    '\u{200d}',
    '\u{2003}',
    '\u{2060}',
    '\u{2800}',
    '\u{3000}',
    '\u{3164}',
    '\u{fe0f}',
    '\u{feff}',
    '\u{e0041}',
    '\u{e0100}',
];

/// Characters that change the direction in which the text beside them is shown.
const MARKS: [char; 4] = ['\u{61c}', '\u{200e}', '\u{200f}', '\u{202e}'];

/// Policies without such a warning: a whole text may have such characters, and an accent shows something.
const SILENT: [(&str, &str); 3] = [
    (
        "permit(principal, action, resource) when { context.a == \"1\u{a0}000\" };",
        "",
    ),
    (
        "permit(principal, action, resource) when { context.a == \"\u{2764}\u{fe0f}\" };",
        "",
    ),
    (
        "permit(principal == User::\"rene\u{301}\", action, resource) when { principal has \"a b\" };",
        "",
    ),
];

#[test]
fn in_ids_and_attributes(rt: HostRuntime) -> Result<(), Fail> {
    let alloc = rt.alloc();
    for c in &INVISIBLE {
        let shown = show_warnings(alloc, policy_with(alloc, *c)?.as_str())?;
        let number = u32::from(*c);
        assert_eq!(rt;
            shown.as_str(),
            "look-alike: an id with characters that show nothing;\
             look-alike: an attribute with characters that show nothing;",
            "for {number:x}"
        );
    }
    for c in &MARKS {
        let shown = show_warnings(alloc, policy_with(alloc, *c)?.as_str())?;
        let number = u32::from(*c);
        assert_eq!(rt;
            shown.as_str(),
            "direction: an id with marks of direction, which may be shown in another order;\
             direction: an attribute with marks of direction, which may be shown in another order;",
            "for {number:x}"
        );
    }
    Ok(())
}

#[test]
fn without_a_warning(rt: HostRuntime) -> Result<(), Fail> {
    check(&rt, show_warnings, &SILENT)
}

/// A policy with this character in an id and in an attribute.
fn policy_with(alloc: Global, c: char) -> Result<String, Fail> {
    Ok(format!(in alloc;
        "permit(principal == User::\"admin{c}\", action, resource) when {{ principal has \"name{c}\" }};"
    )?)
}

/// The warnings of a policy.
fn show_warnings(alloc: Global, text: &str) -> Result<String, Fail> {
    let mut got = String::new(alloc);
    let mut policies = Policies::new(alloc, text)?;
    if let Some(read) = policies.next_policy() {
        for marked in marked_parts(alloc, &read?.template)? {
            let code = marked.code.text();
            let text = marked.text;
            write!(got, "{code}: {text};")?;
        }
    }
    Ok(got)
}
