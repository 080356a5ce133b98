// Shown policies of files, with their links.
use crate::verdicts_tests::asked::cedar_functions;
use crate::verdicts_tests::said::{SCHEMA, schema_of};
use cedar_findings::colours::Colours;
use cedar_findings::outputs::Output;
use cedar_findings::sources::Source;
use cedar_typechecker::rbac::Validator;
use cedar_types::base::ValidationMode;
use cedar_verdicts::call_ids::CallIds;
use cedar_verdicts::links::Links;
use cedar_verdicts::settings::Settings;
use cedar_verdicts::shown::policies::{Shared, ShownPolicies};
use std::alloc::{AllocError, Global};
use std::test::Fail;

/// A template, a policy of its own, one that cannot be read, and one that is refused.
const FIRST: &str = "@id(\"t\") permit(principal == ?principal, action, resource);
@id(\"a\") permit(principal, action, resource) when { principal.age > 1 };
permit(principal);
@id(\"r\") permit(principal, action, resource) when { principal.nope };
";

/// A policy with an id of the other file.
const SECOND: &str = "@id(\"a\") permit(principal, action, resource);\n";

/// Two links of the template, and between them items that make no policy: a link of no policy, no link, a link of a policy
/// without slots, and a link whose id another one has.
const LINKS: &str = r#"[{"template_id": "t", "link_id": "l", "args": {"?principal": "User::\"u\""}},
{"template_id": "gone", "link_id": "m", "args": {}}, null,
{"template_id": "a", "link_id": "n", "args": {}}, {"template_id": "t", "link_id": "l", "args": {}},
{"template_id": "t", "link_id": "k", "args": {"?principal": "User::\"v\""}}]"#;

/// Adds the shown policies of a file.
fn add_file(
    alloc: Global,
    settings: &Settings<'_>,
    source: Source<'_>,
    shared: &mut Shared,
    output: &mut Output,
) -> Result<(), AllocError> {
    let Some(mut policies) = ShownPolicies::begin(alloc, settings, source, shared, output)? else {
        return Ok(());
    };
    for _ in 0..policies.most() {
        if !policies.show_next(alloc, settings, shared, output)? {
            break;
        }
    }
    policies.end(alloc, output)
}

/// The shown policies of files, without the lines of the texts.
fn shown_of(
    alloc: Global,
    is_quiet: bool,
    mut shared: Shared,
    files: &[(&str, &str)],
) -> Result<String, Fail> {
    let mut lines = String::new(alloc);
    let Some(schema) = schema_of(alloc, SCHEMA)? else {
        return Ok(lines);
    };
    let functions = cedar_functions(alloc)?;
    let validator = Validator::new(schema, &functions);
    let settings = Settings {
        validator: &validator,
        mode: ValidationMode::Strict,
        level: None,
        syntax: None,
    };
    let mut output = Output::new(alloc, Colours::None);
    output.is_quiet = is_quiet;
    for (name, text) in files {
        add_file(
            alloc,
            &settings,
            Source { name, text },
            &mut shared,
            &mut output,
        )?;
    }
    output.end(alloc)?;
    for line in output.shown().lines() {
        if !line.starts_with(' ') {
            writeln!(lines, "{line}")?;
        }
    }
    Ok(lines)
}

#[test]
fn policies_and_links(rt: HostRuntime) -> Result<(), Fail> {
    let alloc = rt.alloc();
    let links = Links::read(alloc, String::from_str(alloc, LINKS)?)?;
    let shared = Shared { ids: None, links };
    let shown = shown_of(alloc, false, shared, &[("f", FIRST), ("g", SECOND)])?;
    assert_eq!(rt;
        shown.as_str(),
        "f:1:1: policy `t`: accepted, level 0\n\
         f:1:1: policy `l`: accepted, level 0\n\
         f:1:1: policy `k`: accepted, level 0\n\
         f:2:1: policy `a`: accepted, level 1\n\
         f:3:17: fault: `,` is expected, where `)` is read\n\
         f:4:1: policy `r`: refused\n\
         f:4:53: error: attribute `nope` does not exist on `User`\n\
         g:1:1: policy `a`: accepted, level 0\n\
         policies: 6, accepted: 5, refused: 1, warnings: 0, faults: 1, level 1\n"
    );
    Ok(())
}

/// A quiet output has no line for accepted policies. If ids must be unique over all files, a policy that repeats one is
/// refused.
#[test]
fn quiet_policies_and_ids(rt: HostRuntime) -> Result<(), Fail> {
    let alloc = rt.alloc();
    let shared = Shared {
        ids: Some(CallIds::new(alloc)),
        links: Links::none(alloc),
    };
    let good = "@id(\"a\") permit(principal, action, resource) when { principal.age > 1 };\n";
    let shown = shown_of(alloc, true, shared, &[("f", good), ("g", SECOND)])?;
    assert_eq!(rt;
        shown.as_str(),
        "g:1:1: policy `a`: refused, level 0\ng:1:1: error: a policy of f has the same id\n"
    );
    Ok(())
}

/// A file that is given twice has the ids of two files.
#[test]
fn one_file_twice(rt: HostRuntime) -> Result<(), Fail> {
    let alloc = rt.alloc();
    let shared = Shared {
        ids: Some(CallIds::new(alloc)),
        links: Links::none(alloc),
    };
    let shown = shown_of(alloc, true, shared, &[("f", SECOND), ("f", SECOND)])?;
    assert_eq!(rt;
        shown.as_str(),
        "f:1:1: policy `a`: refused, level 0\nf:1:1: error: a policy of f has the same id\n"
    );
    Ok(())
}

/// A text that cannot be read as a whole has one fault.
#[test]
fn no_policies(rt: HostRuntime) -> Result<(), Fail> {
    let alloc = rt.alloc();
    let shared = Shared {
        ids: None,
        links: Links::none(alloc),
    };
    let shown = shown_of(alloc, false, shared, &[("f", "[1,")])?;
    assert_eq!(rt;
        shown.as_str(),
        "f:1:4: fault: a value is expected, where the text ends\n\
         policies: 0, accepted: 0, refused: 0, warnings: 0, faults: 1\n"
    );
    Ok(())
}
