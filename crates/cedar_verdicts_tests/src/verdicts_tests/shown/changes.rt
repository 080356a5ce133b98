// Shown changes of policies that two schemas judge.
use crate::verdicts_tests::asked::cedar_functions;
use crate::verdicts_tests::said::schema_of;
use cedar_findings::colours::Colours;
use cedar_findings::outputs::Output;
use cedar_findings::sources::Source;
use cedar_typechecker::rbac::Validator;
use cedar_types::base::{ValidationMode, ValidatorSchema};
use cedar_verdicts::links::Links;
use cedar_verdicts::settings::Settings;
use cedar_verdicts::shown::changes::{BothSettings, ShownChanges};
use std::alloc::{AllocError, Global};
use std::test::Fail;

const OLD: &str = "entity User { age: Long };
entity Photo { public: Bool };
action view appliesTo { principal: User, resource: Photo };
";

/// Photos are no longer public.
const NEW: &str = "entity User { age: Long };
entity Photo;
action view appliesTo { principal: User, resource: Photo };
";

/// Bots view too, and photos can be edited.
const WIDER: &str = "entity User { age: Long };
entity Photo { public: Bool }; entity Bot;
action view, edit appliesTo { principal: [User, Bot], resource: Photo };
";

/// A policy that both accept, one that the newer schema refuses, one that cannot be read, and a template with such a condition.
const POLICIES: &str = "@id(\"kept\") permit(principal, action, resource);
@id(\"loses\") permit(principal, action, resource) when { resource.public };
permit(principal);
@id(\"t\") permit(principal == ?principal, action, resource) when { resource.public };
";

const LINKS: &str =
    r#"[{"template_id": "t", "link_id": "l", "args": {"?principal": "User::\"u\""}}]"#;

fn add_changes(
    alloc: Global,
    settings: &BothSettings<'_>,
    links: &mut Links,
    output: &mut Output,
) -> Result<(), AllocError> {
    let source = Source {
        name: "p",
        text: POLICIES,
    };
    let Some(mut changes) = ShownChanges::begin(alloc, settings, source, output)? else {
        return Ok(());
    };
    for _ in 0..changes.most() {
        if !changes.show_next(alloc, settings, links, output)? {
            break;
        }
    }
    changes.end(alloc, output)?;
    output.end_changes(alloc)
}

/// The shown lines, without those of texts.
fn shown_by(alloc: Global, old: ValidatorSchema, new: ValidatorSchema) -> Result<String, Fail> {
    let mut lines = String::new(alloc);
    let functions = cedar_functions(alloc)?;
    let mut links = Links::read(alloc, String::from_str(alloc, LINKS)?)?;
    let old = Validator::new(old, &functions);
    let new = Validator::new(new, &functions);
    let settings = BothSettings {
        old: strict(&old),
        new: strict(&new),
    };
    let mut output = Output::new(alloc, Colours::None);
    add_changes(alloc, &settings, &mut links, &mut output)?;
    for line in output.shown().lines() {
        if !line.contains(" | ") {
            writeln!(lines, "{line}")?;
        }
    }
    Ok(lines)
}

fn strict<'a>(validator: &'a Validator<'a>) -> Settings<'a> {
    Settings {
        validator,
        mode: ValidationMode::Strict,
        level: None,
        syntax: None,
    }
}

/// The first schema, the second, and the shown lines.
const CASES: [(&str, &str, &str); 5] = [
    (
        OLD,
        OLD,
        "p:3:17: fault: `,` is expected, where `)` is read\n\
         policies: 4, changed: 0, worse: 0, faults: 1\n",
    ),
    (
        OLD,
        NEW,
        "p:2:1: policy `loses`: worse: newly refused\n\
         p:2:57: error: attribute `public` does not exist on `Photo`\n\
         p:3:17: fault: `,` is expected, where `)` is read\n\
         p:4:1: policy `t`: worse: newly refused\n\
         p:4:67: error: attribute `public` does not exist on `Photo`\n\
         p:4:1: policy `l`: worse: newly refused\n\
         p:4:67: error: attribute `public` does not exist on `Photo`\n\
         policies: 4, changed: 3, worse: 3, faults: 1\n",
    ),
    (
        NEW,
        OLD,
        "p:2:1: policy `loses`: newly accepted\n\
         p:2:57: gone: error: attribute `public` does not exist on `Photo`\n\
         p:3:17: fault: `,` is expected, where `)` is read\n\
         p:4:1: policy `t`: newly accepted\n\
         p:4:67: gone: error: attribute `public` does not exist on `Photo`\n\
         p:4:1: policy `l`: newly accepted\n\
         p:4:67: gone: error: attribute `public` does not exist on `Photo`\n\
         policies: 4, changed: 3, worse: 0, faults: 1\n",
    ),
    // the link names a user, so it does not apply to bots
    (
        OLD,
        WIDER,
        "p:1:1: policy `kept`: new environments\n  \
           newly for Action::\"view\" by Bot on Photo\n  \
           newly for Action::\"edit\" by Bot on Photo\n  \
           newly for Action::\"edit\" by User on Photo\n\
         p:2:1: policy `loses`: new environments\n  \
           newly for Action::\"view\" by Bot on Photo\n  \
           newly for Action::\"edit\" by Bot on Photo\n  \
           newly for Action::\"edit\" by User on Photo\n\
         p:3:17: fault: `,` is expected, where `)` is read\n\
         p:4:1: policy `t`: new environments\n  \
           newly for Action::\"view\" by Bot on Photo\n  \
           newly for Action::\"edit\" by Bot on Photo\n  \
           newly for Action::\"edit\" by User on Photo\n\
         p:4:1: policy `l`: new environments\n  \
           newly for Action::\"edit\" by User on Photo\n\
         policies: 4, changed: 4, worse: 0, faults: 1\n",
    ),
    (
        WIDER,
        OLD,
        "p:1:1: policy `kept`: lost environments\n  \
           no longer for Action::\"view\" by Bot on Photo\n  \
           no longer for Action::\"edit\" by Bot on Photo\n  \
           no longer for Action::\"edit\" by User on Photo\n\
         p:2:1: policy `loses`: lost environments\n  \
           no longer for Action::\"view\" by Bot on Photo\n  \
           no longer for Action::\"edit\" by Bot on Photo\n  \
           no longer for Action::\"edit\" by User on Photo\n\
         p:3:17: fault: `,` is expected, where `)` is read\n\
         p:4:1: policy `t`: lost environments\n  \
           no longer for Action::\"view\" by Bot on Photo\n  \
           no longer for Action::\"edit\" by Bot on Photo\n  \
           no longer for Action::\"edit\" by User on Photo\n\
         p:4:1: policy `l`: lost environments\n  \
           no longer for Action::\"edit\" by User on Photo\n\
         policies: 4, changed: 4, worse: 0, faults: 1\n",
    ),
];

#[test]
fn changes(rt: HostRuntime) -> Result<(), Fail> {
    let alloc = rt.alloc();
    for (old, new, wanted) in &CASES {
        let (Some(old), Some(new)) = (schema_of(alloc, old)?, schema_of(alloc, new)?) else {
            panic!(rt; "both are schemas");
        };
        let shown = shown_by(alloc, old, new)?;
        assert_eq!(rt; shown.as_str(), *wanted);
    }
    Ok(())
}
