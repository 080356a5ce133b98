// Lines of several types, of several environments, and of files in both syntaxes.
use crate::verdicts_tests::said::status_of;
use crate::verdicts_tests::shown::whole::{Texts, output_in};
use crate::verdicts_tests::tables::schemas::SCHEMA;
use crate::verdicts_tests::tables::teams::{JSON_BEFORE, JSON_BEHIND, TEAM};
use std::process::Abort;
use std::test::Fail;

/// One mistake on 150 types is one finding, which names the first few.
#[test]
fn one_mistake_of_many_types(rt: HostRuntime) -> Result<(), Fail> {
    let alloc = rt.alloc();
    let mut schema = String::new(alloc);
    let mut names = String::new(alloc);
    for number in 0..150usize {
        writeln!(schema, "entity T{number:03} {{ isPublic: Bool }};")?;
        names.push_str(if number == 0 { "" } else { ", " })?;
        write!(names, "T{number:03}")?;
    }
    writeln!(
        schema,
        "action view appliesTo {{ principal: T000, resource: [{names}] }};"
    )?;
    let policy = "permit(principal, action, resource) when { resource.isPubic };";
    let files = [("p", policy)];
    let output = output_in(&rt, "lines", Texts::of_policies(schema.as_str(), &files))?;
    assert_eq!(rt;
        output.shown(),
        "p:1:1: policy `policy0`: refused\n\
         p:1:44: error: attribute `isPubic` does not exist on `T000`; did you mean `isPublic`?\n  \
           1 | permit(principal, action, resource) when { resource.isPubic };\n    \
             |                                            ^^^^^^^^^^^^^^^^\n  \
           the same for T001\n  \
           the same for T002\n  \
           the same for T003\n  \
           the same for T004\n  \
           the same for 145 more types\n\
         policies: 1, accepted: 0, refused: 1, warnings: 0, faults: 0\n"
    );
    Ok(())
}

/// A policy that one part makes impossible for files, and another for pages: each part has the
/// environments in which it is false.
#[test]
fn false_parts_of_several_environments(rt: HostRuntime) -> Result<(), Fail> {
    let alloc = rt.alloc();
    let schema = format!(in alloc;
        "{SCHEMA}entity Page; action list appliesTo {{ principal: User, resource: [File, Page], \
         context: {{ n: Long }} }};"
    )?;
    let policy =
        "permit(principal, action, resource) when { if resource is File then context has m else context has k };";
    let files = [("p", policy)];
    let output = output_in(&rt, "lines", Texts::of_policies(schema.as_str(), &files))?;
    let shown = output.shown();
    for wanted in [
        "p:1:1: policy `policy0`: accepted, level 0\n",
        "p:1:69: warning: policy is impossible: it evaluates to false for every valid request; this part is never true\n",
        "p:1:88: warning: policy is impossible: it evaluates to false for every valid request; this part is never true\n",
        "  only for Action::\"list\" by User on File\n",
        "  only for Action::\"view\" by User on File\n",
        "  only for Action::\"list\" by User on Page\n",
        "policies: 1, accepted: 1, refused: 0, warnings: 2, faults: 0, level 0\n",
    ] {
        assert!(rt; shown.contains(wanted), "{wanted} is wanted, not {shown}");
    }
    // beside these, two lines of the text for each part
    assert_eq!(rt; shown.lines().count(), 11);
    Ok(())
}

/// A schema in JSON, and policies in JSON, in Cedar's own syntax and in a list. Each file has its
/// own numbers.
#[test]
fn files_in_both_syntaxes(rt: HostRuntime) -> Result<(), Fail> {
    let alloc = rt.alloc();
    let condition = r#"{".": {"left": {"Var": "resource"}, "attr": "isPublic"}}"#;
    let one = format!(in alloc; "{JSON_BEFORE}{condition}{JSON_BEHIND}")?;
    let text =
        "permit(principal, action == Team::Action::\"view\", resource) when { resource.isPublic };";
    // the three files in one text, because parts of one text can stand in one list
    let all = format!(in alloc; "{one}#{text}#[{one}]")?;
    let Some((one, others)) = all.split_once("#") else {
        panic!(rt; "there are three files");
    };
    let Some((text, list)) = others.split_once("#") else {
        panic!(rt; "there are three files");
    };
    let files = [("p", one), ("q", text), ("-", list)];
    let output = output_in(&rt, "lines", Texts::of_policies(TEAM, &files))?;
    assert_eq!(rt;
        output.shown(),
        "p:1:1: policy `policy0`: accepted, level 1\n\
         q:1:1: policy `policy0`: accepted, level 1\n\
         -:1:2: policy `policy0`: accepted, level 1\n\
         policies: 3, accepted: 3, refused: 0, warnings: 0, faults: 0, level 1\n"
    );
    assert_eq!(rt; status_of(&output.totals, true), 0);
    Ok(())
}

/// A warning counts as a refused policy if warnings are denied.
#[test]
fn a_warning_in_json(rt: HostRuntime) -> Result<(), Fail> {
    let test = r#"{"is": {"left": {"Var": "principal"}, "entity_type": "Team::Doc"}}"#;
    let text = format!(in rt.alloc(); "{JSON_BEFORE}{test}{JSON_BEHIND}")?;
    let files = [("p", text.as_str())];
    let output = output_in(&rt, "lines", Texts::of_policies(TEAM, &files))?;
    let shown = output.shown();
    assert!(rt;
        shown.starts_with("p:1:1: policy `policy0`: accepted, level 0\n"),
        "{shown}"
    );
    let counts = "policies: 1, accepted: 1, refused: 0, warnings: 1, faults: 0, level 0\n";
    assert!(rt; shown.ends_with(counts), "{shown}");
    let column = JSON_BEFORE.len().saturating_add(1);
    let warning = format!(in rt.alloc();
        "\np:1:{column}: warning: policy is impossible: it evaluates to false for every valid request; \
         this part is never true\n"
    )?;
    assert!(rt;
        shown.contains(warning.as_str()),
        "{warning} is wanted, not {shown}"
    );
    assert_eq!(rt; status_of(&output.totals, false), 0);
    assert_eq!(rt; status_of(&output.totals, true), 1);
    Ok(())
}

/// The places of a policy in JSON, as objects.
#[test]
fn an_error_in_json(rt: HostRuntime) -> Result<(), Fail> {
    let value = "\n{\"Value\": 1}";
    let text = format!(in rt.alloc(); "{{\"a\":\n{JSON_BEFORE}{value}{JSON_BEHIND}}}")?;
    let files = [("p", text.as_str())];
    let output = output_in(&rt, "json", Texts::of_policies(TEAM, &files))?;
    assert_eq!(rt;
        output.shown(),
        r#"{"kind":"policy","file":"p","line":1,"column":2,"end_line":3,"end_column":16,"id":"a","accepted":false}
{"kind":"error","file":"p","line":3,"column":1,"end_line":3,"end_column":13,"code":"unexpected-type","id":"a","text":"unexpected type: expected `Bool` but saw `Long`","only":[]}
{"kind":"summary","policies":1,"accepted":0,"refused":1,"warnings":0,"faults":0}
"#
    );
    assert_eq!(rt; status_of(&output.totals, false), 1);
    Ok(())
}
