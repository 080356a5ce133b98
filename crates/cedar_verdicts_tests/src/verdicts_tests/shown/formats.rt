// Findings in each format: lines, JSON and SARIF.
use crate::verdicts_tests::said::status_of;
use crate::verdicts_tests::shown::whole::{Texts, output_in};
use crate::verdicts_tests::tables::formats::{
    COMMANDS, DATA_OBJECTS, DATA_RESULT, FAULTY_SCHEMA, POLICY_RESULTS, SCHEMA_FAULTS,
};
use crate::verdicts_tests::tables::judged_data::{DATA_SCHEMA, GOOD_ENTITIES, GOOD_REQUEST};
use crate::verdicts_tests::tables::schemas::{GOOD, SCHEMA};
use std::alloc::{AllocError, Global};
use std::process::Abort;
use std::test::Fail;

/// The lines that begin so.
fn lines_from<'a>(
    alloc: Global,
    shown: &'a str,
    beginning: &str,
) -> Result<Vec<&'a str>, AllocError> {
    let mut found = Vec::new(alloc);
    for line in shown.lines() {
        if line.starts_with(beginning) {
            found.push(line)?;
        }
    }
    Ok(found)
}

/// A place of the schema, as it stands in the format of this name.
fn place_in(alloc: Global, format: &str, line: usize, column: usize) -> Result<String, AllocError> {
    match format {
        "lines" => format!(in alloc; "s:{line}:{column}: fault: "),
        "json" => format!(in alloc; "\"line\":{line},\"column\":{column},"),
        _ => format!(in alloc; "\"startLine\":{line},\"startColumn\":{column},"),
    }
}

/// Each fault of a schema has a line, in the order of the text.
#[test]
fn faults_of_a_schema(rt: HostRuntime) -> Result<(), Fail> {
    let alloc = rt.alloc();
    for (format, beginning) in [
        ("lines", "s:"),
        ("json", "{\"kind\":\"fault\","),
        ("sarif", "{\"ruleId\":\"fault\","),
    ] {
        let files = [("p", GOOD)];
        let texts = Texts::of_policies(FAULTY_SCHEMA, &files);
        let output = output_in(&rt, format, texts)?;
        let faults = lines_from(alloc, output.shown(), beginning)?;
        assert_eq!(rt; faults.len(), SCHEMA_FAULTS.len(), "{format}");
        for (found, (line, column, text)) in faults.iter().zip(SCHEMA_FAULTS.iter()) {
            let place = place_in(alloc, format, *line, *column)?;
            assert!(rt;
                found.contains(place.as_str()),
                "{place} is wanted, not {found}"
            );
            assert!(rt; found.contains(*text), "{text} is wanted, not {found}");
        }
        assert_eq!(rt; status_of(&output.totals, false), 2, "{format}");
    }
    Ok(())
}

/// No line begins as a command to a code host, nor has one the mark of a command anywhere.
#[test]
fn no_commands(rt: HostRuntime) -> Result<(), Fail> {
    for text in &COMMANDS {
        for format in ["lines", "json", "sarif"] {
            let files = [("p", *text)];
            let output = output_in(&rt, format, Texts::of_policies(SCHEMA, &files))?;
            let shown = output.shown();
            assert!(rt; !shown.is_empty(), "{text} in {format}");
            assert!(rt; !shown.contains("##"), "{shown}");
            for line in shown.lines() {
                assert!(rt; !line.trim_start().starts_with("::"), "{line}");
            }
        }
    }
    Ok(())
}

/// A policy with an error, one without, and one that cannot be read, in a file whose name is no
/// reference.
#[test]
fn results_of_policies(rt: HostRuntime) -> Result<(), Fail> {
    let alloc = rt.alloc();
    let text = format!(in alloc;
        "permit(principal, action, resource) when {{ principal.x }};\n\n{GOOD}permit(;\n"
    )?;
    let files = [("a b:c", text.as_str())];
    let output = output_in(&rt, "sarif", Texts::of_policies(SCHEMA, &files))?;
    let results = lines_from(alloc, output.shown(), "{\"ruleId\":")?;
    assert_eq!(rt; results.len(), POLICY_RESULTS.len());
    for (found, wanted) in results.iter().zip(POLICY_RESULTS.iter()) {
        assert!(rt;
            found.starts_with(*wanted),
            "{wanted} is wanted, not {found}"
        );
    }
    let has_failed = output.shown().contains("\"executionSuccessful\":false");
    assert!(rt; has_failed, "a policy was not read");
    Ok(())
}

/// A policy, entities of which one has a mistake, and a request.
#[test]
fn findings_in_data(rt: HostRuntime) -> Result<(), Fail> {
    let alloc = rt.alloc();
    let Some((before, behind)) = GOOD_ENTITIES.split_once("\"age\": 30") else {
        panic!(rt; "an entity has an age");
    };
    let entities = format!(in alloc; "{before}\"age\": \"x\"{behind}")?;
    let files = [("p", "permit(principal, action, resource);")];
    let texts = Texts {
        schema: DATA_SCHEMA,
        policies: &files,
        entities: Some(entities.as_str()),
        request: Some(GOOD_REQUEST),
    };
    let objects = output_in(&rt, "json", texts)?;
    assert_eq!(rt; objects.shown(), DATA_OBJECTS);
    assert_eq!(rt; status_of(&objects.totals, false), 1);
    let sarif = output_in(&rt, "sarif", texts)?;
    let results = lines_from(alloc, sarif.shown(), "{\"ruleId\":")?;
    assert_eq!(rt; results.len(), 1);
    for found in &results {
        assert!(rt; found.starts_with(DATA_RESULT), "{found}");
    }
    let has_rule = sarif.shown().contains("\n{\"id\":\"data-type\",");
    assert!(rt; has_rule, "the rule of the result is described");
    assert_eq!(rt; status_of(&sarif.totals, false), 1);
    Ok(())
}
