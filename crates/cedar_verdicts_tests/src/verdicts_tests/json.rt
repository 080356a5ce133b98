// Verdicts on schemas and policies in JSON.
use crate::verdicts_tests::asked::{Asked, PLAIN, check_lines, said_of_policies};
use crate::verdicts_tests::pieces::{joined, repeated};
use crate::verdicts_tests::tables::json_faults::{FAULTS, NESTED, ONE_FAULT, SCHEMAS};
use crate::verdicts_tests::tables::json_policies::{ASKED, POLICIES};
use crate::verdicts_tests::tables::json_sets::{BY_ID, BY_ID_COUNTS, LINKED, LINKED_LINES};
use crate::verdicts_tests::tables::teams::{TEAM, TEAM_TEXT};
use std::process::Abort;
use std::test::Fail;

#[test]
fn policies(rt: HostRuntime) -> Result<(), Fail> {
    let alloc = rt.alloc();
    for (parts, status, wanted) in &POLICIES {
        let text = joined(alloc, parts)?;
        let said = said_of_policies(alloc, PLAIN, TEAM, text.as_str())?;
        check_lines(&rt, text.as_str(), &said, *status, wanted)?;
    }
    Ok(())
}

#[test]
fn policies_at_a_level_or_in_a_syntax(rt: HostRuntime) -> Result<(), Fail> {
    let alloc = rt.alloc();
    for (level, syntax, schema, parts, status, wanted) in &ASKED {
        let asked = Asked {
            level: *level,
            syntax: *syntax,
        };
        let text = joined(alloc, parts)?;
        let said = said_of_policies(alloc, asked, schema, text.as_str())?;
        check_lines(&rt, text.as_str(), &said, *status, wanted)?;
    }
    Ok(())
}

#[test]
fn faulty_policies(rt: HostRuntime) -> Result<(), Fail> {
    let alloc = rt.alloc();
    for (parts, wanted) in &FAULTS {
        let text = joined(alloc, parts)?;
        let said = said_of_policies(alloc, PLAIN, TEAM, text.as_str())?;
        check_lines(&rt, text.as_str(), &said, 2, &[*wanted, ONE_FAULT])?;
    }
    Ok(())
}

#[test]
fn nested_values(rt: HostRuntime) -> Result<(), Fail> {
    let alloc = rt.alloc();
    for (pieces, wanted) in &NESTED {
        let text = repeated(alloc, pieces)?;
        let said = said_of_policies(alloc, PLAIN, TEAM, text.as_str())?;
        check_lines(&rt, "nested values", &said, 2, &[*wanted, ONE_FAULT])?;
    }
    Ok(())
}

#[test]
fn faulty_schemas(rt: HostRuntime) -> Result<(), Fail> {
    let alloc = rt.alloc();
    for (parts, wanted) in &SCHEMAS {
        let schema = joined(alloc, parts)?;
        let said = said_of_policies(alloc, PLAIN, schema.as_str(), "[]")?;
        check_lines(&rt, schema.as_str(), &said, 2, &[*wanted])?;
    }
    Ok(())
}

/// Ten policies by id, each on a line.
#[test]
fn policies_by_id(rt: HostRuntime) -> Result<(), Fail> {
    let alloc = rt.alloc();
    let mut text = String::from_str(alloc, "{\n")?;
    let mut wanted = Vec::new(alloc);
    for (number, (parts, lines)) in BY_ID.iter().enumerate() {
        text.push_str(if number == 0 { "" } else { ",\n" })?;
        text.push_str(joined(alloc, parts)?.as_str())?;
        for line in *lines {
            wanted.push(*line)?;
        }
    }
    text.push_str("\n}")?;
    wanted.push(BY_ID_COUNTS)?;
    let said = said_of_policies(alloc, PLAIN, TEAM, text.as_str())?;
    check_lines(&rt, text.as_str(), &said, 1, wanted.as_slice())
}

/// A policy, two templates and their links, by the schema in either syntax.
#[test]
fn linked_policies(rt: HostRuntime) -> Result<(), Fail> {
    let alloc = rt.alloc();
    let text = joined(alloc, &LINKED)?;
    for schema in [TEAM, TEAM_TEXT] {
        let said = said_of_policies(alloc, PLAIN, schema, text.as_str())?;
        check_lines(&rt, schema, &said, 2, &LINKED_LINES)?;
    }
    Ok(())
}
