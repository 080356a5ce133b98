// Verdicts on schemas and policies in Cedar's own syntax.
use crate::verdicts_tests::asked::{PLAIN, check_line, said_of_policies};
use crate::verdicts_tests::pieces::repeated;
use crate::verdicts_tests::tables::conditions::{BEFORE, BEHIND, CONDITIONS};
use crate::verdicts_tests::tables::nested::NESTED;
use crate::verdicts_tests::tables::policies::POLICIES;
use crate::verdicts_tests::tables::schemas::{AROUND, GOOD, SCHEMA, SCHEMAS};
use std::process::Abort;
use std::test::Fail;

#[test]
fn conditions(rt: HostRuntime) -> Result<(), Fail> {
    let alloc = rt.alloc();
    for (condition, status, wanted) in &CONDITIONS {
        let text = format!(in alloc; "{BEFORE}{condition}{BEHIND}")?;
        let said = said_of_policies(alloc, PLAIN, SCHEMA, text.as_str())?;
        check_line(&rt, &said, *status, wanted)?;
    }
    Ok(())
}

#[test]
fn whole_policies(rt: HostRuntime) -> Result<(), Fail> {
    for (text, status, wanted) in &POLICIES {
        let said = said_of_policies(rt.alloc(), PLAIN, SCHEMA, text)?;
        check_line(&rt, &said, *status, wanted)?;
    }
    Ok(())
}

#[test]
fn nested_policies(rt: HostRuntime) -> Result<(), Fail> {
    let alloc = rt.alloc();
    for (pieces, status, wanted) in &NESTED {
        let text = repeated(alloc, pieces)?;
        let said = said_of_policies(alloc, PLAIN, SCHEMA, text.as_str())?;
        check_line(&rt, &said, *status, wanted)?;
    }
    Ok(())
}

#[test]
fn schemas(rt: HostRuntime) -> Result<(), Fail> {
    for (schema, status, wanted) in &SCHEMAS {
        let said = said_of_policies(rt.alloc(), PLAIN, schema, GOOD)?;
        check_line(&rt, &said, *status, wanted)?;
    }
    Ok(())
}

#[test]
fn what_stands_around_a_schema(rt: HostRuntime) -> Result<(), Fail> {
    let alloc = rt.alloc();
    for (before, behind, status, wanted) in &AROUND {
        let schema = format!(in alloc; "{before}{SCHEMA}{behind}")?;
        let said = said_of_policies(alloc, PLAIN, schema.as_str(), GOOD)?;
        check_line(&rt, &said, *status, wanted)?;
    }
    Ok(())
}
