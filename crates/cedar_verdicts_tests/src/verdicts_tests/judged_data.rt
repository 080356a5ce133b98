// Verdicts on entities and on requests.
use crate::verdicts_tests::asked::{check_lines, said_of_data};
use crate::verdicts_tests::pieces::repeated;
use crate::verdicts_tests::tables::judged_data::{DATA, DATA_SCHEMA, NESTED};
use std::process::Abort;
use std::test::Fail;

#[test]
fn entities_and_requests(rt: HostRuntime) -> Result<(), Fail> {
    for (entities, request, status, wanted) in &DATA {
        let said = said_of_data(rt.alloc(), DATA_SCHEMA, *entities, *request)?;
        let text = entities.or(*request).unwrap_or("");
        check_lines(&rt, text, &said, *status, wanted)?;
    }
    Ok(())
}

#[test]
fn nested_entities(rt: HostRuntime) -> Result<(), Fail> {
    let alloc = rt.alloc();
    for (pieces, status, wanted) in &NESTED {
        let text = repeated(alloc, pieces)?;
        let said = said_of_data(alloc, DATA_SCHEMA, Some(text.as_str()), None)?;
        check_lines(&rt, "nested entities", &said, *status, wanted)?;
    }
    Ok(())
}
