// Verdicts on many entities, each of which has a number.
use crate::verdicts_tests::asked::{check_lines, said_of_data};
use crate::verdicts_tests::said::status_of;
use crate::verdicts_tests::tables::judged_data::DATA_SCHEMA;
use std::process::Abort;
use std::test::Fail;

/// A hundred groups, each on a line, in a group that is missing.
#[test]
fn a_hundred_groups(rt: HostRuntime) -> Result<(), Fail> {
    let alloc = rt.alloc();
    let mut text = String::from_str(alloc, "[")?;
    for number in 1..=100u32 {
        text.push_str(if number == 1 { "" } else { ",\n" })?;
        write!(
            text,
            r#"{{"uid": {{"type": "Group", "id": "{number}"}}, "attrs": {{}}, "#
        )?;
        text.push_str(r#""parents": [{"type": "Group", "id": "0"}]}"#)?;
    }
    text.push_str("]")?;
    let said = said_of_data(alloc, DATA_SCHEMA, Some(text.as_str()), None)?;
    let counts =
        "policies: 0, accepted: 0, refused: 0, warnings: 0, faults: 0, entities: 100, errors in data: 0";
    check_lines(&rt, "a hundred groups", &said, 0, &[counts])
}

/// A hundred and one objects without a key, each on a line: a hundred faults are told, and that there are more.
#[test]
fn more_faults_than_are_told(rt: HostRuntime) -> Result<(), Fail> {
    let alloc = rt.alloc();
    let mut text = String::from_str(alloc, "[{}")?;
    for _ in 0..100 {
        text.push_str(",\n{}")?;
    }
    text.push_str("]")?;
    let mut wanted = String::from_str(alloc, "e:1:2: fault: the key `uid` is missing\n")?;
    for line in 2..=100u32 {
        writeln!(wanted, "e:{line}:1: fault: the key `uid` is missing")?;
    }
    let more = "e:101:4: error: there are more mistakes than the 100 that are shown";
    let counts =
        "policies: 0, accepted: 0, refused: 0, warnings: 0, faults: 100, entities: 0, errors in data: 1";
    writeln!(wanted, "{more}\n{counts}")?;
    let said = said_of_data(alloc, DATA_SCHEMA, Some(text.as_str()), None)?;
    assert_eq!(rt; said.shown.as_str(), wanted.as_str());
    assert_eq!(rt; status_of(&said.totals, false), 2);
    Ok(())
}
