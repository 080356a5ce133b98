// Hints against mistakes in conditions.
use crate::verdicts_tests::asked::{PLAIN, said_of_policies};
use crate::verdicts_tests::lines::Lines;
use crate::verdicts_tests::tables::hints::{HINT_SCHEMA, HINTS};
use std::alloc::{AllocError, Global};
use std::process::Abort;
use std::test::Fail;

/// The text before a condition.
const BEFORE: &str = "permit(principal, action == Action::\"view\", resource) when { ";

#[test]
fn hints_of_conditions(rt: HostRuntime) -> Result<(), Fail> {
    let alloc = rt.alloc();
    for (condition, wanted) in &HINTS {
        let text = format!(in alloc; "{BEFORE}{condition} }};")?;
        let said = said_of_policies(alloc, PLAIN, HINT_SCHEMA, text.as_str())?;
        let mut lines = String::new(alloc);
        for line in *wanted {
            writeln!(lines, "{line}")?;
        }
        let messages = messages_of(alloc, &said)?;
        assert_eq!(rt; messages.as_str(), lines.as_str(), "for {condition}");
    }
    Ok(())
}

/// The errors, warnings and faults among these lines, without their places, a line for each.
fn messages_of(alloc: Global, said: &Lines) -> Result<String, AllocError> {
    let mut messages = String::new(alloc);
    for line in said.shown.as_str().lines() {
        for kind in [": error: ", ": warning: ", ": fault: "] {
            if let Some((_, message)) = line.split_once(kind) {
                writeln!(messages, "{message}")?;
            }
        }
    }
    Ok(messages)
}
