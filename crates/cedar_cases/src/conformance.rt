// Case files about data that is checked by a schema: requests, entities, and policies with the bindings of their slots.
mod cases;
mod data;

use crate::cases::{CaseCounts, agrees};
use cases::{Answer, run_case};
use cedar_types::base::ValidatorSchema;
use std::alloc::Global;
use std::io;
use std::io::Write;

/// The beginning of the first line of such a file: the name of a schema's file stands behind it.
const FIRST: &str = "data\t";

/// The number of lines before the cases.
const HEAD: usize = 1;

/// The heading under which a difference is shown.
const COLUMN: &str = "data";

/// The name of the schema's file, if the cases of a file of this text are about data.
pub fn schema_of_data(text: &str) -> Option<&str> {
    text.lines().next()?.strip_prefix(FIRST)
}

/// Runs each case of a file, and writes those that differ.
pub fn run_data<W: Write>(
    alloc: Global,
    name: &str,
    text: &str,
    schema: &ValidatorSchema,
    out: &mut W,
) -> io::Result<CaseCounts> {
    let mut counts = CaseCounts { ran: 0, wrong: 0 };
    let mut number: usize = 0;
    for line in text.lines() {
        number = number.saturating_add(1);
        if number <= HEAD || line.is_empty() || line.starts_with('#') {
            continue;
        }
        counts.ran = counts.ran.saturating_add(1);
        let Answer { wanted, got } = run_case(alloc, schema, line)?;
        if !agrees(name, number, COLUMN, wanted, got.as_str(), out)? {
            counts.wrong = counts.wrong.saturating_add(1);
        }
    }
    Ok(counts)
}
