// Case files: the policies that they ask about, and the answers that they want.
mod answers;
mod columns;
mod costs;
mod differences;
mod files;
mod names;
mod refusals;
mod report;

pub use differences::agrees;
pub use files::{CaseFile, FileFault};
pub use refusals::{Notation, fault_of_columns, notation_of, run_refusals};
pub use report::{CaseCounts, run_cases};
