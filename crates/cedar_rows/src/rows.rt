// The worked rows.
pub mod answers;
pub mod chains;
pub mod checks;
pub mod conditions;
pub mod dereferences;
pub mod levels;
pub mod listed;
pub mod names;
pub mod policies;
pub mod reports;
pub mod steps;

use cedar_types::base::ExtensionSchemas;
pub use listed::WORKED;
pub use reports::Report;
use std::alloc::{AllocError, Global};
pub use steps::{Nested, Steps};

/// A worked row.
pub trait Row {
    /// Runs the row, lent both tables of extension functions.
    fn report(
        &self,
        alloc: Global,
        x1: &ExtensionSchemas,
        x2: &ExtensionSchemas,
    ) -> Result<Report, AllocError>;
}

/// A row with its name: its digits, without leading zeros.
pub struct NamedRow<R> {
    pub name: &'static str,
    pub row: R,
}
