// The result of a row.
use std::alloc::{AllocError, Global};

/// The result of a row.
#[derive(Drop)]
pub struct Report {
    pub outcomes: Vec<String>,
    /// Whether each outcome, error text and location is the row's.
    pub is_expected: bool,
}

impl Report {
    /// A report without an outcome yet.
    pub fn new(alloc: Global) -> Report {
        Report {
            outcomes: Vec::new(alloc),
            is_expected: true,
        }
    }

    /// Adds an outcome, and whether it is the row's.
    pub fn add(&mut self, outcome: String, is_expected: bool) -> Result<(), AllocError> {
        self.outcomes.push(outcome)?;
        self.is_expected = self.is_expected && is_expected;
        Ok(())
    }
}
