// Values on which the calls are made.
pub mod findings;
pub mod texts;
