//! Verdicts on texts, as an output shows them. The caller reads the files, and writes the shown text.
pub mod changes;
pub mod policies;
pub mod schemas;
pub mod texts;
