//! Verdicts on data, and their findings.
use crate::codes::Code;
use cedar_types::base::Loc;

/// A mistake in data, with its place.
#[derive(Drop)]
pub struct DataFinding {
    pub place: Loc,
    /// The kind of the mistake: `Fault` if the text is no data there, `Rest` if there are more mistakes.
    pub code: Code,
    pub text: String,
    /// The hint; empty if none is known.
    pub hint: String,
}

/// The verdict on a text of data.
#[derive(Drop)]
pub struct DataVerdict {
    /// Whether the data conforms to the schema.
    pub is_accepted: bool,
    /// The number of entities that could be read.
    pub entities: usize,
    /// The first mistakes in the order of their places; the last finding tells that there are more, if there are.
    pub findings: Vec<DataFinding>,
}
