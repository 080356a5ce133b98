// Answers of a check, as case files write them.
mod applications;
mod environments;
mod forms;
mod outcomes;
mod places;
mod typed;

pub use applications::application;
pub use environments::environment;
pub use outcomes::{findings, level_outcome, outcome, policy_outcome};
pub use places::Source;
pub use typed::typed_condition;
