// Policies in Cedar's JSON form, read as the trees that are validated. Each node has the place of
// its part of the text.
mod binaries;
mod constraints;
mod entities;
mod expressions;
mod leaves;
mod literals;
mod operators;
mod outline;
mod patterns;
mod sets;
mod templates;

pub use entities::entity_uid;
pub use sets::Policies;
pub use templates::ReadPolicy;
