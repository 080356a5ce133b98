//! The passes over the names of a policy and over its scope.
mod actions;
mod admitted;
mod application;
mod entity_types;
mod flags;
mod linking;
mod literal_errors;
pub(crate) mod members;
mod slot_errors;
mod validator;

pub use literal_errors::{ActionIdErrors, EntityTypeErrors, EnumEntityErrors, LiteralErrors};
pub use slot_errors::SlotTypeErrors;
pub use validator::Validator;
