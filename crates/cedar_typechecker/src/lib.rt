//! The checks by which a validator accepts or refuses a policy: of its names, its scope, its types
//! and its levels.
#![tactic(auto)]

pub mod level_validate;
pub mod rbac;
pub mod survey;
mod validation;

pub use cedar_types::{base, types};
pub use cedar_typing::typecheck;
