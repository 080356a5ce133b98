//! Levels (RFC 76): the number of entities that a policy dereferences, one after another.
mod answers;
mod bases;
mod costs;
pub(crate) mod demands;
pub mod laws;
mod paths;
pub mod promises;
mod shared;
pub mod slice_examples;
pub mod slices;
mod targets;
pub(crate) mod walk;

pub use answers::{LevelErrors, LevelWarnings};
pub use cedar_types::base::EntityDerefLevel;
pub use costs::attr_chain_cost_from_root;
pub use shared::only_branch;
