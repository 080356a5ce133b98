//! Environments that type an expression alike, because they agree on what the expression reads.
#![tactic(auto)]

mod environments;
pub mod laws;
mod reads;

pub use reads::Reads;
