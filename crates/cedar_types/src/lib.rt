//! Data types of the typechecker: policies, types, schemas and errors.
#![tactic(auto)]

pub mod base;
pub mod types;
