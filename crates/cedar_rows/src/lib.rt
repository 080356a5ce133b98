//! The worked rows of `cedar-check`. They are apart from the program, because a crate with tests is
//! proved twice.
#![tactic(auto)]

pub mod rows;
pub mod run;
