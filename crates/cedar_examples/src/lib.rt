//! Examples of the promises and conclusions from their laws, each on a function that does nothing; and
//! two parts of a host to copy: entities in memory, and a loader that asks them once a round.
#![tactic(auto)]

pub mod arrays;
pub mod hosts;
pub mod in_rounds;
pub mod memory;
pub mod queries;
pub mod validation;
