//! Calls in Cedar's own protocol, which programs in other languages make: each is an object of JSON, and so is its answer. A call
//! validates policies by a schema, checks data by a schema, or asks for the typed conditions of a policy. Only a
//! schema that was opened is kept between calls.
#![tactic(auto)]

pub mod answered;
mod answers;
pub mod conditions;
mod copies;
pub mod data;
mod depths;
mod expressions;
pub mod faults;
mod forms;
pub mod given;
mod links;
mod nesting;
pub mod opened;
mod policies;
mod schemas;
pub mod settings;
pub mod validation;
mod writer;
