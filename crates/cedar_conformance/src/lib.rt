//! Data of a host, checked by a schema: values, requests and entities, and the other premises that
//! the promises of validation ask of a schema and of a policy. This crate evaluates nothing.
#![tactic(auto)]

mod actions;
pub mod answers;
mod copies;
pub mod entities;
pub mod entity_faults;
pub mod faults;
pub mod ids;
pub mod policies;
pub mod premises;
pub mod requests;
pub mod schemas;
mod sets;
mod shown_values;
pub mod stored;
pub mod stores;
mod typed;
pub mod values;
