//! Verdicts on schemas, policies and data in texts, for any caller: findings with their words and places, and counts. The
//! library reads no file and writes nothing.
#![tactic(auto)]

mod applied;
pub mod call_ids;
mod causes;
pub mod changes;
pub mod data;
mod data_hints;
mod environments;
mod errors;
mod examples;
mod found;
mod ids;
mod impossible;
pub mod link_faults;
pub mod links;
pub mod parses;
pub mod policies;
mod requirements;
pub mod schemas;
pub mod sets;
pub mod settings;
pub mod shown;
pub mod slots;
pub mod texts;
pub mod verdicts;
mod warnings;
mod wording;

pub use examples::examples_of_verdicts;
