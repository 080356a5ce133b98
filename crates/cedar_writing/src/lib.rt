//! Texts of policies in Cedar's own layout: what is formatted says what it said.
#![tactic(auto)]

mod brackets;
mod bytes;
mod examples;
mod expressions;
mod faults;
mod formatted;
mod layouts;
mod lines;
mod parentheses;
mod pieces;
mod printer;
mod roles;
mod settings;
mod spans;
mod steps;
mod tokens;
mod writer;

pub use examples::examples_of_pieces;
pub use faults::FormatFault;
pub use formatted::{Formatted, Kept, both_say_the_same, format_policies};
pub use settings::Layout;
