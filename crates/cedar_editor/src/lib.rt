//! Diagnostics, hovers, completions, definitions, symbols and fixes for policies and schemas while they are written. No file is
//! read here, and nothing is written.
#![tactic(auto)]

mod attributes;
mod changes;
pub mod checks;
pub mod completions;
pub mod definitions;
pub mod diagnostics;
pub mod documents;
mod drafts;
pub mod edits;
pub mod examples;
mod expected;
pub mod fixes;
pub mod hovers;
pub mod items;
pub mod judges;
mod known;
pub mod lines;
mod members;
mod mentions;
pub mod offsets;
pub mod outlines;
mod readings;
pub mod schema_names;
pub mod schemas;
mod spots;
pub mod symbols;
mod tokens;
mod typed_parts;
pub mod walks;
mod windows;
