//! The extension functions of Cedar, and the texts that they read.
#![tactic(auto)]

pub mod checks;
pub mod examples;
pub mod functions;
pub mod methods;
pub mod texts;
pub mod types;
pub mod unread_texts;
