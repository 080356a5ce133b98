//! Typing of Cedar policies: a policy's condition is checked in each environment of a schema.
#![tactic(auto)]

pub mod typecheck;
