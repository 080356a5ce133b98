//! Which messages streams have, and what an editor shows of texts of policies and schemas.
#![tactic(auto)]

#[cfg(test)]
mod editor_tests;
#[cfg(test)]
mod frames_tests;
