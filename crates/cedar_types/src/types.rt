//! Typing's knowledge of a request and of the members that are present.
pub mod capability;
mod entries;
pub mod laws;
mod link_pairs;
pub mod linked_envs;
pub mod request_env;
pub mod sorted_set;
mod unlinked_envs;
