//! Calls for a host of policies: it validates a set of policies, for whole stores or for slices, lets them in with a request
//! and entities, finds the entities of a slice, and takes the typed conditions of a policy. Each call has its promise beside
//! it. The crate `cedar_extensions` has the extension functions of Cedar.
#![tactic(auto)]

pub mod accepted;
pub mod admission;
pub mod checked;
pub mod conditions;
pub mod held;
pub mod loaded_outcomes;
pub mod loaders;
pub mod loading;
pub mod policy_sets;
pub mod reports;
pub mod responses;
pub mod rounds;
pub mod safety;
pub mod slices;
