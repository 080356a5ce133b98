//! Tests of a host: verdicts on a set of policies, the environments in which one is safe, typed
//! conditions, and the verdicts and findings of a host that loads slices. They stand apart, because
//! the gate proves no tests.
#![tactic(auto)]

#[cfg(test)]
mod admission;
#[cfg(test)]
mod conditions;
pub mod embedding;
#[cfg(test)]
mod enumerated;
#[cfg(test)]
mod extensions;
#[cfg(test)]
mod ids;
#[cfg(test)]
mod loading;
#[cfg(test)]
mod policy_sets;
#[cfg(test)]
mod reports;
#[cfg(test)]
mod rounds;
#[cfg(test)]
mod safety;
#[cfg(test)]
mod slices;
#[cfg(test)]
mod wanted;
