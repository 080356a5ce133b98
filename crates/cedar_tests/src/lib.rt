//! Tests of the three libraries' calls that no program makes, and of texts that no case shows. They
//! stand apart, because the gate proves no tests.
#![tactic(auto)]

#[cfg(test)]
mod parts;
#[cfg(test)]
mod typechecker_tests;
#[cfg(test)]
mod types_tests;
#[cfg(test)]
mod typing_tests;
