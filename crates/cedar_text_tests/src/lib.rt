//! Tests of the trees, data and findings that texts have, or of their faults and places. They stand
//! apart, because the gate proves no tests.
#![tactic(auto)]

#[cfg(test)]
mod data_tests;
#[cfg(test)]
mod findings_tests;
#[cfg(test)]
mod frames;
#[cfg(test)]
mod json_tests;
#[cfg(test)]
mod reading_tests;
#[cfg(test)]
mod writing_tests;
