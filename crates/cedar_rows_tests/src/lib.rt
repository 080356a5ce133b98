//! Tests of the worked rows: no other answer is taken for the one that a row expects, and runs of rows write the right lines.
//! They stand apart, because the gate proves no tests.
#![tactic(auto)]

#[cfg(test)]
mod tests;
