//! Verdicts on texts of policies and data, and answers of calls. The tests stand apart from those
//! of texts, which need not wait for verdicts to be proved.
#![tactic(auto)]

#[cfg(test)]
mod calls_tests;
#[cfg(test)]
mod verdicts_tests;
