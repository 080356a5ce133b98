//! Texts of the worked rows: questions, schemas and errors. Also parts of policies as tests show them, the extension functions
//! by which rows and cases are typed, and functions of which there is no table.
#![tactic(auto)]

pub mod addresses;
pub mod faulty_functions;
pub mod findings;
pub mod negations;
pub mod questions;
pub mod schemas;
pub mod shown;
pub mod tables;
