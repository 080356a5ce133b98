// Tests of the worked rows. Each subject has a module.
mod expectations;
mod runs;
mod tables;
mod wrong_expectations;
mod wrong_levels;
