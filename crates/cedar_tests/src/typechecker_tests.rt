// Tests of the validator: calls that no program makes. Each subject has a module.
mod levels;
mod policies;
mod satisfying_types;
mod schemas;
mod surveys;
