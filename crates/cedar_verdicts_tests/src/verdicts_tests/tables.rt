// Texts with their lines.
pub mod conditions;
pub mod formats;
pub mod hints;
pub mod json_faults;
pub mod json_policies;
pub mod json_sets;
pub mod judged_data;
pub mod nested;
pub mod policies;
pub mod schemas;
pub mod teams;
