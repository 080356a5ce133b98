// Trees of texts of JSON, or their faults with their places. Each subject has a module.
mod cases;
mod cedar_forms;
mod outlines;
mod policies;
mod policy_faults;
mod policy_trees;
mod reader;
mod reading;
mod schema_faults;
mod schemas;
mod shown;
mod trees;
