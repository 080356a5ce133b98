// Verdicts on policies and on data in texts.
mod asked;
mod calls;
mod changes;
mod data;
mod hints;
mod in_order;
mod json;
mod json_schemas;
mod judged_data;
mod levels;
mod lines;
mod numbered;
pub mod pieces;
mod policies;
mod said;
mod shown;
mod tables;
mod texts;
