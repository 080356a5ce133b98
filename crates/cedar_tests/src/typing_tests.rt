// Tests of typing: calls that no program makes, and nesting. Each subject has a module.
mod answers;
mod checks;
mod deep_policies;
mod expressions;
mod follow_ups;
mod nesting;
mod parts;
mod reads;
mod sequences;
