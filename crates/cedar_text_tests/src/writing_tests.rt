// Policies that are formatted. Each subject has a module.
mod between_tokens;
mod comments;
mod faults;
mod formatting;
mod lines;
mod parentheses;
mod random;
