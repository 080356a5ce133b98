// Tests of the lowest library: calls that no program makes, and texts that no case shows. Each subject has a module.
mod attributes;
mod capabilities;
mod choices;
mod collisions;
mod digested_bases;
mod error_texts;
mod escapes;
mod expressions;
mod extensions;
mod finding_texts;
mod findings;
mod kinds;
mod mentions;
mod request_envs;
mod shown_capabilities;
mod subexpressions;
mod types;
