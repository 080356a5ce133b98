//! Reader of policies and schemas as texts, those of cases and those of files, and of types as they
//! are shown; if a text cannot be read, you get a fault and its place. The proofs claim only that
//! this crate is safe and total.
#![tactic(auto)]

mod annotations;
mod brackets;
mod cursor;
mod expressions;
mod faults;
mod faulty_policies;
mod given;
mod members;
mod names;
mod notes;
mod open_parts;
mod operators;
mod parts;
mod policies;
mod policy_parts;
mod positions;
mod schemas;
mod scopes;
mod shown_types;
mod texts;
mod tokens;

pub use annotations::Annotation;
pub use cursor::{MAX_GRAMMAR_STEPS, MAX_LENGTH};
pub use faults::{Expected, Fault, ReadError};
pub use faulty_policies::{FaultyPolicy, policies_with_faults};
pub use given::{declarations_as_given, schema_as_given};
pub use policies::{Policies, ReadPolicy};
pub use positions::Position;
pub use schemas::{
    ReadSchema, RefusedName, SchemaDeclarations, SchemaFault, SchemaReadError, refused_name,
    schema, schema_declarations, schema_faults, schema_with_hiding, shadowing_name,
};
pub use scopes::{condition, name_alone, policy, scope_alone, uid_alone, whole_policy};
pub use shown_types::type_alone;
pub use tokens::token_text;
