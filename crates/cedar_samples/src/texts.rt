// Calls of a host with texts, in one place: they read schemas and policies, and check them.
mod faults;
mod schemas;
mod written;

pub use cedar_extensions::checks::Constructor;
pub use cedar_extensions::functions::{Checks, functions, overloaded_types};
pub use cedar_host::policy_sets::{WrittenPolicy, repeated_ids, validate_set};
pub use cedar_host::safety::SoundMode;
pub use cedar_host::slices::{SliceReport, level_of, validate_for_slices};
pub use cedar_typechecker::rbac::Validator;
pub use cedar_types::base::{ArgumentCheck, ExtensionSchemas, ValidationMode};
pub use cedar_typing::typecheck::Typechecker;
pub use faults::HostError;
pub use schemas::whole_schema;
pub use written::written_policies;

/// The names of a file with a schema, and of one with policies.
#[derive(Clone, Copy)]
pub struct Files<'a> {
    pub schema: &'a str,
    pub policies: &'a str,
}
