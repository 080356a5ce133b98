// Errors and warnings of validation, one file for each subject.
mod access_errors;
mod call_errors;
mod level_errors;
mod messages;
mod shown_types;
mod type_errors;
mod unknown_names;
mod validation_errors;
mod validation_warnings;

pub use access_errors::{
    NoTagsAllowed, UnsafeAttributeAccess, UnsafeOptionalAttributeAccess, UnsafeTagAccess,
};
pub use call_errors::{
    FunctionArgumentValidation, NonLitExtConstructor, UndefinedFunction, WrongNumberArguments,
};
pub use level_errors::{
    InternalInvariantViolation, LiteralDereferenceTarget, MaximumLevelExceeded,
};
pub use messages::Message;
pub use type_errors::{EmptySetForbidden, IncompatibleTypes, LubContext, UnexpectedType};
pub use unknown_names::{InvalidEnumEntity, UnrecognizedActionId, UnrecognizedEntityType};
pub use validation_errors::ValidationError;
pub use validation_warnings::{ImpossiblePolicy, InvalidActionApplication, ValidationWarning};
