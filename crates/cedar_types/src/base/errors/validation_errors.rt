// Errors of validation.
use crate::base::errors::access_errors::{
    NoTagsAllowed, UnsafeAttributeAccess, UnsafeOptionalAttributeAccess, UnsafeTagAccess,
};
use crate::base::errors::call_errors::{
    FunctionArgumentValidation, NonLitExtConstructor, UndefinedFunction, WrongNumberArguments,
};
use crate::base::errors::level_errors::{
    InternalInvariantViolation, LiteralDereferenceTarget, MaximumLevelExceeded,
};
use crate::base::errors::type_errors::{EmptySetForbidden, IncompatibleTypes, UnexpectedType};
use crate::base::errors::unknown_names::{
    InvalidEnumEntity, UnrecognizedActionId, UnrecognizedEntityType,
};
use crate::base::location::Loc;
use crate::base::names::policy_ids::PolicyID;
use thiserror::Error;

/// An error that makes a policy invalid, with the policy's id and the place of the error.
///
/// Errors have an order, so that a set can keep them: `cmp` answers `Equal` exactly if `==` holds.
/// A later version may order errors differently.
#[derive(PartialEq, Eq, PartialOrd, Ord, Hash, Debug, Error)]
pub enum ValidationError {
    /// A type that the schema does not know.
    #[error(transparent)]
    UnrecognizedEntityType(UnrecognizedEntityType),
    /// An action that the schema does not declare.
    #[error(transparent)]
    UnrecognizedActionId(UnrecognizedActionId),
    /// An id that its enumerated type does not list.
    #[error(transparent)]
    InvalidEnumEntity(InvalidEnumEntity),
    /// An expression whose type is not an accepted one.
    #[error(transparent)]
    UnexpectedType(UnexpectedType),
    /// Several types that have no bound.
    #[error(transparent)]
    IncompatibleTypes(IncompatibleTypes),
    /// An attribute that the type does not declare.
    #[error(transparent)]
    UnsafeAttributeAccess(UnsafeAttributeAccess),
    /// An optional attribute, read without a test.
    #[error(transparent)]
    UnsafeOptionalAttributeAccess(UnsafeOptionalAttributeAccess),
    /// A tag, read without a test.
    #[error(transparent)]
    UnsafeTagAccess(UnsafeTagAccess),
    /// A tag of a type that declares none.
    #[error(transparent)]
    NoTagsAllowed(NoTagsAllowed),
    /// A function that the table does not have.
    #[error(transparent)]
    UndefinedFunction(UndefinedFunction),
    /// A call with too many arguments, or too few.
    #[error(transparent)]
    WrongNumberArguments(WrongNumberArguments),
    /// Arguments that the function's check refuses.
    #[error(transparent)]
    FunctionArgumentValidation(FunctionArgumentValidation),
    /// A set without elements, in Strict.
    #[error(transparent)]
    EmptySetForbidden(EmptySetForbidden),
    /// A checked function with an argument that is no literal, in Strict.
    #[error(transparent)]
    NonLitExtConstructor(NonLitExtConstructor),
    /// A form that typing or the level pass has no rule for.
    #[error(transparent)]
    InternalInvariantViolation(InternalInvariantViolation),
    /// More dereferences, one after another, than the level allows.
    #[error(transparent)]
    MaximumLevelExceeded(MaximumLevelExceeded),
    /// A dereference of an entity literal or of a slot.
    #[error(transparent)]
    LiteralDereferenceTarget(LiteralDereferenceTarget),
}

impl ValidationError {
    ghost use Rattle.std.specs.Prelude.{◌≡◌, IsTrue, ◌↔◌};
    ghost use Rattle.cedar_types.specs.Names.{text_of};
    ghost use Rattle.cedar_types.specs.Errors.{finding_of};

    /// Whether two errors are one finding: one fault at one place of one policy. `==` answers
    /// alike.
    ///
    /// The comparison ignores the places of the types and ids inside the errors.
    pub fn is_same_finding(&self, other: &ValidationError) -> bool
        ensures { IsTrue result ↔ (finding_of self.now ≡ finding_of other.now) }
    {
        self == other
    }

    /// The place that the error is about.
    pub fn source_loc(&self) -> Option<Loc>
        ensures { result ≡ (finding_of self.now).place }
    {
        match self {
            ValidationError::UnrecognizedEntityType(e) => e.source_loc,
            ValidationError::UnrecognizedActionId(e) => e.source_loc,
            ValidationError::InvalidEnumEntity(e) => e.source_loc,
            ValidationError::UnexpectedType(e) => e.source_loc,
            ValidationError::IncompatibleTypes(e) => e.source_loc,
            ValidationError::UnsafeAttributeAccess(e) => e.source_loc,
            ValidationError::UnsafeOptionalAttributeAccess(e) => e.source_loc,
            ValidationError::UnsafeTagAccess(e) => e.source_loc,
            ValidationError::NoTagsAllowed(e) => e.source_loc,
            ValidationError::UndefinedFunction(e) => e.source_loc,
            ValidationError::WrongNumberArguments(e) => e.source_loc,
            ValidationError::FunctionArgumentValidation(e) => e.source_loc,
            ValidationError::EmptySetForbidden(e) => e.source_loc,
            ValidationError::NonLitExtConstructor(e) => e.source_loc,
            ValidationError::InternalInvariantViolation(e) => e.source_loc,
            ValidationError::MaximumLevelExceeded(e) => e.source_loc,
            ValidationError::LiteralDereferenceTarget(e) => e.source_loc,
        }
    }

    /// The id of the policy that the error is in.
    pub fn policy_id(&self) -> &PolicyID
        ensures { text_of result.now.text ≡ (finding_of self.now).policy }
    {
        match self {
            ValidationError::UnrecognizedEntityType(e) => &e.policy_id,
            ValidationError::UnrecognizedActionId(e) => &e.policy_id,
            ValidationError::InvalidEnumEntity(e) => &e.policy_id,
            ValidationError::UnexpectedType(e) => &e.policy_id,
            ValidationError::IncompatibleTypes(e) => &e.policy_id,
            ValidationError::UnsafeAttributeAccess(e) => &e.policy_id,
            ValidationError::UnsafeOptionalAttributeAccess(e) => &e.policy_id,
            ValidationError::UnsafeTagAccess(e) => &e.policy_id,
            ValidationError::NoTagsAllowed(e) => &e.policy_id,
            ValidationError::UndefinedFunction(e) => &e.policy_id,
            ValidationError::WrongNumberArguments(e) => &e.policy_id,
            ValidationError::FunctionArgumentValidation(e) => &e.policy_id,
            ValidationError::EmptySetForbidden(e) => &e.policy_id,
            ValidationError::NonLitExtConstructor(e) => &e.policy_id,
            ValidationError::InternalInvariantViolation(e) => &e.policy_id,
            ValidationError::MaximumLevelExceeded(e) => &e.policy_id,
            ValidationError::LiteralDereferenceTarget(e) => &e.policy_id,
        }
    }
}

// `Drop` is written by hand, so that a proof has one call for each dropped error: a derived drop
// would put all kinds of errors into the proof at each such place.
impl Drop for ValidationError {
    fn drop(self) {
        match self {
            ValidationError::UnrecognizedEntityType(_) => {}
            ValidationError::UnrecognizedActionId(_) => {}
            ValidationError::InvalidEnumEntity(_) => {}
            ValidationError::UnexpectedType(_) => {}
            ValidationError::IncompatibleTypes(_) => {}
            ValidationError::UnsafeAttributeAccess(_) => {}
            ValidationError::UnsafeOptionalAttributeAccess(_) => {}
            ValidationError::UnsafeTagAccess(_) => {}
            ValidationError::NoTagsAllowed(_) => {}
            ValidationError::UndefinedFunction(_) => {}
            ValidationError::WrongNumberArguments(_) => {}
            ValidationError::FunctionArgumentValidation(_) => {}
            ValidationError::EmptySetForbidden(_) => {}
            ValidationError::NonLitExtConstructor(_) => {}
            ValidationError::InternalInvariantViolation(_) => {}
            ValidationError::MaximumLevelExceeded(_) => {}
            ValidationError::LiteralDereferenceTarget(_) => {}
        }
    }
}
