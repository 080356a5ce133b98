// Messages of errors and warnings, without their policy.
use crate::base::errors::access_errors::{
    NoTagsAllowed, UnsafeAttributeAccess, UnsafeOptionalAttributeAccess, UnsafeTagAccess,
};
use crate::base::errors::call_errors::{
    FunctionArgumentValidation, NonLitExtConstructor, UndefinedFunction, WrongNumberArguments,
};
use crate::base::errors::level_errors::{
    InternalInvariantViolation, LiteralDereferenceTarget, MaximumLevelExceeded,
};
use crate::base::errors::shown_types::{OrAnyEntity, QuotedTypes};
use crate::base::errors::type_errors::{EmptySetForbidden, IncompatibleTypes, UnexpectedType};
use crate::base::errors::unknown_names::{
    InvalidEnumEntity, UnrecognizedActionId, UnrecognizedEntityType,
};
use crate::base::errors::validation_errors::ValidationError;
use crate::base::errors::validation_warnings::{
    ImpossiblePolicy, InvalidActionApplication, ValidationWarning,
};
use std::fmt;

/// An error or a warning without its policy: `Display` writes the part of its full message that
/// follows "for policy `..`, ".
#[derive(Drop)]
pub struct Message<'a, T>(pub &'a T);

impl fmt::Display for Message<'_, UnrecognizedEntityType> {
    fn fmt<W: fmt::Write>(&self, f: &mut fmt::Formatter<W>) -> fmt::Result {
        let name = &self.0.actual_entity_type;
        write!(f, "unrecognized entity type `{name}`")
    }
}

impl fmt::Display for Message<'_, UnrecognizedActionId> {
    fn fmt<W: fmt::Write>(&self, f: &mut fmt::Formatter<W>) -> fmt::Result {
        let uid = &self.0.actual_action_id;
        write!(f, "unrecognized action `{uid}`")
    }
}

impl fmt::Display for Message<'_, InvalidEnumEntity> {
    fn fmt<W: fmt::Write>(&self, f: &mut fmt::Formatter<W>) -> fmt::Result {
        let uid = &self.0.uid;
        write!(f, "entity `{uid}` is not a member of its enumerated type")
    }
}

impl fmt::Display for Message<'_, UnexpectedType> {
    fn fmt<W: fmt::Write>(&self, f: &mut fmt::Formatter<W>) -> fmt::Result {
        let UnexpectedType {
            expected,
            actual,
            ..
        } = self.0;
        let expected = QuotedTypes {
            types: expected,
            between: " or ",
        };
        write!(f, "unexpected type: expected {expected} but saw `{actual}`")
    }
}

impl fmt::Display for Message<'_, IncompatibleTypes> {
    fn fmt<W: fmt::Write>(&self, f: &mut fmt::Formatter<W>) -> fmt::Result {
        let types = QuotedTypes {
            types: &self.0.types,
            between: ", ",
        };
        write!(f, "the types {types} are not compatible")
    }
}

impl fmt::Display for Message<'_, UnsafeAttributeAccess> {
    fn fmt<W: fmt::Write>(&self, f: &mut fmt::Formatter<W>) -> fmt::Result {
        let UnsafeAttributeAccess {
            accessed_type,
            attr,
            ..
        } = self.0;
        let wrong = self.0.what_is_wrong();
        write!(f, "attribute `{attr}` {wrong} `{accessed_type}`")
    }
}

impl fmt::Display for Message<'_, UnsafeOptionalAttributeAccess> {
    fn fmt<W: fmt::Write>(&self, f: &mut fmt::Formatter<W>) -> fmt::Result {
        let UnsafeOptionalAttributeAccess {
            accessed_type,
            attr,
            ..
        } = self.0;
        write!(
            f,
            "access to optional attribute `{attr}` on `{accessed_type}` is not guarded"
        )
    }
}

impl fmt::Display for Message<'_, UnsafeTagAccess> {
    fn fmt<W: fmt::Write>(&self, f: &mut fmt::Formatter<W>) -> fmt::Result {
        let entity = OrAnyEntity(&self.0.entity_ty);
        write!(f, "access to a tag of `{entity}` is not guarded")
    }
}

impl fmt::Display for Message<'_, NoTagsAllowed> {
    fn fmt<W: fmt::Write>(&self, f: &mut fmt::Formatter<W>) -> fmt::Result {
        let entity = OrAnyEntity(&self.0.entity_ty);
        write!(f, "tags are not allowed on `{entity}`")
    }
}

impl fmt::Display for Message<'_, UndefinedFunction> {
    fn fmt<W: fmt::Write>(&self, f: &mut fmt::Formatter<W>) -> fmt::Result {
        let name = &self.0.name;
        write!(f, "undefined extension function `{name}`")
    }
}

impl fmt::Display for Message<'_, WrongNumberArguments> {
    fn fmt<W: fmt::Write>(&self, f: &mut fmt::Formatter<W>) -> fmt::Result {
        let WrongNumberArguments {
            expected,
            actual,
            ..
        } = self.0;
        write!(
            f,
            "wrong number of arguments: expected {expected}, got {actual}"
        )
    }
}

impl fmt::Display for Message<'_, FunctionArgumentValidation> {
    fn fmt<W: fmt::Write>(&self, f: &mut fmt::Formatter<W>) -> fmt::Result {
        let msg = &self.0.msg;
        write!(f, "invalid argument: {msg}")
    }
}

impl fmt::Display for Message<'_, EmptySetForbidden> {
    fn fmt<W: fmt::Write>(&self, f: &mut fmt::Formatter<W>) -> fmt::Result {
        f.write_str("empty set literals are forbidden")
    }
}

impl fmt::Display for Message<'_, NonLitExtConstructor> {
    fn fmt<W: fmt::Write>(&self, f: &mut fmt::Formatter<W>) -> fmt::Result {
        f.write_str("extension constructors take literals alone")
    }
}

impl fmt::Display for Message<'_, InternalInvariantViolation> {
    fn fmt<W: fmt::Write>(&self, f: &mut fmt::Formatter<W>) -> fmt::Result {
        f.write_str("internal invariant violated")
    }
}

impl fmt::Display for Message<'_, MaximumLevelExceeded> {
    fn fmt<W: fmt::Write>(&self, f: &mut fmt::Formatter<W>) -> fmt::Result {
        let MaximumLevelExceeded {
            allowed_level,
            actual_level,
            ..
        } = self.0;
        write!(
            f,
            "this policy requires level {actual_level}, which exceeds the maximum allowed level ({allowed_level})"
        )
    }
}

impl fmt::Display for Message<'_, LiteralDereferenceTarget> {
    fn fmt<W: fmt::Write>(&self, f: &mut fmt::Formatter<W>) -> fmt::Result {
        f.write_str("entity literals cannot be dereferenced at any level")
    }
}

impl fmt::Display for Message<'_, ImpossiblePolicy> {
    fn fmt<W: fmt::Write>(&self, f: &mut fmt::Formatter<W>) -> fmt::Result {
        f.write_str("policy is impossible: it evaluates to false for every valid request")
    }
}

impl fmt::Display for Message<'_, InvalidActionApplication> {
    fn fmt<W: fmt::Write>(&self, f: &mut fmt::Formatter<W>) -> fmt::Result {
        f.write_str("unable to find an applicable action given the policy scope constraints")
    }
}

impl fmt::Display for Message<'_, ValidationError> {
    fn fmt<W: fmt::Write>(&self, f: &mut fmt::Formatter<W>) -> fmt::Result {
        match self.0 {
            ValidationError::UnrecognizedEntityType(it) => Message(it).fmt(f),
            ValidationError::UnrecognizedActionId(it) => Message(it).fmt(f),
            ValidationError::InvalidEnumEntity(it) => Message(it).fmt(f),
            ValidationError::UnexpectedType(it) => Message(it).fmt(f),
            ValidationError::IncompatibleTypes(it) => Message(it).fmt(f),
            ValidationError::UnsafeAttributeAccess(it) => Message(it).fmt(f),
            ValidationError::UnsafeOptionalAttributeAccess(it) => Message(it).fmt(f),
            ValidationError::UnsafeTagAccess(it) => Message(it).fmt(f),
            ValidationError::NoTagsAllowed(it) => Message(it).fmt(f),
            ValidationError::UndefinedFunction(it) => Message(it).fmt(f),
            ValidationError::WrongNumberArguments(it) => Message(it).fmt(f),
            ValidationError::FunctionArgumentValidation(it) => Message(it).fmt(f),
            ValidationError::EmptySetForbidden(it) => Message(it).fmt(f),
            ValidationError::NonLitExtConstructor(it) => Message(it).fmt(f),
            ValidationError::InternalInvariantViolation(it) => Message(it).fmt(f),
            ValidationError::MaximumLevelExceeded(it) => Message(it).fmt(f),
            ValidationError::LiteralDereferenceTarget(it) => Message(it).fmt(f),
        }
    }
}

impl fmt::Display for Message<'_, ValidationWarning> {
    fn fmt<W: fmt::Write>(&self, f: &mut fmt::Formatter<W>) -> fmt::Result {
        match self.0 {
            ValidationWarning::ImpossiblePolicy(it) => Message(it).fmt(f),
            ValidationWarning::InvalidActionApplication(it) => Message(it).fmt(f),
        }
    }
}
