// Kinds of errors and warnings, made of fields that are texts, numbers and places.
use crate::parts::{add, alone, entity, entity_type, lub, place, text, uid};
use cedar_types::base::{
    CedarType, EntityDerefLevel, LubContext, Name, PolicyID, ValidationError, ValidationWarning,
    types_in_order,
};
use std::alloc::{AllocError, Global};
use std::collections::BTreeSet;

/// The parts of an error. Each kind takes some of them.
#[derive(Clone, Copy)]
pub struct Fields<'a> {
    pub place: usize,
    pub policy: &'a str,
    /// A name of a type or a function, or a message.
    pub first: &'a str,
    /// Another name of a type, an id, or an attribute.
    pub second: &'a str,
    pub number: u32,
    pub flag: bool,
}

/// A kind of error.
#[derive(Clone, Copy, PartialEq, Eq, Debug)]
pub enum Kind {
    UnrecognizedEntityType,
    UnrecognizedActionId,
    InvalidEnumEntity,
    UnexpectedType,
    IncompatibleTypes,
    UnsafeAttributeAccess,
    UnsafeOptionalAttributeAccess,
    UnsafeTagAccess,
    NoTagsAllowed,
    UndefinedFunction,
    WrongNumberArguments,
    FunctionArgumentValidation,
    EmptySetForbidden,
    NonLitExtConstructor,
    InternalInvariantViolation,
    MaximumLevelExceeded,
    LiteralDereferenceTarget,
}

/// The set of the type of the entities of this name.
fn only(alloc: Global, name: &str) -> Result<BTreeSet<CedarType>, AllocError> {
    types_in_order(alloc, alone(alloc, entity(alloc, &[name])?)?)
}

/// The set of the types of the entities of these names.
fn both(alloc: Global, first: &str, second: &str) -> Result<BTreeSet<CedarType>, AllocError> {
    let mut listed = alone(alloc, entity(alloc, &[first])?)?;
    add(&mut listed, entity(alloc, &[second])?)?;
    types_in_order(alloc, listed)
}

fn context(flag: bool) -> LubContext {
    if flag {
        LubContext::Set
    } else {
        LubContext::Equality
    }
}

/// The error that an entity of the second name stands at a place that expects one of the first.
fn unexpected_type(
    alloc: Global,
    fields: Fields<'_>,
    id: PolicyID,
) -> Result<ValidationError, AllocError> {
    let found = entity(alloc, &[fields.second])?;
    let expected = only(alloc, fields.first)?;
    Ok(ValidationError::expected_one_of_types(place(fields.place), id, expected, found))
}

/// The error that entities of both names have no type in common.
fn incompatible(
    alloc: Global,
    fields: Fields<'_>,
    id: PolicyID,
) -> Result<ValidationError, AllocError> {
    let types = both(alloc, fields.first, fields.second)?;
    let context = context(fields.flag);
    Ok(ValidationError::incompatible_types(place(fields.place), id, types, context))
}

/// The error that the attribute of the second name may be missing: an optional one, or any.
fn unsafe_attribute(
    alloc: Global,
    fields: Fields<'_>,
    id: PolicyID,
    is_optional: bool,
) -> Result<ValidationError, AllocError> {
    let attr = text(alloc, fields.second)?;
    let (loc, owner) = (place(fields.place), entity(alloc, &[fields.first])?);
    if is_optional {
        return Ok(ValidationError::unsafe_optional_attribute_access(loc, id, owner, attr));
    }
    Ok(ValidationError::unsafe_attribute_access(loc, id, owner, attr, fields.flag))
}

/// The error that a call has another number of arguments.
fn wrong_number(fields: Fields<'_>, id: PolicyID) -> ValidationError {
    let (wanted, found) = (usize::from(fields.flag), fields.number as usize);
    ValidationError::wrong_number_args(place(fields.place), id, wanted, found)
}

/// The error that the level is too high.
fn level_error(fields: Fields<'_>, id: PolicyID) -> ValidationError {
    let allowed = EntityDerefLevel::from(u32::from(fields.flag));
    let needed = EntityDerefLevel::from(fields.number);
    ValidationError::maximum_level_exceeded(place(fields.place), id, allowed, needed)
}

/// The error of this kind, which owns no more than its own parts.
pub fn error(alloc: Global, kind: Kind, fields: Fields<'_>) -> Result<ValidationError, AllocError> {
    let id = PolicyID::from_string(alloc, fields.policy)?;
    let (loc, Fields { first, second, .. }) = (place(fields.place), fields);
    Ok(match kind {
        Kind::UnrecognizedEntityType => {
            ValidationError::unrecognized_entity_type(loc, id, entity_type(alloc, first)?)
        }
        Kind::UnrecognizedActionId => {
            ValidationError::unrecognized_action_id(loc, id, uid(alloc, first, second)?)
        }
        Kind::InvalidEnumEntity => {
            ValidationError::invalid_enum_entity(loc, id, uid(alloc, first, second)?)
        }
        Kind::UnexpectedType => unexpected_type(alloc, fields, id)?,
        Kind::IncompatibleTypes => incompatible(alloc, fields, id)?,
        Kind::UnsafeAttributeAccess => unsafe_attribute(alloc, fields, id, false)?,
        Kind::UnsafeOptionalAttributeAccess => unsafe_attribute(alloc, fields, id, true)?,
        Kind::UnsafeTagAccess => {
            ValidationError::unsafe_tag_access(loc, id, Some(lub(alloc, &[first])?))
        }
        Kind::NoTagsAllowed => {
            ValidationError::no_tags_allowed(loc, id, Some(entity_type(alloc, first)?))
        }
        Kind::UndefinedFunction => {
            ValidationError::undefined_extension(loc, id, Name::unqualified_name(alloc, first)?)
        }
        Kind::FunctionArgumentValidation => {
            ValidationError::function_argument_validation(loc, id, text(alloc, first)?)
        }
        Kind::WrongNumberArguments => wrong_number(fields, id),
        Kind::MaximumLevelExceeded => level_error(fields, id),
        Kind::EmptySetForbidden => ValidationError::empty_set_forbidden(loc, id),
        Kind::NonLitExtConstructor => ValidationError::non_lit_ext_constructor(loc, id),
        Kind::InternalInvariantViolation => ValidationError::internal_invariant_violation(loc, id),
        Kind::LiteralDereferenceTarget => ValidationError::literal_dereference_target(loc, id),
    })
}

/// The warning that an action applies to nothing.
pub fn application(fields: Fields<'_>, id: PolicyID) -> ValidationWarning {
    let loc = place(fields.place);
    ValidationWarning::invalid_action_application(loc, id, fields.flag, fields.number == 2)
}
