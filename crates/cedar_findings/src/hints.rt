//! Hints against errors and warnings, in words that can be copied if possible.
mod accesses;
mod calls;
mod names;
mod records;
mod scopes;
mod types;

use crate::search_room::SearchRoom;
pub use accesses::hint_for_undeclared;
pub(crate) use calls::hint_for_call;
use cedar_types::base::{Template, ValidationError, ValidationWarning, ValidatorSchema};
use std::alloc::{AllocError, Global};

/// The hint against an error of a policy in a text, by a schema; empty if none is known. Near names are searched for in the
/// room of the report.
pub fn hint_for_error(
    alloc: Global,
    schema: &ValidatorSchema,
    policy: &Template,
    text: &str,
    error: &ValidationError,
    room: &mut SearchRoom,
) -> Result<String, AllocError> {
    match error {
        ValidationError::UnrecognizedEntityType(found) => {
            names::hint_for_type(alloc, schema, &found.actual_entity_type, room)
        }
        ValidationError::UnrecognizedActionId(found) => {
            names::hint_for_action(alloc, schema, &found.actual_action_id, room)
        }
        ValidationError::InvalidEnumEntity(found) => {
            names::hint_for_id(alloc, schema, &found.uid, room)
        }
        ValidationError::UnsafeAttributeAccess(found) => {
            accesses::hint_for_attribute(alloc, schema, found, room)
        }
        ValidationError::UnsafeOptionalAttributeAccess(found) => {
            accesses::hint_for_optional(alloc, text, found)
        }
        ValidationError::UnsafeTagAccess(found) => {
            accesses::hint_for_tag(alloc, schema, policy, text, found)
        }
        ValidationError::UnexpectedType(found) => {
            types::hint_for_unexpected(alloc, policy, text, found)
        }
        ValidationError::IncompatibleTypes(found) => {
            types::hint_for_incompatible(alloc, policy, text, found)
        }
        ValidationError::UndefinedFunction(found) => {
            calls::hint_for_function(alloc, policy, text, found)
        }
        ValidationError::FunctionArgumentValidation(found) => {
            calls::hint_for_unread(alloc, policy, found.source_loc)
        }
        _ => String::from_str(alloc, plain_hint(error)),
    }
}

/// The hint against an error that depends neither on the schema nor on the text.
fn plain_hint(error: &ValidationError) -> &'static str {
    match error {
        ValidationError::NoTagsAllowed(_) => "the schema declares no tags for it",
        ValidationError::EmptySetForbidden(_) => {
            "the type of its elements is not known; `.isEmpty()` asks whether a set has none"
        }
        ValidationError::NonLitExtConstructor(_) => {
            "such a call takes a text in quotes, as in `ip(\"10.0.0.1\")`"
        }
        _ => "",
    }
}

/// The hint against a warning of a policy, by a schema; empty if none is known.
pub fn hint_for_warning(
    alloc: Global,
    schema: &ValidatorSchema,
    policy: &Template,
    warning: &ValidationWarning,
) -> Result<String, AllocError> {
    let ValidationWarning::InvalidActionApplication(found) = warning else {
        return Ok(String::new(alloc));
    };
    let hint = match (found.would_in_fix_principal, found.would_in_fix_resource) {
        (false, false) => return scopes::hint_for_scope(alloc, schema, policy),
        (true, false) => "`in` in place of `==` may help, at the principal",
        (false, true) => "`in` in place of `==` may help, at the resource",
        (true, true) => "`in` in place of `==` may help, at the principal and at the resource",
    };
    String::from_str(alloc, hint)
}
