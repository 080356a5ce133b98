// Errors and warnings as texts, which show all differences that those of rows may have.
ghost use Rattle.std.specs.Prelude.{◌≡◌, IfSome, slice_range};

use cedar_types::base::{
    CedarType, EntityKind, EntityLUB, EntityType, Loc, ValidationError, ValidationWarning,
};
use cedar_types::types::request_env::RequestEnv;
use std::alloc::AllocError;
use std::collections::BTreeSet;

/// The mark before each finding.
pub const BEFORE_FINDING: &str = "\n! ";

/// Adds an error: its kind, with the parts that its message leaves open, the text at its place, and
/// on the next line its message.
pub fn push_error(
    shown: &mut String,
    text: &str,
    error: &ValidationError,
) -> Result<(), AllocError> {
    shown.push_str(BEFORE_FINDING)?;
    shown.push_str(kind_of_error(error))?;
    push_fields(shown, error)?;
    let place = place_text(text, error.source_loc());
    write!(shown, " @ {place}\n{error}")
}

/// Adds a warning: its kind, the text at its place, and on the next line its message. The flags are
/// left out, because the outcome has them.
pub fn push_warning(
    shown: &mut String,
    text: &str,
    warning: &ValidationWarning,
) -> Result<(), AllocError> {
    let kind = match warning {
        ValidationWarning::ImpossiblePolicy(_) => "ImpossiblePolicy",
        ValidationWarning::InvalidActionApplication(_) => "InvalidActionApplication",
    };
    let place = place_text(text, warning.source_loc());
    write!(shown, "{BEFORE_FINDING}{kind} @ {place}\n{warning}")
}

/// Adds an environment, and the links of its slots.
pub fn push_environment(shown: &mut String, env: &RequestEnv<'_>) -> Result<(), AllocError> {
    shown.push_str(BEFORE_FINDING)?;
    match env {
        RequestEnv::UndeclaredAction => shown.push_str("undeclared: "),
        RequestEnv::DeclaredAction {
            principal,
            action,
            resource,
            context: _context,
            principal_slot,
            resource_slot,
        } => {
            write!(shown, "{principal} {action} {resource}, linked to ")?;
            push_slot(shown, principal_slot)?;
            shown.push_str(" and ")?;
            push_slot(shown, resource_slot)?;
            shown.push_str(": ")
        }
    }
}

/// Adds the type to which a slot is linked.
fn push_slot(shown: &mut String, slot: &Option<EntityType>) -> Result<(), AllocError> {
    match slot {
        None => shown.push_str("none"),
        Some(linked) => write!(shown, "{linked}"),
    }
}

/// The part of a policy's text at this place.
fn place_text(text: &str, place: Option<Loc>) -> &str {
    let Some(place) = place else {
        return "nowhere";
    };
    match part_at(text, place) {
        Some(part) if part.len() == text.len() => "the policy",
        Some(part) => part,
        None => "beyond the text",
    }
}

fn part_at(text: &str, place: Loc) -> Option<&str>
    ensures { IfSome result (λ part. part.now ≡ slice_range text.now place.start place.end) }
{
    text.get(place.start..place.end)
}

fn kind_of_error(error: &ValidationError) -> &'static str {
    match error {
        ValidationError::UnrecognizedEntityType(_) => "UnrecognizedEntityType",
        ValidationError::UnrecognizedActionId(_) => "UnrecognizedActionId",
        ValidationError::InvalidEnumEntity(_) => "InvalidEnumEntity",
        ValidationError::UnexpectedType(_) => "UnexpectedType",
        ValidationError::IncompatibleTypes(_) => "IncompatibleTypes",
        ValidationError::UnsafeAttributeAccess(_) => "UnsafeAttributeAccess",
        ValidationError::UnsafeOptionalAttributeAccess(_) => "UnsafeOptionalAttributeAccess",
        ValidationError::UnsafeTagAccess(_) => "UnsafeTagAccess",
        ValidationError::NoTagsAllowed(_) => "NoTagsAllowed",
        ValidationError::UndefinedFunction(_) => "UndefinedFunction",
        ValidationError::WrongNumberArguments(_) => "WrongNumberArguments",
        ValidationError::FunctionArgumentValidation(_) => "FunctionArgumentValidation",
        ValidationError::EmptySetForbidden(_) => "EmptySetForbidden",
        ValidationError::NonLitExtConstructor(_) => "NonLitExtConstructor",
        ValidationError::InternalInvariantViolation(_) => "InternalInvariantViolation",
        ValidationError::MaximumLevelExceeded(_) => "MaximumLevelExceeded",
        ValidationError::LiteralDereferenceTarget(_) => "LiteralDereferenceTarget",
    }
}

/// Adds the parts that the message of an error leaves open: the kinds of its types, and the place
/// where they must have a bound.
fn push_fields(shown: &mut String, error: &ValidationError) -> Result<(), AllocError> {
    match error {
        ValidationError::UnexpectedType(e) => {
            push_kinds(shown, &e.expected)?;
            shown.push_str(" but")?;
            push_kind(shown, &e.actual)
        }
        ValidationError::IncompatibleTypes(e) => {
            push_kinds(shown, &e.types)?;
            write!(shown, " in {:?}", e.context)
        }
        ValidationError::UnsafeAttributeAccess(e) => push_kind(shown, &e.accessed_type),
        ValidationError::UnsafeOptionalAttributeAccess(e) => push_kind(shown, &e.accessed_type),
        ValidationError::UnsafeTagAccess(e) => match &e.entity_ty {
            None => shown.push_str(" AnyEntity"),
            Some(types) => write!(shown, " {}", kind_of_entities(types)),
        },
        ValidationError::NoTagsAllowed(e) if e.entity_ty.is_none() => shown.push_str(" AnyEntity"),
        _ => Ok(()),
    }
}

fn push_kinds(shown: &mut String, types: &BTreeSet<CedarType>) -> Result<(), AllocError> {
    for named in types {
        push_kind(shown, named)?;
    }
    Ok(())
}

/// Adds the kind of a type, and of a record's attributes.
fn push_kind(shown: &mut String, named: &CedarType) -> Result<(), AllocError> {
    write!(shown, " {}", kind_of(named))?;
    if let CedarType::Record {
        attributes,
        is_open: _,
    } = named
    {
        for (_, attribute) in &*attributes.attrs {
            write!(shown, "<{}>", kind_of(&attribute.attr_type))?;
        }
    }
    Ok(())
}

fn kind_of(named: &CedarType) -> &'static str {
    match named {
        CedarType::Never => "Never",
        CedarType::Bool(_) => "Bool",
        CedarType::Long => "Long",
        CedarType::String => "String",
        CedarType::Set(_) | CedarType::AnySet => "Set",
        CedarType::Record {
            attributes: _,
            is_open: _,
        } => "Record",
        CedarType::Entity(EntityKind::AnyEntity) => "AnyEntity",
        CedarType::Entity(EntityKind::Entity(types)) => kind_of_entities(types),
        CedarType::Extension(_) => "Extension",
    }
}

fn kind_of_entities(types: &EntityLUB) -> &'static str {
    match types.get_single_entity() {
        Some(_) => "Entity",
        None => "Entities",
    }
}
