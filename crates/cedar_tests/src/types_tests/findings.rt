// Equality of errors as findings, and of warnings.
use crate::parts::{place, policy, uid};
use crate::types_tests::kinds::{Fields, Kind, application, error};
use cedar_types::base::{EntityUID, Loc, PolicyID, ValidationError, ValidationWarning};
use std::alloc::{AllocError, Global};
use std::cmp::Ordering;
use std::collections::HashSet;
use std::hash::Hash;
use std::test::Fail;

/// A field of `Fields`.
#[derive(Clone, Copy, PartialEq, Eq, Debug)]
pub enum Field {
    Place,
    Policy,
    First,
    Second,
    Number,
    Flag,
}

const FIELDS: [Field; 6] = [
    Field::Place,
    Field::Policy,
    Field::First,
    Field::Second,
    Field::Number,
    Field::Flag,
];

/// The fields of each kind beside its place and its policy, and its message: `FIRST` and `SECOND`
/// stand for the fields, and `ID` for the second as an id is shown.
pub const KINDS: [(Kind, &[Field], &str); 17] = [
    (
        Kind::UnrecognizedEntityType,
        &[Field::First],
        "unrecognized entity type `FIRST`",
    ),
    (
        Kind::UnrecognizedActionId,
        &[Field::First, Field::Second],
        r#"unrecognized action `FIRST::"ID"`"#,
    ),
    (
        Kind::InvalidEnumEntity,
        &[Field::First, Field::Second],
        r#"entity `FIRST::"ID"` is not a member of its enumerated type"#,
    ),
    (
        Kind::UnexpectedType,
        &[Field::First, Field::Second],
        "unexpected type: expected `FIRST` but saw `SECOND`",
    ),
    (
        Kind::IncompatibleTypes,
        &[Field::First, Field::Second, Field::Flag],
        "the types `FIRST`, `SECOND` are not compatible",
    ),
    (
        Kind::UnsafeAttributeAccess,
        &[Field::First, Field::Second, Field::Flag],
        "attribute `SECOND` may be absent from `FIRST`",
    ),
    (
        Kind::UnsafeOptionalAttributeAccess,
        &[Field::First, Field::Second],
        "access to optional attribute `SECOND` on `FIRST` is not guarded",
    ),
    (
        Kind::UnsafeTagAccess,
        &[Field::First],
        "access to a tag of `FIRST` is not guarded",
    ),
    (
        Kind::NoTagsAllowed,
        &[Field::First],
        "tags are not allowed on `FIRST`",
    ),
    (
        Kind::UndefinedFunction,
        &[Field::First],
        "undefined extension function `FIRST`",
    ),
    (
        Kind::WrongNumberArguments,
        &[Field::Number, Field::Flag],
        "wrong number of arguments: expected 1, got 2",
    ),
    (
        Kind::FunctionArgumentValidation,
        &[Field::First],
        "invalid argument: FIRST",
    ),
    (
        Kind::EmptySetForbidden,
        &[],
        "empty set literals are forbidden",
    ),
    (
        Kind::NonLitExtConstructor,
        &[],
        "extension constructors take literals alone",
    ),
    (
        Kind::InternalInvariantViolation,
        &[],
        "internal invariant violated",
    ),
    (
        Kind::MaximumLevelExceeded,
        &[Field::Number, Field::Flag],
        "this policy requires level 2, which exceeds the maximum allowed level (1)",
    ),
    (
        Kind::LiteralDereferenceTarget,
        &[],
        "entity literals cannot be dereferenced at any level",
    ),
];

pub const PLAIN: Fields = Fields {
    place: 1,
    policy: "policy0",
    first: "a",
    second: "b",
    number: 2,
    flag: true,
};

/// The fields with another value of one.
fn change(field: Field) -> Fields<'static> {
    match field {
        Field::Place => Fields { place: 8, ..PLAIN },
        Field::Policy => Fields {
            policy: "policy1",
            ..PLAIN
        },
        Field::First => Fields {
            first: "c",
            ..PLAIN
        },
        Field::Second => Fields {
            second: "c",
            ..PLAIN
        },
        Field::Number => Fields { number: 3, ..PLAIN },
        Field::Flag => Fields {
            flag: false,
            ..PLAIN
        },
    }
}

fn counts(field: Field, own: &[Field]) -> bool {
    matches!(field, Field::Place | Field::Policy) || own.contains(&field)
}

/// Whether `==` and a set, which asks for hashes, both tell rightly if two values are one.
fn is_said<T: Eq + Hash + Drop>(
    alloc: Global,
    one: T,
    other: &T,
    are_one: bool,
) -> Result<bool, AllocError> {
    let are_equal = one == *other;
    let mut set = HashSet::new(alloc);
    set.insert(one)?;
    Ok(are_equal == are_one && set.contains(other) == are_one)
}

/// Whether the order of errors tells rightly, from both sides, if two values are one.
fn is_told(
    alloc: Global,
    one: ValidationError,
    other: &ValidationError,
    are_one: bool,
) -> Result<bool, AllocError> {
    let order = one.cmp(other);
    let is_turned = other.cmp(&one) == order.reverse();
    let is_ordered = is_turned && (order == Ordering::Equal) == are_one;
    Ok(is_said(alloc, one, other, are_one)? && is_ordered)
}

/// Whether the error of these fields is told apart from another, or is one with it.
fn is_made(
    alloc: Global,
    kind: Kind,
    fields: Fields<'_>,
    other: &ValidationError,
    are_one: bool,
) -> Result<bool, AllocError> {
    is_told(alloc, error(alloc, kind, fields)?, other, are_one)
}

/// Whether errors of a kind that differ in one field are one finding exactly if the kind does not
/// have the field.
fn fields_count(alloc: Global, kind: Kind, own: &[Field]) -> Result<bool, AllocError> {
    let plain = error(alloc, kind, PLAIN)?;
    let mut is_so = is_made(alloc, kind, PLAIN, &plain, true)?;
    for field in &FIELDS {
        let are_one = !counts(*field, own);
        is_so = is_made(alloc, kind, change(*field), &plain, are_one)? && is_so;
    }
    Ok(is_so)
}

#[test]
fn errors_are_one_where_all_fields_are(rt: HostRuntime) -> Result<(), Fail> {
    for (kind, own, _) in &KINDS {
        assert!(rt; fields_count(rt.alloc(), *kind, own)?, "{kind:?}");
    }
    Ok(())
}

/// Whether no error of this kind equals one of another kind with these fields.
fn is_alone(alloc: Global, kind: Kind) -> Result<bool, AllocError> {
    let plain = error(alloc, kind, PLAIN)?;
    let mut is_so = true;
    for (other, _, _) in &KINDS {
        is_so = is_made(alloc, *other, PLAIN, &plain, *other == kind)? && is_so;
    }
    Ok(is_so)
}

#[test]
fn errors_of_two_kinds_are_two(rt: HostRuntime) -> Result<(), Fail> {
    for (kind, _, _) in &KINDS {
        assert!(rt; is_alone(rt.alloc(), *kind)?, "{kind:?}");
    }
    Ok(())
}

pub fn application_warning(
    alloc: Global,
    fields: Fields<'_>,
) -> Result<ValidationWarning, AllocError> {
    Ok(application(fields, PolicyID::from_string(alloc, fields.policy)?))
}

pub fn impossible(alloc: Global, fields: Fields<'_>) -> Result<ValidationWarning, AllocError> {
    let id = PolicyID::from_string(alloc, fields.policy)?;
    Ok(ValidationWarning::impossible_policy(place(fields.place), id))
}

/// Whether the message about an action differs from the one with another value of this field, and
/// from the message about a policy.
fn is_told_of_actions(alloc: Global, field: Field) -> Result<bool, AllocError> {
    let plain = application_warning(alloc, PLAIN)?;
    let are_one = !counts(field, &[Field::Number, Field::Flag]);
    let is_so = is_said(
        alloc,
        application_warning(alloc, change(field))?,
        &plain,
        are_one,
    )?;
    Ok(is_said(alloc, impossible(alloc, change(field))?, &plain, false)? && is_so)
}

/// Whether the message about a policy differs from the one with another value of this field.
fn is_told_of_policies(alloc: Global, field: Field) -> Result<bool, AllocError> {
    let plain = impossible(alloc, PLAIN)?;
    let are_one = !counts(field, &[]);
    is_said(alloc, impossible(alloc, change(field))?, &plain, are_one)
}

#[test]
fn warnings_are_one_where_all_fields_are(rt: HostRuntime) -> Result<(), Fail> {
    for field in &FIELDS {
        assert!(rt; is_told_of_actions(rt.alloc(), *field)?, "{field:?}");
        assert!(rt; is_told_of_policies(rt.alloc(), *field)?, "{field:?}");
    }
    Ok(())
}

/// The error that the action `A::"a"`, whose id stands at the second place, is unknown.
fn unknown(
    alloc: Global,
    loc: Option<Loc>,
    id_at: Option<Loc>,
) -> Result<ValidationError, AllocError> {
    let plain = uid(alloc, "A", "a")?;
    let id = EntityUID::from_components(alloc, plain.entity_type, "a", id_at)?;
    Ok(ValidationError::unrecognized_action_id(loc, policy(alloc)?, id))
}

/// Whether two errors are one finding, by equality and by order, if their ids stand at these
/// places.
fn are_one_at(alloc: Global, here: Option<Loc>, there: Option<Loc>) -> Result<bool, AllocError> {
    let error = unknown(alloc, place(1), here)?;
    let same = unknown(alloc, place(1), there)?;
    Ok(error.is_same_finding(&same) && error.cmp(&same) == Ordering::Equal)
}

#[test]
fn places_in_names_do_not_count(rt: HostRuntime) -> Result<(), Fail> {
    assert!(rt; are_one_at(rt.alloc(), place(8), None)?);
    Ok(())
}
