// Causes of the findings of a policy, before they are put into words.
ghost use Rattle.std.specs.Prelude.{◌≡◌, true};
ghost use Rattle.cedar_verdicts.specs.Impossible.{is_impossible_code};
ghost use Rattle.cedar_verdicts.specs.Mistakes.{is_error, says_impossible, may_say_impossible};

use crate::impossible::FalsePart;
use cedar_findings::codes::Code;
use cedar_reading::Position;
use cedar_typechecker::survey::Environments;
use cedar_types::base::{
    CedarType, IncompatibleTypes, Loc, Template, ValidationError, ValidationWarning,
};
use std::alloc::{AllocError, Global};

/// The cause of a finding.
#[derive(Clone, Copy)]
pub enum Cause<'a> {
    Error(&'a ValidationError, &'a Environments),
    /// No action fits the scope of a policy.
    NoAction(&'a ValidationWarning),
    /// A policy is impossible, because of this false part if it is known.
    Impossible(&'a ValidationWarning, Option<&'a FalsePart>),
    /// Marks of direction may make a policy read as another one; the text tells why.
    Direction(&'static str),
    /// Letters may make a policy read as another one; the text tells why.
    LookAlike(&'static str),
    /// A policy is refused without an error; the text tells the likely reason.
    Unexplained(&'static str),
    /// Another policy has the id, at this position of the file.
    SameId(Position),
}

/// The place of a policy.
pub fn place_of(policy: &Template) -> Loc {
    policy.loc.unwrap_or(Loc { start: 0, end: 0 })
}

/// A cause with its place.
#[derive(Clone, Copy)]
pub struct Found<'a> {
    pub place: Loc,
    pub cause: Cause<'a>,
}

impl Found<'_> {
    /// The kind of the finding.
    pub fn code(&self) -> Code
        ensures told { says_impossible self.now ≡ true → is_impossible_code result ≡ true }
        ensures only { is_impossible_code result ≡ true → may_say_impossible self.now ≡ true }
    {
        match self.cause {
            Cause::Error(error, _) => Code::of_error(error),
            Cause::NoAction(_) => Code::NoAction,
            Cause::Impossible(_, _) => Code::Impossible,
            Cause::Direction(_) => Code::Direction,
            Cause::LookAlike(_) => Code::LookAlike,
            Cause::Unexplained(_) => Code::Unchecked,
            Cause::SameId(_) => Code::SameId,
        }
    }

    /// Whether two errors are one mistake: they stand at one place, and differ only in types. For example, `principal.age` is
    /// one mistake if both `User` and `Robot` lack the attribute.
    pub fn is_same_mistake(&self, other: &Found<'_>) -> bool
        ensures { result ≡ true → is_error other.now ≡ true }
    {
        match (self.cause, other.cause) {
            (Cause::Error(one, _), Cause::Error(two, _)) => {
                self.place == other.place && is_same_but_for_types(one, two)
            }
            _ => false,
        }
    }
}

/// Whether two errors at one place differ only in types.
fn is_same_but_for_types(one: &ValidationError, two: &ValidationError) -> bool {
    match (one, two) {
        (
            ValidationError::UnsafeAttributeAccess(one),
            ValidationError::UnsafeAttributeAccess(two),
        ) => one.attr == two.attr && one.may_exist == two.may_exist,
        (
            ValidationError::UnsafeOptionalAttributeAccess(one),
            ValidationError::UnsafeOptionalAttributeAccess(two),
        ) => one.attr == two.attr,
        (ValidationError::UnsafeTagAccess(_), ValidationError::UnsafeTagAccess(_)) => true,
        (ValidationError::NoTagsAllowed(_), ValidationError::NoTagsAllowed(_)) => true,
        (ValidationError::UnexpectedType(one), ValidationError::UnexpectedType(two)) => {
            one.expected == two.expected
        }
        (ValidationError::IncompatibleTypes(one), ValidationError::IncompatibleTypes(two)) => {
            one.context == two.context
        }
        _ => false,
    }
}

/// The types of an error that is joined with others into one mistake, as a finding shows them.
pub fn types_shown(alloc: Global, error: &ValidationError) -> Result<String, AllocError> {
    match error {
        ValidationError::UnsafeAttributeAccess(found) => render_type(alloc, &found.accessed_type),
        ValidationError::UnsafeOptionalAttributeAccess(found) => render_type(
            alloc,
            &found.accessed_type,
        ),
        ValidationError::UnexpectedType(found) => render_type(alloc, &found.actual),
        ValidationError::UnsafeTagAccess(found) => match &found.entity_ty {
            Some(types) => types.to_string(alloc),
            None => String::from_str(alloc, "entity"),
        },
        ValidationError::NoTagsAllowed(found) => match &found.entity_ty {
            Some(entity_type) => entity_type.to_string(alloc),
            None => String::from_str(alloc, "entity"),
        },
        ValidationError::IncompatibleTypes(found) => render_types(alloc, found),
        _ => Ok(String::new(alloc)),
    }
}

fn render_types(alloc: Global, found: &IncompatibleTypes) -> Result<String, AllocError> {
    let mut types = String::new(alloc);
    for ty in found.types.iter() {
        if !types.is_empty() {
            types.push_str(", ")?;
        }
        write!(types, "{ty}")?;
    }
    Ok(types)
}

fn render_type(alloc: Global, ty: &CedarType) -> Result<String, AllocError> {
    ty.to_string(alloc)
}
