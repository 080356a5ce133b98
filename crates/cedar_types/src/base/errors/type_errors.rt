// Errors on types that are not the expected ones, or have no bound.
use crate::base::errors::messages::Message;
use crate::base::errors::validation_errors::ValidationError;
use crate::base::location::Loc;
use crate::base::names::policy_ids::PolicyID;
use crate::base::types::CedarType;
use std::collections::BTreeSet;
use thiserror::Error;

/// An expression has a type that is a subtype of none of the expected ones.
#[derive(PartialEq, Eq, PartialOrd, Ord, Hash, Debug, Drop, Error)]
#[error("for policy `{policy_id}`, {0}", Message(self))]
pub struct UnexpectedType {
    pub source_loc: Option<Loc>,
    pub policy_id: PolicyID,
    pub expected: BTreeSet<CedarType>,
    pub actual: CedarType,
}

/// The construct in which several types need a bound.
#[derive(Clone, Copy, PartialEq, Eq, PartialOrd, Ord, Hash, Debug)]
pub enum LubContext {
    /// Between the branches of an `if`.
    Conditional,
    /// Between the elements of a set.
    Set,
    /// Between the sides of `==`.
    Equality,
    /// Between the elements of a set and the operand of `contains`.
    Contains,
    /// Between the two sets of `containsAll` or `containsAny`.
    ContainsAnyAll,
    /// Between the types of tags that several entity types declare.
    GetTag,
}

/// Some types have no least upper bound.
#[derive(PartialEq, Eq, PartialOrd, Ord, Hash, Debug, Drop, Error)]
#[error("for policy `{policy_id}`, {0}", Message(self))]
pub struct IncompatibleTypes {
    pub source_loc: Option<Loc>,
    pub policy_id: PolicyID,
    pub types: BTreeSet<CedarType>,
    pub context: LubContext,
}

/// A set literal has no elements, in Strict.
#[derive(PartialEq, Eq, PartialOrd, Ord, Hash, Debug, Drop, Error)]
#[error("for policy `{policy_id}`, {0}", Message(self))]
pub struct EmptySetForbidden {
    pub source_loc: Option<Loc>,
    pub policy_id: PolicyID,
}

impl ValidationError {
    ghost use Rattle.std.specs.Prelude.{◌≡◌, map};
    ghost use Rattle.cedar_types.specs.Types.{ty_of};
    ghost use Rattle.cedar_types.specs.Errors.{finding_of, found, unexpected_type, incompatible_types, empty_set_forbidden};

    /// The error on an expression whose type is a subtype of none of these.
    pub fn expected_one_of_types(
        source_loc: Option<Loc>,
        policy_id: PolicyID,
        expected: BTreeSet<CedarType>,
        actual: CedarType,
    ) -> ValidationError
        ensures { finding_of result ≡ found source_loc policy_id
            (unexpected_type (map ty_of expected.keys) (ty_of actual)) }
    {
        ValidationError::UnexpectedType(UnexpectedType {
            source_loc,
            policy_id,
            expected,
            actual,
        })
    }

    /// The error on types that have no least upper bound.
    pub fn incompatible_types(
        source_loc: Option<Loc>,
        policy_id: PolicyID,
        types: BTreeSet<CedarType>,
        context: LubContext,
    ) -> ValidationError
        ensures { finding_of result
            ≡ found source_loc policy_id (incompatible_types (map ty_of types.keys) context) }
    {
        ValidationError::IncompatibleTypes(IncompatibleTypes {
            source_loc,
            policy_id,
            types,
            context,
        })
    }

    /// The error on a set literal without elements.
    pub fn empty_set_forbidden(source_loc: Option<Loc>, policy_id: PolicyID) -> ValidationError
        ensures { finding_of result ≡ found source_loc policy_id empty_set_forbidden }
    {
        ValidationError::EmptySetForbidden(EmptySetForbidden {
            source_loc,
            policy_id,
        })
    }
}
