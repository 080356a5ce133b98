// Errors on names of types, actions and entities that the schema does not have.
use crate::base::errors::messages::Message;
use crate::base::errors::validation_errors::ValidationError;
use crate::base::location::Loc;
use crate::base::names::entities::{EntityType, EntityUID};
use crate::base::names::policy_ids::PolicyID;
use thiserror::Error;

/// A policy names an entity type that the schema does not know.
#[derive(PartialEq, Eq, PartialOrd, Ord, Hash, Debug, Drop, Error)]
#[error("for policy `{policy_id}`, {0}", Message(self))]
pub struct UnrecognizedEntityType {
    pub source_loc: Option<Loc>,
    pub policy_id: PolicyID,
    pub actual_entity_type: EntityType,
}

/// A policy names an action that the schema does not declare.
#[derive(PartialEq, Eq, PartialOrd, Ord, Hash, Debug, Drop, Error)]
#[error("for policy `{policy_id}`, {0}", Message(self))]
pub struct UnrecognizedActionId {
    pub source_loc: Option<Loc>,
    pub policy_id: PolicyID,
    pub actual_action_id: EntityUID,
}

/// A policy names an id of an enumerated entity type that is not one of its members.
#[derive(PartialEq, Eq, PartialOrd, Ord, Hash, Debug, Drop, Error)]
#[error("for policy `{policy_id}`, {0}", Message(self))]
pub struct InvalidEnumEntity {
    pub source_loc: Option<Loc>,
    pub policy_id: PolicyID,
    pub uid: EntityUID,
}

impl ValidationError {
    ghost use Rattle.std.specs.Prelude.{◌≡◌};
    ghost use Rattle.cedar_types.specs.Names.{type_of, uid_of};
    ghost use Rattle.cedar_types.specs.Errors.{finding_of, found, unrecognized_entity_type, unrecognized_action_id, invalid_enum_entity};

    /// The error on an unknown entity type.
    pub fn unrecognized_entity_type(
        source_loc: Option<Loc>,
        policy_id: PolicyID,
        actual_entity_type: EntityType,
    ) -> ValidationError
        ensures { finding_of result
            ≡ found source_loc policy_id (unrecognized_entity_type (type_of actual_entity_type)) }
    {
        ValidationError::UnrecognizedEntityType(UnrecognizedEntityType {
            source_loc,
            policy_id,
            actual_entity_type,
        })
    }

    /// The error on an undeclared action.
    pub fn unrecognized_action_id(
        source_loc: Option<Loc>,
        policy_id: PolicyID,
        actual_action_id: EntityUID,
    ) -> ValidationError
        ensures { finding_of result
            ≡ found source_loc policy_id (unrecognized_action_id (uid_of actual_action_id)) }
    {
        ValidationError::UnrecognizedActionId(UnrecognizedActionId {
            source_loc,
            policy_id,
            actual_action_id,
        })
    }

    /// The error on an id that its enumerated type does not have.
    pub fn invalid_enum_entity(
        source_loc: Option<Loc>,
        policy_id: PolicyID,
        uid: EntityUID,
    ) -> ValidationError
        ensures { finding_of result
            ≡ found source_loc policy_id (invalid_enum_entity (uid_of uid)) }
    {
        ValidationError::InvalidEnumEntity(InvalidEnumEntity {
            source_loc,
            policy_id,
            uid,
        })
    }
}
