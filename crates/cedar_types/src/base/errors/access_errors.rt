// Errors on attributes and tags that may be absent.
use crate::base::errors::messages::Message;
use crate::base::errors::validation_errors::ValidationError;
use crate::base::location::Loc;
use crate::base::names::entities::EntityType;
use crate::base::names::policy_ids::PolicyID;
use crate::base::types::CedarType;
use crate::base::types::entity_sets::EntityLUB;
use std::rc::RcStr;
use thiserror::Error;

/// A policy reads an attribute that the type of its base does not declare.
#[derive(PartialEq, Eq, PartialOrd, Ord, Hash, Debug, Drop, Error)]
#[error("for policy `{policy_id}`, {0}", Message(self))]
pub struct UnsafeAttributeAccess {
    pub source_loc: Option<Loc>,
    pub policy_id: PolicyID,
    pub accessed_type: CedarType,
    pub attr: RcStr,
    /// Whether values of the type may have the attribute nevertheless.
    pub may_exist: bool,
}

impl UnsafeAttributeAccess {
    /// The words of the message between the attribute and the type.
    pub(crate) fn what_is_wrong(&self) -> &'static str {
        if self.may_exist {
            "may be absent from"
        } else {
            "does not exist on"
        }
    }
}

/// A policy reads an optional attribute without a test that it is present.
#[derive(PartialEq, Eq, PartialOrd, Ord, Hash, Debug, Drop, Error)]
#[error("for policy `{policy_id}`, {0}", Message(self))]
pub struct UnsafeOptionalAttributeAccess {
    pub source_loc: Option<Loc>,
    pub policy_id: PolicyID,
    pub accessed_type: CedarType,
    pub attr: RcStr,
}

/// A policy reads a tag without a test that it is present.
#[derive(PartialEq, Eq, PartialOrd, Ord, Hash, Debug, Drop, Error)]
#[error("for policy `{policy_id}`, {0}", Message(self))]
pub struct UnsafeTagAccess {
    pub source_loc: Option<Loc>,
    pub policy_id: PolicyID,
    /// The types of the entity; `None` if it may be of any type.
    pub entity_ty: Option<EntityLUB>,
}

/// A policy reads a tag of an entity whose types declare no tags.
#[derive(PartialEq, Eq, PartialOrd, Ord, Hash, Debug, Drop, Error)]
#[error("for policy `{policy_id}`, {0}", Message(self))]
pub struct NoTagsAllowed {
    pub source_loc: Option<Loc>,
    pub policy_id: PolicyID,
    /// The type of the entity; `None` if it may be of several.
    pub entity_ty: Option<EntityType>,
}

impl ValidationError {
    ghost use Rattle.std.specs.Prelude.{◌≡◌, option_map};
    ghost use Rattle.cedar_types.specs.Names.{text_of, type_of};
    ghost use Rattle.cedar_types.specs.Types.{ty_of, lub_of};
    ghost use Rattle.cedar_types.specs.Errors.{finding_of, found, unsafe_attribute_access, unsafe_optional_attribute_access, unsafe_tag_access, no_tags_allowed};

    /// The error on an attribute that the type of the base does not declare.
    pub fn unsafe_attribute_access(
        source_loc: Option<Loc>,
        policy_id: PolicyID,
        accessed_type: CedarType,
        attr: RcStr,
        may_exist: bool,
    ) -> ValidationError
        ensures { finding_of result ≡ found source_loc policy_id
            (unsafe_attribute_access (ty_of accessed_type) (text_of attr) may_exist) }
    {
        ValidationError::UnsafeAttributeAccess(UnsafeAttributeAccess {
            source_loc,
            policy_id,
            accessed_type,
            attr,
            may_exist,
        })
    }

    /// The error on an optional attribute that no test guards.
    pub fn unsafe_optional_attribute_access(
        source_loc: Option<Loc>,
        policy_id: PolicyID,
        accessed_type: CedarType,
        attr: RcStr,
    ) -> ValidationError
        ensures { finding_of result ≡ found source_loc policy_id
            (unsafe_optional_attribute_access (ty_of accessed_type) (text_of attr)) }
    {
        ValidationError::UnsafeOptionalAttributeAccess(UnsafeOptionalAttributeAccess {
            source_loc,
            policy_id,
            accessed_type,
            attr,
        })
    }

    /// The error on a tag that no test guards.
    pub fn unsafe_tag_access(
        source_loc: Option<Loc>,
        policy_id: PolicyID,
        entity_ty: Option<EntityLUB>,
    ) -> ValidationError
        ensures { finding_of result
            ≡ found source_loc policy_id (unsafe_tag_access (option_map lub_of entity_ty)) }
    {
        ValidationError::UnsafeTagAccess(UnsafeTagAccess {
            source_loc,
            policy_id,
            entity_ty,
        })
    }

    /// The error on a tag of types that declare none.
    pub fn no_tags_allowed(
        source_loc: Option<Loc>,
        policy_id: PolicyID,
        entity_ty: Option<EntityType>,
    ) -> ValidationError
        ensures { finding_of result
            ≡ found source_loc policy_id (no_tags_allowed (option_map type_of entity_ty)) }
    {
        ValidationError::NoTagsAllowed(NoTagsAllowed {
            source_loc,
            policy_id,
            entity_ty,
        })
    }
}
