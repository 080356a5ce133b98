// Entity types that a schema declares.
use crate::base::names::entities::EntityType;
use crate::base::schema::choices::EnumChoices;
use crate::base::types::{Attributes, CedarType};
use std::collections::BTreeSet;

/// An entity type that a schema declares.
#[derive(Debug, Drop)]
pub struct ValidatorEntityType {
    pub name: EntityType,
    /// The types whose entities may be in entities of this type, at any distance.
    pub descendants: BTreeSet<EntityType>,
    pub kind: ValidatorEntityTypeKind,
}

/// The kind of an entity type: the declared facts about its entities.
#[derive(Debug, Drop)]
pub enum ValidatorEntityTypeKind {
    /// The attributes of its entities, and the type of their tags, if they may have any.
    Standard(StandardValidatorEntityType),
    /// The ids that its entities have, and no others.
    Enum(EnumChoices),
    /// The type is declared elsewhere: neither attributes nor tags are known.
    External,
}

/// The attributes of a type's entities, and the type of their tags if they may have any.
#[derive(Debug, Drop)]
pub struct StandardValidatorEntityType {
    pub attributes: Attributes,
    pub tags: Option<CedarType>,
}
