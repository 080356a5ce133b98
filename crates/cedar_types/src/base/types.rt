// Types of expressions, attributes and tags.
ghost use Rattle.std.specs.Prelude.{◌≡◌};

mod bounds;
pub(crate) mod entity_sets;
mod entity_unions;
mod flat_bounds;
mod makers;
mod record_attributes;
mod record_parts;
mod subtypes;
mod texts;
pub(crate) mod type_sets;

use crate::base::names::Name;
use crate::base::names::entities::{EntityType, EntityUID};
use crate::base::types::entity_sets::EntityLUB;
use std::alloc::AllocError;
use std::collections::BTreeMap;
use std::rc::{Rc, RcStr};

/// The mode in which the typechecker types a policy.
#[derive(Clone, Copy, PartialEq, Eq, Debug)]
pub enum ValidationMode {
    /// Types that meet must agree: entity types do not unite, and no key of a record is dropped.
    /// Soundness is proved for this mode and for Permissive.
    Strict,
    /// Entity types that meet unite, and records that meet keep the keys that they share.
    Permissive,
    /// Types meet as in Permissive, by a schema that need not declare everything: a request may
    /// also name an undeclared action.
    Partial,
}

/// The truth values that a Boolean may have.
#[derive(Clone, Copy, PartialEq, Eq, PartialOrd, Ord, Hash, Debug)]
pub enum BoolType {
    /// Either truth value.
    AnyBool,
    /// `true` alone.
    True,
    /// `false` alone.
    False,
}

/// The entities that a value may be.
#[derive(PartialEq, Eq, PartialOrd, Ord, Hash, Debug, Drop)]
pub enum EntityKind {
    /// An entity of one of some types.
    Entity(EntityLUB),
    /// An entity of any type.
    AnyEntity,
}

/// Whether a record may have attributes that its type does not name.
#[derive(Clone, Copy, PartialEq, Eq, PartialOrd, Ord, Hash, Debug)]
pub enum OpenTag {
    /// The record may have other attributes.
    OpenAttributes,
    /// The record has no other attributes.
    ClosedAttributes,
}

/// An attribute's type, and whether the attribute is always present.
#[cycle(types)]
#[derive(PartialEq, Eq, PartialOrd, Ord, Hash, Debug, Drop)]
pub struct AttributeType {
    pub attr_type: CedarType,
    pub is_required: bool,
}

/// The attributes that a record's type names.
#[cycle(types)]
#[derive(PartialEq, Eq, PartialOrd, Ord, Hash, Debug, Drop)]
pub struct Attributes {
    pub attrs: Rc<BTreeMap<RcStr, AttributeType>>,
}

/// A type. Types compare by their kinds, in the order given here, and then by their parts.
#[cycle(types)]
#[derive(PartialEq, Eq, PartialOrd, Ord, Hash, Debug)]
pub enum CedarType {
    /// The type that no value has.
    Never,
    /// Truth values.
    Bool(BoolType),
    /// Whole numbers of 64 bits.
    Long,
    /// Texts.
    String,
    /// Sets whose members have this type.
    Set(Rc<CedarType>),
    /// Sets of anything.
    AnySet,
    /// Records: values by key, with these attributes.
    Record {
        attributes: Attributes,
        is_open: OpenTag,
    },
    /// Ids of entities.
    Entity(EntityKind),
    /// Values of the extension type of this name.
    Extension(Rc<Name>),
}

// `Drop` is written by hand, so that a proof has one call for each dropped type.
impl Drop for CedarType {
    #[cycle(dropped_types)]
    fn drop(self) {
        match self {
            CedarType::Never => {}
            CedarType::Bool(_) => {}
            CedarType::Long => {}
            CedarType::String => {}
            CedarType::Set(_) => {}
            CedarType::AnySet => {}
            CedarType::Record {
                attributes: _,
                is_open: _,
            } => {}
            CedarType::Entity(_) => {}
            CedarType::Extension(_) => {}
        }
    }
}

impl CedarType {
    ghost use Rattle.std.specs.Prelude.{IfOk, IfErr};
    ghost use Rattle.cedar_types.specs.Types.{ty_of, lub_of, TEntity, TSet};

    /// The type of the entities of these types.
    pub(crate) fn of_entity_types(types: EntityLUB) -> CedarType
        ensures { ty_of result ≡ TEntity (lub_of types) }
    {
        CedarType::Entity(EntityKind::Entity(types))
    }

    /// The entity types whose entities have this type, or else the type itself. You must use the
    /// call to take a type apart by value, because `CedarType` has a `drop` of its own.
    pub(crate) fn into_entity_types(self) -> Result<EntityLUB, CedarType>
        ensures types { IfOk result (λ s. ty_of self ≡ TEntity (lub_of s)) }
        ensures other { IfErr result (λ t. t ≡ self) }
    {
        match self {
            CedarType::Entity(EntityKind::Entity(types)) => Ok(types),
            other => Err(other),
        }
    }

    /// The type of the members, if the type is a set's and names one, or else the type itself.
    pub(crate) fn into_element(self) -> Result<Rc<CedarType>, CedarType>
        ensures element { IfOk result (λ t. ty_of self ≡ TSet (ty_of t.value)) }
        ensures other { IfErr result (λ t. t ≡ self) }
    {
        match self {
            CedarType::Set(element) => Ok(element),
            other => Err(other),
        }
    }
}

/// Short name of `CedarType`.
pub type Type = CedarType;

/// A request without its values: the type of its principal, its action, and the type of its
/// resource.
#[derive(PartialEq, Eq, Debug, Drop)]
pub struct RequestType {
    pub principal: EntityType,
    pub action: EntityUID,
    pub resource: EntityType,
}

#[tactic(auto, unfolding(crate::specs::Types::lub_of))]
impl Clone for EntityKind {
    ghost use Rattle.std.specs.Prelude.{◌≡◌};
    ghost use Rattle.cedar_types.specs.Types.{kind_of};

    ghost is_clone = { λ j k. kind_of k ≡ kind_of j };

    fn clone(&self) -> Result<EntityKind, AllocError> {
        match self {
            EntityKind::Entity(lub) => Ok(EntityKind::Entity(lub.clone()?)),
            EntityKind::AnyEntity => Ok(EntityKind::AnyEntity),
        }
    }
}

impl Clone for Attributes {
    ghost use Rattle.std.specs.Prelude.{◌≡◌};
    ghost use Rattle.cedar_types.specs.Types.{attributes_of};

    ghost is_clone = { λ a b. attributes_of b ≡ attributes_of a };

    fn clone(&self) -> Result<Attributes, AllocError> {
        Ok(Attributes {
            attrs: self.attrs.clone()?,
        })
    }
}

impl Clone for CedarType {
    ghost use Rattle.std.specs.Prelude.{◌≡◌};
    ghost use Rattle.cedar_types.specs.Types.{ty_of};

    ghost is_clone = { λ s t. ty_of t ≡ ty_of s };

    ghost is_infallible = { λ t. ⊥ };

    fn clone(&self) -> Result<CedarType, AllocError> {
        match self {
            CedarType::Never => Ok(CedarType::Never),
            CedarType::Bool(k) => Ok(CedarType::Bool(*k)),
            CedarType::Long => Ok(CedarType::Long),
            CedarType::String => Ok(CedarType::String),
            CedarType::Set(t) => Ok(CedarType::Set(t.clone()?)),
            CedarType::AnySet => Ok(CedarType::AnySet),
            CedarType::Record {
                attributes,
                is_open,
            } => Ok(CedarType::Record {
                attributes: attributes.clone()?,
                is_open: *is_open,
            }),
            CedarType::Entity(k) => Ok(CedarType::Entity(k.clone()?)),
            CedarType::Extension(n) => Ok(CedarType::Extension(n.clone()?)),
        }
    }
}

impl Clone for AttributeType {
    ghost use Rattle.std.specs.Prelude.{◌≡◌};
    ghost use Rattle.cedar_types.specs.Types.{attribute_of};

    ghost is_clone = { λ a b. attribute_of b ≡ attribute_of a };

    ghost is_infallible = { λ a. ⊥ };

    fn clone(&self) -> Result<AttributeType, AllocError> {
        Ok(AttributeType {
            attr_type: self.attr_type.clone()?,
            is_required: self.is_required,
        })
    }
}
