// Makers of types and of attributes' types.
ghost use Rattle.std.specs.Prelude.{◌≡◌, true, false, [], ◌∷◌, IfOk, if◌then◌else◌};
ghost use Rattle.cedar_types.specs.declared.base.types.BoolType.TheVariants as Kind;
ghost use Rattle.cedar_types.specs.Names.{path_of, type_of};
ghost use Rattle.cedar_types.specs.Types.{ty_of, attribute_of, attributes_of, is_open_tag, TBool, TLong, TString, TSet, TAnySet, TRecord, TEntity, TAnyEntity, TExtension, no_attrs};

use crate::base::names::Name;
use crate::base::names::entities::EntityType;
use crate::base::types::entity_sets::EntityLUB;
use crate::base::types::{AttributeType, Attributes, BoolType, CedarType, EntityKind, OpenTag};
use std::alloc::{AllocError, Global};
use std::collections::BTreeMap;
use std::rc::Rc;

impl CedarType {
    /// The type of both truth values.
    pub fn primitive_boolean() -> CedarType
        ensures { ty_of result ≡ TBool Kind.AnyBool }
    {
        CedarType::Bool(BoolType::AnyBool)
    }

    /// The type of this truth value alone.
    pub fn singleton_boolean(value: bool) -> CedarType
        ensures { ty_of result ≡ TBool (if value then Kind.True else Kind.False) }
    {
        CedarType::Bool(if value {
            BoolType::True
        } else {
            BoolType::False
        })
    }

    /// The type of longs.
    pub fn primitive_long() -> CedarType
        ensures { ty_of result ≡ TLong }
    {
        CedarType::Long
    }

    /// The type of strings.
    pub fn primitive_string() -> CedarType
        ensures { ty_of result ≡ TString }
    {
        CedarType::String
    }

    /// The type of sets whose elements have this type.
    pub fn set(alloc: Global, element: CedarType) -> Result<CedarType, AllocError>
        ensures { IfOk result (λ t. ty_of t ≡ TSet (ty_of element)) }
    {
        Ok(CedarType::Set(Rc::new(alloc, element)?))
    }

    /// The type of all sets.
    pub fn any_set() -> CedarType
        ensures { ty_of result ≡ TAnySet }
    {
        CedarType::AnySet
    }

    /// The type of records with these attributes; an open one allows other attributes too.
    pub fn record_with_attributes(attributes: Attributes, is_open: OpenTag) -> CedarType
        ensures { ty_of result ≡ TRecord (attributes_of attributes) (is_open_tag is_open) }
    {
        CedarType::Record {
            attributes,
            is_open,
        }
    }

    /// The type of all records.
    pub fn any_record(alloc: Global) -> Result<CedarType, AllocError>
        ensures { IfOk result (λ t. ty_of t ≡ TRecord no_attrs true) }
    {
        let attributes = Attributes::with_attributes(alloc, BTreeMap::new(alloc))?;
        Ok(CedarType::Record {
            attributes,
            is_open: OpenTag::OpenAttributes,
        })
    }

    /// The type of the entities of this type.
    pub fn named_entity_reference(
        alloc: Global,
        entity_type: EntityType,
    ) -> Result<CedarType, AllocError>
        ensures { IfOk result (λ t. ty_of t ≡ TEntity (type_of entity_type ∷ [])) }
    {
        let lub = EntityLUB::single_entity(alloc, entity_type)?;
        Ok(CedarType::Entity(EntityKind::Entity(lub)))
    }

    /// The type of all entities.
    pub fn any_entity_reference() -> CedarType
        ensures { ty_of result ≡ TAnyEntity }
    {
        CedarType::Entity(EntityKind::AnyEntity)
    }

    /// The extension type of this name.
    pub fn extension(alloc: Global, name: Name) -> Result<CedarType, AllocError>
        ensures { IfOk result (λ t. ty_of t ≡ TExtension (path_of name)) }
    {
        Ok(CedarType::Extension(Rc::new(alloc, name)?))
    }
}

impl AttributeType {
    /// An attribute of this type, which is always present if `is_required`.
    pub fn new(attr_type: CedarType, is_required: bool) -> AttributeType
        ensures { attribute_of result ≡ (ty_of attr_type, is_required) }
    {
        AttributeType {
            attr_type,
            is_required,
        }
    }

    /// An attribute of this type that is always present.
    pub fn required_attribute(attr_type: CedarType) -> AttributeType
        ensures { attribute_of result ≡ (ty_of attr_type, true) }
    {
        AttributeType::new(attr_type, true)
    }

    /// An attribute of this type that may be absent.
    pub fn optional_attribute(attr_type: CedarType) -> AttributeType
        ensures { attribute_of result ≡ (ty_of attr_type, false) }
    {
        AttributeType::new(attr_type, false)
    }
}
