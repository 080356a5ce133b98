// Lookups of attributes and of entity literals, in a schema.
ghost use Rattle.std.specs.Prelude.{◌≡◌, [], ◌∷◌, IfOk, option_map, is_some};
ghost use Rattle.std.specs.List.{list_any};
ghost use Rattle.cedar_types.specs.Names.{text_of, type_of, uid_of};
ghost use Rattle.cedar_types.specs.Types.{ty_of, lub_of, is_open_tag, TEntity};
ghost use Rattle.cedar_types.specs.Schemas.Declarations.{type_kind};
ghost use Rattle.cedar_types.specs.Types.Lookups.{attribute_view, attribute_type, may_have, may_declare, literal_type, declares_entity, kind_attribute, declared_attribute, joined_attribute, types_attribute};
ghost use Rattle.cedar_types.specs.Schemas.Contents.{schema_of};

use crate::base::names::entities::{EntityType, EntityUID};
use crate::base::schema::ValidatorSchema;
use crate::base::schema::entity_types::ValidatorEntityTypeKind;
use crate::base::types::entity_sets::EntityLUB;
use crate::base::types::{AttributeType, CedarType, EntityKind, OpenTag, ValidationMode};
use std::alloc::{AllocError, Global};
use std::rc::RcStr;

impl CedarType {
    /// The attribute of a type, if it has one. A record has its own; entity types have the bound of
    /// the attributes that all of them declare, required if all require it.
    pub fn lookup_attribute_type(
        alloc: Global,
        schema: &ValidatorSchema,
        ty: &CedarType,
        attr: &RcStr,
    ) -> Result<Option<AttributeType>, AllocError>
        ensures { IfOk result (λ o. option_map attribute_view o
            ≡ attribute_type (schema_of schema.now) (ty_of ty.now) (text_of attr.now)) }
    {
        match ty {
            CedarType::Record {
                attributes,
                is_open: _open,
            } => copied(attributes.get_attr(attr)),
            CedarType::Entity(EntityKind::Entity(lub)) => schema.types_lookup(alloc, lub, attr),
            CedarType::Entity(EntityKind::AnyEntity) => Ok(None),
            CedarType::Never | CedarType::Bool(_) | CedarType::Long | CedarType::String => Ok(None),
            CedarType::Set(_) | CedarType::AnySet | CedarType::Extension(_) => Ok(None),
        }
    }

    /// Whether a value of the type may have the attribute.
    pub fn may_have_attr(schema: &ValidatorSchema, ty: &CedarType, attr: &RcStr) -> bool
        ensures { result ≡ may_have (schema_of schema.now) (ty_of ty.now) (text_of attr.now) }
    {
        match ty {
            CedarType::Record {
                attributes,
                is_open,
            } => attributes.get_attr(attr).is_some() || is_open_record(*is_open),
            CedarType::Entity(EntityKind::Entity(lub)) => types_may_have(schema, lub, attr),
            CedarType::Entity(EntityKind::AnyEntity) | CedarType::Never => true,
            CedarType::Bool(_) | CedarType::Long | CedarType::String => false,
            CedarType::Set(_) | CedarType::AnySet | CedarType::Extension(_) => false,
        }
    }

    /// The type of an entity literal: of an action if the schema declares it, of another entity if
    /// the schema declares its type, or else `None`.
    pub fn euid_literal(
        alloc: Global,
        entity: &EntityUID,
        schema: &ValidatorSchema,
    ) -> Result<Option<CedarType>, AllocError>
        ensures { IfOk result (λ o.
            option_map ty_of o ≡ literal_type (schema_of schema.now) (uid_of entity.now)) }
    {
        if !is_declared(entity, schema) {
            return Ok(None);
        }
        let found = CedarType::entity_reference(alloc, &entity.entity_type, schema)?;
        Ok(Some(found))
    }

    /// The type of the entities of this type. If the schema declares this type, or one of its
    /// actions has it, the schema makes the set of it once and shares it.
    pub fn entity_reference(
        alloc: Global,
        entity_type: &EntityType,
        schema: &ValidatorSchema,
    ) -> Result<CedarType, AllocError>
        ensures { IfOk result (λ t. ty_of t ≡ TEntity (type_of entity_type.now ∷ [])) }
    {
        let set = schema.references.set_of(alloc, entity_type)?;
        Ok(CedarType::Entity(EntityKind::Entity(set)))
    }
}

#[tactic(auto, unfolding(crate::specs::Schemas::Contents::schema_of))]
fn is_declared(entity: &EntityUID, schema: &ValidatorSchema) -> bool
    ensures { result ≡ declares_entity (schema_of schema.now) (uid_of entity.now) }
{
    if entity.entity_type.is_action() {
        schema.actions.contains(entity)
    } else {
        schema.types.contains(&entity.entity_type)
    }
}

fn is_open_record(tag: OpenTag) -> bool
    ensures { result ≡ is_open_tag tag }
{
    match tag {
        OpenTag::OpenAttributes => true,
        OpenTag::ClosedAttributes => false,
    }
}

impl ValidatorSchema {
    /// The attribute that all of the types declare.
    fn types_lookup(
        &self,
        alloc: Global,
        lub: &EntityLUB,
        attr: &RcStr,
    ) -> Result<Option<AttributeType>, AllocError>
        ensures { IfOk result (λ o. option_map attribute_view o
            ≡ types_attribute (schema_of self.now).types (text_of attr.now) (lub_of lub.now)) }
    {
        let mut types = lub.iter();
        let Some(first) = types.next() else {
            return Ok(None);
        };
        let mut found = copied(declared_lookup(self, first, attr))?;
        for entity_type in types {
            found = joined(alloc, &found, declared_lookup(self, entity_type, attr))?;
        }
        Ok(found)
    }
}

/// The attribute that one type declares.
#[tactic(auto, unfolding(crate::specs::Schemas::Contents::schema_of))]
fn declared_lookup<'a>(
    schema: &'a ValidatorSchema,
    entity_type: &EntityType,
    attr: &RcStr,
) -> Option<&'a AttributeType>
    ensures { option_map (λ a. attribute_view a.now) result
        ≡ declared_attribute (schema_of schema.now).types
        (text_of attr.now) (type_of entity_type.now) }
{
    match schema.types.get(entity_type) {
        Some(declared) => attribute_of_kind(&declared.kind, attr),
        None => None,
    }
}

fn attribute_of_kind<'a>(
    kind: &'a ValidatorEntityTypeKind,
    attr: &RcStr,
) -> Option<&'a AttributeType>
    ensures { option_map (λ a. attribute_view a.now) result
        ≡ kind_attribute (text_of attr.now) (type_kind kind.now) }
{
    match kind {
        ValidatorEntityTypeKind::Standard(standard) => standard.attributes.get_attr(attr),
        ValidatorEntityTypeKind::Enum(_) => None,
        ValidatorEntityTypeKind::External => None,
    }
}

fn joined(
    alloc: Global,
    found: &Option<AttributeType>,
    other: Option<&AttributeType>,
) -> Result<Option<AttributeType>, AllocError>
    ensures { IfOk result (λ o. option_map attribute_view o
        ≡ joined_attribute (option_map attribute_view found.now)
        (option_map (λ a. attribute_view a.now) other.entry)) }
{
    let Some(one) = found else {
        return Ok(None);
    };
    let Some(two) = other else {
        return Ok(None);
    };
    let mode = ValidationMode::Permissive;
    match CedarType::least_upper_bound(alloc, &one.attr_type, &two.attr_type, mode)? {
        Some(attr_type) => Ok(Some(AttributeType {
            attr_type,
            is_required: one.is_required && two.is_required,
        })),
        None => Ok(None),
    }
}

fn copied(attribute: Option<&AttributeType>) -> Result<Option<AttributeType>, AllocError>
    ensures { IfOk result (λ o.
        option_map attribute_view o ≡ option_map (λ a. attribute_view a.now) attribute.entry) }
{
    match attribute {
        Some(a) => Ok(Some(AttributeType {
            attr_type: a.attr_type.clone()?,
            is_required: a.is_required,
        })),
        None => Ok(None),
    }
}

fn types_may_have(schema: &ValidatorSchema, lub: &EntityLUB, attr: &RcStr) -> bool
    ensures { result
        ≡ list_any (may_declare (schema_of schema.now).types (text_of attr.now)) (lub_of lub.now) }
{
    for entity_type in lub.iter() {
        if type_may_have(schema, entity_type, attr) {
            return true;
        }
    }
    false
}

fn type_may_have(schema: &ValidatorSchema, entity_type: &EntityType, attr: &RcStr) -> bool
    ensures { result
        ≡ may_declare (schema_of schema.now).types (text_of attr.now) (type_of entity_type.now) }
{
    schema.is_open(entity_type) || declared_lookup(schema, entity_type, attr).is_some()
}
