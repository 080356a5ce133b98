// Attributes of a type, in a schema.
ghost use Rattle.std.specs.Prelude.{◌≡◌, IfOk};
ghost use Rattle.cedar_types.specs.Names.{type_of};
ghost use Rattle.cedar_types.specs.Types.{ty_of, lub_of, attributes_of, no_attrs};
ghost use Rattle.cedar_types.specs.Types.Lookups.{attributes_in, types_attributes, declared_attributes, kind_attributes};
ghost use Rattle.cedar_types.specs.Schemas.Contents.{schema_of};
ghost use Rattle.cedar_types.specs.Schemas.Declarations.{type_kind};

use crate::base::names::entities::EntityType;
use crate::base::schema::ValidatorSchema;
use crate::base::schema::entity_types::ValidatorEntityTypeKind;
use crate::base::types::entity_sets::EntityLUB;
use crate::base::types::{Attributes, CedarType, EntityKind};
use std::alloc::{AllocError, Global};
use std::collections::BTreeMap;

impl CedarType {
    /// The attributes of a type by ascending names, each with its type and whether it is required.
    /// A record has its own; entity types have those that all of them declare with types that have
    /// a bound in Permissive, required if all require it. No other type has any.
    ///
    /// The attribute of each name is the one that `lookup_attribute_type` finds
    /// (`type_laws::listed_attributes`). A value may have others: `may_have_attr` tells. The
    /// attributes of a record, and of one type that declares some, are shared, and take no memory.
    /// If memory is refused, the answer is an `AllocError`.
    pub fn attributes(
        &self,
        alloc: Global,
        schema: &ValidatorSchema,
    ) -> Result<Attributes, AllocError>
        ensures { IfOk result (λ xs.
            attributes_of xs ≡ attributes_in (schema_of schema.now) (ty_of self.now)) }
    {
        match self {
            CedarType::Record {
                attributes,
                is_open: _open,
            } => attributes.clone(),
            CedarType::Entity(EntityKind::Entity(lub)) => types_attributes(alloc, schema, lub),
            CedarType::Entity(EntityKind::AnyEntity) | CedarType::Never => no_attributes(alloc),
            CedarType::Bool(_) | CedarType::Long | CedarType::String => no_attributes(alloc),
            CedarType::Set(_) | CedarType::AnySet => no_attributes(alloc),
            CedarType::Extension(_) => no_attributes(alloc),
        }
    }
}

fn no_attributes(alloc: Global) -> Result<Attributes, AllocError>
    ensures { IfOk result (λ xs. attributes_of xs ≡ no_attrs) }
{
    Attributes::with_attributes(alloc, BTreeMap::new(alloc))
}

/// The attributes that all of the types declare.
fn types_attributes(
    alloc: Global,
    schema: &ValidatorSchema,
    lub: &EntityLUB,
) -> Result<Attributes, AllocError>
    ensures { IfOk result (λ xs.
        attributes_of xs ≡ types_attributes (schema_of schema.now).types (lub_of lub.now)) }
{
    let mut types = lub.iter();
    let Some(first) = types.next() else {
        return no_attributes(alloc);
    };
    let mut found = declared_attributes(alloc, schema, first)?;
    for entity_type in types {
        let other = declared_attributes(alloc, schema, entity_type)?;
        found = Attributes::in_common(alloc, &found, &other)?;
    }
    Ok(found)
}

/// The attributes that one type declares.
#[tactic(auto, unfolding(crate::specs::Schemas::Contents::schema_of))]
fn declared_attributes(
    alloc: Global,
    schema: &ValidatorSchema,
    entity_type: &EntityType,
) -> Result<Attributes, AllocError>
    ensures { IfOk result (λ xs. attributes_of xs
        ≡ declared_attributes (schema_of schema.now).types (type_of entity_type.now)) }
{
    match schema.types.get(entity_type) {
        Some(declared) => attributes_of_kind(alloc, &declared.kind),
        None => no_attributes(alloc),
    }
}

fn attributes_of_kind(
    alloc: Global,
    kind: &ValidatorEntityTypeKind,
) -> Result<Attributes, AllocError>
    ensures { IfOk result (λ xs. attributes_of xs ≡ kind_attributes (type_kind kind.now)) }
{
    match kind {
        ValidatorEntityTypeKind::Standard(standard) => standard.attributes.clone(),
        ValidatorEntityTypeKind::Enum(_) => no_attributes(alloc),
        ValidatorEntityTypeKind::External => no_attributes(alloc),
    }
}
