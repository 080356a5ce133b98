// Types that tags may have, in a schema.
ghost use Rattle.std.specs.Prelude.{◌≡◌, ◌++◌, IfOk, map};
ghost use Rattle.cedar_types.specs.Names.{type_of};
ghost use Rattle.cedar_types.specs.Types.{ty_of, kind_of, lub_of};
ghost use Rattle.cedar_types.specs.Schemas.Declarations.{declared_type, type_kind};
ghost use Rattle.cedar_types.specs.Types.Lookups.{kind_tags, declared_tags, tags_of_types, tags_of_any, tag_types};
ghost use Rattle.cedar_types.specs.Schemas.{type_named};
ghost use Rattle.cedar_types.specs.Schemas.Contents.{schema_of};

use crate::base::names::entities::EntityType;
use crate::base::schema::ValidatorSchema;
use crate::base::schema::entity_types::{ValidatorEntityType, ValidatorEntityTypeKind};
use crate::base::types::entity_sets::EntityLUB;
use crate::base::types::type_sets::types_in_order;
use crate::base::types::{CedarType, EntityKind};
use std::alloc::{AllocError, Global};
use std::collections::BTreeSet;

#[tactic(auto, unfolding(crate::specs::Schemas::Contents::schema_of))]
impl ValidatorSchema {
    /// The types that a tag may have, in ascending order: for some entity types those that they
    /// declare, for any entity those that any type declares.
    pub fn tag_types(
        &self,
        alloc: Global,
        kind: &EntityKind,
    ) -> Result<BTreeSet<CedarType>, AllocError>
        ensures { IfOk result (λ s.
            map ty_of s.keys ≡ tag_types (schema_of self.now) (kind_of kind.now)) }
    {
        let tags = match kind {
            EntityKind::Entity(lub) => self.tags_of_types(alloc, lub)?,
            EntityKind::AnyEntity => tags_of_any(alloc, &self.types.declared)?,
        };
        types_in_order(alloc, tags)
    }
}

#[tactic(auto, unfolding(crate::specs::Types::lub_of))]
impl ValidatorSchema {
    /// The types of tags that these entity types declare.
    fn tags_of_types(&self, alloc: Global, lub: &EntityLUB) -> Result<Vec<CedarType>, AllocError>
        ensures { IfOk result (λ v.
            map ty_of v.items ≡ tags_of_types (schema_of self.now).types (lub_of lub.now)) }
    {
        let mut tags = Vec::new(alloc);
        for entity_type in lub.lub_elements.iter() {
            add_declared_tags(self, entity_type, &mut tags)?;
        }
        Ok(tags)
    }
}

/// The types of tags that any of these entity types declares.
fn tags_of_any(alloc: Global, types: &[ValidatorEntityType]) -> Result<Vec<CedarType>, AllocError>
    ensures { IfOk result (λ v.
        map ty_of v.items ≡ tags_of_any (map declared_type types.now)) }
{
    let mut tags = Vec::new(alloc);
    for entity_type in types {
        add_tags(&entity_type.kind, &mut tags)?;
    }
    Ok(tags)
}

/// Adds the type of tags that the entity type of this name declares.
#[tactic(auto, unfolding(crate::specs::Schemas::Contents::schema_of))]
fn add_declared_tags(
    schema: &ValidatorSchema,
    entity_type: &EntityType,
    tags: &mut Vec<CedarType>,
) -> Result<(), AllocError>
    ensures { IfOk result (λ u.
        map ty_of tags.new.items
        ≡ map ty_of tags.old.items
        ++ declared_tags (type_named (schema_of schema.now).types (type_of entity_type.now))) }
{
    match schema.types.get(entity_type) {
        Some(declared) => add_tags(&declared.kind, tags),
        None => Ok(()),
    }
}

fn add_tags(kind: &ValidatorEntityTypeKind, tags: &mut Vec<CedarType>) -> Result<(), AllocError>
    ensures { IfOk result (λ u.
        map ty_of tags.new.items
        ≡ map ty_of tags.old.items ++ kind_tags (type_kind kind.now)) }
{
    match kind {
        ValidatorEntityTypeKind::Standard(standard) => match &standard.tags {
            Some(ty) => {
                tags.push(ty.clone()?)?;
                Ok(())
            }
            None => Ok(()),
        },
        ValidatorEntityTypeKind::Enum(_) => Ok(()),
        ValidatorEntityTypeKind::External => Ok(()),
    }
}
