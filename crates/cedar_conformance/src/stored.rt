// Stored data of entities: its check by a schema.
ghost use Rattle.std.specs.Prelude.{◌≡◌, ◌&&◌, ◌↔◌, true, Some, IfOk, IfErr, IsOk, option_map};
ghost use Rattle.std.specs.List.{list_all};
ghost use Rattle.cedar_types.specs.Names.{type_of, uid_of};
ghost use Rattle.cedar_types.specs.Schemas.Contents.{schema_of};
ghost use Rattle.cedar_types.specs.Schemas.{type_named};
ghost use Rattle.cedar_types.specs.Types.{ty_of, attributes_of};
ghost use Rattle.cedar_types.specs.Values.Stores.{FitsDeclaration};
ghost use Rattle.cedar_conformance.specs.Answers.{finds_none, passes_if_any, FindsNoneWhere, FindsWhat};
ghost use Rattle.cedar_conformance.specs.Entities.{entity_of};
ghost use Rattle.cedar_conformance.specs.EntityFaults.{ancestors_have, bare_has, entity_has, standard_has, tags_have};
ghost use Rattle.cedar_conformance.specs.Ids.{ids_of};
ghost use Rattle.cedar_conformance.specs.StoreTests.{tags_fit, ancestor_fits, is_bare, fits_standard, fits_declaration};
ghost use Rattle.cedar_conformance.specs.Tests.{all_entries, has_type};
ghost use Rattle.cedar_conformance.specs.Values.{record_of};

use crate::actions::find_in_action;
use crate::answers::{Checked, Found, answer};
use crate::entities::Entity;
use crate::entity_faults::EntityProblem;
use crate::faults::{Step, ValueFault};
use crate::ids::Ids;
use crate::sets::{is_among_types, is_empty};
use crate::typed::{find_fault, find_in_record};
use crate::values::Record;
use cedar_types::base::{
    CedarType, EntityUID, OpenTag, StandardValidatorEntityType, ValidatorEntityTypeKind,
    ValidatorSchema,
};
use std::alloc::Global;

/// Checks the stored data of the entity of this id by the schema; otherwise the answer is its first
/// problem. An entity of a type with declared attributes has only these and all that are required,
/// each of its type; it has tags of their type, if the type declares one; and it may be in its
/// ancestors. An entity of an enumerated type has nothing, and for a type that is declared
/// elsewhere nothing is checked. An action is declared, and has its declared ancestors alone. If
/// memory is refused, the answer is an `AllocError`.
pub fn check_entity(
    alloc: Global,
    schema: &ValidatorSchema,
    id: &EntityUID,
    entity: &Entity,
) -> Checked<EntityProblem>
    ensures exact { IfOk result (λ r. IsOk r ↔ FitsDeclaration (schema_of schema.now)
        (uid_of id.now) (type_named (schema_of schema.now).types (uid_of id.now).entity_type)
        (entity_of entity.now)) }
    ensures there { IfOk result (λ r. IfErr r (λ f. entity_has (schema_of schema.now)
        (uid_of id.now) (type_named (schema_of schema.now).types (uid_of id.now).entity_type)
        (entity_of entity.now) f ≡ true)) }
{
    let found = find_in_entity(alloc, schema, id, entity)?;
    Ok(answer(found))
}

pub(crate) fn find_in_entity(
    alloc: Global,
    schema: &ValidatorSchema,
    id: &EntityUID,
    entity: &Entity,
) -> Found<EntityProblem>
    ensures none { FindsNoneWhere result (fits_declaration (schema_of schema.now) (uid_of id.now)
        (type_named (schema_of schema.now).types (uid_of id.now).entity_type)
        (entity_of entity.now)) }
    ensures there { FindsWhat result (entity_has (schema_of schema.now) (uid_of id.now)
        (type_named (schema_of schema.now).types (uid_of id.now).entity_type)
        (entity_of entity.now)) }
{
    match schema.get_entity_type(&id.entity_type) {
        None => find_in_action(alloc, schema, id, entity),
        Some(declared) => match &declared.kind {
            ValidatorEntityTypeKind::Standard(standard) => {
                find_in_standard(alloc, schema, id, standard, entity)
            }
            ValidatorEntityTypeKind::Enum(_) => Ok(find_in_bare(entity)),
            ValidatorEntityTypeKind::External => Ok(None),
        },
    }
}

fn find_in_standard(
    alloc: Global,
    schema: &ValidatorSchema,
    id: &EntityUID,
    standard: &StandardValidatorEntityType,
    entity: &Entity,
) -> Found<EntityProblem>
    ensures none { FindsNoneWhere result
        (fits_standard (schema_of schema.now).types (type_of id.now.entity_type)
        (attributes_of standard.now.attributes) (option_map ty_of standard.now.tags)
        (entity_of entity.now)) }
    ensures there { FindsWhat result
        (standard_has (schema_of schema.now).types (type_of id.now.entity_type)
        (attributes_of standard.now.attributes) (option_map ty_of standard.now.tags)
        (entity_of entity.now)) }
{
    let closed = OpenTag::ClosedAttributes;
    if let Some(fault) = find_in_record(alloc, &standard.attributes, closed, &entity.attributes)? {
        return Ok(Some(EntityProblem::Attribute(fault)));
    }
    if let Some(problem) = find_in_tags(alloc, &standard.tags, &entity.tags)? {
        return Ok(Some(problem));
    }
    find_in_ancestors(schema, id, &entity.ancestors)
}

fn find_in_tags(alloc: Global, tags: &Option<CedarType>, entries: &Record) -> Found<EntityProblem>
    ensures none { FindsNoneWhere result
        (tags_fit (option_map ty_of tags.now) (record_of entries.now)) }
    ensures there { FindsWhat result
        (tags_have (option_map ty_of tags.now) (record_of entries.now)) }
{
    match tags {
        Some(ty) => match find_in_typed_tags(alloc, ty, entries)? {
            Some(fault) => Ok(Some(EntityProblem::Tag(fault))),
            None => Ok(None),
        },
        None if is_empty(entries) => Ok(None),
        None => Ok(Some(EntityProblem::UndeclaredTags)),
    }
}

fn find_in_typed_tags(alloc: Global, ty: &CedarType, entries: &Record) -> Found<ValueFault>
    ensures { FindsNoneWhere result
        (all_entries (has_type (ty_of ty.now)) (record_of entries.now)) }
{
    for (name, value) in entries.iter() {
        if let Some(fault) = find_fault(alloc, ty, value)? {
            return Ok(Some(fault.below(Step::Tag(name.clone()?))?));
        }
    }
    Ok(None)
}

/// Returns the first ancestor in whose type the entity's type may not be.
#[tactic(auto, using(crate::proofs::Among::among_tail, crate::proofs::FoundFaults::ancestor_there))]
fn find_in_ancestors(
    schema: &ValidatorSchema,
    id: &EntityUID,
    ancestors: &Ids,
) -> Found<EntityProblem>
    ensures none { FindsNoneWhere result
        (list_all (ancestor_fits (schema_of schema.now).types (type_of id.now.entity_type))
        (ids_of ancestors.now)) }
    ensures there { FindsWhat result
        (ancestors_have (schema_of schema.now).types (type_of id.now.entity_type)
        (ids_of ancestors.now)) }
{
    let ids = ancestors.as_slice();
    for shared in ids {
        let ancestor: &EntityUID = &**shared;
        if !may_be_in(schema, id, ancestor) {
            return Ok(Some(EntityProblem::Ancestor(ancestor.clone()?)));
        }
    }
    Ok(None)
}

fn may_be_in(schema: &ValidatorSchema, id: &EntityUID, ancestor: &EntityUID) -> bool
    ensures { result ≡ ancestor_fits (schema_of schema.now).types
        (type_of id.now.entity_type) (uid_of ancestor.now) }
{
    match schema.get_entity_type(&ancestor.entity_type) {
        Some(declared) => is_among_types(&declared.descendants, &id.entity_type),
        None => false,
    }
}

/// Returns the first problem of an entity that may have no data.
fn find_in_bare(entity: &Entity) -> Option<EntityProblem>
    ensures none { finds_none result ≡ is_bare (entity_of entity.now) }
    ensures there { passes_if_any (bare_has (entity_of entity.now)) result ≡ true }
{
    if !is_empty(&entity.attributes) {
        Some(EntityProblem::HasAttributes)
    } else if !entity.ancestors.is_empty() {
        Some(EntityProblem::HasAncestors)
    } else if !is_empty(&entity.tags) {
        Some(EntityProblem::HasTags)
    } else {
        None
    }
}
