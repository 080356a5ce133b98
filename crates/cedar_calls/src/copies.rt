// Copies of schemas, because a validator takes the schema by which it validates. It borrows the
// extension functions, so nothing can hold it beside them between calls.
use cedar_types::base::{
    EntityType, EntityUID, EnumChoices, StandardValidatorEntityType, ValidatorActionId,
    ValidatorActionKind, ValidatorApplySpec, ValidatorEntityType, ValidatorEntityTypeKind,
    ValidatorSchema,
};
use std::alloc::{AllocError, Global};
use std::collections::BTreeSet;
use std::rc::RcStr;

/// A copy of a schema, which shares its names and its types.
pub fn copy_schema(alloc: Global, schema: &ValidatorSchema) -> Result<ValidatorSchema, AllocError> {
    let mut types = Vec::new(alloc);
    for declared in schema.entity_types(alloc)? {
        types.push(copy_type(alloc, declared)?)?;
    }
    let mut actions = Vec::new(alloc);
    for declared in schema.action_ids(alloc)? {
        actions.push(copy_action(alloc, declared)?)?;
    }
    // (declarations of a schema have no fault, so memory is the only cause of an error)
    match ValidatorSchema::new(alloc, types, actions) {
        Ok(copy) => Ok(copy),
        Err(_memory) => Err(AllocError),
    }
}

fn copy_type(
    alloc: Global,
    declared: &ValidatorEntityType,
) -> Result<ValidatorEntityType, AllocError> {
    Ok(ValidatorEntityType {
        name: declared.name.clone()?,
        descendants: copy_types(alloc, &declared.descendants)?,
        kind: copy_kind(alloc, &declared.kind)?,
    })
}

fn copy_kind(
    alloc: Global,
    kind: &ValidatorEntityTypeKind,
) -> Result<ValidatorEntityTypeKind, AllocError> {
    match kind {
        ValidatorEntityTypeKind::Standard(standard) => {
            let tags = match &standard.tags {
                Some(tags) => Some(tags.clone()?),
                None => None,
            };
            Ok(ValidatorEntityTypeKind::Standard(StandardValidatorEntityType {
                attributes: standard.attributes.clone()?,
                tags,
            }))
        }
        ValidatorEntityTypeKind::Enum(choices) => {
            let ids = copy_texts(alloc, choices.as_slice())?;
            Ok(ValidatorEntityTypeKind::Enum(EnumChoices::new(alloc, ids)?))
        }
        ValidatorEntityTypeKind::External => Ok(ValidatorEntityTypeKind::External),
    }
}

fn copy_texts(alloc: Global, texts: &[RcStr]) -> Result<Vec<RcStr>, AllocError> {
    let mut copy = Vec::new(alloc);
    for text in texts {
        copy.push(text.clone()?)?;
    }
    Ok(copy)
}

fn copy_types(
    alloc: Global,
    names: &BTreeSet<EntityType>,
) -> Result<BTreeSet<EntityType>, AllocError> {
    let mut copy = BTreeSet::new(alloc);
    for name in names.iter() {
        copy.insert(name.clone()?)?;
    }
    Ok(copy)
}

fn copy_uids(alloc: Global, uids: &BTreeSet<EntityUID>) -> Result<BTreeSet<EntityUID>, AllocError> {
    let mut copy = BTreeSet::new(alloc);
    for uid in uids.iter() {
        copy.insert(uid.clone()?)?;
    }
    Ok(copy)
}

fn copy_action(
    alloc: Global,
    declared: &ValidatorActionId,
) -> Result<ValidatorActionId, AllocError> {
    let kind = match &declared.kind {
        ValidatorActionKind::Defined(applies_to) => {
            ValidatorActionKind::Defined(copy_application(alloc, applies_to)?)
        }
        ValidatorActionKind::External => ValidatorActionKind::External,
    };
    Ok(ValidatorActionId {
        name: declared.name.clone()?,
        descendants: copy_uids(alloc, &declared.descendants)?,
        kind,
    })
}

fn copy_application(
    alloc: Global,
    applies_to: &ValidatorApplySpec,
) -> Result<ValidatorApplySpec, AllocError> {
    Ok(ValidatorApplySpec {
        principal_apply_spec: copy_types(alloc, &applies_to.principal_apply_spec)?,
        resource_apply_spec: copy_types(alloc, &applies_to.resource_apply_spec)?,
        context: applies_to.context.clone()?,
    })
}
