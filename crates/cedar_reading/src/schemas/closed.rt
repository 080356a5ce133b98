// Closed declarations, as a schema takes them: each name on its own, with its descendants.
use crate::faults::{Fault, ReadError};
use crate::schemas::declarations::{ActionDeclaration, Declarations};
use crate::schemas::descendants::{Family, MAX_DESCENDANTS, start_of};
use cedar_types::base::{
    EnumChoices, StandardValidatorEntityType, ValidatorActionId, ValidatorActionKind,
    ValidatorApplySpec, ValidatorEntityType, ValidatorEntityTypeKind,
};
use std::alloc::{AllocError, Global};

/// The largest number of environments of a schema: of each action, its principal types times its
/// resource types. A schema holds them all.
const MAX_ENVIRONMENTS: usize = 1 << 17;

/// The declared entity types, each with its descendants. It fails if there are too many
/// descendants.
pub fn closed_types(
    alloc: Global,
    read: &Declarations,
) -> Result<Vec<ValidatorEntityType>, ReadError> {
    let declared = read.entity_types.as_slice();
    let family = Family::new(alloc, declared)?;
    let mut types = Vec::new(alloc);
    let mut count = 0usize;
    for declaration in declared {
        for own in &declaration.names {
            let descendants = family.descendants_of(&own.name)?;
            count = add_count(count, descendants.len(), own.start)?;
            types.push(ValidatorEntityType {
                name: own.name.clone()?,
                descendants,
                kind: copy_of_kind(alloc, &declaration.kind)?,
            })?;
        }
    }
    Ok(types)
}

/// The number of descendants with `more` descendants of the name at the byte `start` added. It
/// fails if that is too many.
fn add_count(before: usize, more: usize, start: usize) -> Result<usize, ReadError> {
    let count = before.saturating_add(more);
    if count > MAX_DESCENDANTS {
        Err(ReadError::At(start, Fault::TooMany))
    } else {
        Ok(count)
    }
}

/// A copy of the kind.
pub fn copy_of_kind(
    alloc: Global,
    kind: &ValidatorEntityTypeKind,
) -> Result<ValidatorEntityTypeKind, AllocError> {
    match kind {
        ValidatorEntityTypeKind::Standard(standard) => Ok(ValidatorEntityTypeKind::Standard(
            StandardValidatorEntityType {
                attributes: standard.attributes.clone()?,
                tags: standard.tags.clone()?,
            },
        )),
        ValidatorEntityTypeKind::Enum(ids) => {
            Ok(ValidatorEntityTypeKind::Enum(copy_of_ids(alloc, ids)?))
        }
        ValidatorEntityTypeKind::External => Ok(ValidatorEntityTypeKind::External),
    }
}

fn copy_of_ids(alloc: Global, ids: &EnumChoices) -> Result<EnumChoices, AllocError> {
    let mut copies = Vec::new(alloc);
    for id in ids.as_slice() {
        copies.push(id.clone()?)?;
    }
    EnumChoices::new(alloc, copies)
}

/// The declared actions, each with its descendants. It fails if there are too many descendants or
/// environments.
pub fn closed_actions(
    alloc: Global,
    read: &Declarations,
) -> Result<Vec<ValidatorActionId>, ReadError> {
    let declared = read.actions.as_slice();
    check_environments(declared)?;
    let family = Family::new(alloc, declared)?;
    let mut actions = Vec::new(alloc);
    let mut count = 0usize;
    for declaration in declared {
        for own in &declaration.names {
            let descendants = family.descendants_of(&own.name)?;
            count = add_count(count, descendants.len(), own.start)?;
            actions.push(ValidatorActionId {
                name: own.name.clone()?,
                descendants,
                kind: copy_of_action_kind(&declaration.kind)?,
            })?;
        }
    }
    Ok(actions)
}

/// Fails at the first declaration whose actions have too many environments, with those before them.
fn check_environments(declared: &[ActionDeclaration]) -> Result<(), ReadError> {
    let mut count = 0usize;
    for declaration in declared {
        let each = count_environments(&declaration.kind);
        count = count.saturating_add(each.saturating_mul(declaration.names.len()));
        if count > MAX_ENVIRONMENTS {
            let start = start_of(declaration.names.first());
            return Err(ReadError::At(start, Fault::TooManyEnvironments));
        }
    }
    Ok(())
}

/// The number of environments of an action.
fn count_environments(kind: &ValidatorActionKind) -> usize {
    match kind {
        ValidatorActionKind::Defined(applies_to) => {
            let principals = applies_to.principal_apply_spec.len();
            principals.saturating_mul(applies_to.resource_apply_spec.len())
        }
        ValidatorActionKind::External => 0,
    }
}

/// A copy of the kind of an action.
pub fn copy_of_action_kind(kind: &ValidatorActionKind) -> Result<ValidatorActionKind, AllocError> {
    match kind {
        ValidatorActionKind::Defined(applies_to) => {
            Ok(ValidatorActionKind::Defined(copy_of_application(applies_to)?))
        }
        ValidatorActionKind::External => Ok(ValidatorActionKind::External),
    }
}

fn copy_of_application(applies_to: &ValidatorApplySpec) -> Result<ValidatorApplySpec, AllocError> {
    Ok(ValidatorApplySpec {
        principal_apply_spec: applies_to.principal_apply_spec.clone()?,
        resource_apply_spec: applies_to.resource_apply_spec.clone()?,
        context: applies_to.context.clone()?,
    })
}
