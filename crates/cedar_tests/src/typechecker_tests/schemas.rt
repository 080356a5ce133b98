// Small schemas.
use crate::parts::{entity_type, types, uid};
use cedar_typechecker::base::{
    AttributeType, Attributes, CedarType, OpenTag, StandardValidatorEntityType, ValidatorActionId,
    ValidatorActionKind, ValidatorApplySpec, ValidatorEntityType, ValidatorEntityTypeKind,
    ValidatorSchema,
};
use std::alloc::{AllocError, Global};
use std::collections::BTreeSet;
use std::rc::Rc;
use std::test::Fail;

/// An external type, of which only the descendants are known.
fn external(
    alloc: Global,
    name: &str,
    descendants: &[&str],
) -> Result<ValidatorEntityType, AllocError> {
    Ok(ValidatorEntityType {
        name: entity_type(alloc, name)?,
        descendants: types(alloc, descendants)?,
        kind: ValidatorEntityTypeKind::External,
    })
}

/// The external action `read`.
fn read(alloc: Global) -> Result<ValidatorActionId, AllocError> {
    Ok(ValidatorActionId {
        name: uid(alloc, "Action", "read")?,
        descendants: BTreeSet::new(alloc),
        kind: ValidatorActionKind::External,
    })
}

/// Users in users and groups, and files.
pub fn users_and_files(alloc: Global) -> Result<ValidatorSchema, Fail> {
    let mut types = Vec::new(alloc);
    for (name, descendants) in [
        ("User", &["User"][..]),
        ("Group", &["User"][..]),
        ("File", &[][..]),
    ] {
        types.push(external(alloc, name, descendants)?)?;
    }
    Ok(ValidatorSchema::new(alloc, types, vec![in alloc; read(alloc)?]?)?)
}

/// A type whose entities have these attributes, and no tags.
fn standard(
    alloc: Global,
    name: &str,
    attributes: Attributes,
) -> Result<ValidatorEntityType, AllocError> {
    Ok(ValidatorEntityType {
        name: entity_type(alloc, name)?,
        descendants: BTreeSet::new(alloc),
        kind: ValidatorEntityTypeKind::Standard(StandardValidatorEntityType {
            attributes,
            tags: None,
        }),
    })
}

/// An action of these types on photos.
fn on_photos(
    alloc: Global,
    name: &str,
    principals: &[&str],
) -> Result<ValidatorActionId, AllocError> {
    let nothing = Attributes::from_list(alloc, Vec::new(alloc))?;
    let context = CedarType::record_with_attributes(nothing, OpenTag::ClosedAttributes);
    Ok(ValidatorActionId {
        name: uid(alloc, "Action", name)?,
        descendants: BTreeSet::new(alloc),
        kind: ValidatorActionKind::Defined(ValidatorApplySpec {
            principal_apply_spec: types(alloc, principals)?,
            resource_apply_spec: types(alloc, &["Photo"])?,
            context: Rc::new(alloc, context)?,
        }),
    })
}

/// Users, each with a `user` and a `bool`.
fn users(alloc: Global) -> Result<ValidatorEntityType, AllocError> {
    let user = CedarType::named_entity_reference(alloc, entity_type(alloc, "User")?)?;
    let user = AttributeType::required_attribute(user);
    let boolean = AttributeType::required_attribute(CedarType::primitive_boolean());
    let of_users = vec![in alloc; ("user", user), ("bool", boolean)]?;
    standard(alloc, "User", Attributes::from_list(alloc, of_users)?)
}

/// A type whose entities have no attribute.
fn bare(alloc: Global, name: &str) -> Result<ValidatorEntityType, AllocError> {
    standard(alloc, name, Attributes::from_list(alloc, Vec::new(alloc))?)
}

/// Users, each with a `user` and a `bool`, who view photos.
pub fn users_and_photos(alloc: Global) -> Result<ValidatorSchema, Fail> {
    let types = vec![in alloc; users(alloc)?, bare(alloc, "Photo")?]?;
    let view = on_photos(alloc, "view", &["User"])?;
    Ok(ValidatorSchema::new(alloc, types, vec![in alloc; view]?)?)
}

/// Users, and robots without attributes, who view, edit and print photos.
pub fn users_and_robots(alloc: Global) -> Result<ValidatorSchema, Fail> {
    let types = vec![in alloc; users(alloc)?, bare(alloc, "Robot")?, bare(alloc, "Photo")?]?;
    let mut actions = Vec::new(alloc);
    for name in ["view", "edit", "print"] {
        actions.push(on_photos(alloc, name, &["User", "Robot"])?)?;
    }
    Ok(ValidatorSchema::new(alloc, types, actions)?)
}

/// Users who view photos, and the external action `read`.
pub fn users_and_external_action(alloc: Global) -> Result<ValidatorSchema, Fail> {
    let types = vec![in alloc; users(alloc)?, bare(alloc, "Photo")?]?;
    let view = on_photos(alloc, "view", &["User"])?;
    Ok(ValidatorSchema::new(alloc, types, vec![in alloc; view, read(alloc)?]?)?)
}
