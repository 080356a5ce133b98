//! A schema of users, documents, and two actions on them.
use cedar_types::base::{
    AttributeType, Attributes, CedarType, EntityType, EntityUID, Name, OpenTag, SchemaError,
    StandardValidatorEntityType, ValidatorActionId, ValidatorActionKind, ValidatorApplySpec,
    ValidatorEntityType, ValidatorEntityTypeKind, ValidatorSchema,
};
use std::alloc::{AllocError, Global};
use std::collections::BTreeSet;
use std::rc::Rc;

fn entity_type(alloc: Global, name: &str) -> Result<EntityType, AllocError> {
    Ok(EntityType::from(Name::unqualified_name(alloc, name)?))
}

/// A set of this one type.
fn only(alloc: Global, name: &str) -> Result<BTreeSet<EntityType>, AllocError> {
    let mut types = BTreeSet::new(alloc);
    types.insert(entity_type(alloc, name)?)?;
    Ok(types)
}

fn no_attributes(alloc: Global) -> Result<Attributes, AllocError> {
    Attributes::from_list(alloc, Vec::new(alloc))
}

/// The attribute of this name, a Boolean that may be absent, and no other.
fn optional_mark(alloc: Global, name: &str) -> Result<Attributes, AllocError> {
    let mark = AttributeType::optional_attribute(CedarType::primitive_boolean());
    let listed = vec![in alloc; (name, mark)]?;
    Attributes::from_list(alloc, listed)
}

/// The extension type of addresses.
pub fn address(alloc: Global) -> Result<CedarType, AllocError> {
    CedarType::extension(alloc, Name::unqualified_name(alloc, "ipaddr")?)
}

/// The attribute with a user to ask.
fn contact(alloc: Global) -> Result<AttributeType, AllocError> {
    let user = CedarType::named_entity_reference(alloc, entity_type(alloc, "User")?)?;
    Ok(AttributeType::required_attribute(user))
}

/// The attributes of users: an address, a user to ask, and the mark `vip`, which may be absent.
fn user_attributes(alloc: Global) -> Result<Attributes, AllocError> {
    let address = AttributeType::required_attribute(address(alloc)?);
    let contact = contact(alloc)?;
    let vip = AttributeType::optional_attribute(CedarType::primitive_boolean());
    let listed = vec![in alloc; ("address", address), ("contact", contact), ("vip", vip)]?;
    Attributes::from_list(alloc, listed)
}

/// The attribute of documents: a user to ask.
fn document_attributes(alloc: Global) -> Result<Attributes, AllocError> {
    let listed = vec![in alloc; ("contact", contact(alloc)?)]?;
    Attributes::from_list(alloc, listed)
}

/// A type of entities with these attributes, which are in no others and have no tags.
fn entities(
    alloc: Global,
    name: &str,
    attributes: Attributes,
) -> Result<ValidatorEntityType, AllocError> {
    Ok(ValidatorEntityType {
        name: entity_type(alloc, name)?,
        descendants: BTreeSet::new(alloc),
        kind: ValidatorEntityTypeKind::Standard(StandardValidatorEntityType {
            attributes,
            tags: None,
        }),
    })
}

/// An action of users on documents, with these attributes in its context.
fn action(alloc: Global, eid: &str, context: Attributes) -> Result<ValidatorActionId, AllocError> {
    let context = CedarType::record_with_attributes(context, OpenTag::ClosedAttributes);
    let applies_to = ValidatorApplySpec {
        principal_apply_spec: only(alloc, "User")?,
        resource_apply_spec: only(alloc, "Document")?,
        context: Rc::new(alloc, context)?,
    };
    let action_type = entity_type(alloc, "Action")?;
    Ok(ValidatorActionId {
        name: EntityUID::from_components(alloc, action_type, eid, None)?,
        descendants: BTreeSet::new(alloc),
        kind: ValidatorActionKind::Defined(applies_to),
    })
}

/// Users and documents.
fn types(alloc: Global) -> Result<Vec<ValidatorEntityType>, AllocError> {
    let users = entities(alloc, "User", user_attributes(alloc)?)?;
    let documents = entities(alloc, "Document", document_attributes(alloc)?)?;
    Ok(vec![in alloc; users, documents]?)
}

/// The actions to view a document and to share it. The context of sharing may tell that it is `approved`.
fn actions(alloc: Global) -> Result<Vec<ValidatorActionId>, AllocError> {
    let view = action(alloc, "view", no_attributes(alloc)?)?;
    let share = action(alloc, "share", optional_mark(alloc, "approved")?)?;
    Ok(vec![in alloc; view, share]?)
}

/// The schema of these types and actions.
pub fn documents(alloc: Global) -> Result<ValidatorSchema, SchemaError> {
    ValidatorSchema::new(alloc, types(alloc)?, actions(alloc)?)
}
