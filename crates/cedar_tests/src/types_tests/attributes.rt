// Attributes of a type, in a schema.
use crate::parts::{entity, entity_type};
use cedar_types::base::{
    AttributeType, Attributes, CedarType, StandardValidatorEntityType, ValidatorEntityType,
    ValidatorEntityTypeKind, ValidatorSchema,
};
use std::alloc::{AllocError, Global};
use std::collections::BTreeSet;
use std::test::Fail;

/// A type whose entities have these attributes, and no tags.
fn standard(
    alloc: Global,
    name: &str,
    listed: Vec<(&str, AttributeType)>,
) -> Result<ValidatorEntityType, AllocError> {
    Ok(ValidatorEntityType {
        name: entity_type(alloc, name)?,
        descendants: BTreeSet::new(alloc),
        kind: ValidatorEntityTypeKind::Standard(StandardValidatorEntityType {
            attributes: Attributes::from_list(alloc, listed)?,
            tags: None,
        }),
    })
}

/// Users with an `age`, a `name` and perhaps a `nick`.
fn users(alloc: Global) -> Result<ValidatorEntityType, AllocError> {
    let mut listed = Vec::new(alloc);
    listed.push(("nick", AttributeType::optional_attribute(CedarType::String)))?;
    listed.push(("name", AttributeType::required_attribute(CedarType::String)))?;
    listed.push(("age", AttributeType::required_attribute(CedarType::Long)))?;
    standard(alloc, "User", listed)
}

/// Photos, whose `age` is a text, perhaps with a `name`.
fn photos(alloc: Global) -> Result<ValidatorEntityType, AllocError> {
    let mut listed = Vec::new(alloc);
    listed.push(("name", AttributeType::optional_attribute(CedarType::String)))?;
    listed.push(("age", AttributeType::required_attribute(CedarType::String)))?;
    standard(alloc, "Photo", listed)
}

/// The attributes of a type, as they are shown.
fn shown(alloc: Global, schema: &ValidatorSchema, ty: &CedarType) -> Result<String, AllocError> {
    let mut shown = String::new(alloc);
    for (name, attribute) in ty.attributes(alloc, schema)?.attrs.iter() {
        let mark = if attribute.is_required { "" } else { "?" };
        write!(shown, "{name}{mark}: {}, ", attribute.attr_type)?;
    }
    Ok(shown)
}

#[test]
fn attributes_are_those_that_all_types_have(rt: HostRuntime) -> Result<(), Fail> {
    let alloc = rt.alloc();
    let types = vec![in alloc; users(alloc)?, photos(alloc)?]?;
    let schema = ValidatorSchema::new(alloc, types, Vec::new(alloc))?;
    let one = shown(alloc, &schema, &entity(alloc, &["User"])?)?;
    assert_eq!(rt; one.as_str(), "age: Long, name: String, nick?: String, ");
    let both = shown(alloc, &schema, &entity(alloc, &["User", "Photo"])?)?;
    assert_eq!(rt; both.as_str(), "name?: String, ");
    let any = shown(alloc, &schema, &CedarType::any_entity_reference())?;
    assert_eq!(rt; any.as_str(), "");
    Ok(())
}
