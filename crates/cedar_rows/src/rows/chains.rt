// The costs of chains of attributes.
use crate::rows::answers::Answer;
use cedar_typechecker::level_validate::attr_chain_cost_from_root;
use cedar_types::base::{
    AttributeType, Attributes, CedarType, EntityType, Name, OpenTag, ValidatorSchema,
};
use std::alloc::{AllocError, Global};
use std::rc::RcStr;

/// The cost of this chain: its root, and its attributes, each behind a point.
pub fn chain_cost(
    alloc: Global,
    schema: &ValidatorSchema,
    chain: &str,
) -> Result<Answer, AllocError> {
    let (root, attributes) = match chain.split_once('.') {
        Some((root, attributes)) => (root, attributes_of(alloc, attributes)?),
        None => (chain, Vec::new(alloc)),
    };
    let root = root_type(alloc, root)?;
    let cost = attr_chain_cost_from_root(alloc, schema, &root, attributes.as_slice())?;
    Ok(Answer::new(alloc, cost.to_string(alloc)?))
}

/// The attributes of this text, with points between them.
fn attributes_of(alloc: Global, text: &str) -> Result<Vec<RcStr>, AllocError> {
    let mut attributes = Vec::new(alloc);
    for attribute in text.split('.') {
        attributes.push(RcStr::from_str(alloc, attribute)?)?;
    }
    Ok(attributes)
}

/// The type of this text: `User`, or a closed record with one attribute, `{user: User}`.
fn root_type(alloc: Global, text: &str) -> Result<CedarType, AllocError> {
    match attribute_in(text) {
        Some((key, named)) => record_of(alloc, key, entities_of(alloc, named)?),
        None => entities_of(alloc, text),
    }
}

/// The attribute of a record's type, and the text of the attribute's type.
fn attribute_in(text: &str) -> Option<(&str, &str)> {
    text.strip_prefix('{')?.strip_suffix('}')?.split_once(": ")
}

fn record_of(alloc: Global, key: &str, attribute: CedarType) -> Result<CedarType, AllocError> {
    let listed = vec![in alloc; (key, AttributeType::new(attribute, true))]?;
    let attributes = Attributes::from_list(alloc, listed)?;
    Ok(CedarType::record_with_attributes(attributes, OpenTag::ClosedAttributes))
}

fn entities_of(alloc: Global, name: &str) -> Result<CedarType, AllocError> {
    let name = Name::unqualified_name(alloc, name)?;
    CedarType::named_entity_reference(alloc, EntityType::new(name, None))
}
