// Look-ups in a schema or by names.
use crate::calls::lines::{Probe, Trial};
use crate::outcomes::{Outcome, finish};
use crate::refusals::refuse;
use crate::samples::texts::{OWNERS, SCHEMA, cedar_type, entities, schema_of, two_types, uid};
use cedar_typechecker::level_validate::attr_chain_cost_from_root;
use cedar_types::base::CedarType;
use std::alloc::{AllocError, Global};
use std::rc::RcStr;

/// The look-ups.
#[derive(Clone, Copy)]
pub enum Lookup {
    Bound,
    Attribute,
    Attributes,
    Literal,
    Reference,
    ChainCost,
}

/// Asks for the bound of users and photos.
fn bound_of_entities(alloc: Global, trial: Trial<'_>) -> Result<Outcome, AllocError> {
    let sets = (entities(alloc, "User")?, entities(alloc, "Photo")?);
    refuse(alloc, trial.number);
    let bound = sets.0.least_upper_bound(alloc, &sets.1);
    finish(alloc, bound, &sets)
}

/// Asks for an owner of the first of the types of the text.
fn attribute(alloc: Global, trial: Trial<'_>) -> Result<Outcome, AllocError> {
    let schema = schema_of(alloc, OWNERS)?;
    let types = two_types(alloc, trial.text)?;
    let attr = RcStr::from_str(alloc, "owner")?;
    refuse(alloc, trial.number);
    let found = CedarType::lookup_attribute_type(alloc, &schema, &types.0, &attr);
    finish(alloc, found, &types)
}

/// Asks for all attributes of the first of the types of the text.
fn attributes(alloc: Global, trial: Trial<'_>) -> Result<Outcome, AllocError> {
    let schema = schema_of(alloc, OWNERS)?;
    let types = two_types(alloc, trial.text)?;
    refuse(alloc, trial.number);
    let found = types.0.attributes(alloc, &schema);
    finish(alloc, found, &types)
}

/// Asks for the type of an entity.
fn literal(alloc: Global, trial: Trial<'_>) -> Result<Outcome, AllocError> {
    let (schema, entity) = (schema_of(alloc, SCHEMA)?, uid(alloc, trial.text)?);
    refuse(alloc, trial.number);
    let found = CedarType::euid_literal(alloc, &entity, &schema);
    finish(alloc, found, &entity)
}

/// Asks for the type of the entities of this id's type.
fn reference(alloc: Global, trial: Trial<'_>) -> Result<Outcome, AllocError> {
    let (schema, entity) = (schema_of(alloc, SCHEMA)?, uid(alloc, trial.text)?);
    refuse(alloc, trial.number);
    let found = CedarType::entity_reference(alloc, &entity.entity_type, &schema);
    finish(alloc, found, &entity)
}

/// Asks for the cost of a chain whose entities are of two types each.
fn chain_cost(alloc: Global, trial: Trial<'_>) -> Result<Outcome, AllocError> {
    let (schema, root) = (schema_of(alloc, OWNERS)?, cedar_type(alloc, trial.text)?);
    let owner = RcStr::from_str(alloc, "owner")?;
    let chain = vec![in alloc; owner.clone()?, owner.clone()?, owner]?;
    refuse(alloc, trial.number);
    let cost = attr_chain_cost_from_root(alloc, &schema, &root, chain.as_slice());
    finish(alloc, cost, &root)
}

impl Probe for Lookup {
    fn run(self, alloc: Global, trial: Trial<'_>) -> Result<Outcome, AllocError> {
        match self {
            Lookup::Bound => bound_of_entities(alloc, trial),
            Lookup::Attribute => attribute(alloc, trial),
            Lookup::Attributes => attributes(alloc, trial),
            Lookup::Literal => literal(alloc, trial),
            Lookup::Reference => reference(alloc, trial),
            Lookup::ChainCost => chain_cost(alloc, trial),
        }
    }
}

/// The look-ups, by the kind of thing that is looked up.
pub const LOOKUPS: [(Lookup, &str); 6] = [
    (Lookup::Bound, "EntityLUB::least_upper_bound | Photo"),
    (
        Lookup::Attribute,
        r#"
CedarType::lookup_attribute_type, of several types | Photo | User|Photo
- CedarType::lookup_attribute_type | User | Photo
- CedarType::lookup_attribute_type, of a record | User | {owner: Set<User>}
"#,
    ),
    (
        Lookup::Attributes,
        r#"
CedarType::attributes, of several types | owner | User|Photo
CedarType::attributes, of no attributes | attrs | Long
- CedarType::attributes | owner | Photo
- CedarType::attributes, of a record | owner | {owner: Set<User>}
"#,
    ),
    (
        Lookup::Literal,
        r#"
- CedarType::euid_literal | User | User::"a"
- CedarType::euid_literal, of an action | Action | Action::"view"
"#,
    ),
    (
        Lookup::Reference,
        r#"
CedarType::entity_reference, of a type that is not declared | Gone | Gone::"a"
- CedarType::entity_reference | User | User::"a"
"#,
    ),
    (
        Lookup::ChainCost,
        "attr_chain_cost_from_root | 3 | User|Photo",
    ),
];
