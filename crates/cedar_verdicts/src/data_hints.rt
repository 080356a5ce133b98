// Hints for data with names that the schema does not declare.
use cedar_conformance::entity_faults::EntityProblem;
use cedar_conformance::faults::{Mismatch, Step, ValueKind};
use cedar_conformance::requests::RequestFault;
use cedar_data::{Owner, Problem};
use cedar_findings::similar::Search;
use cedar_types::base::{
    Attributes, CedarType, EntityType, EntityUID, StandardValidatorEntityType, ValidatorActionId,
    ValidatorEntityTypeKind, ValidatorSchema,
};
use std::alloc::{AllocError, Global};
use std::rc::RcStr;

/// The name that may be meant, or an empty text.
pub fn hint(
    alloc: Global,
    schema: &ValidatorSchema,
    problem: &Problem,
) -> Result<String, AllocError> {
    match problem {
        Problem::Value(owner, steps, mismatch) => {
            hint_for_value(alloc, schema, owner, steps.as_slice(), mismatch)
        }
        Problem::Entity(fault) => hint_for_entity(alloc, schema, &fault.id, &fault.problem),
        Problem::Request(fault) => hint_for_request(alloc, schema, fault),
        _ => Ok(String::new(alloc)),
    }
}

fn hint_for_entity(
    alloc: Global,
    schema: &ValidatorSchema,
    id: &EntityUID,
    problem: &EntityProblem,
) -> Result<String, AllocError> {
    match problem {
        EntityProblem::Undeclared if id.entity_type.is_action() => {
            similar_action(alloc, schema, id)
        }
        EntityProblem::Undeclared => similar_type(alloc, schema, &id.entity_type),
        EntityProblem::Ancestor(parent) => undeclared_type(alloc, schema, &parent.entity_type),
        _ => Ok(String::new(alloc)),
    }
}

fn hint_for_request(
    alloc: Global,
    schema: &ValidatorSchema,
    fault: &RequestFault,
) -> Result<String, AllocError> {
    match fault {
        RequestFault::UndeclaredAction(action) => similar_action(alloc, schema, action),
        RequestFault::PrincipalType(found) | RequestFault::ResourceType(found) => {
            undeclared_type(alloc, schema, found)
        }
        _ => Ok(String::new(alloc)),
    }
}

/// The hint for a value at the end of these steps from its owner.
fn hint_for_value(
    alloc: Global,
    schema: &ValidatorSchema,
    owner: &Owner,
    steps: &[Step],
    mismatch: &Mismatch,
) -> Result<String, AllocError> {
    match (mismatch, steps.split_last()) {
        (Mismatch::UndeclaredAttribute, Some((Step::Attribute(name), before))) => {
            similar_attribute(alloc, schema, owner, before, name)
        }
        (
            Mismatch::WrongType {
                expected: _,
                found: ValueKind::Entity(found),
            },
            _,
        ) => { undeclared_type(alloc, schema, found) }
        _ => Ok(String::new(alloc)),
    }
}

/// The declared attribute that is nearest to the one at the end of these steps from its owner. The contexts of all actions are
/// searched, because the action is not known here.
fn similar_attribute(
    alloc: Global,
    schema: &ValidatorSchema,
    owner: &Owner,
    before: &[Step],
    name: &RcStr,
) -> Result<String, AllocError> {
    let mut search = Search::new(alloc, name.as_str())?;
    let mut message = String::new(alloc);
    for attributes in declared_attributes(alloc, schema, owner, before)? {
        compare(alloc, &mut search, attributes, &mut message)?;
    }
    Ok(message)
}

/// The attributes that the schema declares for the part at the end of these steps: one record for an entity, one of each action
/// for a context.
fn declared_attributes<'a>(
    alloc: Global,
    schema: &'a ValidatorSchema,
    owner: &Owner,
    steps: &[Step],
) -> Result<Vec<&'a Attributes>, AllocError> {
    let mut all = Vec::new(alloc);
    if let Owner::Entity(id) = owner {
        if let Some(attributes) = attributes_of_entity(schema, id, steps) {
            all.push(attributes)?;
        }
        return Ok(all);
    }
    for action in schema.action_ids(alloc)? {
        if let Some(attributes) = attributes_of_context(action, steps) {
            all.push(attributes)?;
        }
    }
    Ok(all)
}

fn attributes_of_context<'a>(
    action: &'a ValidatorActionId,
    steps: &[Step],
) -> Option<&'a Attributes> {
    attributes_in(&*action.defined()?.context, steps)
}

/// Looks for a nearer name among these attributes.
fn compare(
    alloc: Global,
    search: &mut Search,
    attributes: &Attributes,
    message: &mut String,
) -> Result<(), AllocError> {
    for name in attributes.attrs.keys() {
        if search.is_over() {
            break;
        }
        if search.is_nearer(name.as_str(), false)? {
            *message = format!(in alloc; "did you mean `{name}`?")?;
        }
    }
    Ok(())
}

/// The attributes of the part of an entity at the end of these steps.
fn attributes_of_entity<'a>(
    schema: &'a ValidatorSchema,
    id: &EntityUID,
    steps: &[Step],
) -> Option<&'a Attributes> {
    let ValidatorEntityTypeKind::Standard(StandardValidatorEntityType { attributes, tags }) =
        &schema.get_entity_type(&id.entity_type)?.kind
    else {
        return None;
    };
    match steps.split_first() {
        None => Some(attributes),
        Some((Step::Attribute(name), rest)) => {
            attributes_in(&attributes.get_attr(name)?.attr_type, rest)
        }
        Some((Step::Tag(_), rest)) => attributes_in(tags.as_ref()?, rest),
        Some((Step::Element(_), _)) => None,
    }
}

/// The attributes of the record at the end of these steps from a value of this type.
fn attributes_in<'a>(ty: &'a CedarType, steps: &[Step]) -> Option<&'a Attributes> {
    let mut part = ty;
    for step in steps {
        part = match (part, step) {
            (CedarType::Record { attributes, .. }, Step::Attribute(name)) => {
                &attributes.get_attr(name)?.attr_type
            }
            (CedarType::Set(element), Step::Element(_)) => &**element,
            _ => return None,
        };
    }
    match part {
        CedarType::Record { attributes, .. } => Some(attributes),
        _ => None,
    }
}

/// The declared type that may be meant by a type that is not declared.
fn undeclared_type(
    alloc: Global,
    schema: &ValidatorSchema,
    entity_type: &EntityType,
) -> Result<String, AllocError> {
    if schema.get_entity_type(entity_type).is_some() {
        return Ok(String::new(alloc));
    }
    similar_type(alloc, schema, entity_type)
}

fn similar_type(
    alloc: Global,
    schema: &ValidatorSchema,
    entity_type: &EntityType,
) -> Result<String, AllocError> {
    let wanted = entity_type.to_string(alloc)?;
    let mut search = Search::new(alloc, wanted.as_str())?;
    let mut message = String::new(alloc);
    for name in schema.entity_type_names(alloc)? {
        if search.is_over() {
            break;
        }
        let name = name.to_string(alloc)?;
        if search.is_nearer(name.as_str(), false)? {
            message = format!(in alloc; "did you mean `{name}`?")?;
        }
    }
    Ok(message)
}

fn similar_action(
    alloc: Global,
    schema: &ValidatorSchema,
    action: &EntityUID,
) -> Result<String, AllocError> {
    let mut search = Search::new(alloc, action.eid.as_str())?;
    let mut message = String::new(alloc);
    for declared in schema.action_ids(alloc)? {
        if search.is_over() {
            break;
        }
        let name = &declared.name;
        let is_elsewhere = name.entity_type != action.entity_type;
        if search.is_nearer(name.eid.as_str(), is_elsewhere)? {
            message = format!(in alloc; "did you mean `{name}`?")?;
        }
    }
    Ok(message)
}
