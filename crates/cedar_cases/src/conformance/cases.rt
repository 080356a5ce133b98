// Cases about data: the question of each, and its wanted answer.
use crate::conformance::data::{entities_of, entity_of, record_of};
use cedar_conformance::entity_faults::{EntityFault, EntityProblem};
use cedar_conformance::policies::check_policy;
use cedar_conformance::requests::{Request, check_request};
use cedar_conformance::stored::check_entity;
use cedar_conformance::stores::check_entities;
use cedar_reading::{ReadError, uid_alone, whole_policy};
use cedar_types::base::{EntityUID, SlotEnv, SlotId, Template, ValidatorSchema};
use std::alloc::{AllocError, Global};
use std::collections::BTreeMap;
use std::fmt;

/// The answer if the data conforms.
const CONFORMS: &str = "conforms";

/// The answer if a field cannot be read.
const UNREADABLE: &str = "a field cannot be read";

/// The word of a field for a slot that is not bound.
const UNBOUND: &str = "-";

/// The answer that a case wants, and the one that it got.
#[derive(Drop)]
pub struct Answer<'a> {
    pub wanted: &'a str,
    pub got: String,
}

/// Runs a case. Its fields are the question, a description, the data, and the wanted answer.
pub fn run_case<'a>(
    alloc: Global,
    schema: &ValidatorSchema,
    line: &'a str,
) -> Result<Answer<'a>, AllocError> {
    let mut fields = Vec::new(alloc);
    for field in line.split('\t') {
        fields.push(field)?;
    }
    let wanted = match fields.last() {
        Some(last) => *last,
        None => "",
    };
    let got = got(alloc, schema, &fields)?;
    Ok(Answer { wanted, got })
}

fn got(alloc: Global, schema: &ValidatorSchema, fields: &[&str]) -> Result<String, AllocError> {
    match fields {
        [asked, _, a, b, c, d, _] if *asked == "request" => {
            request_answer(alloc, schema, request_of(alloc, a, b, c, d))
        }
        [asked, _, a, b, c, d, _] if *asked == "entity" => {
            entity_answer(alloc, schema, a, [b, c, d])
        }
        [asked, _, a, _] if *asked == "entities" => entities_answer(alloc, schema, a),
        [asked, _, a, b, c, _] if *asked == "policy" => policy_answer(alloc, a, b, c),
        _ => String::from_str(alloc, UNREADABLE),
    }
}

fn unreadable(alloc: Global) -> Result<String, AllocError> {
    String::from_str(alloc, UNREADABLE)
}

fn conforms(alloc: Global) -> Result<String, AllocError> {
    String::from_str(alloc, CONFORMS)
}

/// The part of a check that is shown.
fn show<F: fmt::Display + Drop>(
    alloc: Global,
    checked: Result<(), F>,
) -> Result<String, AllocError> {
    match checked {
        Ok(()) => conforms(alloc),
        Err(fault) => format!(in alloc; "{fault}"),
    }
}

fn request_of(
    alloc: Global,
    principal: &str,
    action: &str,
    resource: &str,
    context: &str,
) -> Result<Request, ReadError> {
    let principal = uid_alone(alloc, principal)?;
    let action = uid_alone(alloc, action)?;
    let resource = uid_alone(alloc, resource)?;
    let context = record_of(alloc, context)?;
    Ok(Request {
        principal,
        action,
        resource,
        context,
    })
}

fn request_answer(
    alloc: Global,
    schema: &ValidatorSchema,
    request: Result<Request, ReadError>,
) -> Result<String, AllocError> {
    let Ok(request) = request else {
        return unreadable(alloc);
    };
    let checked = check_request(alloc, schema, &request)?;
    show(alloc, checked)
}

fn entity_answer(
    alloc: Global,
    schema: &ValidatorSchema,
    id: &str,
    parts: [&str; 3],
) -> Result<String, AllocError> {
    let Ok(id) = uid_alone(alloc, id) else {
        return unreadable(alloc);
    };
    let Ok(entity) = entity_of(alloc, parts[0], parts[1], parts[2]) else {
        return unreadable(alloc);
    };
    let checked = check_entity(alloc, schema, &id, &entity)?;
    show_problem(alloc, &id, checked)
}

fn show_problem(
    alloc: Global,
    id: &EntityUID,
    checked: Result<(), EntityProblem>,
) -> Result<String, AllocError> {
    match checked {
        Ok(()) => conforms(alloc),
        Err(problem) => {
            let id = id.clone()?;
            let fault = EntityFault { id, problem };
            format!(in alloc; "{fault}")
        }
    }
}

fn entities_answer(
    alloc: Global,
    schema: &ValidatorSchema,
    text: &str,
) -> Result<String, AllocError> {
    let Ok(entities) = entities_of(alloc, text) else {
        return unreadable(alloc);
    };
    match check_entities(alloc, schema, &entities)? {
        Ok(()) => conforms(alloc),
        Err(faults) => show_all(alloc, &faults),
    }
}

/// The faults, with a stroke between them.
fn show_all(alloc: Global, faults: &[EntityFault]) -> Result<String, AllocError> {
    let mut text = String::new(alloc);
    for fault in faults {
        if !text.is_empty() {
            text.push_str(" | ")?;
        }
        let own = format!(in alloc; "{fault}")?;
        text.push_str(own.as_str())?;
    }
    Ok(text)
}

fn policy_answer(
    alloc: Global,
    policy: &str,
    principal: &str,
    resource: &str,
) -> Result<String, AllocError> {
    let Ok(template) = whole_policy(alloc, policy) else {
        return unreadable(alloc);
    };
    let Ok(values) = slots_of(alloc, principal, resource) else {
        return unreadable(alloc);
    };
    run_policy_check(alloc, &template, &values)
}

fn run_policy_check(
    alloc: Global,
    template: &Template,
    values: &SlotEnv,
) -> Result<String, AllocError> {
    let checked = check_policy(alloc, template, values)?;
    show(alloc, checked)
}

fn slots_of(alloc: Global, principal: &str, resource: &str) -> Result<SlotEnv, ReadError> {
    let mut values = BTreeMap::new(alloc);
    bind(alloc, &mut values, SlotId::Principal, principal)?;
    bind(alloc, &mut values, SlotId::Resource, resource)?;
    Ok(values)
}

fn bind(alloc: Global, values: &mut SlotEnv, slot: SlotId, id: &str) -> Result<(), ReadError> {
    if id != UNBOUND {
        let id = uid_alone(alloc, id)?;
        values.insert(slot, id)?;
    }
    Ok(())
}
