// Requests, read and checked by a schema.
ghost use Rattle.std.specs.Prelude.{◌≡◌, false, length, IfErr, IfOk, IfSome, OnOk, is_some};
ghost use Rattle.cedar_types.specs.Schemas.Contents.{schema_of};
ghost use Rattle.cedar_typing.specs.Evaluation.Conformance.{ConformingRequest};
ghost use Rattle.cedar_conformance.specs.Requests.{request_of};
ghost use Rattle.cedar_json.specs.Cursors.{IsFaultWithin};
ghost use Rattle.cedar_data.specs.Faults.{has_none};

use crate::collected::{Collected, ExtensionText, Faults};
use crate::faults::{DataError, Problem};
use crate::mismatches::Mismatches;
use crate::values::{Types, read_record};
use cedar_conformance::requests::{Request, RequestFault, check_request};
use cedar_conformance::values::Record;
use cedar_json::{FormFault, Object, Value, ValueKind, entity_uid, value_alone};
use cedar_reading::{ReadError, uid_alone};
use cedar_types::base::{
    Attributes, CedarType, EntityUID, Loc, OpenTag, ValidatorApplySpec, ValidatorSchema,
};
use std::alloc::{AllocError, Global};
use std::collections::BTreeMap;

/// The keys of a request.
const KEYS: [&str; 4] = ["principal", "action", "resource", "context"];

/// The result of reading a text of a request.
#[derive(Debug, Drop)]
pub struct CheckedRequest {
    /// The request, if there is no mistake: the schema allows it.
    pub conforming: Option<Request>,
    /// The mistakes: there are none exactly if there is a request.
    pub faults: Faults,
    /// The texts for constructors of extension values. The check does not try to read them.
    pub texts: Vec<ExtensionText>,
}

/// Reads a request in Cedar's JSON form and checks it by a schema. An id is `{type, id}` or a text
/// as in a policy. The answer is an error if the text is no readable JSON, or if memory is refused.
pub fn check_request_text(
    alloc: Global,
    schema: &ValidatorSchema,
    text: &str,
) -> Result<CheckedRequest, DataError>
    ensures conforms { IfOk result (λ c. IfSome c.conforming (λ r.
        ConformingRequest (schema_of schema.now) (request_of r))) }
    ensures agrees { IfOk result (λ c. is_some c.conforming ≡ has_none c.faults) }
    ensures err { IfErr result (λ e. IsFaultWithin (length text.now) e) }
{
    let value = value_alone(alloc, text)?;
    let mut collected = Collected::new(alloc, schema);
    let conforming = read_conforming(schema, &mut collected, &value)?;
    let Collected {
        mut faults,
        texts,
        ..
    } = collected;
    faults.sort()?;
    Ok(CheckedRequest {
        conforming,
        faults,
        texts,
    })
}

/// Reads a request, and returns it if the schema allows it and it has no mistake. Otherwise a
/// mistake is listed.
fn read_conforming(
    schema: &ValidatorSchema,
    collected: &mut Collected<'_>,
    value: &Value,
) -> Result<Option<Request>, AllocError>
    ensures conforms { IfOk result (λ o. IfSome o (λ r.
        ConformingRequest (schema_of schema.now) (request_of r))) }
    ensures agrees { IfOk result (λ o. is_some o ≡ has_none collected.new.faults) }
{
    let object = Object::of(value);
    let Some(object) = collected.keep(object)? else {
        add_no_request(collected, value)?;
        return Ok(None);
    };
    let Some(request) = read_request(collected, object)? else {
        add_no_request(collected, value)?;
        return Ok(None);
    };
    match check_request(collected.alloc, schema, &request)? {
        Ok(()) if collected.faults.is_empty() => Ok(Some(request)),
        Ok(()) => Ok(None),
        Err(fault) => {
            add_unfit(schema, collected, &request, object, fault)?;
            Ok(None)
        }
    }
}

/// Lists that a value is no request, if no part of it has a mistake of its own.
fn add_no_request(collected: &mut Collected<'_>, value: &Value) -> Result<(), AllocError>
    ensures { OnOk result (has_none collected.new.faults ≡ false) }
{
    let problem = Problem::Form(FormFault::Expected("a request"));
    collected.faults.add_if_none(value.place, problem)
}

/// Reads a request. If a part is missing or has another form, the answer is `None`.
fn read_request(
    collected: &mut Collected<'_>,
    object: Object<'_>,
) -> Result<Option<Request>, AllocError> {
    for (key, _) in object.entries {
        if !KEYS.iter().any(|own| *own == key.name.as_str()) {
            let problem = Problem::Form(FormFault::UnknownKey);
            collected.faults.add(key.place, problem)?;
        }
    }
    let principal = read_id(collected, object, "principal")?;
    let action = read_id(collected, object, "action")?;
    let resource = read_id(collected, object, "resource")?;
    let schema = collected.schema;
    let attributes = match &action {
        Some(action) => context_attributes(schema, action),
        None => None,
    };
    let context = read_context(collected, object, attributes)?;
    match (principal, action, resource, context) {
        (Some(principal), Some(action), Some(resource), Some(context)) => Ok(Some(Request {
            principal,
            action,
            resource,
            context,
        })),
        _ => Ok(None),
    }
}

fn read_id(
    collected: &mut Collected<'_>,
    object: Object<'_>,
    key: &'static str,
) -> Result<Option<EntityUID>, AllocError> {
    let value = object.need(key);
    let Some(value) = collected.keep(value)? else {
        return Ok(None);
    };
    let id = match &value.kind {
        ValueKind::Text(text) => id_in_text(collected, value, text.as_str())?,
        _ => {
            let id = entity_uid(collected.alloc, value);
            collected.keep(id)?
        }
    };
    if let Some(id) = &id {
        collected.check_id(value.place, id)?;
    }
    Ok(id)
}

/// Reads the id in a text that has the form of a policy's ids.
fn id_in_text(
    collected: &mut Collected<'_>,
    value: &Value,
    text: &str,
) -> Result<Option<EntityUID>, AllocError> {
    match uid_alone(collected.alloc, text) {
        Ok(id) => Ok(Some(id)),
        Err(ReadError::Memory(error)) => Err(error),
        Err(ReadError::At(_, _)) => {
            let problem = Problem::Form(FormFault::Expected("an id, as `User::\"alice\"`,"));
            collected.faults.add(value.place, problem)?;
            Ok(None)
        }
    }
}

fn read_context(
    collected: &mut Collected<'_>,
    object: Object<'_>,
    attributes: Option<&Attributes>,
) -> Result<Option<Record>, AllocError> {
    let context = object.need("context");
    let Some(context) = collected.keep(context)? else {
        return Ok(None);
    };
    let entries = Object::of(context);
    let Some(entries) = collected.keep(entries)? else {
        return Ok(None);
    };
    let types = match attributes {
        Some(attributes) => Types::Attributes(attributes),
        None => Types::Unknown,
    };
    Ok(Some(read_record(collected, entries, types)?))
}

/// Returns the attributes of the context of a declared action.
fn context_attributes<'a>(
    schema: &'a ValidatorSchema,
    action: &EntityUID,
) -> Option<&'a Attributes> {
    let applies_to = schema.get_action_id(action)?.defined()?;
    let context: &CedarType = &applies_to.context;
    match context {
        CedarType::Record { attributes, .. } => Some(attributes),
        _ => None,
    }
}

/// Lists the mistakes of a request that the schema does not allow, at least its first one.
fn add_unfit(
    schema: &ValidatorSchema,
    collected: &mut Collected<'_>,
    request: &Request,
    object: Object<'_>,
    fault: RequestFault,
) -> Result<(), AllocError>
    ensures { OnOk result (has_none collected.new.faults ≡ false) }
{
    let declared = schema.get_action_id(&request.action);
    if let Some(applies_to) = declared.and_then(|action| action.defined()) {
        add_unfit_types(collected, request, object, applies_to)?;
        add_in_context(collected, object, &applies_to.context, &request.context)?;
    }
    let place = place_at(object, key_of(&fault));
    collected.faults.add_if_none(place, Problem::Request(fault))
}

/// Lists a mistake of a request at its key.
fn add_fault(
    collected: &mut Collected<'_>,
    object: Object<'_>,
    fault: RequestFault,
) -> Result<(), AllocError> {
    let place = place_at(object, key_of(&fault));
    collected.faults.add(place, Problem::Request(fault))
}

/// Lists the types of the principal and the resource to which the action does not apply.
fn add_unfit_types(
    collected: &mut Collected<'_>,
    request: &Request,
    object: Object<'_>,
    applies_to: &ValidatorApplySpec,
) -> Result<(), AllocError> {
    let principal = &request.principal.entity_type;
    if !applies_to.principal_apply_spec.contains(principal) {
        let fault = RequestFault::PrincipalType(principal.clone()?);
        add_fault(collected, object, fault)?;
    }
    let resource = &request.resource.entity_type;
    if !applies_to.resource_apply_spec.contains(resource) {
        let fault = RequestFault::ResourceType(resource.clone()?);
        add_fault(collected, object, fault)?;
    }
    Ok(())
}

/// Lists the mistakes of a context, by its type.
fn add_in_context(
    collected: &mut Collected<'_>,
    object: Object<'_>,
    ty: &CedarType,
    context: &Record,
) -> Result<(), AllocError> {
    let Some(entries) = context_in(object) else {
        return Ok(());
    };
    match ty {
        CedarType::Record {
            attributes,
            is_open,
        } => {
            let alloc = collected.alloc;
            let is_open: OpenTag = *is_open;
            let mut found = Mismatches::new(alloc, &mut collected.faults, None);
            found.add_in_record(attributes, is_open, context, entries)
        }
        _ => Ok(()),
    }
}

fn context_in(object: Object<'_>) -> Option<Object<'_>> {
    Object::of(object.get("context")?).ok()
}

/// Returns the key at which a request has a fault.
fn key_of(fault: &RequestFault) -> &'static str {
    match fault {
        RequestFault::UndeclaredAction(_) => "action",
        RequestFault::ExternalAction(_) => "action",
        RequestFault::PrincipalType(_) => "principal",
        RequestFault::ResourceType(_) => "resource",
        RequestFault::Context(_) => "context",
    }
}

/// Returns the place of the value at a key; without the key, that of the object.
fn place_at(object: Object<'_>, key: &str) -> Loc {
    match object.get(key) {
        Some(value) => value.place,
        None => object.place,
    }
}
