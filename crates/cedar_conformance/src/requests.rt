// Requests, and the check that one conforms to a schema.
ghost use Rattle.std.specs.Prelude.{◌≡◌, true, false, ◌↔◌, Some, IfOk, IfErr, IsOk};
ghost use Rattle.cedar_types.specs.Schemas.Contents.{schema_of};
ghost use Rattle.cedar_types.specs.Schemas.Declarations.{application};
ghost use Rattle.cedar_types.specs.Names.{type_of, uid_of};
ghost use Rattle.cedar_types.specs.Types.{ty_of, kind_of};
ghost use Rattle.cedar_types.specs.Values.{VRecord};
ghost use Rattle.cedar_typing.specs.Evaluation.Conformance.{ConformingRequest};
ghost use Rattle.cedar_conformance.specs.Answers.{FindsNoneWhere, FindsWhat};
ghost use Rattle.cedar_conformance.specs.RequestFaults.{application_has, request_has};
ghost use Rattle.cedar_conformance.specs.Requests.{request_of};
ghost use Rattle.cedar_conformance.specs.RequestTests.{request_fits, application_fits};
ghost use Rattle.cedar_conformance.specs.Tests.{has_type};
ghost use Rattle.cedar_conformance.specs.Values.{record_of};

use crate::answers::{Checked, Found, answer};
use crate::faults::{Mismatch, ValueFault, ValueKind};
use crate::sets::is_among_types;
use crate::typed::find_in_record;
use crate::values::Record;
use cedar_types::base::{
    CedarType, EntityKind, EntityType, EntityUID, ValidatorApplySpec, ValidatorSchema,
};
use std::alloc::{AllocError, Global};
use std::fmt;

/// A request: a principal asks to do an action with a resource, in a context.
#[derive(Debug, Drop)]
pub struct Request {
    pub principal: EntityUID,
    pub action: EntityUID,
    pub resource: EntityUID,
    pub context: Record,
}

/// The reason why a request does not conform: the first that applies.
#[derive(Debug, PartialEq, Eq, Drop)]
pub enum RequestFault {
    /// The action is not declared.
    UndeclaredAction(EntityUID),
    /// The action is declared elsewhere, so that the types to which it applies are unknown.
    ExternalAction(EntityUID),
    /// The action does not apply to principals of this type.
    PrincipalType(EntityType),
    /// The action does not apply to resources of this type.
    ResourceType(EntityType),
    /// The context does not fit the action's type of it.
    Context(ValueFault),
}

impl fmt::Display for RequestFault {
    fn fmt<W: fmt::Write>(&self, f: &mut fmt::Formatter<W>) -> fmt::Result {
        match self {
            RequestFault::UndeclaredAction(action) => {
                write!(f, "action: {action} is not declared")
            }
            RequestFault::ExternalAction(action) => {
                write!(f, "action: it is not known what {action} applies to")
            }
            RequestFault::PrincipalType(found) => {
                write!(f, "principal: the action does not apply to {found}")
            }
            RequestFault::ResourceType(found) => {
                write!(f, "resource: the action does not apply to {found}")
            }
            RequestFault::Context(fault) => write!(f, "context{fault}"),
        }
    }
}

/// Checks that the schema allows the request: its action is declared, its entities are of types
/// that the action applies to, and its context has the action's type (clause `exact`). Otherwise
/// the answer is the first fault of the request, in the order of `RequestFault` (clause `first`).
/// The check does not ask whether these entities exist. If memory for a fault is refused, the
/// answer is an `AllocError`.
pub fn check_request(
    alloc: Global,
    schema: &ValidatorSchema,
    request: &Request,
) -> Checked<RequestFault>
    ensures exact { IfOk result (λ r.
        IsOk r ↔ ConformingRequest (schema_of schema.now) (request_of request.now)) }
    ensures first { IfOk result (λ r. IfErr r (λ f.
        request_has (schema_of schema.now) (request_of request.now) f ≡ true)) }
{
    let found = find_in_request(alloc, schema, request)?;
    Ok(answer(found))
}

#[tactic(auto, using(crate::proofs::RequestFaults::action_there))]
fn find_in_request(
    alloc: Global,
    schema: &ValidatorSchema,
    request: &Request,
) -> Found<RequestFault>
    ensures none { FindsNoneWhere result
        (request_fits (schema_of schema.now) (uid_of request.now.principal)
        (uid_of request.now.action) (uid_of request.now.resource)
        (record_of request.now.context)) }
    ensures there { FindsWhat result
        (request_has (schema_of schema.now) (request_of request.now)) }
{
    let Some(action) = schema.get_action_id(&request.action) else {
        let undeclared = request.action.clone()?;
        return Ok(Some(RequestFault::UndeclaredAction(undeclared)));
    };
    match action.defined() {
        Some(applies_to) => find_in_application(alloc, applies_to, request),
        None => Ok(Some(RequestFault::ExternalAction(request.action.clone()?))),
    }
}

fn find_in_application(
    alloc: Global,
    applies_to: &ValidatorApplySpec,
    request: &Request,
) -> Found<RequestFault>
    ensures none { FindsNoneWhere result
        (application_fits (Some (application applies_to.now))
        (type_of request.now.principal.entity_type)
        (type_of request.now.resource.entity_type) (record_of request.now.context)) }
    ensures there { FindsWhat result
        (application_has (application applies_to.now) (type_of request.now.principal.entity_type)
        (type_of request.now.resource.entity_type) (record_of request.now.context)) }
{
    if !is_among_types(
        &applies_to.principal_apply_spec,
        &request.principal.entity_type,
    ) {
        let found = request.principal.entity_type.clone()?;
        return Ok(Some(RequestFault::PrincipalType(found)));
    }
    if !is_among_types(
        &applies_to.resource_apply_spec,
        &request.resource.entity_type,
    ) {
        let found = request.resource.entity_type.clone()?;
        return Ok(Some(RequestFault::ResourceType(found)));
    }
    match find_in_context(alloc, &applies_to.context, &request.context)? {
        None => Ok(None),
        Some(fault) => Ok(Some(RequestFault::Context(fault))),
    }
}

/// Returns the first place at which the context does not fit its type.
fn find_in_context(alloc: Global, ty: &CedarType, context: &Record) -> Found<ValueFault>
    ensures { FindsNoneWhere result
        (has_type (ty_of ty.now) (VRecord (record_of context.now))) }
{
    match ty {
        CedarType::Record {
            attributes,
            is_open,
        } => find_in_record(alloc, attributes, *is_open, context),
        CedarType::Entity(kind) => {
            entities_are_no_records(kind, context);
            no_record(alloc, ty)
        }
        CedarType::Never => no_record(alloc, ty),
        CedarType::Bool(_) => no_record(alloc, ty),
        CedarType::Long => no_record(alloc, ty),
        CedarType::String => no_record(alloc, ty),
        CedarType::Set(_) => no_record(alloc, ty),
        CedarType::AnySet => no_record(alloc, ty),
        CedarType::Extension(_) => no_record(alloc, ty),
    }
}

/// Proves that a record has no type of entities.
fn entities_are_no_records(kind: &EntityKind, context: &Record)
    ensures { has_type (kind_of kind.now) (VRecord (record_of context.now)) ≡ false }
{
    match kind {
        EntityKind::Entity(_) => {}
        EntityKind::AnyEntity => {}
    }
}

/// Returns the fault that a record stands in the place of this type.
fn no_record(alloc: Global, ty: &CedarType) -> Found<ValueFault>
    ensures { FindsNoneWhere result false }
{
    let expected = ty.clone()?;
    let found = ValueKind::Record;
    Ok(Some(ValueFault::here(alloc, Mismatch::WrongType { expected, found })))
}
