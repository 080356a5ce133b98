// Premises of the promises of validation: all that a host has to meet, checked in one call.
ghost use Rattle.std.specs.Prelude.{◌≡◌, false, ◌↔◌, IfOk, IfErr, IsOk};
ghost use Rattle.cedar_types.specs.Schemas.Contents.{schema_of};
ghost use Rattle.cedar_types.specs.Templates.{template_of};
ghost use Rattle.cedar_types.specs.Values.Stores.{ConformingStore};
ghost use Rattle.cedar_typing.specs.Evaluation.Conformance.{ConformingRequest, has_external};
ghost use Rattle.cedar_typing.specs.Soundness.Policies.{IsWellFormed};
ghost use Rattle.cedar_conformance.specs.Entities.{store_of};
ghost use Rattle.cedar_conformance.specs.PolicyTests.{slots_of};
ghost use Rattle.cedar_conformance.specs.Premises.{ArePremises, DataConforms, IsFirstOfData, IsFirstUnmet};
ghost use Rattle.cedar_conformance.specs.Requests.{request_of};

use crate::answers::Checked;
use crate::entities::Entities;
use crate::entity_faults::EntityFault;
use crate::policies::{PolicyFault, check_policy};
use crate::requests::{Request, RequestFault, check_request};
use crate::schemas::has_external;
use crate::stores::check_entities;
use cedar_types::base::{SlotEnv, Template, ValidatorSchema};
use std::alloc::Global;

/// The first premise that is not met, in the order of the variants.
#[derive(Debug, PartialEq, Eq, Drop)]
pub enum PremiseFault {
    /// A type or an action of the schema is declared elsewhere.
    External,
    /// The policy with its links is not well-formed.
    Policy(PolicyFault),
    /// The request does not conform.
    Request(RequestFault),
    /// These entities do not conform.
    Entities(Vec<EntityFault>),
}

/// Checks that the promises of validation hold for this request and these entities, with any
/// policy: a world that has them conforms by the schema, if its extension functions keep the table.
/// The answer is Ok exactly if that holds (clause `exact`). Otherwise it is the request's fault,
/// or, if the request conforms, the faults of the entities (clause `first`). If memory is refused,
/// the answer is an `AllocError`.
pub fn check_data(
    alloc: Global,
    schema: &ValidatorSchema,
    request: &Request,
    entities: &Entities,
) -> Checked<PremiseFault>
    ensures exact { IfOk result (λ r.
        IsOk r ↔ DataConforms schema.now request.now entities.now) }
    ensures first { IfOk result (λ r.
        IfErr r (λ f. IsFirstOfData f schema.now request.now entities.now)) }
{
    match check_request(alloc, schema, request)? {
        Ok(()) => {
            let checked = check_stored(alloc, schema, entities)?;
            Ok(checked)
        }
        Err(fault) => Ok(Err(PremiseFault::Request(fault))),
    }
}

/// Checks the entities alone, after a request that conforms.
fn check_stored(
    alloc: Global,
    schema: &ValidatorSchema,
    entities: &Entities,
) -> Checked<PremiseFault>
    ensures exact { IfOk result (λ r.
        IsOk r ↔ ConformingStore (schema_of schema.now) (store_of entities.now)) }
    ensures first { IfOk result (λ r. IfErr r (λ f. (request : _)
        → ConformingRequest (schema_of schema.now) (request_of request)
        → IsFirstOfData f schema.now request entities.now)) }
{
    match check_entities(alloc, schema, entities)? {
        Ok(()) => Ok(Ok(())),
        Err(faults) => Ok(Err(PremiseFault::Entities(faults))),
    }
}

/// Checks all premises of the promises of validation, on a schema, a policy with its links, a
/// request and entities. You must trust only one thing more: that the extension functions keep
/// their table. The answer is Ok exactly if the premises are met (clause `exact`). Otherwise it
/// tells the first one that is not met, in the order of `PremiseFault`; those before it are met
/// (clause `first`). If memory is refused, the answer is an `AllocError`.
pub fn check_premises(
    alloc: Global,
    schema: &ValidatorSchema,
    template: &Template,
    values: &SlotEnv,
    request: &Request,
    entities: &Entities,
) -> Checked<PremiseFault>
    ensures exact { IfOk result (λ r.
        IsOk r ↔ ArePremises schema.now template.now values.now request.now entities.now) }
    ensures first { IfOk result (λ r. IfErr r (λ f.
        IsFirstUnmet f schema.now template.now values.now request.now entities.now)) }
{
    let is_external = has_external(alloc, schema)?;
    if is_external {
        return Ok(Err(PremiseFault::External));
    }
    match check_policy(alloc, template, values)? {
        Ok(()) => {
            let checked = check_data(alloc, schema, request, entities)?;
            Ok(checked)
        }
        Err(fault) => Ok(Err(PremiseFault::Policy(fault))),
    }
}
