// A service that keeps its policies and its entities: it checks both once, and then lets requests in.
ghost use Rattle.std.specs.Prelude.{IfOk, IsOk};
ghost use Rattle.cedar_host.specs.Admission.{AllEvaluateSafely, AllEvaluateInSlices};

use crate::texts::*;
use cedar_conformance::entities::Entities;
use cedar_conformance::requests::{Request, RequestFault};
use cedar_data::{CheckedEntities, check_entities_text};
use cedar_host::accepted::AcceptedPolicies;
use cedar_host::admission::LinkedTemplate;
use cedar_host::checked::CheckedStore;
use cedar_types::base::{EntityType, EntityUID, Name, SlotEnv, ValidatorSchema};
use std::alloc::{AllocError, Global};
use std::collections::BTreeMap;
use std::fs;

/// The number of steps of the slices over which the service evaluates.
const STEPS: u32 = 2;

/// The principals of the requests: a type and an id each.
const PRINCIPALS: [(&str, &str); 2] = [("User", "ann"), ("Team", "red")];

/// Keeps the policies that validation accepts, and prints which.
fn accepted<'a, C: ArgumentCheck>(
    rt: &HostRuntime,
    validator: &'a Validator<'a, C>,
    written: &'a [WrittenPolicy],
    values: &'a SlotEnv,
) -> Result<AcceptedPolicies<'a, C>, HostError> {
    let mut policies = AcceptedPolicies::new(rt.alloc(), validator, SoundMode::Strict, STEPS);
    for policy in written {
        let template = &policy.template;
        match policies.add(rt.alloc(), LinkedTemplate { template, values })? {
            Ok(()) => println!(rt; "kept {}", template.id)?,
            Err(_fault) => println!(rt; "refused {}", template.id)?,
        }
    }
    Ok(policies)
}

/// Whether the policies may be evaluated for a request. Then each gives a boolean, or fails only for a missing entity, an
/// overflow or an extension function, and gives the same over each part of the store that has the slice of two steps.
fn let_in<C: ArgumentCheck>(
    alloc: Global,
    store: &CheckedStore<'_, '_, '_, C>,
    request: &Request,
) -> Result<Result<(), RequestFault>, AllocError>
    ensures safe { IfOk result (λ r. IsOk r
        → AllEvaluateSafely C.refusal store.now.0 request.now store.now.1) }
    ensures sliced { IfOk result (λ r. IsOk r
        → AllEvaluateInSlices C.refusal store.now.0 request.now store.now.1) }
{
    let answer = store.admit(alloc, request)?;
    Ok(answer)
}

/// A request to view the plan, by a principal of a type with an id.
fn view(alloc: Global, principal: (&str, &str)) -> Result<Request, AllocError> {
    Ok(Request {
        principal: entity(alloc, principal.0, principal.1)?,
        action: entity(alloc, "Action", "view")?,
        resource: entity(alloc, "Document", "plan")?,
        context: BTreeMap::new(alloc),
    })
}

fn entity(alloc: Global, type_name: &str, id: &str) -> Result<EntityUID, AllocError> {
    let entity_type = EntityType::from(Name::unqualified_name(alloc, type_name)?);
    EntityUID::from_components(alloc, entity_type, id, None)
}

/// Checks the entities once, and prints for each request whether it is let in.
fn serve<C: ArgumentCheck>(
    rt: &HostRuntime,
    policies: &AcceptedPolicies<'_, C>,
    entities: &Entities,
) -> Result<(), HostError> {
    let Ok(store) = CheckedStore::check(rt.alloc(), policies, entities)? else {
        return Err(HostError::UnfitEntities);
    };
    for principal in PRINCIPALS {
        let request = view(rt.alloc(), principal)?;
        match let_in(rt.alloc(), &store, &request)? {
            Ok(()) => println!(rt; "{} may be answered", request.principal)?,
            Err(fault) => println!(rt; "{} may not be answered: {fault}", request.principal)?,
        }
    }
    Ok(())
}

/// The entities of the file, if they conform to the schema.
fn read_entities(rt: &HostRuntime, schema: &ValidatorSchema) -> Result<Entities, HostError> {
    let text = fs::read_to_string(rt, "store/entities.json")?;
    let CheckedEntities {
        conforming,
        count: _count,
        faults: _faults,
        texts: _texts,
    } = check_entities_text(rt.alloc(), schema, &text)?;
    conforming.ok_or(HostError::UnfitEntities)
}

/// Keeps what validation accepts of the file, with the entities of another, and lets requests in.
fn serve_by<'a, C: ArgumentCheck>(
    rt: &HostRuntime,
    validator: &'a Validator<'a, C>,
    entities: &Entities,
) -> Result<(), HostError> {
    let text = fs::read_to_string(rt, "store/documents.cedar")?;
    let written = written_policies(rt.alloc(), &text)?;
    let values = BTreeMap::new(rt.alloc());
    let policies = accepted(rt, validator, &written, &values)?;
    serve(rt, &policies, entities)
}

/// Prints which policies and which requests the service takes.
pub fn run(rt: &HostRuntime) -> Result<(), HostError> {
    let alloc = rt.alloc();
    let schema = whole_schema(
        alloc,
        &fs::read_to_string(rt, "store/documents.cedarschema")?,
    )?;
    let entities = read_entities(rt, &schema)?;
    let extensions = ExtensionSchemas::default(alloc);
    serve_by(rt, &Validator::new(schema, &extensions), &entities)
}
