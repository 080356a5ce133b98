//! Stores that were checked once, and requests that are let in over them.
ghost use Rattle.std.specs.Prelude.{◌≡◌, ◌↔◌, true, IfOk, IfErr, IsOk};
ghost use Rattle.cedar_types.specs.Schemas.Contents.{schema_of};
ghost use Rattle.cedar_conformance.specs.Premises.{DataConforms};
ghost use Rattle.cedar_conformance.specs.RequestFaults.{request_has};
ghost use Rattle.cedar_conformance.specs.Requests.{request_of};
ghost use Rattle.cedar_host.specs.Accepted.{schema_by};
ghost use Rattle.cedar_host.specs.Admission.{AllEvaluateSafely, AllEvaluateInSlices};
ghost use Rattle.cedar_host.specs.CheckedStores.{IsChecked, IsFirstNotChecked};

use crate::accepted::AcceptedPolicies;
use cedar_conformance::entities::Entities;
use cedar_conformance::premises::PremiseFault;
use cedar_conformance::requests::{Request, RequestFault, check_request};
use cedar_conformance::schemas::has_external;
use cedar_conformance::stores::check_entities;
use cedar_types::base::ArgumentCheck;
use std::alloc::{AllocError, Global};
use std::marker::Model;

/// Accepted policies, with entities that conform to their schema, no part of which is declared elsewhere. Only `check` makes
/// it, so that a host whose entities stay checks them once for all requests.
#[derive(Drop)]
pub struct CheckedStore<'a, 'p, 'e, C: ArgumentCheck> {
    policies: &'p AcceptedPolicies<'a, C>,
    entities: &'e Entities,
}

// A contract sees the policies and the entities.
impl<'a, 'p, 'e, C: ArgumentCheck> Model for CheckedStore<'a, 'p, 'e, C> {
    ghost use Rattle.cedar_conformance.specs.declared.entities.Entities.{Entities};
    ghost use Rattle.cedar_host.specs.declared.accepted.AcceptedPolicies.{AcceptedPolicies};
    ghost use Rattle.cedar_host.specs.Accepted.{schema_by};
    ghost use Rattle.cedar_host.specs.CheckedStores.{IsChecked};

    ghost Value = { AcceptedPolicies C × Entities };

    ghost use Rattle.std.specs.Coded.{codes};
    ghost use Rattle.cedar_host.specs.declared.accepted.AcceptedPolicies.{the_code as accepted_code};
    ghost use Rattle.cedar_conformance.specs.contracts.entities.Entities as stored;

    ghost coded = { Prim.hlevel (codes, accepted_code, stored.the_row.coded) };

    ghost view = { λ s. (s.policies.now, s.entities.now) };

    ghost invariant = { λ s. IsChecked (schema_by s.policies.now) s.entities.now };
}

impl<'a, 'p, 'e, C: ArgumentCheck> CheckedStore<'a, 'p, 'e, C> {
    /// Checks the entities by the schema of the policies. The answer is Ok exactly if no part of the schema is declared
    /// elsewhere and the entities conform (clause `exact`). Else it is the fault of the schema, or those of the entities
    /// (clause `first`). If memory is refused, the answer is an `AllocError`.
    pub fn check(
        alloc: Global,
        policies: &'p AcceptedPolicies<'a, C>,
        entities: &'e Entities,
    ) -> Result<Result<CheckedStore<'a, 'p, 'e, C>, PremiseFault>, AllocError>
        ensures exact { IfOk result (λ r.
            IsOk r ↔ IsChecked (schema_by policies.now) entities.now) }
        ensures first { IfOk result (λ r. IfErr r (λ f.
            IsFirstNotChecked f (schema_by policies.now) entities.now)) }
        ensures made { IfOk result (λ r. IfOk r (λ s. s ≡ (policies.now, entities.now))) }
    {
        match check_closed_store(alloc, policies, entities)? {
            Ok(()) => Ok(Ok(CheckedStore { policies, entities })),
            Err(fault) => Ok(Err(fault)),
        }
    }

    /// Whether the policies may be evaluated for this request over the entities, none of which is looked at again. The answer
    /// is Ok exactly if the request conforms, because then all data does (clause `exact`). Then each policy evaluates to a
    /// boolean, or fails only for a missing entity, an overflow or an extension function (clause `safe`), and gives the same
    /// result over each part of the entities that has the slice (clause `sliced`). The only remaining premise is that the
    /// extension functions keep the validator's table. Else the answer is the first fault of the request (clause `first`). If
    /// memory is refused, the answer is an `AllocError`.
    pub fn admit(
        &self,
        alloc: Global,
        request: &Request,
    ) -> Result<Result<(), RequestFault>, AllocError>
        ensures exact { IfOk result (λ r.
            IsOk r ↔ DataConforms (schema_by self.now.0) request.now self.now.1) }
        ensures first { IfOk result (λ r. IfErr r (λ f.
            request_has (schema_of (schema_by self.now.0)) (request_of request.now) f ≡ true)) }
        ensures safe { IfOk result (λ r. IsOk r
            → AllEvaluateSafely C.refusal self.now.0 request.now self.now.1) }
        ensures sliced { IfOk result (λ r. IsOk r
            → AllEvaluateInSlices C.refusal self.now.0 request.now self.now.1) }
    {
        // the clause of this call tells the proof that each policy is admissible
        let _accepted = self.policies.policies();
        let checked = check_request(alloc, self.policies.schema(), request)?;
        Ok(checked)
    }
}

/// Checks that no part of the schema is declared elsewhere, and that the entities conform to it.
fn check_closed_store<C: ArgumentCheck>(
    alloc: Global,
    policies: &AcceptedPolicies<'_, C>,
    entities: &Entities,
) -> Result<Result<(), PremiseFault>, AllocError>
    ensures exact { IfOk result (λ r.
        IsOk r ↔ IsChecked (schema_by policies.now) entities.now) }
    ensures first { IfOk result (λ r. IfErr r (λ f.
        IsFirstNotChecked f (schema_by policies.now) entities.now)) }
{
    let schema = policies.schema();
    let is_external = has_external(alloc, schema)?;
    if is_external {
        return Ok(Err(PremiseFault::External));
    }
    match check_entities(alloc, schema, entities)? {
        Ok(()) => Ok(Ok(())),
        Err(faults) => Ok(Err(PremiseFault::Entities(faults))),
    }
}
