//! Admission of policies, a request and entities before anything is evaluated. Policies that pass keep the promise of
//! validation. You must see to two things as a host: your extension functions keep the validator's table, and your evaluator is
//! the one that docs/PROFILE.md describes, over the very request, entities and links that were checked.
ghost use Rattle.std.specs.Prelude.{◌↔◌, IfOk, IfErr, IsOk};
ghost use Rattle.cedar_types.specs.Templates.{template_of};
ghost use Rattle.cedar_typechecker.specs.ValidatorViews.{schema_in};
ghost use Rattle.cedar_conformance.specs.PolicyTests.{slots_of};
ghost use Rattle.cedar_conformance.specs.Premises.{ArePremises};
ghost use Rattle.cedar_host.specs.Accepted.{schema_by};
ghost use Rattle.cedar_host.specs.Admission.{IsAdmitted, AllEvaluateSafely, AllEvaluateInSlices, EvaluatesInSlices, LetsInExactly, IsFirstNotAdmitted, IsFirstPremise};
ghost use Rattle.cedar_host.specs.Safety.{sound_basis};

use crate::accepted::AcceptedPolicies;
use crate::safety::SoundMode;
use crate::slices::validate_within;
use cedar_conformance::entities::Entities;
use cedar_conformance::policies::PolicyFault;
use cedar_conformance::premises::{PremiseFault, check_data, check_premises};
use cedar_conformance::requests::Request;
use cedar_conformance::schemas::has_external;
use cedar_typechecker::rbac::Validator;
use cedar_types::base::{ArgumentCheck, PolicyID, SlotEnv, Template, ValidatorSchema};
use std::alloc::{AllocError, Global};

/// A policy with the entities to which its slots are bound.
#[derive(Drop)]
pub struct LinkedTemplate<'a> {
    pub template: &'a Template,
    pub values: &'a SlotEnv,
}

/// The reason for which nothing is promised: the first one found.
#[derive(Debug, PartialEq, Eq, Drop)]
pub enum AdmissionFault {
    /// Validation does not accept this policy.
    NotAccepted(PolicyID),
    /// This policy with its links is not well-formed.
    Policy(PolicyID, PolicyFault),
    /// Another premise is not met.
    Premise(PremiseFault),
}

/// Whether accepted policies may be evaluated for this request over these entities: no part of their schema is declared
/// elsewhere, and the data conforms. The answer is Ok exactly if both hold (clause `exact`). Else it is the fault of the
/// schema, or of the data (clause `first`). If you let in many requests over the same entities, check these once with
/// `checked::CheckedStore`.
///
/// If the answer is Ok, each policy evaluates to a boolean, or fails only for a missing entity, an overflow or an extension
/// function (clause `safe`), and gives the same result over each part of the entities that has the slice (clause `sliced`). The
/// only remaining premise is that the extension functions keep the validator's table. If memory is refused, the answer is an
/// `AllocError`.
pub fn admit<C: ArgumentCheck>(
    alloc: Global,
    policies: &AcceptedPolicies<'_, C>,
    request: &Request,
    entities: &Entities,
) -> Result<Result<(), PremiseFault>, AllocError>
    ensures exact { IfOk result (λ r.
        IsOk r ↔ IsAdmitted (schema_by policies.now) request.now entities.now) }
    ensures first { IfOk result (λ r. IfErr r (λ f.
        IsFirstNotAdmitted f (schema_by policies.now) request.now entities.now)) }
    ensures safe { IfOk result (λ r. IsOk r
        → AllEvaluateSafely C.refusal policies.now request.now entities.now) }
    ensures sliced { IfOk result (λ r. IsOk r
        → AllEvaluateInSlices C.refusal policies.now request.now entities.now) }
{
    // the clause of this call tells the proof that each policy is admissible
    let _accepted = policies.policies();
    let checked = check_closed_data(alloc, policies.schema(), request, entities)?;
    Ok(checked)
}

/// Checks that no part of the schema is declared elsewhere, and that the data conforms.
fn check_closed_data(
    alloc: Global,
    schema: &ValidatorSchema,
    request: &Request,
    entities: &Entities,
) -> Result<Result<(), PremiseFault>, AllocError>
    ensures exact { IfOk result (λ r.
        IsOk r ↔ IsAdmitted schema.now request.now entities.now) }
    ensures first { IfOk result (λ r. IfErr r (λ f.
        IsFirstNotAdmitted f schema.now request.now entities.now)) }
{
    let is_external = has_external(alloc, schema)?;
    if is_external {
        return Ok(Err(PremiseFault::External));
    }
    let checked = check_data(alloc, schema, request, entities)?;
    Ok(checked)
}

/// Validates a policy for slices of `steps` steps, and checks it with its links, the request and the entities. The answer is Ok
/// exactly if validation accepts the policy and the premises are met; else it is the first fault: validation refuses the
/// policy, or the first premise that is not met (clause `exact`). If the answer is Ok, the policy evaluates to a boolean, or
/// fails only for a missing entity, an overflow or an extension function, and gives the same result over each part of the
/// entities that has the slice (clause `sliced`). The only remaining premise is that the extension functions keep the
/// validator's table. If memory is refused, the answer is an `AllocError`.
pub fn validate_and_admit<C: ArgumentCheck>(
    alloc: Global,
    validator: &Validator<'_, C>,
    mode: SoundMode,
    steps: u32,
    policy: &LinkedTemplate<'_>,
    request: &Request,
    entities: &Entities,
) -> Result<Result<(), AdmissionFault>, AllocError>
    ensures sliced { IfOk result (λ r. IsOk r
        → EvaluatesInSlices (sound_basis mode C.refusal validator.now) steps request.now
        entities.now
        (template_of policy.now.template.now) (slots_of policy.now.values.now)) }
    ensures exact { IfOk result (λ r. LetsInExactly (sound_basis mode C.refusal validator.now) steps
        (schema_in validator.now) policy.now request.now entities.now r) }
{
    let found = validate_within(alloc, validator, mode, steps, policy.template)?;
    let is_accepted = found.is_accepted;
    if !is_accepted {
        let id = policy.template.id.clone()?;
        return Ok(Err(AdmissionFault::NotAccepted(id)));
    }
    let schema = validator.schema();
    let checked = check_accepted(alloc, schema, policy, request, entities)?;
    Ok(checked)
}

fn check_accepted(
    alloc: Global,
    schema: &ValidatorSchema,
    policy: &LinkedTemplate<'_>,
    request: &Request,
    entities: &Entities,
) -> Result<Result<(), AdmissionFault>, AllocError>
    ensures exact { IfOk result (λ r. IsOk r ↔ ArePremises schema.now policy.now.template.now
        policy.now.values.now request.now entities.now) }
    ensures first { IfOk result (λ r. IfErr r (λ f.
        IsFirstPremise f schema.now policy.now request.now entities.now)) }
{
    match check_premises(
        alloc,
        schema,
        policy.template,
        policy.values,
        request,
        entities,
    )? {
        Ok(()) => Ok(Ok(())),
        Err(fault) => Ok(Err(AdmissionFault::Premise(fault))),
    }
}
