//! Policies that validation accepts, in a value that only validation makes.
ghost use Rattle.std.specs.Prelude.{◌≡◌, [], All, IfOk, IfErr, IsOk, MatchResult, OnErr, ◌↔◌};
ghost use Rattle.cedar_typing.specs.Soundness.Policies.{IsWellFormed};
ghost use Rattle.cedar_host.specs.Accepted.{AcceptsExactly, IsAdmissible, IsFaultOfForm, template_in, slots_in};
ghost use Rattle.cedar_host.specs.Accepted.{basis_by, policies_in, schema_by, steps_by, with_policy};
ghost use Rattle.cedar_host.specs.Safety.{sound_basis};

use crate::admission::{AdmissionFault, LinkedTemplate};
use crate::safety::SoundMode;
use crate::slices::validate_within;
use cedar_conformance::policies::check_policy;
use cedar_typechecker::rbac::Validator;
use cedar_types::base::{ArgumentCheck, ValidatorSchema};
use std::alloc::{AllocError, Global};
use std::marker::Model;

/// Policies that one validator accepts, in a mode and for slices of some steps, each with the entities to which its slots are
/// bound. Only `add` puts one in, if validation accepts it, so that you need not trust a report.
#[derive(Drop)]
pub struct AcceptedPolicies<'a, C: ArgumentCheck> {
    validator: &'a Validator<'a, C>,
    mode: SoundMode,
    steps: u32,
    policies: Vec<LinkedTemplate<'a>>,
}

// A contract sees the validator, the mode, the steps and the policies.
impl<'a, C: ArgumentCheck> Model for AcceptedPolicies<'a, C> {
    ghost use Rattle.std.specs.Prelude.{ℕ, List, All};
    ghost use Rattle.cedar_typechecker.specs.declared.rbac.validator.Validator.{Validator};
    ghost use Rattle.cedar_host.specs.declared.admission.LinkedTemplate.{LinkedTemplate};
    ghost use Rattle.cedar_host.specs.declared.safety.SoundMode.{SoundMode};
    ghost use Rattle.cedar_host.specs.Accepted.{IsAdmissible};
    ghost use Rattle.cedar_host.specs.Safety.{sound_basis};

    ghost Value = { Validator C × SoundMode × ℕ × List LinkedTemplate };

    ghost use Rattle.std.specs.Coded.{codes};
    ghost use Rattle.std.specs.Prelude.{[]};
    ghost use Rattle.std.specs.declared.collections.BTreeSet.{the_code as set_code};
    ghost use Rattle.cedar_types.specs.contracts.base.schema.ValidatorSchema as validator_schema;
    ghost use Rattle.cedar_types.specs.contracts.base.types.CedarType as cedar_type;
    ghost use Rattle.cedar_host.specs.contracts.admission.LinkedTemplate as linked_template;
    ghost use mir.Syntax.{named};

    // The view holds values of these types. A type with a lifetime needs its row at some lifetime, so one is made up here.
    ghost coded = { Prim.hlevel (
      codes,
      set_code,
      cedar_type.the_row.coded,
      validator_schema.the_row.coded,
      (linked_template.the_row (record { mir = named 0; lft = [] })).coded,
    ) };

    ghost view = { λ a. (a.validator.now, a.mode, a.steps, a.policies.items) };

    ghost invariant = { λ a.
        All (IsAdmissible (sound_basis a.mode C.refusal a.validator.now) a.steps) a.policies.items };
}

impl<'a, C: ArgumentCheck> AcceptedPolicies<'a, C> {
    /// No policies yet, for slices of `steps` steps. It takes no memory.
    pub fn new(
        alloc: Global,
        validator: &'a Validator<'a, C>,
        mode: SoundMode,
        steps: u32,
    ) -> AcceptedPolicies<'a, C>
        ensures { result ≡ (validator.now, mode, steps, []) }
    {
        AcceptedPolicies {
            validator,
            mode,
            steps,
            policies: Vec::new(alloc),
        }
    }

    /// Validates a policy for the slices, checks it with its links, and puts it behind the others if both pass (clause
    /// `added`): validation accepts it, it has no unknowns, and its slots stand only in its scope and are bound. Else the
    /// answer is its first fault (clause `exact`), and nothing changes. A template that is linked several times is validated
    /// each time. If memory is refused, nothing changes (clause `failed`).
    pub fn add(
        &mut self,
        alloc: Global,
        policy: LinkedTemplate<'a>,
    ) -> Result<Result<(), AdmissionFault>, AllocError>
        ensures exact { IfOk result (λ r. AcceptsExactly (basis_by C.refusal self.old)
            (steps_by self.old) policy.entry r) }
        ensures added { IfOk result (λ r. MatchResult r
            (λ _. self.new ≡ with_policy self.old policy.entry) (λ _. self.new ≡ self.old)) }
        ensures failed { OnErr result (self.new ≡ self.old) }
    {
        match check_linked(alloc, self.validator, self.mode, self.steps, &policy)? {
            Ok(()) => {
                self.policies.push(policy)?;
                Ok(Ok(()))
            }
            Err(fault) => Ok(Err(fault)),
        }
    }

    /// The policies, in the order in which they were added. Each passes its checks, needs only the slice of a store, and is
    /// well-formed with its links (clause `admissible`).
    pub fn policies(&self) -> &[LinkedTemplate<'a>]
        ensures same { result.now ≡ policies_in self.now }
        ensures admissible { All
            (IsAdmissible (basis_by C.refusal self.now) (steps_by self.now))
            (policies_in self.now) }
    {
        &self.policies
    }

    /// The schema by which the policies were validated.
    pub fn schema(&self) -> &ValidatorSchema
        ensures { result.now ≡ schema_by self.now }
    {
        self.validator.schema()
    }
}

/// Validates a policy for slices, and checks it with its links.
fn check_linked<C: ArgumentCheck>(
    alloc: Global,
    validator: &Validator<'_, C>,
    mode: SoundMode,
    steps: u32,
    policy: &LinkedTemplate<'_>,
) -> Result<Result<(), AdmissionFault>, AllocError>
    ensures exact { IfOk result (λ r. AcceptsExactly (sound_basis mode C.refusal validator.now)
        steps policy.now r) }
    ensures admissible { IfOk result (λ r. IsOk r
        → IsAdmissible (sound_basis mode C.refusal validator.now) steps policy.now) }
{
    let found = validate_within(alloc, validator, mode, steps, policy.template)?;
    let is_accepted = found.is_accepted;
    if !is_accepted {
        let id = policy.template.id.clone()?;
        return Ok(Err(AdmissionFault::NotAccepted(id)));
    }
    let checked = check_links(alloc, policy)?;
    Ok(checked)
}

fn check_links(
    alloc: Global,
    policy: &LinkedTemplate<'_>,
) -> Result<Result<(), AdmissionFault>, AllocError>
    ensures exact { IfOk result (λ r.
        IsOk r ↔ IsWellFormed (template_in policy.now) (slots_in policy.now)) }
    ensures fault { IfOk result (λ r. IfErr r (λ f. IsFaultOfForm f policy.now)) }
{
    match check_policy(alloc, policy.template, policy.values)? {
        Ok(()) => Ok(Ok(())),
        Err(fault) => {
            let id = policy.template.id.clone()?;
            Ok(Err(AdmissionFault::Policy(id, fault)))
        }
    }
}
