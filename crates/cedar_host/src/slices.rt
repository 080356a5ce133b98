//! Validation of policies for the slices that a host loads.
ghost use Rattle.std.specs.Prelude.{◌≡◌, true, map, option_map, All, IfOk, OnOk};
ghost use Rattle.cedar_types.specs.Templates.{template_of};
ghost use Rattle.cedar_typing.specs.PolicyCheck.Outcome.{Adds};
ghost use Rattle.cedar_typechecker.specs.Levels.Required.{IsRequiredLevel};
ghost use Rattle.cedar_typechecker.specs.Levels.Views.{findings};
ghost use Rattle.cedar_host.specs.Found.{AreFindingsWithin, IsReportOf, listed};
ghost use Rattle.cedar_host.specs.ResponseLaws.{IsUnneeded};
ghost use Rattle.cedar_host.specs.Responses.{HaveSameResponses};
ghost use Rattle.cedar_host.specs.Safety.{sound_basis, PassesEverywhere, DoesNotGoWrong};
ghost use Rattle.cedar_host.specs.Safety.{IsNeverTrue};
ghost use Rattle.cedar_host.specs.SetLevels.{IsLevelOfAll, level_in};
ghost use Rattle.cedar_host.specs.Slices.{NeedsSliceAlone, IsRightForSlices};

use crate::policy_sets::{Findings, WrittenPolicy, add_error, find};
use crate::reports::{PolicyReport, report};
use crate::safety::SoundMode;
use cedar_typechecker::rbac::Validator;
use cedar_typechecker::survey::Environments;
use cedar_types::base::{
    ArgumentCheck, EntityDerefLevel, Template, ValidationError, ValidationMode,
};
use std::alloc::{AllocError, Global};
use std::collections::{BTreeMap, BTreeSet};

/// A host's report on a policy that it evaluates over slices.
#[derive(Debug, Drop)]
pub struct SliceReport<'a> {
    /// The report, as on any policy. The policy is accepted only if it needs no more than the slice.
    pub report: PolicyReport<'a>,
    /// The required level: the least number of steps at which the policy has no level error; `None` if no number is
    /// enough.
    pub level: Option<EntityDerefLevel>,
}

/// Validates each policy of the set in this mode, for slices of `steps` steps, and reports on each.
/// Accepted policies do not go wrong and need the slice alone, and impossible ones are never true
/// (clause `right`). So an authoriser that has the accepted ones, each under a name, with an effect and
/// with its slots bound, answers a request over such a slice as over the whole store (clause
/// `responses`), and decides alike, by the same policies, if it leaves out an impossible one (clause
/// `unneeded`). A policy is accepted exactly where its checks, the passes over its names and its levels find nothing. A report
/// that refuses one lists an error, and each report lists its errors and its warnings in the order of their places (clause
/// `exact`). Where memory is refused, the answer is an `AllocError`.
pub fn validate_for_slices<'a, C: ArgumentCheck>(
    alloc: Global,
    validator: &Validator<'_, C>,
    mode: SoundMode,
    steps: u32,
    policies: &'a [WrittenPolicy],
) -> Result<Vec<SliceReport<'a>>, AllocError>
    ensures each { IfOk result (λ reports.
        map (λ r. r.report.policy.now) reports.items ≡ policies.now) }
    ensures right { IfOk result (λ reports.
        All (IsRightForSlices (sound_basis mode C.refusal validator.now) steps) reports.items) }
    ensures responses { IfOk result (λ reports.
        HaveSameResponses (sound_basis mode C.refusal validator.now) steps reports.items) }
    ensures unneeded { IfOk result (λ reports. All (λ r.
        IsUnneeded (sound_basis mode C.refusal validator.now) r.report) reports.items) }
    ensures exact { IfOk result (λ reports. All (λ r. IsReportOf
        (AreFindingsWithin steps (sound_basis mode C.refusal validator.now)) r.report)
        reports.items) }
{
    let mut reports = Vec::with_capacity(alloc, policies.len())?;
    for policy in policies {
        let found = validate_within(alloc, validator, mode, steps, &policy.template)?;
        let level = found.level;
        let own = report(alloc, policy, found)?;
        reports.push(SliceReport { report: own, level })?;
    }
    Ok(reports)
}

/// The required level of a set: the least number of steps at which no policy of these reports has a level error; `None` if no
/// number is enough.
pub fn level_of(reports: &[SliceReport<'_>]) -> Option<EntityDerefLevel>
    ensures { IsLevelOfAll (map level_in reports.now) (option_map (λ l. l.level) result) }
{
    let mut greatest = 0;
    for report in reports {
        let Some(level) = report.level else {
            return None;
        };
        if greatest < level.level {
            greatest = level.level;
        }
    }
    Some(EntityDerefLevel { level: greatest })
}

/// The findings in a policy, with a level error for each place where it dereferences more than `steps` entities, one after
/// another. Each environment is typed once, because one survey answers both. The policy is accepted exactly if neither its
/// checks, nor its names, nor its levels have an error, and each error is listed (clause `exact`). If memory is refused, the
/// answer is an `AllocError`.
pub fn validate_within<C: ArgumentCheck>(
    alloc: Global,
    validator: &Validator<'_, C>,
    mode: SoundMode,
    steps: u32,
    policy: &Template,
) -> Result<Findings, AllocError>
    ensures checked { IfOk result (λ found. found.is_accepted ≡ true
        → PassesEverywhere (sound_basis mode C.refusal validator.now) (template_of policy.now)) }
    ensures safe { IfOk result (λ found. found.is_accepted ≡ true
        → DoesNotGoWrong (sound_basis mode C.refusal validator.now) (template_of policy.now)) }
    ensures sliced { IfOk result (λ found. found.is_accepted ≡ true
        → NeedsSliceAlone (sound_basis mode C.refusal validator.now) (template_of policy.now)
        steps) }
    ensures never_true { IfOk result (λ found. found.is_impossible ≡ true
        → IsNeverTrue (sound_basis mode C.refusal validator.now) (template_of policy.now)) }
    ensures level { IfOk result (λ found.
        IsRequiredLevel (sound_basis mode C.refusal validator.now) (template_of policy.now)
        (option_map (λ l. l.level) found.level)) }
    ensures exact { IfOk result (AreFindingsWithin steps
        (sound_basis mode C.refusal validator.now) (template_of policy.now)) }
{
    let survey = validator.survey(alloc, policy, ValidationMode::from(mode))?;
    let exceeding = survey.level_errors(alloc, steps)?;
    let is_within = exceeding.is_empty();
    let mut findings = find(alloc, validator, policy, survey)?;
    add_exceeding(alloc, &mut findings.errors, exceeding)?;
    findings.is_accepted &= is_within;
    Ok(findings)
}

/// Adds level errors.
fn add_exceeding(
    alloc: Global,
    errors: &mut BTreeMap<ValidationError, Environments>,
    exceeding: BTreeSet<ValidationError>,
) -> Result<(), AllocError>
    ensures { OnOk result (Adds (listed errors.old) (findings exceeding.keys) (listed errors.new)) }
{
    for error in exceeding {
        add_error(alloc, errors, error)?;
    }
    Ok(())
}
