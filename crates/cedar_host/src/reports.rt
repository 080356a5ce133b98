//! A host's report on a policy, and the part of it that the host may keep when the policy has gone.
ghost use Rattle.std.specs.BTreeMap.{values};
ghost use Rattle.std.specs.Prelude.{◌≡◌, [], IfOk, OnOk};
ghost use Rattle.cedar_types.specs.Names.{text_of};
ghost use Rattle.cedar_host.specs.Found.{ListsAnError};
ghost use Rattle.cedar_host.specs.ReportOrder.{AreInOrder, IsInOrder, places_of_errors, places_of_warnings};

use crate::policy_sets::{Findings, WrittenPolicy};
use cedar_typechecker::survey::Environments;
use cedar_types::base::{
    Effect, Escaped, Loc, Message, OneLine, PolicyID, ValidationError, ValidationWarning,
};
use std::alloc::{AllocError, Global};
use std::collections::BTreeMap;
use std::fmt;

/// The possible reasons if a policy is refused without an error.
const UNEXPLAINED: &str = "no error says why: an unknown, or too deep a nesting";

/// An error of a policy. It is shown as its line.
#[derive(Debug, Drop)]
pub struct PolicyError {
    /// The error's place in the policy's text, if it is known.
    pub place: Option<Loc>,
    /// The message on one line, without the policy's id.
    pub message: String,
    /// The place, the policy's text at it, the policy's id and the message, on one line.
    pub line: String,
    /// The error itself; `None` for a policy that is refused without one.
    pub error: Option<ValidationError>,
    /// The environments in which typing finds the error: none for an error that typing does not find, for example an
    /// unknown name.
    pub environments: Environments,
}

impl fmt::Display for PolicyError {
    fn fmt<W: fmt::Write>(&self, f: &mut fmt::Formatter<W>) -> fmt::Result {
        write!(f, "{}", self.line)
    }
}

/// A warning: a possible slip in a policy. It is shown as its line.
#[derive(Debug, Drop)]
pub struct PolicyWarning {
    /// The warning's place in the policy's text, if it is known.
    pub place: Option<Loc>,
    /// The message on one line, without the policy's id.
    pub message: String,
    /// The policy's id and the message, on one line.
    pub line: String,
    pub warning: ValidationWarning,
}

impl fmt::Display for PolicyWarning {
    fn fmt<W: fmt::Write>(&self, f: &mut fmt::Formatter<W>) -> fmt::Result {
        write!(f, "{}", self.line)
    }
}

/// A host's report on a policy.
#[derive(Debug, Drop)]
pub struct PolicyReport<'a> {
    pub policy: &'a WrittenPolicy,
    pub is_accepted: bool,
    pub is_impossible: bool,
    /// The errors in the order of their places, first those without a place. Errors that are shown alike are listed once.
    pub errors: Vec<PolicyError>,
    /// The warnings in the order of their places.
    pub warnings: Vec<PolicyWarning>,
}

/// A report that owns its parts, with the policy's id in place of the policy.
#[derive(Debug, Drop)]
pub struct KeptReport {
    pub policy: PolicyID,
    pub effect: Effect,
    pub is_accepted: bool,
    pub is_impossible: bool,
    pub errors: Vec<PolicyError>,
    pub warnings: Vec<PolicyWarning>,
}

impl PolicyReport<'_> {
    /// The report that a host may keep when the policy has gone. If memory is refused, the answer is an `AllocError`.
    pub fn keep(self) -> Result<KeptReport, AllocError>
        ensures policy { IfOk result (λ kept.
            text_of kept.policy.text ≡ text_of self.entry.policy.now.template.id.text) }
        ensures effect { IfOk result (λ kept. kept.effect ≡ self.entry.policy.now.effect) }
        ensures accepted { IfOk result (λ kept. kept.is_accepted ≡ self.entry.is_accepted) }
        ensures impossible { IfOk result (λ kept. kept.is_impossible ≡ self.entry.is_impossible) }
        ensures errors { IfOk result (λ kept. kept.errors ≡ self.entry.errors) }
        ensures warnings { IfOk result (λ kept. kept.warnings ≡ self.entry.warnings) }
    {
        Ok(KeptReport {
            policy: self.policy.template.id.clone()?,
            effect: self.policy.effect,
            is_accepted: self.is_accepted,
            is_impossible: self.is_impossible,
            errors: self.errors,
            warnings: self.warnings,
        })
    }
}

/// The key by which findings are ordered: the place, then the line that is shown.
#[derive(PartialEq, Eq, PartialOrd, Ord, Drop)]
struct Order {
    place: Option<Loc>,
    line: String,
}

/// The report on a policy with these findings. A refused policy has at least one error, because a reader must see a reason.
pub(crate) fn report<'a>(
    alloc: Global,
    policy: &'a WrittenPolicy,
    findings: Findings,
) -> Result<PolicyReport<'a>, AllocError>
    ensures policy { IfOk result (λ r. r.policy ≡ policy.entry) }
    ensures accepted { IfOk result (λ r. r.is_accepted ≡ findings.is_accepted) }
    ensures impossible { IfOk result (λ r. r.is_impossible ≡ findings.is_impossible) }
    ensures refused { IfOk result (λ r. ListsAnError r) }
    ensures ordered { IfOk result IsInOrder }
{
    let is_accepted = findings.is_accepted;
    let is_impossible = findings.is_impossible;
    let warnings = warnings(alloc, findings.warnings)?;
    let mut errors = errors(alloc, policy, findings.errors)?;
    if !is_accepted {
        explain(alloc, &policy.template.id, &mut errors)?;
    }
    Ok(PolicyReport {
        policy,
        is_accepted,
        is_impossible,
        errors,
        warnings,
    })
}

/// Adds an error to a list without any: it tells that the reason is not known.
fn explain(
    alloc: Global,
    policy: &PolicyID,
    errors: &mut Vec<PolicyError>,
) -> Result<(), AllocError>
    ensures some { OnOk result (errors.new.items ≡ [] → ⊥) }
    ensures ordered { OnOk result (AreInOrder (places_of_errors errors.old.items)
        → AreInOrder (places_of_errors errors.new.items)) }
{
    if errors.is_empty() {
        errors.push(unexplained_error(alloc, policy)?)?;
    }
    Ok(())
}

/// The errors in the order of their places.
fn errors(
    alloc: Global,
    policy: &WrittenPolicy,
    found: BTreeMap<ValidationError, Environments>,
) -> Result<Vec<PolicyError>, AllocError>
    ensures { IfOk result (λ shown. AreInOrder (places_of_errors shown.items)) }
{
    let mut ordered = BTreeMap::new(alloc);
    for (error, environments) in found {
        let shown = render_error(alloc, policy, error, environments)?;
        let line = shown.line.clone()?;
        let place = shown.place;
        ordered.insert(Order { place, line }, shown)?;
    }
    in_order(alloc, ordered)
}

/// The warnings in the order of their places.
fn warnings(alloc: Global, found: Vec<ValidationWarning>) -> Result<Vec<PolicyWarning>, AllocError>
    ensures { IfOk result (λ shown. AreInOrder (places_of_warnings shown.items)) }
{
    let mut ordered = BTreeMap::new(alloc);
    for warning in found {
        let shown = render_warning(alloc, warning)?;
        let line = shown.line.clone()?;
        let place = shown.place;
        ordered.insert(Order { place, line }, shown)?;
    }
    in_order(alloc, ordered)
}

/// The values of a map, in the order of its keys.
fn in_order<T: Drop>(alloc: Global, ordered: BTreeMap<Order, T>) -> Result<Vec<T>, AllocError>
    ensures { IfOk result (λ all. all.items ≡ values ordered) }
{
    let mut all = Vec::new(alloc);
    for (_order, one) in ordered {
        all.push(one)?;
    }
    Ok(all)
}

/// An error as it is shown: its place, the policy's text at it, and its message.
fn render_error(
    alloc: Global,
    policy: &WrittenPolicy,
    error: ValidationError,
    environments: Environments,
) -> Result<PolicyError, AllocError> {
    let message = Message(&error).to_string(alloc)?;
    let message = one_line(alloc, &message)?;
    let shown = error.to_string(alloc)?;
    let place = error.source_loc();
    let line = line(alloc, &policy.text, place, &shown)?;
    Ok(PolicyError {
        place,
        message,
        line,
        error: Some(error),
        environments,
    })
}

fn render_warning(alloc: Global, warning: ValidationWarning) -> Result<PolicyWarning, AllocError> {
    let message = Message(&warning).to_string(alloc)?;
    let shown = warning.to_string(alloc)?;
    Ok(PolicyWarning {
        place: warning.source_loc(),
        message: one_line(alloc, &message)?,
        line: line(alloc, "", None, &shown)?,
        warning,
    })
}

/// A text on one line.
fn one_line(alloc: Global, text: &str) -> Result<String, AllocError> {
    format!(in alloc; "{}", OneLine(text))
}

/// A text on one line, behind its place and the policy's text at that place.
fn line(alloc: Global, text: &str, place: Option<Loc>, shown: &str) -> Result<String, AllocError> {
    let shown = OneLine(shown);
    let Some(Loc { start, end }) = place else {
        return format!(in alloc; "{shown}");
    };
    let part = OneLine(text.get(start..end).unwrap_or(""));
    format!(in alloc; "{start}..{end} `{part}`: {shown}")
}

/// The error of a policy that is refused without one.
fn unexplained_error(alloc: Global, policy: &PolicyID) -> Result<PolicyError, AllocError> {
    let id = Escaped(policy.text.as_str());
    Ok(PolicyError {
        place: None,
        message: String::from_str(alloc, UNEXPLAINED)?,
        line: format!(in alloc; "for policy `{id}`, {UNEXPLAINED}")?,
        error: None,
        environments: Environments::none(alloc),
    })
}
