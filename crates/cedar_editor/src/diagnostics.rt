//! Diagnostics: the faults and findings of a document, as an editor shows them.
ghost use Rattle.std.specs.Prelude.{◌≡◌, false, [], ◌++◌, length, map, string_bytes, All, IfOk, OnOk};
ghost use Rattle.std.specs.List.{position_or_len};
ghost use Rattle.cedar_findings.specs.declared.codes.Code.TheVariants as Code;
ghost use Rattle.cedar_findings.specs.declared.findings.Severity.TheVariants as Severity;
ghost use Rattle.cedar_editor.specs.Diagnostics.{ends_line, finding_marks, marks_of, marks_of_policy, marks_of_same_ids, place_in, AreDiagnosticsOf};
ghost use Rattle.cedar_editor.specs.Documents.{ShowsNoError};

use crate::checks::place_of;
use crate::documents::PlacedPolicy;
use crate::schemas::SchemaText;
use cedar_findings::codes::Code;
use cedar_findings::findings::{Finding, Severity};
use cedar_types::base::Loc;
use std::alloc::{AllocError, Global};
use std::collections::{HashMap, HashSet};
use std::rc::RcStr;

/// A diagnostic: a message about a place of a document.
#[derive(Drop)]
pub struct Diagnostic {
    pub place: Loc,
    pub severity: Severity,
    pub code: Code,
    pub message: String,
    /// The other place that the message is about, if there is one.
    pub other: Option<Loc>,
}

/// The diagnostics of the policies of a document, in their order, and behind them those of ids that come twice. Each fault and each
/// finding is told at its place, and nothing else is told of a policy but that its id comes twice (clause `exact`). If there is
/// none, no error of a policy is shown (clause `silent`). If memory is refused, the answer is an `AllocError`.
pub fn policy_diagnostics(
    alloc: Global,
    policies: &[PlacedPolicy],
) -> Result<Vec<Diagnostic>, AllocError>
    ensures exact { IfOk result (λ told. AreDiagnosticsOf policies.now told.items) }
    ensures silent { IfOk result (λ told. length told.items ≡ 0
        → All ShowsNoError policies.now) }
{
    let mut told = Vec::new(alloc);
    for placed in policies {
        add_policy(alloc, placed, &mut told)?;
    }
    add_same_ids(alloc, policies, &mut told)?;
    Ok(told)
}

/// The diagnostics of a schema: its faults. If memory is refused, the answer is an `AllocError`.
pub fn schema_diagnostics(
    alloc: Global,
    schema: &SchemaText,
) -> Result<Vec<Diagnostic>, AllocError> {
    let mut told = Vec::new(alloc);
    for fault in &schema.faults {
        told.push(plain(alloc, fault.place, Code::Fault, fault.text.as_str())?)?;
    }
    Ok(told)
}

/// Adds the diagnostics of a policy: its fault, its errors and its warnings.
pub fn add_policy(
    alloc: Global,
    placed: &PlacedPolicy,
    told: &mut Vec<Diagnostic>,
) -> Result<(), AllocError>
    ensures { OnOk result (map marks_of told.new.items
        ≡ map marks_of told.old.items ++ marks_of_policy placed.now) }
{
    let policy = placed.policy();
    if policy.finding_count() == 0 {
        return Ok(());
    }
    if let Some(fault) = &policy.fault {
        let place = placed.place(fault.place);
        told.push(plain(alloc, place, Code::Fault, fault.text.as_str())?)?;
    }
    if let Some(verdict) = &policy.verdict {
        let errors = verdict.errors.as_slice();
        add_findings(alloc, placed, Severity::Error, errors, told)?;
        let warnings = verdict.warnings.as_slice();
        add_findings(alloc, placed, Severity::Warning, warnings, told)?;
    }
    Ok(())
}

/// Adds a diagnostic for each of these findings of a policy.
fn add_findings(
    alloc: Global,
    placed: &PlacedPolicy,
    severity: Severity,
    findings: &[Finding],
    told: &mut Vec<Diagnostic>,
) -> Result<(), AllocError>
    ensures { OnOk result (map marks_of told.new.items ≡ map marks_of told.old.items
        ++ map (finding_marks placed.now.start severity) findings.now) }
{
    for finding in findings {
        told.push(of_finding(alloc, placed, severity, finding)?)?;
    }
    Ok(())
}

/// The diagnostic of a finding: its words, its hint, the other types that have it, and the environments to which it is limited.
pub fn of_finding(
    alloc: Global,
    placed: &PlacedPolicy,
    severity: Severity,
    finding: &Finding,
) -> Result<Diagnostic, AllocError>
    ensures { IfOk result (λ told.
        marks_of told ≡ finding_marks placed.now.start severity finding.now) }
{
    let mut message = String::from_str(alloc, finding.text.as_str())?;
    if !finding.hint.is_empty() {
        message.push_str("; ")?;
        message.push_str(finding.hint.as_str())?;
    }
    for other in &finding.also {
        write!(message, "\nthe same for {other}")?;
    }
    for environment in &finding.environments {
        write!(message, "\nonly for {environment}")?;
    }
    Ok(Diagnostic {
        place: placed.place(place_of(finding)),
        severity,
        code: finding.code,
        message,
        other: None,
    })
}

/// Whether two policies may have one id, because their ids have one sum.
fn may_share_ids(alloc: Global, policies: &[PlacedPolicy]) -> Result<bool, AllocError>
    ensures { IfOk result (λ may. may ≡ false → marks_of_same_ids policies.now ≡ []) }
{
    let mut seen = HashSet::with_capacity(alloc, policies.len())?;
    for (number, placed) in policies.iter().enumerate() {
        if !seen.insert(placed.policy.id_sum(alloc, number)?)? {
            return Ok(true);
        }
    }
    Ok(false)
}

/// Adds a diagnostic for each policy that has the id of an earlier one, at its first line. The other place is the first line of
/// the first policy that has this id.
fn add_same_ids(
    alloc: Global,
    policies: &[PlacedPolicy],
    told: &mut Vec<Diagnostic>,
) -> Result<(), AllocError>
    ensures { OnOk result (map marks_of told.new.items
        ≡ map marks_of told.old.items ++ marks_of_same_ids policies.now) }
{
    // ids are compared only if two may be alike, because a change comes with each letter that is written
    if !may_share_ids(alloc, policies)? {
        return Ok(());
    }
    let mut lines: HashMap<RcStr, Loc> = HashMap::with_capacity(alloc, policies.len())?;
    for (number, placed) in policies.iter().enumerate() {
        let id = placed.policy.id(alloc, number)?;
        let place = first_line(placed);
        match lines.get(&id).copied() {
            Some(other) => told.push(same_id(alloc, place, other, id.as_str())?)?,
            None => {
                lines.insert(id, place)?;
            }
        }
    }
    Ok(())
}

/// The place of a policy's first line.
fn first_line(placed: &PlacedPolicy) -> Loc
    ensures { result ≡ place_in placed.now.start 0
        (position_or_len ends_line (string_bytes placed.now.policy.value.text)) }
{
    let end = first_end(placed.policy.text.as_str());
    placed.place(Loc { start: 0, end })
}

/// The byte at which the first line of a text ends.
fn first_end(text: &str) -> usize
    ensures { result ≡ position_or_len ends_line text.now }
{
    let bytes = text.as_bytes();
    let mut end = 0;
    while end < bytes.len() && !ends_line(bytes[end]) {
        end += 1;
    }
    end
}

fn ends_line(byte: u8) -> bool
    ensures { result ≡ ends_line byte }
{
    byte == b'\n' || byte == b'\r'
}

/// The diagnostic that a policy whose first line stands at this place has the id of another one.
fn same_id(alloc: Global, place: Loc, other: Loc, id: &str) -> Result<Diagnostic, AllocError>
    ensures { IfOk result (λ told. marks_of told
        ≡ record { place = place; severity = Severity.Error; code = Code.SameId }) }
{
    Ok(Diagnostic {
        place,
        severity: Severity::Error,
        code: Code::SameId,
        message: format!(in alloc; "another policy of this file has the id `{id}`")?,
        other: Some(other),
    })
}

fn plain(alloc: Global, place: Loc, code: Code, text: &str) -> Result<Diagnostic, AllocError>
    ensures { IfOk result (λ told.
        marks_of told ≡ record { place = place; severity = Severity.Error; code = code }) }
{
    Ok(Diagnostic {
        place,
        severity: Severity::Error,
        code,
        message: String::from_str(alloc, text)?,
        other: None,
    })
}
