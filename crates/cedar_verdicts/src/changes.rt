//! Comparison of the verdicts on policies by an older schema and by a newer one.
ghost use Rattle.std.specs.Prelude.{◌≡◌, IfOk};
ghost use Rattle.cedar_verdicts.specs.Changes.{needs_more, is_worse_by};
ghost use Rattle.cedar_verdicts.specs.Impossible.{calls_impossible, has_impossible};

use crate::settings::Settings;
use crate::texts::{PolicyText, PolicyVerdicts, Said};
use cedar_findings::changes::{Change, Comparison};
use cedar_findings::codes::Code;
use cedar_findings::environment_changes::EnvironmentChanges;
use cedar_findings::faults::TextFault;
use cedar_findings::findings::{Finding, Requirement, Severity, Verdict};
use cedar_types::base::{ArgumentCheck, ExtensionSchemas, Template};
use std::alloc::{AllocError, Global};

/// Whether a policy is worse off by the second verdict: the first accepts it, and the second refuses it, newly calls it
/// impossible, or requires more steps. A policy that was refused cannot be worse off.
pub fn is_worse(old: &Verdict, new: &Verdict) -> bool
    ensures { result ≡ is_worse_by old.now new.now }
{
    let is_refused = !new.is_accepted;
    let is_newly_impossible = is_impossible(new) & !is_impossible(old);
    old.is_accepted & (is_refused | (is_newly_impossible | rises(old.requirement, new.requirement)))
}

/// Whether a warning calls the policy impossible.
fn is_impossible(verdict: &Verdict) -> bool
    ensures { result ≡ has_impossible verdict.now }
{
    verdict.warnings.iter().any(tells_impossible)
}

fn tells_impossible(finding: &Finding) -> bool
    ensures { result ≡ calls_impossible finding.now }
{
    matches!(finding.code, Code::Impossible)
}

/// Whether the second requirement is more than the first.
fn rises(old: Requirement, new: Requirement) -> bool
    ensures { result ≡ needs_more old new }
{
    match (old, new) {
        (Requirement::Level(old), Requirement::Level(new)) => old.level < new.level,
        (Requirement::Level(_), Requirement::NoLevel) => true,
        _ => false,
    }
}

/// The changes for a policy from one verdict to the next, and in the environments in which it may apply. If memory is refused,
/// the answer is an `AllocError`.
pub fn compare<'o, 'n>(
    alloc: Global,
    old: &'o Verdict,
    new: &'n Verdict,
    environments: EnvironmentChanges,
) -> Result<Comparison<'o, 'n>, AllocError>
    ensures { IfOk result (λ it. it.is_worse ≡ is_worse_by old.now new.now) }
{
    let is_worse = is_worse(old, new);
    let mut changes = changes_between(alloc, old, new)?;
    if !environments.gained.is_empty() {
        changes.push(Change::Gained)?;
    }
    if !environments.lost.is_empty() {
        changes.push(Change::Lost)?;
    }
    let came = findings_without(alloc, new, old)?;
    let went = findings_without(alloc, old, new)?;
    Ok(Comparison {
        is_worse,
        changes,
        environments,
        came,
        went,
    })
}

/// The changes that two verdicts tell. A refused policy is not evaluated, so it is not called possible.
fn changes_between(alloc: Global, old: &Verdict, new: &Verdict) -> Result<Vec<Change>, AllocError> {
    let mut changes = Vec::new(alloc);
    match (old.is_accepted, new.is_accepted) {
        (true, false) => changes.push(Change::Refused)?,
        (false, true) => changes.push(Change::Accepted)?,
        _ => {}
    }
    match (is_impossible(old), is_impossible(new)) {
        (false, true) => changes.push(Change::Impossible)?,
        (true, false) if new.is_accepted => changes.push(Change::Possible)?,
        _ => {}
    }
    if is_other_level(old.requirement, new.requirement) {
        changes.push(Change::Level)?;
    }
    Ok(changes)
}

/// Whether both verdicts have a requirement, and the two differ.
fn is_other_level(old: Requirement, new: Requirement) -> bool {
    match (old, new) {
        (Requirement::Unsaid, _) | (_, Requirement::Unsaid) => false,
        (Requirement::NoLevel, Requirement::NoLevel) => false,
        (Requirement::Level(old), Requirement::Level(new)) => old != new,
        _ => true,
    }
}

/// The findings of one verdict that the other lacks.
fn findings_without<'a>(
    alloc: Global,
    one: &'a Verdict,
    other: &Verdict,
) -> Result<Vec<(Severity, &'a Finding)>, AllocError> {
    let mut found = Vec::new(alloc);
    for finding in &one.errors {
        if !has_same(&other.errors, finding) {
            found.push((Severity::Error, finding))?;
        }
    }
    for finding in &one.warnings {
        if !has_same(&other.warnings, finding) {
            found.push((Severity::Warning, finding))?;
        }
    }
    Ok(found)
}

/// Whether one of these findings has the kind, the words and the place of the wanted one.
fn has_same(findings: &Vec<Finding>, wanted: &Finding) -> bool {
    for it in findings {
        let is_there = it.start == wanted.start && it.end == wanted.end;
        if is_there && it.code == wanted.code && it.text == wanted.text {
            return true;
        }
    }
    false
}

/// The verdicts by two schemas on the policies of a text, one policy after another.
#[derive(Drop)]
pub struct Comparisons<'a> {
    old: PolicyVerdicts<'a>,
    new: PolicyVerdicts<'a>,
}

/// The verdicts by both schemas on a policy.
#[derive(Drop)]
pub enum Compared {
    /// A policy, with its verdict by the older schema and by the newer one.
    Verdicts(Template, Verdict, Verdict),
    /// A policy that cannot be read.
    Fault(TextFault),
}

impl<'a> Comparisons<'a> {
    /// The comparison of a text's policies, none compared yet, or the fault of the whole text. Calls in the text are of Cedar's
    /// functions, or of this table.
    pub fn new<C>(
        alloc: Global,
        functions: &ExtensionSchemas<C>,
        text: &PolicyText<'a>,
    ) -> Result<Result<Comparisons<'a>, TextFault>, AllocError> {
        let old = match text.verdicts(alloc, functions)? {
            Ok(old) => old,
            Err(fault) => return Ok(Err(fault)),
        };
        match text.verdicts(alloc, functions)? {
            Ok(new) => Ok(Ok(Comparisons { old, new })),
            Err(fault) => Ok(Err(fault)),
        }
    }

    /// An upper bound on the number of policies that are compared.
    pub fn most(&self) -> usize {
        self.new.most()
    }

    /// Whether the rest of the text was not read, because the text has too many faults.
    pub fn is_cut(&self) -> bool {
        self.new.is_cut()
    }

    /// The next comparison; `None` if all policies are compared, or the rest is not read.
    pub fn next_compared<C: ArgumentCheck>(
        &mut self,
        alloc: Global,
        old: &Settings<'_, C>,
        new: &Settings<'_, C>,
    ) -> Result<Option<Compared>, AllocError> {
        let Some(was) = self.old.next_said(alloc, old)? else {
            return Ok(None);
        };
        let Some(is) = self.new.next_said(alloc, new)? else {
            return Ok(None);
        };
        Ok(Some(joined(was, is)))
    }
}

/// Joins both answers on one policy: a fault if either is one. Both read one text, so they disagree on that only if their
/// tables of functions differ.
fn joined(was: Said, is: Said) -> Compared {
    match is {
        Said::Fault(fault) => Compared::Fault(fault),
        Said::Verdict(policy, is) => match was {
            Said::Fault(fault) => Compared::Fault(fault),
            Said::Verdict(_policy, was) => Compared::Verdicts(policy, was, is),
        },
    }
}
