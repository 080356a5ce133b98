//! Changes for a policy from one schema to another, in each format.
ghost use Rattle.std.specs.Prelude.{◌≡◌, ◌+◌};
ghost use Rattle.cedar_findings.specs.Counts.{capped, one_more_if};

use crate::environment_changes::{EnvironmentChanges, push_environments};
use crate::escapes::{Shown, ShownId};
use crate::findings::{Finding, Requirement, Severity, Verdict};
use crate::formats::Format;
use crate::json::JsonWriter;
use crate::lengths::cut;
use crate::objects::{add_place, add_texts};
use crate::texts::push_all;
use crate::writers::Place;
use std::alloc::AllocError;

/// A change for a policy.
#[derive(Clone, Copy, PartialEq, Eq, Debug)]
pub enum Change {
    /// The policy was accepted, and is refused.
    Refused,
    /// The policy was refused, and is accepted.
    Accepted,
    /// The policy is newly impossible.
    Impossible,
    /// The policy is no longer impossible.
    Possible,
    /// The policy needs another level.
    Level,
    /// The policy applies to environments to which it did not apply.
    Gained,
    /// The policy no longer applies to environments to which it did.
    Lost,
}

impl Change {
    /// The texts for the change: one for lines, and one for objects.
    pub fn texts(self) -> (&'static str, &'static str) {
        match self {
            Change::Refused => ("newly refused", "refused"),
            Change::Accepted => ("newly accepted", "accepted"),
            Change::Impossible => ("newly impossible", "impossible"),
            Change::Possible => ("no longer impossible", "possible"),
            Change::Level => ("another level", "level"),
            Change::Gained => ("new environments", "gained"),
            Change::Lost => ("lost environments", "lost"),
        }
    }
}

/// The comparison of a verdict with the next.
#[derive(Drop)]
pub struct Comparison<'o, 'n> {
    pub is_worse: bool,
    pub changes: Vec<Change>,
    pub environments: EnvironmentChanges,
    /// The findings that came: those of the newer verdict alone.
    pub came: Vec<(Severity, &'n Finding)>,
    /// The findings that went: those of the older verdict alone.
    pub went: Vec<(Severity, &'o Finding)>,
}

impl Comparison<'_, '_> {
    /// Whether nothing changed.
    pub fn is_empty(&self) -> bool {
        self.changes.is_empty() && self.came.is_empty() && self.went.is_empty()
    }
}

/// The number of policies that were compared, of those that changed, and of those that are worse off.
#[derive(Clone, Copy, Default)]
pub struct ChangeTally {
    pub policies: u64,
    pub changed: u64,
    pub worse: u64,
}

impl ChangeTally {
    /// Counts a policy, and counts it as worse off exactly if the comparison says so.
    pub fn add(&mut self, comparison: &Comparison<'_, '_>)
        ensures policies { self.new.policies ≡ capped (self.old.policies + 1) }
        ensures worse { self.new.worse ≡ one_more_if comparison.now.is_worse self.old.worse }
    {
        self.policies = self.policies.saturating_add(1);
        if !comparison.is_empty() {
            self.changed = self.changed.saturating_add(1);
        }
        if comparison.is_worse {
            self.worse = self.worse.saturating_add(1);
        }
    }
}

/// A policy's id and place.
#[derive(Clone, Copy)]
pub struct Whose<'a> {
    pub place: Place<'a>,
    pub id: &'a str,
}

/// Adds the changes for a policy, without its findings. SARIF gets the environments alone, as a note, because its other results
/// are findings.
pub fn push_change(
    out: &mut String,
    format: &mut Format,
    policy: Whose<'_>,
    old: &Verdict,
    new: &Verdict,
    comparison: &Comparison<'_, '_>,
) -> Result<(), AllocError> {
    match format {
        Format::Lines(_) => {
            push_line(out, policy, (old.requirement, new.requirement), comparison)?;
            push_environments(out, &comparison.environments)
        }
        Format::Objects(_) => push_object(out, policy, old, new, comparison),
        Format::Sarif(writer) => {
            writer.add_environments(out, policy.place, policy.id, &comparison.environments)
        }
    }
}

/// Adds a finding that went. SARIF gets none, because its results are findings that hold now.
pub fn push_gone(
    out: &mut String,
    format: Format,
    place: Place<'_>,
    id: &str,
    found: (Severity, &Finding),
) -> Result<(), AllocError> {
    match format {
        Format::Lines(_) => {
            let (severity, finding) = found;
            let kind = severity.text();
            let text = Shown(finding.text.as_str());
            writeln!(out, "{place}: gone: {kind}: {text}")
        }
        Format::Objects(_) => push_gone_object(out, place, id, found),
        Format::Sarif(_) => Ok(()),
    }
}

/// Adds the counts at the end, unless the format is SARIF.
pub fn push_tally(
    out: &mut String,
    format: Format,
    tally: ChangeTally,
    faults: u64,
) -> Result<(), AllocError> {
    let ChangeTally {
        policies,
        changed,
        worse,
    } = tally;
    match format {
        Format::Lines(_) => writeln!(
            out,
            "policies: {policies}, changed: {changed}, worse: {worse}, faults: {faults}"
        ),
        Format::Objects(_) => push_tally_object(out, tally, faults),
        Format::Sarif(_) => Ok(()),
    }
}

fn push_line(
    out: &mut String,
    policy: Whose<'_>,
    levels: (Requirement, Requirement),
    comparison: &Comparison<'_, '_>,
) -> Result<(), AllocError> {
    let place = policy.place;
    let (id, mark) = cut(policy.id);
    let id = ShownId(id);
    write!(out, "{place}: policy `{id}{mark}`: ")?;
    let mut before = if comparison.is_worse { "worse: " } else { "" };
    for change in &comparison.changes {
        let (text, _) = change.texts();
        push_all(out, &[before, text])?;
        if *change == Change::Level {
            push_levels(out, levels)?;
        }
        before = ", ";
    }
    if comparison.changes.is_empty() {
        out.push_str("other findings")?;
    }
    out.push_str("\n")
}

fn push_levels(out: &mut String, (old, new): (Requirement, Requirement)) -> Result<(), AllocError> {
    out.push_str(", ")?;
    push_level(out, new)?;
    out.push_str(" in place of ")?;
    push_level(out, old)
}

fn push_level(out: &mut String, requirement: Requirement) -> Result<(), AllocError> {
    match requirement {
        Requirement::Unsaid => out.push_str("none that is said"),
        Requirement::NoLevel => out.push_str("none that is enough"),
        Requirement::Level(level) => write!(out, "{level}"),
    }
}

fn push_gone_object(
    out: &mut String,
    place: Place<'_>,
    id: &str,
    (severity, finding): (Severity, &Finding),
) -> Result<(), AllocError> {
    let mut json = JsonWriter::new();
    json.begin_object(out)?;
    add_place(&mut json, out, "gone", place)?;
    json.text_at(out, "code", finding.code.text())?;
    json.text_at(out, "id", id)?;
    json.text_at(out, "severity", severity.text())?;
    json.text_at(out, "text", finding.text.as_str())?;
    json.end_object(out)?;
    json.end_line(out)
}

fn push_tally_object(out: &mut String, tally: ChangeTally, faults: u64) -> Result<(), AllocError> {
    let mut json = JsonWriter::new();
    json.begin_object(out)?;
    json.text_at(out, "kind", "changes")?;
    json.number_at(out, "policies", tally.policies)?;
    json.number_at(out, "changed", tally.changed)?;
    json.number_at(out, "worse", tally.worse)?;
    json.number_at(out, "faults", faults)?;
    json.end_object(out)?;
    json.end_line(out)
}

fn push_object(
    out: &mut String,
    policy: Whose<'_>,
    old: &Verdict,
    new: &Verdict,
    comparison: &Comparison<'_, '_>,
) -> Result<(), AllocError> {
    let mut json = JsonWriter::new();
    json.begin_object(out)?;
    add_place(&mut json, out, "change", policy.place)?;
    json.text_at(out, "id", policy.id)?;
    json.boolean_at(out, "worse", comparison.is_worse)?;
    json.list_at(out, "changes")?;
    for change in &comparison.changes {
        let (_, text) = change.texts();
        json.text(out, text)?;
    }
    json.end_list(out)?;
    json.boolean_at(out, "accepted", new.is_accepted)?;
    json.boolean_at(out, "was_accepted", old.is_accepted)?;
    add_level(&mut json, out, "level", new.requirement)?;
    add_level(&mut json, out, "was_level", old.requirement)?;
    add_texts(&mut json, out, "gained", &comparison.environments.gained)?;
    add_texts(&mut json, out, "lost", &comparison.environments.lost)?;
    json.end_object(out)?;
    json.end_line(out)
}

/// Adds a level as the objects of policies have it: null if no number is enough, and nothing if no level is known.
fn add_level(
    json: &mut JsonWriter,
    out: &mut String,
    name: &str,
    requirement: Requirement,
) -> Result<(), AllocError> {
    match requirement {
        Requirement::Unsaid => Ok(()),
        Requirement::NoLevel => {
            json.key(out, name)?;
            json.null(out)
        }
        Requirement::Level(level) => json.number_at(out, name, u64::from(level.level)),
    }
}
