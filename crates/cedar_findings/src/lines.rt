//! Findings as lines for people.
use crate::digits::push_number;
use crate::escapes::{push_file, push_shown, push_shown_id};
use crate::excerpts::Excerpt;
use crate::findings::{Finding, Requirement, Severity, Verdict};
use crate::lengths::cut;
use crate::texts::push_all;
use crate::totals::Totals;
use crate::writers::{Entry, FindingsWriter, Place};
use cedar_reading::Position;
use itoa::Buffer;
use std::alloc::AllocError;

/// Writes lines for people, with the text that is meant.
#[derive(Clone, Copy)]
pub struct Lines;

impl FindingsWriter for Lines {
    fn add(&mut self, out: &mut String, entry: Entry<'_>) -> Result<(), AllocError> {
        match entry {
            Entry::Policy(place, id, verdict) => push_policy(out, place, id, verdict),
            Entry::Finding(place, _, severity, finding) => {
                push_finding(out, place, severity, finding)
            }
            Entry::Rest(place, _, count) => {
                push_place(out, place)?;
                push_number(out, count as u64)?;
                out.push_str(" more findings\n")
            }
            Entry::Data(place, finding) => {
                let text = finding.text.as_str();
                push_message(out, place, "error", text, finding.hint.as_str())
            }
            Entry::Fault(place, text) => push_message(out, place, "fault", text, ""),
            Entry::Missing(file, why) => push_missing(out, file, why),
        }
    }

    fn end(&mut self, out: &mut String, totals: &Totals) -> Result<(), AllocError> {
        if totals.lacks_schema {
            return Ok(());
        }
        push_totals(out, totals)
    }
}

/// Adds a place, and a colon behind it.
fn push_place(out: &mut String, place: Place<'_>) -> Result<(), AllocError> {
    push_file(out, place.source.name)?;
    let Position { line, column } = place.at;
    let (mut line_digits, mut column_digits) = (Buffer::new(), Buffer::new());
    let line = line_digits.format(line as u64);
    let column = column_digits.format(column as u64);
    push_all(out, &[":", line, ":", column, ": "])
}

/// Adds the line of a policy.
fn push_policy(
    out: &mut String,
    place: Place<'_>,
    id: &str,
    verdict: &Verdict,
) -> Result<(), AllocError> {
    push_place(out, place)?;
    out.push_str("policy `")?;
    let (id, mark) = cut(id);
    push_shown_id(out, id)?;
    let outcome = if verdict.is_accepted {
        "`: accepted"
    } else {
        "`: refused"
    };
    push_all(out, &[mark, outcome])?;
    push_requirement(out, verdict.requirement)
}

/// Adds the required level, and ends the line.
fn push_requirement(out: &mut String, requirement: Requirement) -> Result<(), AllocError> {
    match requirement {
        Requirement::Unsaid => out.push_str("\n"),
        Requirement::NoLevel => out.push_str(", no level is enough\n"),
        Requirement::Level(level) => {
            let mut digits = Buffer::new();
            let number = digits.format(u64::from(level.level));
            push_all(out, &[", level ", number, "\n"])
        }
    }
}

/// Adds the lines of a finding.
fn push_finding(
    out: &mut String,
    place: Place<'_>,
    severity: Severity,
    finding: &Finding,
) -> Result<(), AllocError> {
    let text = finding.text.as_str();
    push_message(out, place, severity.text(), text, finding.hint.as_str())?;
    for other in &finding.also {
        push_indented(out, "the same for ", other.as_str())?;
    }
    for environment in &finding.environments {
        push_indented(out, "only for ", environment.as_str())?;
    }
    Ok(())
}

/// Adds an indented line, which belongs to the line before, of these words and a text.
pub(crate) fn push_indented(out: &mut String, words: &str, text: &str) -> Result<(), AllocError> {
    push_all(out, &["  ", words])?;
    push_shown(out, text)?;
    out.push_str("\n")
}

/// Adds the line of a message at a place, with the hint if one is known, and the lines of the excerpt.
fn push_message(
    out: &mut String,
    place: Place<'_>,
    kind: &str,
    text: &str,
    hint: &str,
) -> Result<(), AllocError> {
    push_place(out, place)?;
    push_all(out, &[kind, ": "])?;
    push_shown(out, text)?;
    if !hint.is_empty() {
        out.push_str("; ")?;
        push_shown(out, hint)?;
    }
    out.push_str("\n")?;
    Excerpt::new(place.source.text, place.loc, place.at.line).push_to(out)
}

/// Adds the line of a file that cannot be read.
fn push_missing(out: &mut String, file: &str, why: &str) -> Result<(), AllocError> {
    push_file(out, file)?;
    out.push_str(": fault: ")?;
    push_shown(out, why)?;
    out.push_str("\n")
}

/// Adds the last line.
fn push_totals(out: &mut String, totals: &Totals) -> Result<(), AllocError> {
    let mut before = "";
    for (name, count) in totals.counts() {
        push_count(out, before, name, count)?;
        before = ", ";
    }
    let data = totals.data;
    if data.is_asked {
        push_count(out, ", ", "entities", data.entities)?;
        push_count(out, ", ", "errors in data", data.errors)?;
    }
    push_requirement(out, totals.requirement)
}

/// Adds a count behind its name.
fn push_count(out: &mut String, before: &str, name: &str, count: u64) -> Result<(), AllocError> {
    let mut digits = Buffer::new();
    push_all(out, &[before, name, ": ", digits.format(count)])
}
