//! Findings as objects of JSON, one a line.
use crate::codes::Code;
use crate::findings::{Finding, Requirement, Severity, Verdict};
use crate::json::JsonWriter;
use crate::totals::Totals;
use crate::writers::{Entry, FindingsWriter, Place};
use cedar_reading::Position;
use std::alloc::AllocError;

/// Writes an object of JSON for each line.
#[derive(Clone, Copy)]
pub struct Objects;

impl FindingsWriter for Objects {
    fn add(&mut self, out: &mut String, entry: Entry<'_>) -> Result<(), AllocError> {
        let mut json = JsonWriter::new();
        json.begin_object(out)?;
        add_members(&mut json, out, entry)?;
        json.end_object(out)?;
        json.end_line(out)
    }

    fn end(&mut self, out: &mut String, totals: &Totals) -> Result<(), AllocError> {
        if totals.lacks_schema {
            return Ok(());
        }
        let mut json = JsonWriter::new();
        add_totals(&mut json, out, totals)?;
        json.end_line(out)
    }
}

/// Adds the members of an entry.
fn add_members(
    json: &mut JsonWriter,
    out: &mut String,
    entry: Entry<'_>,
) -> Result<(), AllocError> {
    match entry {
        Entry::Policy(place, id, verdict) => add_policy(json, out, place, id, verdict),
        Entry::Finding(place, id, severity, finding) => {
            add_place(json, out, severity.text(), place)?;
            add_finding(json, out, id, finding)
        }
        Entry::Rest(place, id, count) => {
            add_place(json, out, "rest", place)?;
            json.text_at(out, "id", id)?;
            json.number_at(out, "findings", count as u64)
        }
        Entry::Data(place, finding) => {
            add_place(json, out, "data", place)?;
            json.text_at(out, "code", finding.code.text())?;
            add_text(json, out, finding.text.as_str(), finding.hint.as_str())
        }
        Entry::Fault(place, text) => {
            add_place(json, out, "fault", place)?;
            json.text_at(out, "code", Code::Fault.text())?;
            add_text(json, out, text, "")
        }
        Entry::Missing(file, why) => {
            json.text_at(out, "kind", "fault")?;
            json.text_at(out, "file", file)?;
            json.text_at(out, "code", Code::File.text())?;
            add_text(json, out, why, "")
        }
    }
}

/// Adds the kind of an object and its place.
pub(crate) fn add_place(
    json: &mut JsonWriter,
    out: &mut String,
    kind: &str,
    place: Place<'_>,
) -> Result<(), AllocError> {
    json.text_at(out, "kind", kind)?;
    json.text_at(out, "file", place.source.name)?;
    let Position { line, column } = place.at;
    json.number_at(out, "line", line as u64)?;
    json.number_at(out, "column", column as u64)?;
    let Position { line, column } = place.end();
    json.number_at(out, "end_line", line as u64)?;
    json.number_at(out, "end_column", column as u64)
}

/// Adds the words of a finding, and the hint if one is known.
fn add_text(
    json: &mut JsonWriter,
    out: &mut String,
    text: &str,
    hint: &str,
) -> Result<(), AllocError> {
    json.text_at(out, "text", text)?;
    if !hint.is_empty() {
        json.text_at(out, "hint", hint)?;
    }
    Ok(())
}

/// Adds the members of a policy.
fn add_policy(
    json: &mut JsonWriter,
    out: &mut String,
    place: Place<'_>,
    id: &str,
    verdict: &Verdict,
) -> Result<(), AllocError> {
    add_place(json, out, "policy", place)?;
    json.text_at(out, "id", id)?;
    json.boolean_at(out, "accepted", verdict.is_accepted)?;
    add_requirement(json, out, verdict.requirement)
}

/// Adds the required level, if it is known.
fn add_requirement(
    json: &mut JsonWriter,
    out: &mut String,
    requirement: Requirement,
) -> Result<(), AllocError> {
    match requirement {
        Requirement::Unsaid => Ok(()),
        Requirement::NoLevel => {
            json.key(out, "level")?;
            json.null(out)
        }
        Requirement::Level(level) => json.number_at(out, "level", u64::from(level.level)),
    }
}

/// Adds the members of a finding in the policy of this id, behind its place.
fn add_finding(
    json: &mut JsonWriter,
    out: &mut String,
    id: &str,
    finding: &Finding,
) -> Result<(), AllocError> {
    json.text_at(out, "code", finding.code.text())?;
    json.text_at(out, "id", id)?;
    add_text(json, out, finding.text.as_str(), finding.hint.as_str())?;
    if !finding.also.is_empty() {
        add_texts(json, out, "also", &finding.also)?;
    }
    add_texts(json, out, "only", &finding.environments)
}

/// Adds a member of this name, a list of texts.
pub(crate) fn add_texts(
    json: &mut JsonWriter,
    out: &mut String,
    name: &str,
    texts: &Vec<String>,
) -> Result<(), AllocError> {
    json.list_at(out, name)?;
    for text in texts {
        json.text(out, text.as_str())?;
    }
    json.end_list(out)
}

/// Adds the object of all counts.
pub fn add_totals(
    json: &mut JsonWriter,
    out: &mut String,
    totals: &Totals,
) -> Result<(), AllocError> {
    json.begin_object(out)?;
    json.text_at(out, "kind", "summary")?;
    for (name, count) in totals.counts() {
        json.number_at(out, name, count)?;
    }
    let data = totals.data;
    if data.is_asked {
        json.number_at(out, "entities", data.entities)?;
        json.number_at(out, "data_errors", data.errors)?;
    }
    add_requirement(json, out, totals.requirement)?;
    json.end_object(out)
}
