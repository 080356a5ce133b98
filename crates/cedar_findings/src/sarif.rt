//! Findings as SARIF 2.1.0, one object of JSON for all: code hosts show it beside the lines.
mod beginning;

use crate::codes::Code;
use crate::columns::Columns;
use crate::data_findings::DataFinding;
use crate::environment_changes::EnvironmentChanges;
use crate::findings::Finding;
use crate::json::JsonWriter;
use crate::lengths::cut;
use crate::objects;
use crate::totals::Totals;
use crate::writers::{Entry, FindingsWriter, Place};
use beginning::add_beginning;
use cedar_reading::Position;
use memchr::memchr2;
use std::alloc::AllocError;

/// The level of a result that refuses something.
const ERROR: &str = "error";

/// Writes one object of SARIF for all.
#[derive(Clone, Copy)]
pub struct Sarif {
    json: JsonWriter,
    columns: Columns,
}

impl FindingsWriter for Sarif {
    fn begin(&mut self, out: &mut String) -> Result<(), AllocError> {
        add_beginning(&mut self.json, out, column_kind(self.columns))
    }

    fn add(&mut self, out: &mut String, entry: Entry<'_>) -> Result<(), AllocError> {
        let json = &mut self.json;
        match entry {
            // a result of SARIF is a finding, so a policy itself has none
            Entry::Policy(_, _, _) => return Ok(()),
            Entry::Finding(place, id, severity, finding) => {
                begin_result(json, out, finding.code, severity.text())?;
                add_finding(json, out, id, finding)?;
                add_place(json, out, place)?;
            }
            Entry::Rest(place, id, count) => {
                begin_result(json, out, Code::Rest, ERROR)?;
                add_rest(json, out, id, count)?;
                add_place(json, out, place)?;
            }
            Entry::Data(place, finding) => {
                begin_result(json, out, finding.code, ERROR)?;
                add_data(json, out, finding)?;
                add_place(json, out, place)?;
            }
            Entry::Fault(place, text) => {
                begin_result(json, out, Code::Fault, ERROR)?;
                add_part(json, out, "", text)?;
                add_place(json, out, place)?;
            }
            Entry::Missing(file, why) => {
                begin_result(json, out, Code::File, ERROR)?;
                add_part(json, out, "", why)?;
                add_file(json, out, file)?;
            }
        }
        end_result(json, out)
    }

    fn end(&mut self, out: &mut String, totals: &Totals) -> Result<(), AllocError> {
        add_end(&mut self.json, out, totals)
    }
}

impl Sarif {
    /// A writer that has written nothing yet. Its columns count characters.
    pub fn new() -> Sarif {
        Sarif::with_columns(Columns::Characters)
    }

    /// A writer that has written nothing yet, with columns in this unit.
    pub(crate) fn with_columns(columns: Columns) -> Sarif {
        Sarif {
            json: JsonWriter::new(),
            columns,
        }
    }

    /// Adds the environments that the policy of this id gained and lost by a change of the schema, as a note at its place.
    /// Nothing is added if there are none.
    pub(crate) fn add_environments(
        &mut self,
        out: &mut String,
        place: Place<'_>,
        id: &str,
        environments: &EnvironmentChanges,
    ) -> Result<(), AllocError> {
        if environments.is_empty() {
            return Ok(());
        }
        let json = &mut self.json;
        begin_result(json, out, Code::Environments, "note")?;
        add_id(json, out, id)?;
        json.text_part(out, "`: other environments")?;
        for gained in &environments.gained {
            add_part(json, out, "; newly for ", gained.as_str())?;
        }
        for lost in &environments.lost {
            add_part(json, out, "; no longer for ", lost.as_str())?;
        }
        add_place(json, out, place)?;
        end_result(json, out)
    }
}

/// The word of SARIF for a unit of columns. It has none for bytes, so the command line refuses these two together.
fn column_kind(columns: Columns) -> &'static str {
    match columns {
        Columns::Utf16 => "utf16CodeUnits",
        Columns::Characters | Columns::Bytes => "unicodeCodePoints",
    }
}

/// Begins a result on a line of its own, up to the text of its message.
fn begin_result(
    json: &mut JsonWriter,
    out: &mut String,
    code: Code,
    level: &str,
) -> Result<(), AllocError> {
    json.begin_line(out)?;
    json.begin_object(out)?;
    json.text_at(out, "ruleId", code.text())?;
    json.text_at(out, "level", level)?;
    json.object_at(out, "message")?;
    json.key(out, "text")?;
    json.begin_text(out)
}

/// Adds a finding in the policy of this id, with its hint and its environments.
fn add_finding(
    json: &JsonWriter,
    out: &mut String,
    id: &str,
    finding: &Finding,
) -> Result<(), AllocError> {
    add_id(json, out, id)?;
    add_part(json, out, "`: ", finding.text.as_str())?;
    if !finding.hint.is_empty() {
        add_part(json, out, "; ", finding.hint.as_str())?;
    }
    for other in &finding.also {
        add_part(json, out, "; the same for ", other.as_str())?;
    }
    for environment in &finding.environments {
        add_part(json, out, "; only for ", environment.as_str())?;
    }
    Ok(())
}

/// Adds the number of further findings in the policy of this id.
fn add_rest(json: &JsonWriter, out: &mut String, id: &str, count: usize) -> Result<(), AllocError> {
    add_id(json, out, id)?;
    json.text_part(out, "`: ")?;
    json.number_part(out, count as u64)?;
    json.text_part(out, " more findings")
}

/// Adds a mistake in data, with its hint.
fn add_data(json: &JsonWriter, out: &mut String, finding: &DataFinding) -> Result<(), AllocError> {
    add_part(json, out, "", finding.text.as_str())?;
    if !finding.hint.is_empty() {
        add_part(json, out, "; ", finding.hint.as_str())?;
    }
    Ok(())
}

/// Adds the policy that a message is about.
fn add_id(json: &JsonWriter, out: &mut String, id: &str) -> Result<(), AllocError> {
    let (id, mark) = cut(id);
    add_part(json, out, "policy `", id)?;
    json.text_part(out, mark)
}

/// Adds a part of a message, behind the words that lead to it. Viewers take `[a](b)` in a message for a link, and `{0}` for a
/// placeholder, so the marks of a part that has one are escaped as SARIF says.
fn add_part(
    json: &JsonWriter,
    out: &mut String,
    words: &str,
    text: &str,
) -> Result<(), AllocError> {
    json.text_part(out, words)?;
    if memchr2(b']', b'}', text.as_bytes()).is_none() {
        return json.text_part(out, text);
    }
    add_escaped(json, out, text)
}

/// Adds a part of a message that has brackets or braces.
fn add_escaped(json: &JsonWriter, out: &mut String, text: &str) -> Result<(), AllocError> {
    let has_link = text.contains("](");
    let has_placeholder = has_placeholder(text);
    if !has_link && !has_placeholder {
        return json.text_part(out, text);
    }
    for c in text.chars() {
        let escape = match c {
            '[' | ']' | '\\' if has_link => "\\",
            '{' if has_placeholder => "{",
            '}' if has_placeholder => "}",
            _ => "",
        };
        json.text_part(out, escape)?;
        json.char_part(out, c)?;
    }
    Ok(())
}

/// Whether a text has digits between braces.
fn has_placeholder(text: &str) -> bool {
    for part in text.split('{').skip(1) {
        let behind = part.trim_start_matches(|c: char| c.is_ascii_digit());
        if behind.len() < part.len() && behind.starts_with('}') {
            return true;
        }
    }
    false
}

/// Ends the message, and begins its place with a file.
fn add_file(json: &mut JsonWriter, out: &mut String, file: &str) -> Result<(), AllocError> {
    json.end_nested(out, "\"}")?;
    json.list_at(out, "locations")?;
    json.begin_object(out)?;
    json.object_at(out, "physicalLocation")?;
    json.object_at(out, "artifactLocation")?;
    json.key(out, "uri")?;
    json.begin_text(out)?;
    add_reference(json, out, file)?;
    json.end_nested(out, "\"}")
}

/// Ends the message, and begins its place with a file and a region of it.
fn add_place(json: &mut JsonWriter, out: &mut String, place: Place<'_>) -> Result<(), AllocError> {
    add_file(json, out, place.source.name)?;
    json.object_at(out, "region")?;
    let Position { line, column } = place.at;
    json.number_at(out, "startLine", line as u64)?;
    json.number_at(out, "startColumn", column as u64)?;
    let Position { line, column } = place.end();
    json.number_at(out, "endLine", line as u64)?;
    json.number_at(out, "endColumn", column as u64)?;
    json.end_object(out)
}

/// Ends the place of a result, and the result.
fn end_result(json: &mut JsonWriter, out: &mut String) -> Result<(), AllocError> {
    json.end_nested(out, "}}]}")
}

/// Adds the name of a file as a reference: a byte that is no letter, no digit and none of `-._~/` is written as `%` with its
/// number.
fn add_reference(json: &JsonWriter, out: &mut String, file: &str) -> Result<(), AllocError> {
    if file.starts_with('/') {
        json.text_part(out, "file://")?;
    }
    for byte in file.bytes() {
        if byte.is_ascii_alphanumeric() || matches!(byte, b'-' | b'.' | b'_' | b'~' | b'/') {
            json.char_part(out, char::from(byte))?;
        } else {
            json.char_part(out, '%')?;
            json.char_part(out, digit(byte >> 4))?;
            json.char_part(out, digit(byte & 15))?;
        }
    }
    Ok(())
}

/// The hexadecimal digit of a number below 16, as a capital letter.
fn digit(number: u8) -> char {
    match char::from_digit(u32::from(number), 16) {
        Some(digit) => digit.to_ascii_uppercase(),
        None => '0',
    }
}

/// Adds the part behind the results: the counts of all, and whether all was read.
fn add_end(json: &mut JsonWriter, out: &mut String, totals: &Totals) -> Result<(), AllocError> {
    json.end_list(out)?;
    json.begin_line(out)?;
    json.list_at(out, "invocations")?;
    json.begin_object(out)?;
    json.boolean_at(out, "executionSuccessful", totals.faults == 0)?;
    json.end_nested(out, "}]")?;
    json.key(out, "properties")?;
    objects::add_totals(json, out, totals)?;
    json.end_line(out)?;
    json.end_nested(out, "}]}")?;
    json.end_line(out)
}
