// The part of SARIF before the results: the program and its rules.
use crate::codes::{CODES, Code};
use crate::json::JsonWriter;
use crate::rules::{description, help, page};
use std::alloc::AllocError;

/// The address of SARIF's schema.
const SCHEMA: &str = "https://json.schemastore.org/sarif-2.1.0.json";

/// Adds the part before the results, which says the kind of the columns.
pub(crate) fn add_beginning(
    json: &mut JsonWriter,
    out: &mut String,
    column_kind: &str,
) -> Result<(), AllocError> {
    json.begin_object(out)?;
    json.text_at(out, "$schema", SCHEMA)?;
    json.text_at(out, "version", "2.1.0")?;
    json.list_at(out, "runs")?;
    json.begin_object(out)?;
    json.object_at(out, "tool")?;
    json.object_at(out, "driver")?;
    json.text_at(out, "name", "cedar-validate")?;
    json.text_at(out, "version", "0.1.0")?;
    json.list_at(out, "rules")?;
    for code in &CODES {
        json.begin_line(out)?;
        add_rule(json, out, *code)?;
    }
    json.end_nested(out, "]}}")?;
    json.begin_line(out)?;
    json.text_at(out, "columnKind", column_kind)?;
    json.list_at(out, "results")
}

/// Adds a kind of finding. Its `helpUri` leads to Cedar's documentation, because SARIF wants an absolute address there.
fn add_rule(json: &mut JsonWriter, out: &mut String, code: Code) -> Result<(), AllocError> {
    json.begin_object(out)?;
    json.text_at(out, "id", code.text())?;
    add_message(json, out, "shortDescription", code.meaning())?;
    add_message(json, out, "fullDescription", description(code))?;
    add_message(json, out, "help", help(code))?;
    json.text_at(out, "helpUri", page(code))?;
    json.end_object(out)
}

/// Adds a member of this name that is a message.
fn add_message(
    json: &mut JsonWriter,
    out: &mut String,
    name: &str,
    text: &str,
) -> Result<(), AllocError> {
    json.object_at(out, name)?;
    json.text_at(out, "text", text)?;
    json.end_object(out)
}
