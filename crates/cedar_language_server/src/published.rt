// Messages that the editor gets without asking: the diagnostics of a document, a message for the user, and the request to watch
// schemas.
use crate::workspaces::{Document, OpenSchema, Schema};
use crate::written::{Origin, Written};
use cedar_editor::diagnostics::{Diagnostic, policy_diagnostics, schema_diagnostics};
use cedar_editor::schemas::SchemaText;
use cedar_findings::json::JsonWriter;
use cedar_types::base::ArgumentCheck;
use std::alloc::{AllocError, Global};

/// The request that the editor tells the server of each schema file that changes on disk.
pub const REGISTRATION: &str = "{\"jsonrpc\":\"2.0\",\"id\":\"watched-schemas\",\
\"method\":\"client/registerCapability\",\"params\":{\"registrations\":[{\
\"id\":\"watched-schemas\",\"method\":\"workspace/didChangeWatchedFiles\",\"registerOptions\":{\"watchers\":[\
{\"globPattern\":\"**/*.cedarschema\"},{\"globPattern\":\"**/*.cedarschema.json\"}]}}]}}";

/// The protocol's number for a message about an error.
const ERROR: u64 = 1;

/// The note on policies for which no schema is found.
const NO_SCHEMA: &str = "no schema is found: policies are read, and not checked";

const FAULTY_SCHEMA: &str = "the schema has a fault: policies are checked by the last one without";

const NO_GOOD_SCHEMA: &str = "the schema has a fault: policies are read, and not checked";

const UNREAD_SCHEMA: &str =
    "a file of the schema cannot be read: policies are read, and not checked";

/// The notification of the diagnostics of a document of policies, with a note if the schema is missing or has a fault.
pub fn published<C: ArgumentCheck>(
    alloc: Global,
    uri: &str,
    document: &Document<'_, C>,
    schema: Option<&Schema<'_, C>>,
) -> Result<String, AllocError> {
    let policies = &document.policies;
    let origin = Origin {
        uri,
        text: policies.text(),
        lines: policies.lines(),
    };
    let told = policy_diagnostics(alloc, policies.policies())?;
    notification(
        alloc,
        &origin,
        document.version,
        note_on(schema),
        told.as_slice(),
    )
}

/// The note on the schema by which policies are checked; empty if it has no fault.
fn note_on<C: ArgumentCheck>(schema: Option<&Schema<'_, C>>) -> &'static str {
    let Some(schema) = schema else {
        return NO_SCHEMA;
    };
    if schema.is_unread {
        return UNREAD_SCHEMA;
    }
    match schema.document.validator() {
        None => NO_GOOD_SCHEMA,
        Some(_) if schema.document.has_fault() => FAULTY_SCHEMA,
        Some(_) => "",
    }
}

/// The notification of the diagnostics of an open schema file.
pub fn published_schema(
    alloc: Global,
    open: &OpenSchema,
    text: &SchemaText,
) -> Result<String, AllocError> {
    let origin = Origin {
        uri: open.uri.as_str(),
        text: text.text.as_str(),
        lines: &text.lines,
    };
    let told = schema_diagnostics(alloc, text)?;
    notification(alloc, &origin, open.version, "", told.as_slice())
}

/// The notification of a message for the user.
pub fn shown_message(alloc: Global, message: &str) -> Result<String, AllocError> {
    let mut text = String::new(alloc);
    JsonWriter::new().text(&mut text, message)?;
    format!(in alloc;
        "{{\"jsonrpc\":\"2.0\",\"method\":\"window/showMessage\",\"params\":{{\"type\":{ERROR},\"message\":{text}}}}}"
    )
}

/// The notification that a document which is closed has no diagnostics.
pub fn published_nothing(alloc: Global, uri: &str) -> Result<String, AllocError> {
    let mut written = Written::new(alloc);
    written.begin_published(uri, None)?;
    written.end_published()?;
    Ok(written.out)
}

/// The notification of diagnostics, with a note at the beginning of the document, if the note is not empty.
fn notification(
    alloc: Global,
    origin: &Origin<'_>,
    version: Option<u64>,
    note: &str,
    told: &[Diagnostic],
) -> Result<String, AllocError> {
    let mut written = Written::new(alloc);
    written.begin_published(origin.uri, version)?;
    if !note.is_empty() {
        written.note(origin, note)?;
    }
    written.diagnostics(origin, told)?;
    written.end_published()?;
    Ok(written.out)
}
