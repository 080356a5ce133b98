//! Verdicts on entities and on a request.
use crate::data_hints::hint;
use cedar_conformance::entity_faults::EntityProblem;
use cedar_conformance::faults::Mismatch;
use cedar_conformance::requests::RequestFault;
use cedar_data::{
    DataError, DataFault, ExtensionText, Faults, Problem, check_entities_text, check_request_text,
};
use cedar_extensions::checks::Constructor;
use cedar_findings::codes::Code;
use cedar_findings::columns::Columns;
use cedar_findings::data_findings::{DataFinding, DataVerdict};
use cedar_findings::faults::{TextFault, Written};
use cedar_findings::json_faults::form_fault;
use cedar_findings::lengths::shortened;
use cedar_findings::places::Places;
use cedar_json::FormError;
use cedar_reading::Position;
use cedar_types::base::{Loc, ValidatorSchema};
use std::alloc::{AllocError, Global};

/// The number of mistakes of a text that are told.
const MAX_FINDINGS: usize = 100;

/// The kind of data that a text must hold.
#[derive(Clone, Copy)]
pub enum DataKind {
    Entities,
    Request,
}

/// The result of checking a text of data.
#[derive(Drop)]
struct Found {
    entities: usize,
    /// Whether the text holds data that conforms to the schema.
    conforms: bool,
    faults: Faults,
    texts: Vec<ExtensionText>,
}

/// The verdict on a text of data by a schema. The text is accepted if it holds data that conforms to the schema, and each text
/// in it that makes an extension value is read. If memory is refused, the answer is an `AllocError`.
pub fn judge_data(
    alloc: Global,
    schema: &ValidatorSchema,
    kind: DataKind,
    text: &str,
) -> Result<DataVerdict, AllocError> {
    match found_in(alloc, schema, kind, text) {
        Err(error) => no_data(alloc, text, error),
        Ok(found) => verdict_of(alloc, schema, text, &found),
    }
}

/// The verdict on a text that holds no data. If the cause is refused memory, the answer is an `AllocError`.
fn no_data(alloc: Global, text: &str, error: DataError) -> Result<DataVerdict, AllocError> {
    let error = FormError::from(error);
    let TextFault { place, text } = form_fault(alloc, Written::Data, text, error)?;
    let mut findings = Vec::new(alloc);
    findings.push(DataFinding {
        place,
        code: Code::Fault,
        text,
        hint: String::new(alloc),
    })?;
    Ok(DataVerdict {
        is_accepted: false,
        entities: 0,
        findings,
    })
}

fn found_in(
    alloc: Global,
    schema: &ValidatorSchema,
    kind: DataKind,
    text: &str,
) -> Result<Found, DataError> {
    match kind {
        DataKind::Entities => {
            let checked = check_entities_text(alloc, schema, text)?;
            Ok(Found {
                entities: checked.count,
                conforms: checked.conforming.is_some(),
                faults: checked.faults,
                texts: checked.texts,
            })
        }
        DataKind::Request => {
            let checked = check_request_text(alloc, schema, text)?;
            Ok(Found {
                entities: 0,
                conforms: checked.conforming.is_some(),
                faults: checked.faults,
                texts: checked.texts,
            })
        }
    }
}

/// Whether the constructor makes a value of the text that it is given.
fn is_read(text: &ExtensionText) -> bool {
    text.constructor.reads(text.text.as_str())
}

/// The verdict on a text by the result of its check.
fn verdict_of(
    alloc: Global,
    schema: &ValidatorSchema,
    text: &str,
    found: &Found,
) -> Result<DataVerdict, AllocError> {
    let mut places = Places::new(alloc, text, Columns::Characters);
    let mut findings = Vec::new(alloc);
    for fault in found.faults.listed() {
        findings.push(finding_of(alloc, &mut places, schema, text, fault)?)?;
    }
    let mut is_accepted = found.conforms;
    for text in &found.texts {
        if !is_read(text) {
            is_accepted = false;
            findings.push(unread(alloc, text)?)?;
        }
    }
    findings.sort_by_key(|it| (it.place.start, it.place.end))?;
    if found.faults.has_more() || findings.len() > MAX_FINDINGS {
        findings.truncate(MAX_FINDINGS);
        findings.push(more_than_told(alloc, text)?)?;
    }
    Ok(DataVerdict {
        is_accepted,
        entities: found.entities,
        findings,
    })
}

/// The finding at the end of a text that there are more mistakes.
fn more_than_told(alloc: Global, text: &str) -> Result<DataFinding, AllocError> {
    let end = text.len();
    Ok(DataFinding {
        place: Loc { start: end, end },
        code: Code::Rest,
        text: format!(in alloc; "there are more mistakes than the {MAX_FINDINGS} that are shown")?,
        hint: String::new(alloc),
    })
}

/// The finding of a text that a constructor of extension values cannot read.
fn unread(alloc: Global, text: &ExtensionText) -> Result<DataFinding, AllocError> {
    let function = text.constructor.name();
    let message = &text.text;
    let why = format!(in alloc; "`{function}` cannot read `{message}`")?;
    Ok(DataFinding {
        place: text.place,
        code: Code::BadArgument,
        text: shortened(alloc, why)?,
        hint: String::new(alloc),
    })
}

fn finding_of(
    alloc: Global,
    places: &mut Places<'_>,
    schema: &ValidatorSchema,
    text: &str,
    fault: &DataFault,
) -> Result<DataFinding, AllocError> {
    let text = match &fault.problem {
        Problem::Form(form) => {
            let error = FormError::At(fault.place.start, *form);
            let TextFault { place: _, text } = form_fault(alloc, Written::Data, text, error)?;
            text
        }
        Problem::SameId(id, first) => {
            let Position { line, column } = places.position(first.start);
            format!(in alloc; "{id}: the entity at {line}:{column} of this file has the same id")?
        }
        problem => format!(in alloc; "{problem}")?,
    };
    Ok(DataFinding {
        place: fault.place,
        code: code_of(&fault.problem),
        text: shortened(alloc, text)?,
        hint: shortened(alloc, hint(alloc, schema, &fault.problem)?)?,
    })
}

/// The kind of a mistake.
fn code_of(problem: &Problem) -> Code {
    match problem {
        Problem::Form(_) => Code::Fault,
        Problem::Value(_, _, mismatch) => code_of_mismatch(mismatch),
        Problem::Entity(fault) => code_of_entity(&fault.problem),
        Problem::Request(fault) => code_of_request(fault),
        Problem::UnknownId(_) => Code::UnknownId,
        Problem::SameId(_, _) => Code::SameId,
        Problem::Cycle(_) => Code::DataParents,
        Problem::TooManyAncestors => Code::DataParents,
    }
}

fn code_of_mismatch(mismatch: &Mismatch) -> Code {
    match mismatch {
        Mismatch::WrongType { .. } => Code::DataType,
        Mismatch::MissingAttribute { .. } => Code::DataMissing,
        Mismatch::UndeclaredAttribute => Code::DataUndeclared,
    }
}

fn code_of_entity(problem: &EntityProblem) -> Code {
    match problem {
        EntityProblem::Attribute(_) | EntityProblem::Tag(_) => Code::DataType,
        EntityProblem::Undeclared
        | EntityProblem::UndeclaredTags
        | EntityProblem::HasAttributes
        | EntityProblem::HasTags => Code::DataUndeclared,
        EntityProblem::Ancestor(_)
        | EntityProblem::HasAncestors
        | EntityProblem::UndeclaredAncestor(_)
        | EntityProblem::MissingAncestor(_) => Code::DataParents,
        EntityProblem::MissingAction => Code::DataMissing,
    }
}

fn code_of_request(fault: &RequestFault) -> Code {
    match fault {
        RequestFault::UndeclaredAction(_) => Code::DataUndeclared,
        RequestFault::ExternalAction(_)
        | RequestFault::PrincipalType(_)
        | RequestFault::ResourceType(_) => Code::DataRequest,
        RequestFault::Context(_) => Code::DataType,
    }
}
