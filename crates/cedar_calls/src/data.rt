//! The call that checks entities and a request by a schema.
use crate::answers::failure;
use crate::faults::{only_fault, schema_faults};
use crate::opened::Opened;
use crate::schemas::{schema_of, text_at};
use crate::writer::Answer;
use cedar_findings::data_findings::DataVerdict;
use cedar_json::{FormError, Object, Value, value_alone};
use cedar_types::base::ValidatorSchema;
use cedar_verdicts::data::{DataKind, judge_data};
use std::alloc::{AllocError, Global};

/// Answers a call that checks data, an object of `schema` and perhaps `entities` and `request`, by
/// a text of JSON. It tells of each part that the call has, whether the part conforms to the
/// schema, and its mistakes, whose places are in that part. The answer is `failure` if the text is
/// no call, or if the schema cannot be read. It fails if memory is refused.
pub fn check_data_call(alloc: Global, call: &str) -> Result<String, AllocError> {
    answer_or_failure(alloc, call, answer_of(alloc, call))
}

/// Answers a call that checks data by a schema which was opened, as [`check_data_call`] does, but
/// that the call has no `schema`.
pub fn check_data_call_by(
    alloc: Global,
    opened: &Opened,
    call: &str,
) -> Result<String, AllocError> {
    answer_or_failure(alloc, call, answer_by(alloc, opened, call))
}

/// The answer, or `failure` for a text that is no call.
fn answer_or_failure(
    alloc: Global,
    call: &str,
    answer: Result<String, FormError>,
) -> Result<String, AllocError> {
    match answer {
        Ok(answer) => Ok(answer),
        Err(error) => {
            let faults = only_fault(alloc, call, error)?;
            failure(alloc, &faults)
        }
    }
}

fn answer_by(alloc: Global, opened: &Opened, call: &str) -> Result<String, FormError> {
    let root = value_alone(alloc, call)?;
    let object = Object::of(&root)?;
    object.allow(&["entities", "request"])?;
    Ok(checked(alloc, &opened.schema, call, object)?)
}

fn answer_of(alloc: Global, call: &str) -> Result<String, FormError> {
    let root = value_alone(alloc, call)?;
    let object = Object::of(&root)?;
    object.allow(&["schema", "entities", "request"])?;
    let schema = object.need("schema")?;
    let schema = match schema_of(alloc, call, schema)? {
        Ok(schema) => schema,
        Err(faults) => {
            let faults = schema_faults(alloc, faults)?;
            return Ok(failure(alloc, &faults)?);
        }
    };
    Ok(checked(alloc, &schema, call, object)?)
}

/// The answer on the data of a call.
fn checked(
    alloc: Global,
    schema: &ValidatorSchema,
    call: &str,
    object: Object<'_>,
) -> Result<String, AllocError> {
    let entities = object.given("entities");
    let entities = judged(alloc, schema, call, DataKind::Entities, entities)?;
    let request = object.given("request");
    let request = judged(alloc, schema, call, DataKind::Request, request)?;
    written(alloc, &entities, &request)
}

/// The verdict on a part of a call, if the call has the part.
fn judged(
    alloc: Global,
    schema: &ValidatorSchema,
    call: &str,
    kind: DataKind,
    part: Option<&Value>,
) -> Result<Option<DataVerdict>, AllocError> {
    let Some(part) = part else {
        return Ok(None);
    };
    let text = text_at(call, part.place);
    let verdict = judge_data(alloc, schema, kind, text)?;
    Ok(Some(verdict))
}

fn written(
    alloc: Global,
    entities: &Option<DataVerdict>,
    request: &Option<DataVerdict>,
) -> Result<String, AllocError> {
    let mut answer = Answer::begin(alloc, "success")?;
    if let Some(verdict) = entities {
        answer.add_data("entities", verdict)?;
    }
    if let Some(verdict) = request {
        answer.add_data("request", verdict)?;
    }
    answer.finish()
}
