// The schema of a call.
use cedar_findings::faults::TextFault;
use cedar_findings::schema_texts::SchemaTexts;
use cedar_json::{FormError, Value, ValueKind, expected};
use cedar_types::base::{Loc, ValidatorSchema};
use cedar_verdicts::schemas::{SchemaFault, json_schema_or_faults, schema_or_faults};
use std::alloc::{AllocError, Global};

/// The schema that a value of this call declares, or its faults: a text in Cedar's own syntax,
/// whose faults have their places in it, or an object in Cedar's form of JSON, whose faults have
/// theirs in the object.
pub fn schema_of(
    alloc: Global,
    call: &str,
    value: &Value,
) -> Result<Result<ValidatorSchema, Vec<TextFault>>, FormError> {
    match &value.kind {
        ValueKind::Text(text) => Ok(schema_of_text(alloc, text.as_str())?),
        ValueKind::Object(_) => {
            let text = text_at(call, value.place);
            Ok(json_schema_or_faults(alloc, text)?)
        }
        _ => Err(expected(value, "a schema, as a text or as an object")),
    }
}

fn schema_of_text(
    alloc: Global,
    text: &str,
) -> Result<Result<ValidatorSchema, Vec<TextFault>>, AllocError> {
    let mut texts = SchemaTexts::new(alloc);
    texts.add(text)?;
    let placed = match schema_or_faults(alloc, &texts)? {
        Ok(schema) => return Ok(Ok(schema)),
        Err(placed) => placed,
    };
    let mut faults = Vec::new(alloc);
    for SchemaFault { number: _, fault } in placed {
        faults.push(fault)?;
    }
    Ok(Err(faults))
}

/// The text at a place of a call; empty if the call has no such place.
pub fn text_at(call: &str, place: Loc) -> &str {
    call.get(place.start..place.end).unwrap_or("")
}
