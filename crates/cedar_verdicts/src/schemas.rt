//! Schemas of texts in either syntax, or their faults.
use cedar_findings::faults::{TextFault, Written, all_schema_faults, hiding_fault, schema_fault};
use cedar_findings::json_faults::form_fault;
use cedar_findings::schema_texts::SchemaTexts;
use cedar_json::{FaultySchema, FormError, PlacedFault, Translation, schema_text_or_faults};
use cedar_reading::{ReadSchema, schema_with_hiding};
use cedar_types::base::{Loc, ValidatorSchema};
use std::alloc::{AllocError, Global};

/// The number of faults of a text that are told.
const MAX_FAULTS: usize = 100;

/// A fault of a schema, in the text of this number.
#[derive(Drop)]
pub struct SchemaFault {
    pub number: usize,
    pub fault: TextFault,
}

/// The schema that texts in Cedar's own syntax declare together, or all their faults.
pub fn schema_or_faults(
    alloc: Global,
    texts: &SchemaTexts,
) -> Result<Result<ValidatorSchema, Vec<SchemaFault>>, AllocError> {
    let first = match schema_or_fault(alloc, texts.text())? {
        Ok(schema) => return Ok(Ok(schema)),
        Err(fault) => fault,
    };
    let mut faults = Vec::new(alloc);
    for fault in all_schema_faults(alloc, texts.text(), first)? {
        let (number, fault) = texts.own_fault(alloc, fault)?;
        faults.push(SchemaFault { number, fault })?;
    }
    Ok(Err(faults))
}

/// The schema that a text of JSON declares, or its first hundred faults by place in the JSON: those of its form, and those of
/// the declarations without a fault of form, unless names may be missing.
pub fn json_schema_or_faults(
    alloc: Global,
    json: &str,
) -> Result<Result<ValidatorSchema, Vec<TextFault>>, AllocError> {
    let mut faults = Vec::new(alloc);
    match schema_text_or_faults(alloc, json)? {
        Ok(written) => match schema_or_fault(alloc, written.text())? {
            Ok(schema) => return Ok(Ok(schema)),
            Err(first) => add_faults_of_text(alloc, &written, first, &mut faults)?,
        },
        Err(faulty) => add_faults_of_form(alloc, json, faulty, &mut faults)?,
    }
    faults.sort_by_key(|it| (it.place.start, it.place.end))?;
    faults.truncate(MAX_FAULTS);
    Ok(Err(faults))
}

/// Adds the faults of form of a text of JSON, and the faults of its other declarations.
fn add_faults_of_form(
    alloc: Global,
    json: &str,
    faulty: FaultySchema,
    faults: &mut Vec<TextFault>,
) -> Result<(), AllocError> {
    let FaultySchema {
        faults: of_form,
        rest,
    } = faulty;
    for PlacedFault { start, fault } in of_form {
        let error = FormError::At(start, fault);
        faults.push(form_fault(alloc, Written::Schema, json, error)?)?;
    }
    let Some(rest) = rest else {
        return Ok(());
    };
    match schema_or_fault(alloc, rest.text())? {
        Ok(_) => Ok(()),
        Err(first) => add_faults_of_text(alloc, &rest, first, faults),
    }
}

/// Adds the faults of a text that was written from JSON, at their places in the JSON. The first one is known.
fn add_faults_of_text(
    alloc: Global,
    written: &Translation,
    first: TextFault,
    faults: &mut Vec<TextFault>,
) -> Result<(), AllocError> {
    for fault in all_schema_faults(alloc, written.text(), first)? {
        let TextFault { place, text } = fault;
        let place = written.origin_of(place.start);
        // a common type that stands for a shape is written at each of its uses, so its faults come more than once at one place
        if !is_told(faults, place, text.as_str()) {
            faults.push(TextFault { place, text })?;
        }
    }
    Ok(())
}

/// Whether these faults have one of this text at this place.
fn is_told(faults: &Vec<TextFault>, place: Loc, text: &str) -> bool {
    faults
        .iter()
        .any(|it| it.place == place && it.text.as_str() == text)
}

/// The schema that a text in Cedar's own syntax declares, or its first fault.
fn schema_or_fault(
    alloc: Global,
    text: &str,
) -> Result<Result<ValidatorSchema, TextFault>, AllocError> {
    let ReadSchema { schema, hiding } = match schema_with_hiding(alloc, text) {
        Ok(read) => read,
        Err(error) => return Ok(Err(schema_fault(alloc, text, error)?)),
    };
    match hiding_fault(alloc, text, hiding)? {
        None => Ok(Ok(schema)),
        Some(fault) => Ok(Err(fault)),
    }
}
