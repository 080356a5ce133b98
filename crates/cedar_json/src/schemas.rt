// Schemas in Cedar's JSON form, written as texts in Cedar's own syntax.
mod actions;
mod declared;
mod entity_types;
mod meanings;
mod namespaces;
mod types;

use crate::forms::{FormError, FormFault, Object, PlacedFault};
use crate::translations::Translation;
use crate::whole::value_alone;
use declared::{Declared, Names};
use namespaces::put_namespace;
use std::alloc::{AllocError, Global};

/// The number of faults of a text that are reported.
const MAX_FAULTS: usize = 100;

/// A JSON schema with faults of form.
#[derive(Debug, Drop)]
pub struct FaultySchema {
    /// The faults of form by place: the first hundred, one at each place.
    pub faults: Vec<PlacedFault>,
    /// The schema without its faulty parts, if all names that it declares could be read. In it,
    /// a type with a fault is a record without attributes.
    pub rest: Option<Translation>,
}

/// Writes the declarations of a JSON text in Cedar's own syntax, with the places of the JSON text.
/// Faults of the declarations as such, for example a type inside itself or a parent that is not
/// declared, show when the written text is read.
///
/// Fails if the text is not JSON, if it does not have the form of schemas, or if a name means
/// something else in Cedar's syntax. The error is the first fault by place.
pub fn schema_text(alloc: Global, json: &str) -> Result<Translation, FormError> {
    match schema_text_or_faults(alloc, json)? {
        Ok(written) => Ok(written),
        Err(faulty) => Err(first_of(&faulty)),
    }
}

fn first_of(faulty: &FaultySchema) -> FormError {
    match faulty.faults.first() {
        Some(first) => FormError::At(first.start, first.fault),
        None => FormError::At(0, FormFault::Expected("a schema")),
    }
}

/// Writes the text of a schema as `schema_text` does, or returns its faults of form, because the
/// reader goes on behind each fault. A text that is not JSON has one fault.
pub fn schema_text_or_faults(
    alloc: Global,
    json: &str,
) -> Result<Result<Translation, FaultySchema>, AllocError> {
    let mut out = Translation::new(alloc);
    let written = put_schema(alloc, &mut out, json);
    let names = out.noted(written)?.unwrap_or(Names::Some);
    let faults = out.take_faults();
    if faults.is_empty() {
        return Ok(Ok(out));
    }
    let faults = first_by_place(alloc, faults, names)?;
    let rest = match names {
        Names::All => Some(out),
        Names::Some => None,
    };
    Ok(Err(FaultySchema { faults, rest }))
}

/// Writes the declarations of a schema, and returns which of its names were read. It notes faults,
/// and fails only if it can write nothing behind one.
fn put_schema(alloc: Global, out: &mut Translation, json: &str) -> Result<Names, FormError> {
    let read = value_alone(alloc, json)?;
    let namespaces = Object::of(&read)?;
    let declared = Declared::of(alloc, out, namespaces)?;
    for (name, body) in namespaces.entries {
        if let Some(body) = out.noted(Object::of(body))? {
            put_namespace(out, &declared, name, body)?;
        }
    }
    out.check()?;
    Ok(declared.names)
}

/// Sorts the faults by place and keeps the first at each place. If names are missing, it leaves out
/// the faults of names that are not declared.
fn first_by_place(
    alloc: Global,
    mut faults: Vec<PlacedFault>,
    names: Names,
) -> Result<Vec<PlacedFault>, AllocError> {
    faults.sort_by_key(|it| it.start)?;
    let mut kept: Vec<PlacedFault> = Vec::new(alloc);
    for fault in &faults {
        let is_of_names = matches!(fault.fault, FormFault::Undeclared | FormFault::Hidden);
        let is_unsure = names == Names::Some && is_of_names;
        let is_told = kept.last().is_some_and(|last| last.start == fault.start);
        if kept.len() < MAX_FAULTS && !is_unsure && !is_told {
            kept.push(*fault)?;
        }
    }
    Ok(kept)
}
