// Findings in texts of data, as lines.
use crate::frames::Frame;
use cedar_data::{DataError, Faults, check_entities_text, check_entry_text, check_request_text};
use cedar_reading::{schema, uid_alone};
use cedar_types::base::ValidatorSchema;
use std::alloc::{AllocError, Global};
use std::process::Abort;
use std::test::Fail;

/// The schema of all tests.
const SCHEMA: &str = "
type Address = { street: String, zip: Long };
entity User in [Group] {
  name: String, age?: Long, boss?: User, homes?: Set<Address>, address?: Address,
  seen?: Set<datetime>, from?: ipaddr, call?: { fn: String, arg: Long },
} tags Set<String>;
entity Group in [Group, Org] { owner?: User };
entity Org;
entity Color enum [\"red\", \"green\"];
action write;
action read in [write];
action view in [read] appliesTo {
  principal: [User], resource: [Group],
  context: { ip: ipaddr, color?: Color, ways?: Set<{ cost: decimal }> },
};
";

/// The schema; an empty one if it cannot be read, because then nothing conforms.
pub fn test_schema(alloc: Global) -> ValidatorSchema {
    match schema(alloc, SCHEMA) {
        Ok(schema) => schema,
        Err(_) => ValidatorSchema::empty(alloc),
    }
}

/// The mistakes of entities, a line for each: the faulty part of the text, and the words.
pub fn entities_shown(alloc: Global, text: &str) -> Result<String, AllocError> {
    let schema = test_schema(alloc);
    match check_entities_text(alloc, &schema, text) {
        Ok(checked) => faults_shown(alloc, text, &checked.faults, checked.conforming.is_some()),
        Err(error) => error_shown(alloc, error),
    }
}

/// Checks that each part has, in this frame, the mistakes beside it.
pub fn check_entities(
    rt: &impl Abort,
    alloc: Global,
    frame: Frame<'_>,
    cases: &[(&str, &str)],
) -> Result<(), Fail> {
    let (before, behind) = frame;
    for (part, wanted) in cases {
        let text = format!(in alloc; "{before}{part}{behind}")?;
        let shown = entities_shown(alloc, text.as_str())?;
        assert_eq!(rt; shown.as_str(), *wanted, "{part}");
    }
    Ok(())
}

/// The mistakes of a request, a line for each.
pub fn request_shown(alloc: Global, text: &str) -> Result<String, AllocError> {
    let schema = test_schema(alloc);
    match check_request_text(alloc, &schema, text) {
        Ok(checked) => faults_shown(alloc, text, &checked.faults, checked.conforming.is_some()),
        Err(error) => error_shown(alloc, error),
    }
}

fn error_shown(alloc: Global, error: DataError) -> Result<String, AllocError> {
    match error {
        DataError::Memory(error) => Err(error),
        DataError::At(at, fault) => format!(in alloc; "{at} {fault}\n"),
    }
}

/// A line for each mistake, or one that tells a contradiction: data conforms exactly if it has no mistake.
fn faults_shown(
    alloc: Global,
    text: &str,
    faults: &Faults,
    conforms: bool,
) -> Result<String, AllocError> {
    let mut shown = String::new(alloc);
    if conforms != faults.is_empty() {
        shown.push_str("it conforms and has mistakes, or neither\n")?;
    }
    for fault in faults.listed() {
        let part = text.get(fault.place.start..fault.place.end).unwrap_or("?");
        writeln!(shown, "{part} | {}", fault.problem)?;
    }
    if faults.has_more() {
        shown.push_str("more\n")?;
    }
    Ok(shown)
}

/// The stored ancestors of an entity of a text.
pub fn ancestors_shown(alloc: Global, text: &str, id: &str) -> Result<String, AllocError> {
    let schema = test_schema(alloc);
    let checked = check_entities_text(alloc, &schema, text);
    let (Ok(checked), Ok(id)) = (checked, uid_alone(alloc, id)) else {
        return String::from_str(alloc, "not read");
    };
    let Some(entities) = &checked.conforming else {
        return String::from_str(alloc, "not conforming");
    };
    let Some(entity) = entities.get(&id) else {
        return String::from_str(alloc, "not stored");
    };
    let mut shown = String::new(alloc);
    for ancestor in entity.ancestors.as_slice() {
        write!(shown, "{ancestor} ")?;
    }
    Ok(shown)
}

/// The entity in a text of its own with its ancestors, or its mistakes.
pub fn entry_shown(alloc: Global, text: &str) -> Result<String, AllocError> {
    let schema = test_schema(alloc);
    let checked = match check_entry_text(alloc, &schema, text) {
        Ok(checked) => checked,
        Err(error) => return error_shown(alloc, error),
    };
    if checked.conforming.is_some() != checked.faults.is_empty() {
        return String::from_str(alloc, "it conforms and has mistakes, or neither");
    }
    let Some((id, entity)) = &checked.conforming else {
        return format!(in alloc; "{}", checked.faults);
    };
    let mut shown = format!(in alloc; "{id} in ")?;
    for ancestor in entity.ancestors.as_slice() {
        write!(shown, "{ancestor} ")?;
    }
    Ok(shown)
}
