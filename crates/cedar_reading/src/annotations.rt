// Annotations of policies and declarations: `@key("value")`.
use crate::cursor::Cursor;
use crate::faults::{Fault, ReadError};
use crate::texts::text;
use cedar_types::base::Loc;
use std::collections::BTreeSet;

/// An annotation: `@key("value")`, or `@key`, whose value is empty.
#[derive(Debug, Drop)]
pub struct Annotation {
    pub key: String,
    pub value: String,
    /// The whole annotation, from its `@` on.
    pub place: Loc,
}

/// Reads any number of annotations and adds each to `annotations`. It fails with `Fault::SameKey`
/// at a key that comes twice.
pub fn add_annotations(
    cursor: &mut Cursor<'_>,
    annotations: &mut Vec<Annotation>,
) -> Result<(), ReadError> {
    let alloc = cursor.alloc;
    let mut keys = BTreeSet::new(alloc);
    for _ in 0..cursor.most_left() {
        let start = cursor.start();
        if !cursor.takes("@") {
            break;
        }
        let word = cursor.peek();
        let key = String::from_str(alloc, cursor.word()?)?;
        if !keys.insert(word.text)? {
            return Err(ReadError::At(word.place.start, Fault::SameKey));
        }
        let value = annotation_value(cursor)?;
        let place = cursor.since(start);
        annotations.push(Annotation { key, value, place })?;
    }
    Ok(())
}

/// Reads any number of annotations and drops them, because in a schema they mean nothing.
pub fn pass_annotations(cursor: &mut Cursor<'_>) -> Result<(), ReadError> {
    let mut annotations = Vec::new(cursor.alloc);
    add_annotations(cursor, &mut annotations)
}

/// Reads the value of an annotation; the value is empty if no `(` follows.
fn annotation_value(cursor: &mut Cursor<'_>) -> Result<String, ReadError> {
    if !cursor.takes("(") {
        return Ok(String::new(cursor.alloc));
    }
    let value = text(cursor)?;
    cursor.expect(")")?;
    Ok(value)
}
