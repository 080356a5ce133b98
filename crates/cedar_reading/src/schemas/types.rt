// Types as the text writes them, and the attributes of records and entities. Each call goes one
// step deeper into the grammar, up to `MAX_GRAMMAR_STEPS`.
ghost use Rattle.std.specs.Prelude.{◌≡◌, ◌+◌, IfOk};

use crate::annotations::pass_annotations;
use crate::cursor::Cursor;
use crate::faults::{Expected, Fault, ReadError};
use crate::members::key;
use crate::names::placed_name;
use crate::notes::Met;
use crate::schemas::language::{name_of_language, undeclared_type};
use crate::schemas::written::{Role, WrittenAttribute, WrittenName, WrittenRecord, WrittenType};
use cedar_types::base::Name;
use std::collections::BTreeSet;

/// Reads a type.
#[cycle(types)]
pub fn written_type(cursor: &mut Cursor<'_>, left: usize) -> Result<WrittenType, ReadError> {
    let start = cursor.start();
    let inner = deeper(left, start)?;
    if cursor.is_at("{") {
        return written_record(cursor, inner);
    }
    if cursor.is_at("[") {
        return Err(cursor.fault(Fault::Expected(Expected::Type)));
    }
    if !cursor.takes("Set") {
        return type_of_name(cursor, inner);
    }
    cursor.expect("<")?;
    let element = written_type(cursor, inner)?;
    cursor.expect(">")?;
    Ok(WrittenType::Set(Box::new(cursor.alloc, element)?, start))
}

/// Reads the type of a record.
#[cycle(types)]
fn written_record(cursor: &mut Cursor<'_>, left: usize) -> Result<WrittenType, ReadError> {
    let inner = deeper(left, cursor.start())?;
    Ok(WrittenType::Record(written_attributes(cursor, inner)?))
}

/// Reads attributes in braces, with commas between them, and perhaps one behind the last.
#[cycle(types)]
pub fn written_attributes(
    cursor: &mut Cursor<'_>,
    left: usize,
) -> Result<WrittenRecord, ReadError> {
    let brace = cursor.start();
    let inner = deeper(left, brace)?;
    cursor.expect("{")?;
    let mut keys = BTreeSet::new(cursor.alloc);
    let mut attributes = Vec::new(cursor.alloc);
    for _ in 0..cursor.most_left() {
        if cursor.takes("}") {
            break;
        }
        pass_annotations(cursor)?;
        let start = cursor.start();
        let key = key(cursor)?;
        let is_required = !cursor.takes("?");
        cursor.expect(":")?;
        let attr_type = written_type(cursor, inner)?;
        if !keys.insert(key.clone()?)? {
            cursor.notes.meet(start, Met::Fault(Fault::SameKey))?;
        }
        attributes.push(WrittenAttribute {
            key,
            is_required,
            attr_type,
        })?;
        if !cursor.takes(",") {
            let all = behind_attribute(cursor);
            cursor.expect_one("}", all)?;
            break;
        }
    }
    Ok(WrittenRecord {
        attributes,
        start: brace,
    })
}

/// The expectation behind an attribute's type, for the fault if another token stands there.
fn behind_attribute(cursor: &Cursor<'_>) -> Expected {
    if cursor.is_at("?") {
        Expected::OptionalMark
    } else {
        Expected::Attribute
    }
}

/// Reads the name of a type.
fn type_of_name(cursor: &mut Cursor<'_>, left: usize) -> Result<WrittenType, ReadError> {
    deeper(left, cursor.start())?;
    let read = written_name(cursor)?;
    match name_of_language(cursor.alloc, &read.name)? {
        Some(own) => type_of_language(cursor, own, read.start),
        None => {
            cursor.notes.mention(&read, Role::Type)?;
            Ok(WrittenType::Named(read))
        }
    }
}

/// Reads a name, and counts the tokens up to it.
pub fn written_name(cursor: &mut Cursor<'_>) -> Result<WrittenName, ReadError> {
    let start = cursor.start();
    let name = placed_name(cursor)?.name;
    Ok(WrittenName {
        name,
        start,
        behind: cursor.start(),
        tokens: cursor.tokens(),
    })
}

/// The primitive or extension type of this name, also if a declaration has that name.
fn type_of_language(
    cursor: &mut Cursor<'_>,
    name: Name,
    start: usize,
) -> Result<WrittenType, ReadError> {
    match undeclared_type(cursor.alloc, &name)? {
        Some(own) => Ok(WrittenType::Known(own, start)),
        None => {
            cursor.notes.meet(start, Met::Fault(Fault::Undeclared))?;
            Ok(WrittenType::Unknown(start))
        }
    }
}

/// The steps left after one step deeper into the grammar; it fails at the byte `start` if none is
/// left.
pub fn deeper(left: usize, start: usize) -> Result<usize, ReadError>
    ensures { IfOk result (λ inner. inner + 1 ≡ left) }
{
    match left.checked_sub(1) {
        Some(inner) => Ok(inner),
        None => Err(ReadError::At(start, Fault::TooDeep)),
    }
}
