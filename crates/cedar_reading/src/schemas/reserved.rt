// Reserved words: names that the language keeps for itself.
use crate::cursor::Cursor;
use crate::faults::{Fault, ReadError};

/// Reads a name of a declared entity type, or a part of a namespace's name. It fails with
/// `Fault::Reserved` at a reserved word.
pub fn free_word<'a>(cursor: &mut Cursor<'a>) -> Result<&'a str, ReadError> {
    if is_reserved(cursor.peek().text) {
        return Err(cursor.fault(Fault::Reserved));
    }
    cursor.word()
}

/// Reads the name of an alias that is declared. It fails with `Fault::Reserved` at a reserved word.
pub fn free_alias<'a>(cursor: &mut Cursor<'a>) -> Result<&'a str, ReadError> {
    if is_reserved_alias(cursor.peek().text) {
        return Err(cursor.fault(Fault::Reserved));
    }
    free_word(cursor)
}

/// Whether the language keeps this word for itself.
pub fn is_reserved(word: &str) -> bool {
    matches!(
        word,
        "true" | "false" | "if" | "then" | "else" | "in" | "is" | "like" | "has" | "__cedar"
    )
}

fn is_reserved_alias(word: &str) -> bool {
    matches!(
        word,
        "Bool" | "Boolean" | "Entity" | "Extension" | "Long" | "Record" | "Set" | "String"
    )
}
