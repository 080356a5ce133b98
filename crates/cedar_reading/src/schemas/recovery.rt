// Recovery: how reading goes on behind a declaration with a fault.
use crate::cursor::Cursor;
use crate::faults::ReadError;
use crate::notes::Met;
use crate::schemas::unsure::UnsureNames;
use crate::schemas::written::Item;
use crate::tokens::TokenKind;
use std::alloc::AllocError;

/// Goes on behind the declaration that began at the byte `start`, if it has a fault and faults are
/// noted; else fails with the fault. The names in the declaration, but for those in brackets, are
/// unsure then; it returns the names read before the fault.
pub fn go_on_behind(
    cursor: &mut Cursor<'_>,
    start: usize,
    read: Result<(), ReadError>,
    unsure: &mut UnsureNames,
) -> Result<Option<Item>, ReadError> {
    let mentions = cursor.notes.take_mentions();
    let Err(error) = read else {
        return Ok(None);
    };
    note(cursor, error)?;
    pass_declaration(cursor, start, unsure)?;
    Ok(Some(Item::Faulty(mentions)))
}

/// Goes on in the braces of a namespace, if the text before them has a fault and faults are noted;
/// else fails with the fault. No name is sure then. Returns whether there are braces, as far as can
/// be seen.
pub fn go_on_inside(
    cursor: &mut Cursor<'_>,
    error: ReadError,
    unsure: &mut UnsureNames,
) -> Result<bool, ReadError> {
    note(cursor, error)?;
    unsure.add_all();
    for _ in 0..cursor.most_left() {
        if cursor.takes("{") || begins_declaration(cursor, 0) {
            return Ok(true);
        }
        if cursor.is_at_end() || cursor.is_at("}") || cursor.takes(";") {
            break;
        }
        cursor.take();
    }
    Ok(false)
}

fn note(cursor: &mut Cursor<'_>, error: ReadError) -> Result<(), ReadError> {
    match error {
        ReadError::At(at, fault) => cursor.notes.meet(at, Met::Fault(fault)),
        memory => Err(memory),
    }
}

/// Passes a declaration that began at the byte `start` and was read up to a fault: behind the fault
/// it goes up to a `;`, or until another declaration begins or the namespace ends.
fn pass_declaration(
    cursor: &mut Cursor<'_>,
    start: usize,
    unsure: &mut UnsureNames,
) -> Result<(), AllocError> {
    let fault = cursor.start();
    cursor.move_to(start);
    let mut depth = 0usize;
    for _ in 0..cursor.most_left() {
        let here = cursor.start();
        let is_first = here <= start;
        let was_read = here < fault;
        if cursor.is_at_end() || (!is_first && !was_read && ends_before(cursor, depth)) {
            break;
        }
        if depth == 0 {
            unsure.add_next(cursor)?;
        }
        if is_first && cursor.takes("}") {
            // a brace that closes nothing: perhaps a namespace ended too early
            unsure.add_all();
            cursor.takes(";");
            break;
        }
        if !was_read && cursor.takes(";") {
            break;
        }
        depth = depth_behind(cursor, depth);
    }
    Ok(())
}

/// Takes a token with `depth` open brackets before it, and returns the number of open brackets
/// behind it.
fn depth_behind(cursor: &mut Cursor<'_>, depth: usize) -> usize {
    match cursor.take().text {
        "(" | "[" | "{" => depth.saturating_add(1),
        ")" | "]" | "}" => depth.saturating_sub(1),
        _ => depth,
    }
}

/// Whether a declaration with `depth` open brackets seems to end before the next token.
fn ends_before(cursor: &Cursor<'_>, depth: usize) -> bool {
    (depth == 0 && cursor.is_at("}")) || begins_declaration(cursor, depth)
}

/// Whether a declaration seems to begin with `depth` brackets open: with its first word and a name
/// behind it, at the beginning of a line if brackets are open, or with an annotation if none are.
fn begins_declaration(cursor: &Cursor<'_>, depth: usize) -> bool {
    if depth == 0 && cursor.is_at("@") {
        return true;
    }
    is_at_first_word(cursor) && is_before_name(cursor) && (depth == 0 || cursor.begins_line())
}

fn is_at_first_word(cursor: &Cursor<'_>) -> bool {
    matches!(
        cursor.peek().text,
        "entity" | "action" | "type" | "namespace"
    )
}

/// Whether a name or a text stands behind the next token.
fn is_before_name(cursor: &Cursor<'_>) -> bool {
    let behind = cursor.at(cursor.peek().place.end);
    matches!(behind.peek().kind, TokenKind::Word | TokenKind::Text)
}
