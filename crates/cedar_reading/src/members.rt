// Small expressions that have no grammar of their own: literals, slots, keys, calls.
use crate::cursor::{Cursor, MAX_GRAMMAR_STEPS};
use crate::faults::{Expected, Fault, ReadError};
use crate::names::{check_free, no_id, placed_name, uid_of};
use crate::operators::method;
use crate::schemas::reserved::is_reserved;
use crate::texts::text;
use crate::tokens::TokenKind;
use cedar_types::base::{AttrChain, Expr, ExprKind, Literal, Name, SlotId, Var};
use std::alloc::Global;
use std::rc::RcStr;

/// The beginning of an operand that starts with a word.
#[derive(Drop)]
pub enum Beginning {
    /// A variable, a boolean or an id of an entity.
    Whole(Expr),
    /// The name of a function, and its `(`.
    Function(Name),
}

/// Reads a variable, a boolean, an id of an entity, or the beginning of a call.
pub fn beginning_with_word(cursor: &mut Cursor<'_>) -> Result<Beginning, ReadError> {
    let start = cursor.start();
    let word = cursor.peek().text;
    let read = placed_name(cursor)?;
    if read.is_of_id {
        check_free(cursor, &read)?;
        let uid = uid_of(cursor, start, read)?;
        return Ok(Beginning::Whole(Expr::val(Literal::EntityUID(uid))));
    }
    if cursor.takes("(") {
        return Ok(Beginning::Function(read.name));
    }
    if !read.name.path.is_empty() {
        check_free(cursor, &read)?;
        return Err(no_id(cursor, &read));
    }
    let whole = match word {
        "true" => Expr::val(Literal::Bool(true)),
        "false" => Expr::val(Literal::Bool(false)),
        "principal" => Expr::var(Var::Principal),
        "action" => Expr::var(Var::Action),
        "resource" => Expr::var(Var::Resource),
        "context" => Expr::var(Var::Context),
        _ => return Err(ReadError::At(start, Fault::Expected(Expected::Expression))),
    };
    Ok(Beginning::Whole(whole))
}

/// Reads the name of a slot, right behind its `?`.
pub fn slot(cursor: &mut Cursor<'_>) -> Result<Expr, ReadError> {
    if !cursor.is_joined() {
        Err(cursor.fault(Fault::Expected(Expected::Slot)))
    } else if cursor.takes("principal") {
        Ok(Expr::slot(SlotId::Principal))
    } else if cursor.takes("resource") {
        Ok(Expr::slot(SlotId::Resource))
    } else {
        Err(cursor.fault(Fault::Expected(Expected::Slot)))
    }
}

/// Reads a number or a text in quotes.
pub fn literal(cursor: &mut Cursor<'_>) -> Result<Expr, ReadError> {
    match cursor.peek().kind {
        TokenKind::Number => {
            let token = cursor.take();
            long(token.text, token.place.start)
        }
        TokenKind::Text => {
            let content = text(cursor)?;
            let content = RcStr::from_str(cursor.alloc, content.as_str())?;
            Ok(Expr::val(Literal::String(content)))
        }
        TokenKind::Unknown => Err(cursor.fault(Fault::Text)),
        _ => Err(cursor.fault(Fault::Expected(Expected::Expression))),
    }
}

/// Reads the number behind a minus at the byte `start`. Blanks and comments may stand between them.
pub fn negative_number(cursor: &mut Cursor<'_>, start: usize) -> Result<Expr, ReadError> {
    let alloc = cursor.alloc;
    let digits = cursor.take().text;
    let content = format!(in alloc; "-{digits}")?;
    long(content.as_str(), start)
}

/// The number that `text` writes, at the byte `start`.
fn long(text: &str, start: usize) -> Result<Expr, ReadError> {
    match text.parse::<i64>() {
        Ok(number) => Ok(Expr::val(Literal::Long(number))),
        Err(_) => Err(ReadError::At(start, Fault::Number)),
    }
}

/// Reads an attribute without quotes, or the name of a method. It fails with
/// `Fault::ReservedAttribute` at a reserved word.
pub fn attribute_word<'a>(cursor: &mut Cursor<'a>) -> Result<&'a str, ReadError> {
    if is_reserved(cursor.peek().text) {
        return Err(cursor.fault(Fault::ReservedAttribute));
    }
    cursor.word()
}

/// Reads the key of a record's entry, or an attribute: a word that is not reserved, or a text in
/// quotes.
pub fn attribute(cursor: &mut Cursor<'_>) -> Result<RcStr, ReadError> {
    let alloc = cursor.alloc;
    if cursor.peek().kind == TokenKind::Word {
        return Ok(RcStr::from_str(alloc, attribute_word(cursor)?)?);
    }
    key(cursor)
}

/// Reads a key of a record type: any word, or a text in quotes.
pub fn key(cursor: &mut Cursor<'_>) -> Result<RcStr, ReadError> {
    let alloc = cursor.alloc;
    if cursor.peek().kind == TokenKind::Word {
        return Ok(RcStr::from_str(alloc, cursor.word()?)?);
    }
    let content = text(cursor)?;
    Ok(RcStr::from_str(alloc, content.as_str())?)
}

/// Reads the attribute behind `has`: a text in quotes, or words with points between them.
pub fn has(cursor: &mut Cursor<'_>, base: Expr) -> Result<Expr, ReadError> {
    let alloc = cursor.alloc;
    let is_text = cursor.peek().kind == TokenKind::Text;
    let first = attribute(cursor)?;
    cursor.keep_whole_end();
    if is_text {
        return Ok(Expr::has_attr(alloc, base, first.as_str())?);
    }
    let rest = further_attributes(cursor)?;
    if rest.is_empty() {
        return Ok(Expr::has_attr(alloc, base, first.as_str())?);
    }
    Ok(Expr::extended_has_attr(alloc, base, AttrChain { first, rest })?)
}

/// Reads attributes with a point before each.
fn further_attributes(cursor: &mut Cursor<'_>) -> Result<Vec<RcStr>, ReadError> {
    let mut attributes = Vec::new(cursor.alloc);
    // each attribute tests the entity or record to which those before it lead
    for _ in 0..MAX_GRAMMAR_STEPS {
        if !cursor.takes(".") {
            return Ok(attributes);
        }
        let word = attribute_word(cursor)?;
        attributes.push(RcStr::from_str(cursor.alloc, word)?)?;
        cursor.keep_whole_end();
    }
    Err(cursor.fault(Fault::TooDeep))
}

/// The call of an extension function whose name begins at the byte `start`, or an unknown.
pub fn call(alloc: Global, start: usize, name: Name, args: Vec<Expr>) -> Result<Expr, ReadError> {
    if !name.path.is_empty() || name.basename.as_str() != "unknown" {
        return Ok(Expr::call_extension_fn(name, args));
    }
    let [argument] = args.as_slice() else {
        return Err(ReadError::At(start, Fault::Expected(Expected::OneArgument)));
    };
    let Some(unknown) = string_in(argument) else {
        return Err(ReadError::At(start, Fault::Expected(Expected::Unknown)));
    };
    Ok(Expr::unknown(Name::unqualified_name(alloc, unknown)?))
}

/// The content of a string literal, if `expr` is one.
fn string_in(expr: &Expr) -> Option<&str> {
    match &expr.kind {
        ExprKind::Lit(Literal::String(content)) => Some(content.as_str()),
        _ => None,
    }
}

/// The expression of a method's call: an operator, or a call of an extension function with the base
/// as its first argument. The name begins at the byte `start`.
pub fn method_call(
    alloc: Global,
    start: usize,
    name: &str,
    base: Expr,
    mut args: Vec<Expr>,
) -> Result<Expr, ReadError> {
    if name == "isEmpty" {
        return if args.is_empty() {
            Ok(Expr::is_empty(alloc, base)?)
        } else {
            Err(ReadError::At(start, Fault::Expected(Expected::NoArgument)))
        };
    }
    let Some(operator) = method(name) else {
        args.insert(0, base)?;
        return Ok(Expr::call_extension_fn(Name::unqualified_name(alloc, name)?, args));
    };
    match (args.pop(), args.is_empty()) {
        (Some(argument), true) => Ok(Expr::binary_app(alloc, operator, base, argument)?),
        _ => Err(ReadError::At(start, Fault::Expected(Expected::OneArgument))),
    }
}
