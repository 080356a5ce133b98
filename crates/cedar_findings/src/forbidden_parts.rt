//! Parts of conditions that Cedar's own parser refuses, although they can be read: slots, unknowns,
//! calls of undefined functions, and functions that are called as methods, or methods as functions.
use crate::faults::{TextFault, push_hint};
use crate::hints::hint_for_call;
use crate::marks::{Marked, add_part, marked_in_scope};
use crate::parts::text_at;
use cedar_extensions::functions::{is_constructor, is_method};
use cedar_types::base::{Expr, ExprKind, ExtensionSchemas, Loc, Name, Template};
use std::alloc::{AllocError, Global};

/// The fault of a part of a condition that may not stand there. Slots and unknowns are refused,
/// because validation promises nothing of policies with them. A call of an undefined function is
/// refused even if typing never looks there; the functions are Cedar's and those of this table, in
/// which a host may have its own. The way of a call shows only in a text: JSON gives none, because
/// it writes all calls alike.
pub fn forbidden_part<C>(
    alloc: Global,
    functions: &ExtensionSchemas<C>,
    text: Option<&str>,
    policy: &Template,
) -> Result<Option<TextFault>, AllocError> {
    Ok(marks_unless_forbidden(alloc, functions, text, policy)?.err())
}

/// The parts of a policy that may be read as others, or the fault of a forbidden part. One walk
/// finds both.
pub fn marks_unless_forbidden<C>(
    alloc: Global,
    functions: &ExtensionSchemas<C>,
    text: Option<&str>,
    policy: &Template,
) -> Result<Result<Vec<Marked>, TextFault>, AllocError> {
    let mut marked = marked_in_scope(alloc, policy)?;
    let Some(condition) = &policy.non_scope_constraints else {
        return Ok(Ok(marked));
    };
    for item in condition.subexpressions(alloc)? {
        let part = item?;
        if let Some(text) = why_forbidden(alloc, functions, text, part)? {
            let place = part.loc.unwrap_or(Loc { start: 0, end: 0 });
            return Ok(Err(TextFault { place, text }));
        }
        add_part(&mut marked, part)?;
    }
    Ok(Ok(marked))
}

fn why_forbidden<C>(
    alloc: Global,
    functions: &ExtensionSchemas<C>,
    text: Option<&str>,
    part: &Expr,
) -> Result<Option<String>, AllocError> {
    let message = match &part.kind {
        ExprKind::Slot(_) => "a slot can stand in the scope alone, before the conditions",
        ExprKind::Unknown(_) => "an unknown has no value",
        ExprKind::ExtensionFunctionApp(name, arguments) if !is_function(functions, name) => {
            let text = text.unwrap_or("");
            return Ok(Some(no_function(alloc, text, name, arguments)?));
        }
        ExprKind::ExtensionFunctionApp(name, arguments) if name.path.is_empty() => {
            let Some(text) = text else {
                return Ok(None);
            };
            return explain_call(alloc, text, part.loc, name.basename.as_str(), arguments);
        }
        _ => return Ok(None),
    };
    Ok(Some(String::from_str(alloc, message)?))
}

/// Whether Cedar or this table has a function of this name.
fn is_function<C>(functions: &ExtensionSchemas<C>, name: &Name) -> bool {
    let own = name.basename.as_str();
    let is_of_cedar = name.path.is_empty() && (is_constructor(own) || is_method(own));
    is_of_cedar || functions.func_type(name).is_some()
}

/// The fault that there is no function of a name, with the meant one if one is near.
fn no_function(
    alloc: Global,
    text: &str,
    name: &Name,
    arguments: &Vec<Expr>,
) -> Result<String, AllocError> {
    let mut message = format!(in alloc; "undefined extension function `{name}`")?;
    let hint = hint_for_call(alloc, text, name, arguments.as_slice())?;
    push_hint(&mut message, hint.as_str())?;
    Ok(message)
}

/// The right way to call a function that is called as a method, or a method that is called as a
/// function.
fn explain_call(
    alloc: Global,
    text: &str,
    place: Option<Loc>,
    name: &str,
    arguments: &Vec<Expr>,
) -> Result<Option<String>, AllocError> {
    let shown = match arguments.first() {
        Some(first) => text_at(text, first.loc).unwrap_or("a"),
        None => "a",
    };
    if is_called_as_function(text, place, arguments.as_slice()) {
        if is_method(name) {
            let dots = if arguments.len() > 1 { ".." } else { "" };
            let message = format!(in alloc; "`{name}` is a method: `{shown}.{name}({dots})`")?;
            return Ok(Some(message));
        }
    } else if is_constructor(name) {
        return Ok(Some(format!(in alloc; "`{name}` is a function: `{name}({shown})`")?));
    }
    Ok(None)
}

/// Whether a call was written as a function, `f(a)`, and not as a method, `a.f()`. The places tell
/// it, whatever blanks and comments stand in the call: a method's call begins with its base, or
/// with a parenthesis around the base.
fn is_called_as_function(text: &str, place: Option<Loc>, arguments: &[Expr]) -> bool {
    let Some(place) = place else {
        return true;
    };
    let base = arguments.first().and_then(|base: &Expr| base.loc);
    if base.map(|base: Loc| base.start) == Some(place.start) {
        return false;
    }
    !text.get(place.start..).unwrap_or("").starts_with('(')
}
