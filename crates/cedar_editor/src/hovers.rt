//! Hovers: Markdown texts about the part at a position.
use crate::checks::CheckedPolicy;
use crate::mentions::mention_at;
use crate::outlines::Declared;
use crate::schemas::SchemaText;
use crate::spots::spot_at;
use crate::typed_parts::{TypedPart, types_of};
use cedar_types::base::{ArgumentCheck, Loc};
use cedar_verdicts::settings::Settings;
use std::alloc::{AllocError, Global};

/// The most types of a part that are shown: few, because a hover is a small window.
const MAX_TYPES_SHOWN: usize = 8;

/// The most characters of a part, or of a declaration, that are shown.
const MAX_TEXT: usize = 400;

/// The Markdown text about a part, with the part's place in its policy.
#[derive(Drop)]
pub struct Hover {
    pub place: Loc,
    pub text: String,
}

/// The hover on the part at a byte of a policy: the declaration of a name, or the types of the part and the environments in
/// which it has them; `None` if nothing is known. If memory is refused, the answer is an `AllocError`.
pub fn hover_at<C: ArgumentCheck>(
    alloc: Global,
    settings: Option<&Settings<'_, C>>,
    schema: &SchemaText,
    policy: &CheckedPolicy,
    byte: usize,
) -> Result<Option<Hover>, AllocError> {
    let template = &policy.template;
    if let Some(name) = mention_at(alloc, schema.declared.as_slice(), template, byte)? {
        return Ok(Some(Hover {
            place: name.place,
            text: declaration_shown(alloc, schema.text.as_str(), name.declared)?,
        }));
    }
    let (Some(settings), Some(condition)) = (settings, &template.non_scope_constraints) else {
        return Ok(None);
    };
    let Some(spot) = spot_at(alloc, condition, byte)? else {
        return Ok(None);
    };
    let Some(place) = spot.part.loc else {
        return Ok(None);
    };
    let types = types_of(alloc, settings, template, spot.guards.as_slice(), spot.part)?;
    let part = text_at(policy.text.as_str(), place);
    Ok(Some(Hover {
        place,
        text: types_shown(alloc, part, types.as_slice())?,
    }))
}

/// The Markdown text of a declaration in a schema's text.
pub(crate) fn declaration_shown(
    alloc: Global,
    schema: &str,
    declared: &Declared,
) -> Result<String, AllocError> {
    let mut shown = String::new(alloc);
    push_code(&mut shown, text_at(schema, declared.whole))?;
    Ok(shown)
}

/// The Markdown text of a part with its types.
fn types_shown(alloc: Global, part: &str, types: &[TypedPart]) -> Result<String, AllocError> {
    let mut shown = String::new(alloc);
    match types {
        [] => {
            push_code(&mut shown, part)?;
            shown.push_str("never evaluated, or without a type, where the scope applies")?;
        }
        [only] => {
            let ty = &only.ty;
            let line = format!(in alloc; "{part}: {ty}")?;
            push_code(&mut shown, line.as_str())?;
            push_known(&mut shown, only)?;
        }
        _ => {
            push_code(&mut shown, part)?;
            push_types(&mut shown, types)?;
        }
    }
    Ok(shown)
}

/// Adds the number of environments in which a part has its only type, if there are several, and the optional attributes that
/// are known to be there.
fn push_known(shown: &mut String, typed: &TypedPart) -> Result<(), AllocError> {
    let count = typed.count;
    if count > 1 {
        writeln!(
            shown,
            "in all {count} environments that the scope admits and that reach it"
        )?;
    }
    for name in &typed.known {
        writeln!(shown, "- has `{name}` here")?;
    }
    Ok(())
}

/// Adds the types of a part, each with its first environment.
fn push_types(shown: &mut String, types: &[TypedPart]) -> Result<(), AllocError> {
    for typed in types.iter().take(MAX_TYPES_SHOWN) {
        let ty = &typed.ty;
        write!(shown, "- `{ty}`")?;
        push_environment(shown, typed)?;
    }
    let others = types.len().saturating_sub(MAX_TYPES_SHOWN);
    if others > 0 {
        writeln!(shown, "- {others} more types")?;
    }
    Ok(())
}

/// Adds the first environment in which a part has a type, and the number of the others.
fn push_environment(shown: &mut String, typed: &TypedPart) -> Result<(), AllocError> {
    if let Some(request) = &typed.request {
        let (action, principal, resource) = (
            &request.action,
            &request.principal,
            &request.resource,
        );
        write!(shown, " for {action} by {principal} on {resource}")?;
    }
    let others = typed.count.saturating_sub(1);
    if others > 0 {
        write!(shown, " and {others} more")?;
    }
    shown.push_str("\n")
}

fn push_code(shown: &mut String, code: &str) -> Result<(), AllocError> {
    write!(shown, "```cedar\n{code}\n```\n")
}

/// The text at a place; only the beginning of a long one.
fn text_at(text: &str, place: Loc) -> &str {
    let whole = text.get(place.start..place.end).unwrap_or("");
    match whole.char_indices().nth(MAX_TEXT) {
        Some((size, _)) => whole.get(..size).unwrap_or(""),
        None => whole,
    }
}
