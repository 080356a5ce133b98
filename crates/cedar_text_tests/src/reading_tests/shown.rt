// Policies as a line: the parts that were read of each.
use cedar_fixtures::shown::push_constraint;
use cedar_reading::{FaultyPolicy, ReadError, ReadPolicy, policies_with_faults};
use cedar_types::base::{ActionConstraint, Expr, Loc};
use std::alloc::{AllocError, Global};

/// The policies of a text, each on a line. A policy with a fault has the fault and its byte, the policy's place, and the parts
/// that were read.
pub fn show(alloc: Global, text: &str) -> Result<String, AllocError> {
    let policies = match policies_with_faults(alloc, text) {
        Ok(policies) => policies,
        Err(ReadError::Memory(error)) => return Err(error),
        Err(ReadError::At(at, fault)) => return format!(in alloc; "{at} {fault}"),
    };
    let mut out = String::new(alloc);
    for policy in &policies {
        match policy {
            Ok(read) => push_read(&mut out, read)?,
            Err(faulty) => push_faulty(&mut out, text, faulty)?,
        }
        out.push('\n')?;
    }
    Ok(out)
}

fn push_read(out: &mut String, read: &ReadPolicy) -> Result<(), AllocError> {
    let Loc { start, end } = read.template.loc.unwrap_or(Loc { start: 0, end: 0 });
    write!(out, "{} {start}..{end} {}", read.template.id, read.effect)
}

fn push_faulty(out: &mut String, text: &str, faulty: &FaultyPolicy) -> Result<(), AllocError> {
    let Loc { start, end } = faulty.place;
    write!(
        out,
        "{} {start}..{end} !{} {}:",
        faulty.id, faulty.start, faulty.fault
    )?;
    for annotation in &faulty.annotations {
        write!(out, " @{}={}", annotation.key, annotation.value)?;
    }
    if let Some(effect) = faulty.effect {
        write!(out, " {effect}")?;
    }
    if let Some(principal) = &faulty.principal {
        out.push_str(" principal")?;
        push_constraint(out, &principal.constraint)?;
    }
    if let Some(action) = &faulty.action {
        push_action(out, action)?;
    }
    if let Some(resource) = &faulty.resource {
        out.push_str(" resource")?;
        push_constraint(out, &resource.constraint)?;
    }
    push_condition(out, " when ", text, &faulty.condition)?;
    push_condition(out, " left ", text, &faulty.unfinished)
}

fn push_action(out: &mut String, constraint: &ActionConstraint) -> Result<(), AllocError> {
    match constraint {
        ActionConstraint::Any => out.push_str(" action"),
        ActionConstraint::Eq(uid) => write!(out, " action == {uid}"),
        ActionConstraint::In(uids) => write!(out, " action in {}", uids.len()),
    }
}

/// The text of a condition, if there is one.
fn push_condition(
    out: &mut String,
    word: &str,
    text: &str,
    condition: &Option<Expr>,
) -> Result<(), AllocError> {
    let Some(condition) = condition else {
        return Ok(());
    };
    out.push_str(word)?;
    out.push_str(text_of(text, condition))
}

/// The text of an expression.
pub fn text_of<'a>(text: &'a str, expr: &Expr) -> &'a str {
    match expr.loc {
        Some(Loc { start, end }) => text.get(start..end).unwrap_or("?"),
        None => "?",
    }
}
