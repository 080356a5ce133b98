// Readings of a policy's text, as far as it can be read.
use crate::tokens::token_from;
use cedar_findings::faults::{TextFault, Written, read_fault};
use cedar_findings::forbidden_parts::forbidden_part;
use cedar_reading::{Annotation, FaultyPolicy, ReadError, ReadPolicy, policies_with_faults};
use cedar_types::base::{
    ActionConstraint, Expr, ExtensionSchemas, Loc, PrincipalConstraint, ResourceConstraint,
    Template,
};
use std::alloc::{AllocError, Global};

/// The reading of a policy with a fault, as a policy. A part of the scope that was not read constrains nothing, and the
/// expression left of the fault is one more condition.
#[derive(Drop)]
pub struct FaultyReading {
    pub template: Template,
    /// The id was read in the text of the policy.
    pub names_itself: bool,
    pub fault: TextFault,
    /// The place of the expression left of the fault in a condition, if there is one.
    pub unfinished: Option<Loc>,
}

/// The reading of a policy.
#[derive(Drop)]
pub enum Reading {
    Whole(Template),
    Faulty(FaultyReading),
}

impl Reading {
    /// The policy as it was read.
    pub fn into_template(self) -> Template {
        match self {
            Reading::Whole(template) => template,
            Reading::Faulty(
                FaultyReading {
                    template,
                    names_itself: _,
                    fault: _fault,
                    unfinished: _unfinished,
                },
            ) => template,
        }
    }

    /// Whether the id was read in the text of the policy, which is this one.
    pub fn names_itself(&self, text: &str) -> bool {
        match self {
            Reading::Whole(_) => names_itself(text),
            Reading::Faulty(faulty) => faulty.names_itself,
        }
    }
}

/// The reading of the first policy of a text, if there is one. Calls in it are of Cedar's functions, or of this table.
pub fn read_policy<C>(
    alloc: Global,
    functions: &ExtensionSchemas<C>,
    text: &str,
) -> Result<Option<Reading>, AllocError> {
    let policies = match policies_with_faults(alloc, text) {
        Ok(policies) => policies,
        Err(ReadError::Memory(error)) => return Err(error),
        // the text is too long
        Err(ReadError::At(_, _)) => return Ok(None),
    };
    match policies.into_iter().next() {
        Some(read) => Ok(Some(reading_of(alloc, functions, text, read)?)),
        None => Ok(None),
    }
}

/// Whether a policy was read as its text alone would be, although more text stood behind it: unless its fault stands at its end.
pub fn is_read_alone(text: &str, read: &Result<ReadPolicy, FaultyPolicy>) -> bool {
    match read {
        Ok(_) => true,
        Err(faulty) => faulty.start < text.len(),
    }
}

/// The reading of a policy that was read from this text. Calls in it are of Cedar's functions, or of this table.
pub fn reading_of<C>(
    alloc: Global,
    functions: &ExtensionSchemas<C>,
    text: &str,
    read: Result<ReadPolicy, FaultyPolicy>,
) -> Result<Reading, AllocError> {
    let template = match read {
        Ok(ReadPolicy { template, .. }) => template,
        Err(faulty) => return Ok(Reading::Faulty(reading_of_faulty(alloc, text, faulty)?)),
    };
    let Some(fault) = forbidden_part(alloc, functions, Some(text), &template)? else {
        return Ok(Reading::Whole(template));
    };
    // the policy was read whole, but one of its parts may not stand there
    Ok(Reading::Faulty(FaultyReading {
        template,
        names_itself: names_itself(text),
        fault,
        unfinished: None,
    }))
}

/// The reading of a policy with a fault.
fn reading_of_faulty(
    alloc: Global,
    text: &str,
    faulty: FaultyPolicy,
) -> Result<FaultyReading, AllocError> {
    let FaultyPolicy {
        fault,
        start,
        place,
        id,
        annotations,
        effect: _,
        principal,
        action,
        resource,
        condition,
        unfinished,
    } = faulty;
    let open = unfinished.as_ref().and_then(|part| part.loc);
    let condition = match (condition, unfinished) {
        (Some(first), Some(last)) => Some(joined(alloc, first, last)?),
        (first, last) => first.or(last),
    };
    let template = Template::new(
        id,
        Some(place),
        principal.unwrap_or(PrincipalConstraint::any()),
        action.unwrap_or(ActionConstraint::any()),
        resource.unwrap_or(ResourceConstraint::any()),
        condition,
    );
    Ok(FaultyReading {
        template,
        names_itself: has_id(annotations.as_slice()),
        fault: read_fault(alloc, Written::Policies, text, ReadError::At(start, fault))?,
        unfinished: open,
    })
}

/// Whether one of these annotations is `@id`.
fn has_id(annotations: &[Annotation]) -> bool {
    annotations.iter().any(|it| it.key.as_str() == "id")
}

/// Whether one of the annotations with which a whole policy begins is `@id`.
fn names_itself(text: &str) -> bool {
    let mut at = 0usize;
    for _ in 0..text.len() {
        let mark = token_from(text, at);
        if !mark.is("@") {
            return false;
        }
        let key = token_from(text, mark.place.end);
        if key.is("id") {
            return true;
        }
        at = behind_value(text, key.place.end);
    }
    false
}

/// The byte at which the value of an annotation ends, brackets included; `from` if no value stands there.
fn behind_value(text: &str, from: usize) -> usize {
    let open = token_from(text, from);
    if !open.is("(") {
        return from;
    }
    let value = token_from(text, open.place.end);
    token_from(text, value.place.end).place.end
}

fn joined(alloc: Global, first: Expr, last: Expr) -> Result<Expr, AllocError> {
    let place = match (first.loc, last.loc) {
        (Some(first), Some(last)) => Some(Loc {
            start: first.start,
            end: last.end,
        }),
        _ => None,
    };
    Ok(Expr::and(alloc, first, last)?.with_maybe_source_loc(place))
}
