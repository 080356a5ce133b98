// Policies with a fault, and the parts read of them.
use crate::annotations::Annotation;
use crate::cursor::Cursor;
use crate::expressions::{expression, last_whole};
use crate::faults::{Fault, ReadError};
use crate::parts::Part;
use crate::policies::{ReadPolicy, next_policy_from};
use crate::policy_parts::{PolicyParts, read_parts};
use crate::scopes::ScopeParts;
use cedar_types::base::{
    ActionConstraint, Effect, Expr, Loc, PolicyID, PrincipalConstraint, ResourceConstraint,
};
use std::alloc::{AllocError, Global};

/// A policy with a fault, and the parts read before the fault. A part of its scope is `None` if it
/// was not read whole.
#[derive(Debug, Drop)]
pub struct FaultyPolicy {
    /// The first fault of the policy.
    pub fault: Fault,
    /// The byte at which the fault stands.
    pub start: usize,
    /// The policy's text: up to its `;`, or up to the byte at which the next policy seems to begin.
    pub place: Loc,
    /// The value of `@id` if that was read, else `policy` and the number of policies before this
    /// one.
    pub id: PolicyID,
    /// The annotations, in the order of the text.
    pub annotations: Vec<Annotation>,
    pub effect: Option<Effect>,
    pub principal: Option<PrincipalConstraint>,
    pub action: Option<ActionConstraint>,
    pub resource: Option<ResourceConstraint>,
    /// The conditions that were read whole, joined as in the tree of a policy. `None` also if that
    /// tree would be too deep.
    pub condition: Option<Expr>,
    /// The largest expression, in the condition with the fault, that needs nothing more and behind
    /// which no other ends before the fault. Of `a && b.` it is `a && b`, of `a && (b || c.` it is
    /// `b || c`.
    pub unfinished: Option<Expr>,
}

/// The policies of a text in their order; a policy with a fault comes with the parts read of it. It
/// fails if the text is too long, and if memory is refused.
///
/// A policy without a fault is the policy that `Policies::next_policy` gives. For a policy with
/// faults you get the first fault. Such a policy ends at its `;`, or before that if another policy
/// seems to begin; inside brackets another policy begins only at the beginning of a line. So an
/// unfinished condition hides no policy behind it, and the numbers in ids may differ from those of
/// `Policies`.
pub fn policies_with_faults(
    alloc: Global,
    text: &str,
) -> Result<Vec<Result<ReadPolicy, FaultyPolicy>>, ReadError> {
    let mut cursor = Cursor::new(alloc, text)?;
    let mut policies = Vec::new(alloc);
    for number in 0..cursor.most_left() {
        if cursor.is_at_end() {
            break;
        }
        policies.push(policy_or_faulty(&mut cursor, number)?)?;
    }
    Ok(policies)
}

/// Reads a policy with `number` policies before it; a policy with a fault is read up to the byte at
/// which the next one seems to begin.
fn policy_or_faulty(
    cursor: &mut Cursor<'_>,
    number: usize,
) -> Result<Result<ReadPolicy, FaultyPolicy>, ReadError> {
    let start = cursor.start();
    let mut parts = PolicyParts::new(cursor.alloc);
    let mut error = match read_parts(cursor, &mut parts) {
        Ok(place) => return Ok(Ok(parts.whole(cursor.alloc, place, number)?)),
        Err(error) => error,
    };
    let next = next_policy_from(&cursor.at(start), start);
    let place = next.since(start);
    // reading may have gone on into the next policy, for example behind a point
    if next.start() < cursor.start() {
        parts = PolicyParts::new(cursor.alloc);
        if let Err(own) = read_parts(&mut cursor.over(place), &mut parts) {
            error = own;
        }
    }
    *cursor = next;
    let read = faulty_policy(cursor, place, number, parts, error)?;
    Ok(Err(read))
}

/// The policy at `place` with its fault and the parts read of it. It fails if `error` is refused
/// memory.
fn faulty_policy(
    cursor: &Cursor<'_>,
    place: Loc,
    number: usize,
    parts: PolicyParts,
    error: ReadError,
) -> Result<FaultyPolicy, ReadError> {
    let (at, fault) = match error {
        ReadError::At(at, fault) => (at, fault),
        memory => return Err(memory),
    };
    let unfinished = match parts.open_condition {
        Some(start) => whole_before(cursor, start, at)?,
        None => None,
    };
    let id = parts.id(cursor.alloc, number)?;
    let PolicyParts {
        annotations,
        scope,
        condition,
        open_condition: _,
    } = parts;
    let ScopeParts {
        effect,
        principal,
        action,
        resource,
    } = scope;
    Ok(FaultyPolicy {
        fault,
        start: at,
        place,
        id,
        annotations,
        effect,
        principal,
        action,
        resource,
        condition: condition.map(|part: Part| part.expr),
        unfinished,
    })
}

/// The largest part of an expression from `start` to the byte `fault` that needs nothing more and
/// behind which no other ends before the fault.
fn whole_before(
    cursor: &Cursor<'_>,
    start: usize,
    fault: usize,
) -> Result<Option<Expr>, AllocError> {
    // the end of that part is known after reading all the text before the fault
    let mut before = cursor.over(Loc { start, end: fault });
    match expression(&mut before) {
        Err(ReadError::Memory(error)) => return Err(error),
        Err(ReadError::At(_, _)) => {}
        Ok(_part) => {}
    }
    let Some(end) = before.whole_end() else {
        return Ok(None);
    };
    match last_whole(&mut cursor.over(Loc { start, end })) {
        Ok(part) => Ok(Some(part.expr)),
        Err(ReadError::At(_, _)) => Ok(None),
        Err(ReadError::Memory(error)) => Err(error),
    }
}
