// Parts of a text of policies that are read again after a change.
use cedar_reading::{FaultyPolicy, ReadError, ReadPolicy, policies_with_faults};
use cedar_types::base::Loc;
use std::alloc::{AllocError, Global};

/// A policy of a part of a text.
#[derive(Drop)]
pub struct Found {
    /// The place of the policy in the text.
    pub place: Loc,
    /// The policy as it was read, if its places are those of its own text, because the part begins with it.
    pub read: Option<Result<ReadPolicy, FaultyPolicy>>,
}

/// The policies of a part of a text.
#[derive(Drop)]
pub struct Window {
    pub found: Vec<Found>,
    /// The policies are those of the whole text from the beginning of the part to its end: the part goes to the end of the
    /// text, or a policy without a fault ends with it.
    pub is_settled: bool,
}

/// The policies from one byte of a text to another. Reading must be able to begin at the first byte.
pub fn window_of(alloc: Global, text: &str, part: Loc) -> Result<Window, AllocError> {
    let mut found = Vec::new(alloc);
    let own = text.get(part.start..part.end).unwrap_or("");
    let read = match policies_with_faults(alloc, own) {
        Ok(read) => read,
        Err(ReadError::Memory(error)) => return Err(error),
        // the part is too long
        Err(ReadError::At(_, _)) => {
            return Ok(Window {
                found,
                is_settled: true,
            });
        }
    };
    let mut whole_end = part.start;
    for policy in read {
        let own = own_place(&policy);
        let place = Loc {
            start: part.start.saturating_add(own.start),
            end: part.start.saturating_add(own.end),
        };
        if policy.is_ok() {
            whole_end = place.end;
        }
        let read = if own.start == 0 { Some(policy) } else { None };
        found.push(Found { place, read })?;
    }
    Ok(Window {
        found,
        is_settled: part.end >= text.len() || whole_end == part.end,
    })
}

/// The place of a policy in the part.
fn own_place(policy: &Result<ReadPolicy, FaultyPolicy>) -> Loc {
    match policy {
        Ok(read) => read.template.loc.unwrap_or(Loc { start: 0, end: 0 }),
        Err(faulty) => faulty.place,
    }
}
