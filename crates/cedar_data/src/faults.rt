// Faults of data, and their places.
use cedar_conformance::entity_faults::EntityFault;
use cedar_conformance::faults::{Mismatch, Step};
use cedar_conformance::requests::RequestFault;
use cedar_json::{FormFault, ReadError};
use cedar_types::base::{EntityUID, Loc};
use std::fmt;

/// The owner of a value with a mistake.
#[derive(Debug, Drop)]
pub enum Owner {
    /// The entity of this id, by its attributes or tags.
    Entity(EntityUID),
    /// The context of a request.
    Context,
}

impl fmt::Display for Owner {
    fn fmt<W: fmt::Write>(&self, f: &mut fmt::Formatter<W>) -> fmt::Result {
        match self {
            Owner::Entity(id) => write!(f, "{id}"),
            Owner::Context => write!(f, "context"),
        }
    }
}

/// The mistake at a place of data.
#[derive(Debug, Drop)]
pub enum Problem {
    /// The part has another form than is expected there.
    Form(FormFault),
    /// A value does not fit the schema, at the end of these steps from its owner.
    Value(Owner, Vec<Step>, Mismatch),
    /// An entity does not fit the schema, in another way than by a value.
    Entity(EntityFault),
    /// The schema does not allow a request, for another reason than its context.
    Request(RequestFault),
    /// The type of this id is enumerated, but does not have it.
    UnknownId(EntityUID),
    /// The entity of this id is listed before, at this place.
    SameId(EntityUID, Loc),
    /// The entities of a circle: each has the next one as a parent, and the last has the first.
    Cycle(Vec<EntityUID>),
    /// All entities together have more than `MAX_ANCESTORS` ancestors.
    TooManyAncestors,
}

impl fmt::Display for Problem {
    fn fmt<W: fmt::Write>(&self, f: &mut fmt::Formatter<W>) -> fmt::Result {
        match self {
            Problem::Form(fault) => write!(f, "{fault}"),
            Problem::Value(owner, steps, mismatch) => {
                write!(f, "{owner}")?;
                for step in steps {
                    write!(f, "{step}")?;
                }
                write!(f, ": {mismatch}")
            }
            Problem::Entity(fault) => write!(f, "{fault}"),
            Problem::Request(fault) => write!(f, "{fault}"),
            Problem::UnknownId(id) => {
                write!(
                    f,
                    "{id}: the type `{}` does not have this id",
                    id.entity_type
                )
            }
            Problem::SameId(id, _) => write!(f, "{id}: it is listed twice"),
            Problem::Cycle(ids) => write_cycle(f, ids),
            Problem::TooManyAncestors => write!(f, "the entities have too many ancestors"),
        }
    }
}

/// The number of entities of a cycle that are named.
const MAX_NAMED: usize = 5;

/// Names the first entities of a cycle, and the first again at its end.
fn write_cycle<W: fmt::Write>(f: &mut fmt::Formatter<W>, ids: &Vec<EntityUID>) -> fmt::Result {
    write!(f, "parents in a circle: ")?;
    for id in ids.iter().take(MAX_NAMED) {
        write!(f, "{id} in ")?;
    }
    let others = ids.len().saturating_sub(MAX_NAMED);
    if others > 0 {
        write!(f, "{others} others in ")?;
    }
    match ids.first() {
        Some(first) => write!(f, "{first}"),
        None => Ok(()),
    }
}

/// A mistake in data, and the part of the text that has it.
#[derive(Debug, Drop)]
pub struct DataFault {
    pub place: Loc,
    pub problem: Problem,
}

/// The reason why a text is no data: its first fault as JSON and the byte at which it stands, or
/// refused memory.
pub type DataError = ReadError;
