// Faults of a schema's text, all of them.
use crate::cursor::Cursor;
use crate::faults::{Fault, ReadError};
use crate::names::placed_name;
use crate::notes::Met;
use crate::schemas::blocks::written_declarations;
use crate::schemas::cycles::alias_cycles;
use crate::schemas::expansions::Expansions;
use crate::schemas::meant_declarations::{Named, with_meanings};
use crate::schemas::refusals::{RefusedName, add_refusals};
use crate::schemas::shadows::hiding_names;
use cedar_types::base::SchemaError;
use std::alloc::{AllocError, Global};

/// The largest number of faults that are reported of a text.
const MAX_FAULTS: usize = 100;

/// A fault of a schema's text.
#[derive(Debug, Drop)]
pub enum SchemaFault {
    /// The text at this byte cannot be read, or it names something that is not declared.
    Read(usize, Fault),
    /// `ValidatorSchema::new` refuses the declarations because of this name.
    Refused(SchemaError, RefusedName),
    /// This name of a namespace hides one outside of namespaces.
    Hides(RefusedName),
}

impl SchemaFault {
    /// Byte at which the fault stands.
    pub fn start(&self) -> usize {
        match self {
            SchemaFault::Read(start, _) => *start,
            SchemaFault::Refused(_, name) | SchemaFault::Hides(name) => name.start,
        }
    }
}

/// The faults of a schema's text by place, at most the first hundred, one at each place. The list
/// may be empty though `schema` finds a fault.
///
/// Behind a fault that shows because another word is expected, reading goes on at the next
/// declaration. Each name that such a declaration may declare counts as declared. It does not look
/// for types that only aliases make too deep or too large, nor for too many descendants.
pub fn schema_faults(alloc: Global, text: &str) -> Result<Vec<SchemaFault>, AllocError> {
    match unsorted_faults(alloc, text) {
        Ok(faults) => first_by_place(alloc, faults),
        Err(ReadError::Memory(error)) => Err(error),
        Err(ReadError::At(start, fault)) => Ok(vec![in alloc; SchemaFault::Read(start, fault)]?),
    }
}

/// The first fault at each place, by place.
fn first_by_place(
    alloc: Global,
    mut faults: Vec<SchemaFault>,
) -> Result<Vec<SchemaFault>, AllocError> {
    faults.sort_by_key(|fault| fault.start())?;
    let mut kept = Vec::new(alloc);
    let mut last = None;
    for fault in faults {
        let start = Some(fault.start());
        if kept.len() < MAX_FAULTS && start != last {
            last = start;
            kept.push(fault)?;
        }
    }
    Ok(kept)
}

/// The faults of a text, in any order.
fn unsorted_faults(alloc: Global, text: &str) -> Result<Vec<SchemaFault>, ReadError> {
    let mut cursor = Cursor::noting(alloc, text)?;
    let written = written_declarations(&mut cursor)?;
    let mut expansions = Expansions::new(alloc, text.len(), cursor.take_notes());
    let read = with_meanings(alloc, written, Named::Declared, &mut expansions)?;
    let mut faults = Vec::new(alloc);
    for start in read.unknown_parents(alloc)? {
        faults.push(SchemaFault::Read(start, Fault::Undeclared))?;
    }
    add_met(&cursor, expansions.notes.met(), &mut faults)?;
    for start in alias_cycles(alloc, &read.declared, expansions.notes.uses())? {
        faults.push(SchemaFault::Read(start, Fault::TooDeep))?;
    }
    if !read.declared.unsure.are_all() {
        add_refusals(alloc, &read, &mut faults)?;
        for name in hiding_names(alloc, &read)? {
            faults.push(SchemaFault::Hides(name))?;
        }
    }
    Ok(faults)
}

/// Adds the faults that reading met.
fn add_met(
    cursor: &Cursor<'_>,
    met: &[(usize, Met)],
    faults: &mut Vec<SchemaFault>,
) -> Result<(), ReadError> {
    for (start, met) in met {
        let fault = match met {
            Met::Fault(fault) => SchemaFault::Read(*start, *fault),
            Met::UnknownType => {
                SchemaFault::Refused(SchemaError::UnknownType, name_at(cursor, *start)?)
            }
            Met::VagueContext => {
                SchemaFault::Refused(SchemaError::VagueType, name_at(cursor, *start)?)
            }
        };
        faults.push(fault)?;
    }
    Ok(())
}

/// The name at a byte, as it is written in the text.
fn name_at(cursor: &Cursor<'_>, start: usize) -> Result<RefusedName, ReadError> {
    let read = placed_name(&mut cursor.at(start))?;
    Ok(RefusedName {
        name: read.name.to_string(cursor.alloc)?,
        start,
    })
}
