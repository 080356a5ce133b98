// Schemas in Cedar's own syntax.
mod actions;
mod all_faults;
pub mod applications;
mod blocks;
pub mod closed;
mod components;
mod cycles;
mod declarations;
mod descendants;
pub mod entity_types;
mod expansions;
mod language;
pub mod lists;
mod meanings;
mod meant_declarations;
mod meant_types;
mod recovery;
mod refusals;
pub mod reserved;
mod shadows;
mod types;
mod unsure;
pub mod written;

use crate::cursor::Cursor;
use crate::faults::{Fault, ReadError};
pub use all_faults::{SchemaFault, schema_faults};
use blocks::written_declarations;
use cedar_types::base::{SchemaError, ValidatorActionId, ValidatorEntityType, ValidatorSchema};
use closed::{closed_actions, closed_types};
use declarations::Declarations;
use expansions::Expansions;
use meant_declarations::{Named, with_meanings};
pub use refusals::{RefusedName, refused_name};
use shadows::first_hiding_name;
pub use shadows::shadowing_name;
use std::alloc::Global;
use thiserror::Error;

/// The reason why a text gives no schema.
#[derive(Debug, Drop, Error)]
pub enum SchemaReadError {
    /// The text cannot be read.
    #[error("{0}")]
    Read(ReadError),
    /// The text can be read, and its declarations have a fault.
    #[error("{0}")]
    Refused(SchemaError),
}

impl From<ReadError> for SchemaReadError {
    /// The schema is refused if a type is not declared, wherever the text names it.
    fn from(error: ReadError) -> SchemaReadError {
        match error {
            ReadError::At(_, Fault::UnknownType) => {
                SchemaReadError::Refused(SchemaError::UnknownType)
            }
            error => SchemaReadError::Read(error),
        }
    }
}

impl From<SchemaError> for SchemaReadError {
    /// Refused memory is no fault of the text, wherever it shows.
    fn from(error: SchemaError) -> SchemaReadError {
        match error {
            SchemaError::Memory(error) => SchemaReadError::Read(ReadError::Memory(error)),
            fault => SchemaReadError::Refused(fault),
        }
    }
}

/// The schema that a text declares, and the first name in the text that hides another.
#[derive(Drop)]
pub struct ReadSchema {
    pub schema: ValidatorSchema,
    /// The name that `shadowing_name` finds.
    pub hiding: Option<RefusedName>,
}

/// The schema that a text declares. It fails if the text cannot be read, if a parent or a type of
/// an alias in it is declared nowhere, and if `ValidatorSchema::new` refuses the declarations.
///
/// Descendants follow the `in` of the declarations, over any number of steps. An action without
/// `appliesTo` applies to nothing.
pub fn schema(alloc: Global, text: &str) -> Result<ValidatorSchema, SchemaReadError> {
    schema_of(alloc, schema_declarations(alloc, text)?)
}

/// The schema that a text declares, with the first name that hides another, from one reading. It
/// fails as `schema` does.
pub fn schema_with_hiding(alloc: Global, text: &str) -> Result<ReadSchema, SchemaReadError> {
    let read = declarations_of(alloc, text, Named::Any)?;
    let declared = closed_declarations(alloc, &read)?;
    let hiding = match first_hiding_name(alloc, &read) {
        Ok(hiding) => hiding,
        Err(error) => return Err(SchemaReadError::Read(ReadError::Memory(error))),
    };
    drop(read);
    let schema = schema_of(alloc, declared)?;
    Ok(ReadSchema { schema, hiding })
}

/// The schema of these declarations.
pub fn schema_of(
    alloc: Global,
    declared: SchemaDeclarations,
) -> Result<ValidatorSchema, SchemaReadError> {
    Ok(ValidatorSchema::new(alloc, declared.entity_types, declared.actions)?)
}

/// The arguments of `ValidatorSchema::new`.
#[derive(Drop)]
pub struct SchemaDeclarations {
    pub entity_types: Vec<ValidatorEntityType>,
    pub actions: Vec<ValidatorActionId>,
}

/// The declarations of a text, each name on its own. It fails if the text cannot be read, and if a
/// parent or a type of an alias in it is declared nowhere.
pub fn schema_declarations(alloc: Global, text: &str) -> Result<SchemaDeclarations, ReadError> {
    closed_declarations(alloc, &declarations_of(alloc, text, Named::Any)?)
}

/// The declarations that were read, each name on its own. It fails if a parent is declared nowhere.
fn closed_declarations(
    alloc: Global,
    read: &Declarations,
) -> Result<SchemaDeclarations, ReadError> {
    read.check_parents()?;
    Ok(SchemaDeclarations {
        entity_types: closed_types(alloc, read)?,
        actions: closed_actions(alloc, read)?,
    })
}

/// The declarations of a text. The text is read once; then names are looked up, because the meaning
/// of a name depends on the text behind it.
fn declarations_of(alloc: Global, text: &str, named: Named) -> Result<Declarations, ReadError> {
    let mut cursor = Cursor::new(alloc, text)?;
    let written = written_declarations(&mut cursor)?;
    let mut expansions = Expansions::new(alloc, text.len(), cursor.take_notes());
    with_meanings(alloc, written, named, &mut expansions)
}
