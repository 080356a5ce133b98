// Reasons why a host of texts cannot go on.
use cedar_data::DataError;
use cedar_reading::{ReadError, SchemaReadError};
use cedar_types::base::{ExtensionTableError, PolicyID};
use std::alloc::AllocError;
use std::io;
use thiserror::Error;

/// The reason why a host cannot go on: the first one found.
#[derive(Debug, Drop, Error)]
pub enum HostError {
    #[error(transparent)]
    Memory(#[from(alloc)] AllocError),
    /// A file cannot be read, or a line cannot be written.
    #[error(transparent)]
    Io(#[from] io::Error),
    #[error("the schema is refused: {0}")]
    Schema(#[from] SchemaReadError),
    /// A name of a namespace hides one outside of namespaces, as `N::User` hides `User`.
    #[error("the schema is refused: `{0}` hides a name outside of its namespace")]
    HidingName(String),
    #[error("a policy cannot be read: {0}")]
    Policies(#[from] ReadError),
    #[error("the functions have no table: {0}")]
    Functions(#[from] ExtensionTableError),
    /// Two policies have one id, and links and findings name a policy by its id.
    #[error("more than one policy has the id {0}")]
    RepeatedId(PolicyID),
    #[error("entities cannot be read: {0}")]
    Entities(#[from] DataError),
    #[error("the entities do not fit the schema")]
    UnfitEntities,
}
