// Errors of schemas.
use std::alloc::AllocError;
use thiserror::Error;

/// The reason for which a schema is refused: the first of its faults, in this order, or refused
/// memory.
#[derive(Debug, Drop, PartialEq, Eq, Error)]
pub enum SchemaError {
    /// An entity type is declared twice.
    #[error("DuplicateEntityType")]
    DuplicateEntityType,
    /// An action is declared twice.
    #[error("DuplicateAction")]
    DuplicateAction,
    /// An entity type has the name of a type of actions.
    #[error("ActionTypeDeclared")]
    ActionTypeDeclared,
    /// A declared action's type is not one of actions.
    #[error("NotAnActionType")]
    NotAnActionType,
    /// An enumerated type has no ids.
    #[error("EmptyEnum")]
    EmptyEnum,
    /// A declaration names a type that is neither declared nor one of actions.
    #[error("UnknownType")]
    UnknownType,
    /// A descendant of an action is not declared.
    #[error("UnknownActionDescendant")]
    UnknownActionDescendant,
    /// The type of an attribute, a tag or a context says too little, for example an open record, or
    /// a context is no record.
    #[error("VagueType")]
    VagueType,
    /// A declaration does not list a descendant of a descendant.
    #[error("DescendantsNotClosed")]
    DescendantsNotClosed,
    /// Memory was refused, whatever faults there are.
    #[error("Memory")]
    Memory(AllocError),
}

impl From<AllocError> for SchemaError {
    ghost use Rattle.std.specs.Prelude.{◌≡◌};
    ghost use Rattle.cedar_types.specs.declared.base.schema.errors.SchemaError.TheVariants.{Memory};

    ghost from_gives = { λ e f. f ≡ Memory e };

    fn from(error: AllocError) -> SchemaError {
        SchemaError::Memory(error)
    }
}
