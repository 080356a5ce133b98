// Written declarations, as a schema's text has them. The meanings of names are not looked up yet,
// because they depend on names that are declared behind them.
use cedar_types::base::{CedarType, EntityType, EntityUID, EnumChoices, Name};
use std::alloc::AllocError;
use std::rc::RcStr;

/// A name, and the byte at which it stands.
#[derive(Drop)]
pub struct Placed<N> {
    pub name: N,
    pub start: usize,
}

/// A name, and its place in the text.
#[derive(Drop)]
pub struct WrittenName {
    pub name: Name,
    /// Byte at which the name begins.
    pub start: usize,
    /// Byte at which the next token begins.
    pub behind: usize,
    /// Number of tokens of the text up to the end of the name.
    pub tokens: usize,
}

impl WrittenName {
    /// A copy of the name.
    pub fn copy(&self) -> Result<WrittenName, AllocError> {
        Ok(WrittenName {
            name: self.name.clone()?,
            start: self.start,
            behind: self.behind,
            tokens: self.tokens,
        })
    }
}

/// An action that is named: its id, the name of the id's type, and the byte at which it stands.
#[derive(Drop)]
pub struct WrittenAction {
    pub type_name: Name,
    pub eid: RcStr,
    pub start: usize,
}

/// A type, as the text writes it.
#[cycle(written_types)]
pub enum WrittenType {
    /// A type that no declaration changes, and the byte at which it stands.
    Known(CedarType, usize),
    /// A type in the namespace of the language that the language does not have, and the byte at
    /// which it stands. A fault was noted there.
    Unknown(usize),
    /// An alias, an entity type or a type of the language.
    Named(WrittenName),
    /// The sets of a type, and the byte at which the set type begins.
    Set(Box<WrittenType>, usize),
    Record(WrittenRecord),
}

/// The attributes of a record or of entities, in the order of the text.
#[cycle(written_types)]
#[derive(Drop)]
pub struct WrittenRecord {
    pub attributes: Vec<WrittenAttribute>,
    /// Byte at which the brace of the record stands.
    pub start: usize,
}

/// An attribute, as the text writes it.
#[cycle(written_types)]
#[derive(Drop)]
pub struct WrittenAttribute {
    pub key: RcStr,
    pub is_required: bool,
    pub attr_type: WrittenType,
}

// `drop` is written by hand, so that a proof has one call at each drop of a type.
impl Drop for WrittenType {
    #[cycle(dropped_written_types)]
    fn drop(self) {
        match self {
            WrittenType::Known(_, _) => {}
            WrittenType::Unknown(_) => {}
            WrittenType::Named(_) => {}
            WrittenType::Set(_, _) => {}
            WrittenType::Record(_) => {}
        }
    }
}

impl WrittenType {
    /// Byte at which the type begins.
    pub fn start(&self) -> usize {
        match self {
            WrittenType::Known(_, start) => *start,
            WrittenType::Unknown(start) => *start,
            WrittenType::Set(_, start) => *start,
            WrittenType::Named(name) => name.start,
            WrittenType::Record(record) => record.start,
        }
    }

    /// Whether the type is a record that is written out.
    pub fn is_record(&self) -> bool {
        matches!(self, WrittenType::Record(_))
    }
}

/// A declaration of a name for a type.
#[derive(Drop)]
pub struct Alias {
    pub name: Name,
    /// Byte at which the name stands.
    pub own_start: usize,
    pub written: WrittenType,
    /// Number of tokens of the text before the type, and up to its end.
    pub tokens_before: usize,
    pub tokens: usize,
}

/// A declaration of entity types.
#[derive(Drop)]
pub struct WrittenTypes {
    pub names: Vec<Placed<EntityType>>,
    /// Number of tokens behind the names.
    pub tokens: usize,
    /// The direct parents of each of the types.
    pub parents: Vec<WrittenName>,
    pub kind: WrittenKind,
}

/// The ids of an enumerated entity type, or the attributes and tags of another.
#[derive(Drop)]
pub enum WrittenKind {
    Enum(EnumChoices),
    /// Attributes and tags, of which both may be missing.
    Standard(Option<WrittenRecord>, Option<WrittenType>),
}

/// A declaration of actions.
#[derive(Drop)]
pub struct WrittenActions {
    pub names: Vec<Placed<EntityUID>>,
    /// Number of tokens behind the names.
    pub tokens: usize,
    /// The direct parents of each of the actions.
    pub parents: Vec<WrittenAction>,
    /// The parts of `appliesTo`, in the order of the text.
    pub applies_to: Vec<WrittenPart>,
}

/// A part of an `appliesTo`.
#[derive(Drop)]
pub enum WrittenPart {
    Principals(Vec<WrittenName>),
    Resources(Vec<WrittenName>),
    Context(WrittenType),
}

/// The role in which a name is read.
#[derive(Clone, Copy, PartialEq, Eq, Debug)]
pub enum Role {
    Type,
    EntityType,
    /// The type of a context; the name is also read as a type.
    Context,
}

/// A name that was read, and its role.
#[derive(Drop)]
pub struct Mention {
    pub name: WrittenName,
    pub role: Role,
}

/// A declaration of a schema.
#[derive(Drop)]
pub enum Item {
    /// The alias of this name; it stands with the declared names.
    Alias(Name),
    /// An alias whose name is declared before.
    RepeatedAlias(Alias),
    Types(WrittenTypes),
    Actions(WrittenActions),
    /// The names that were read of a declaration before its fault.
    Faulty(Vec<Mention>),
}

/// Declarations of one namespace, or outside of namespaces.
#[derive(Drop)]
pub struct Space {
    /// The parts of the namespace's name; none outside of namespaces.
    pub namespace: Vec<RcStr>,
    pub items: Vec<Item>,
}
