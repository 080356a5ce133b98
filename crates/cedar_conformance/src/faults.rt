// Faults of a value: the place at which it does not fit its type, and the mismatch.
ghost use Rattle.std.specs.Prelude.{◌≡◌, false, IfOk};
ghost use Rattle.std.specs.Option.{is_none};

use crate::values::Value;
use cedar_types::base::{CedarType, EntityType, Name};
use std::alloc::{AllocError, Global};
use std::fmt;
use std::rc::RcStr;
use thiserror::Error;

/// A step from a value to a part of it.
#[derive(Debug, PartialEq, Eq, Drop)]
pub enum Step {
    /// A step to the attribute of this name.
    Attribute(RcStr),
    /// A step to the member at this place of a set's list, from 0.
    Element(usize),
    /// A step to the tag of this name.
    Tag(RcStr),
}

impl fmt::Display for Step {
    fn fmt<W: fmt::Write>(&self, f: &mut fmt::Formatter<W>) -> fmt::Result {
        match self {
            Step::Attribute(name) => write!(f, ".{name}"),
            Step::Element(index) => write!(f, "[{index}]"),
            Step::Tag(name) => write!(f, ".getTag({name:?})"),
        }
    }
}

/// The kind of a value, with its type if the type has a name.
#[derive(Debug, PartialEq, Eq, Drop)]
pub enum ValueKind {
    Bool,
    Long,
    String,
    Entity(EntityType),
    Set,
    Record,
    Extension(Name),
}

impl ValueKind {
    /// Returns the kind of a value.
    pub fn of_value(value: &Value) -> Result<ValueKind, AllocError> {
        match value {
            Value::Bool(_) => Ok(ValueKind::Bool),
            Value::Long(_) => Ok(ValueKind::Long),
            Value::String(_) => Ok(ValueKind::String),
            Value::EntityUID(uid) => Ok(ValueKind::Entity(uid.entity_type.clone()?)),
            Value::Set(_) => Ok(ValueKind::Set),
            Value::Record(_) => Ok(ValueKind::Record),
            Value::Extension {
                type_name,
                text: _text,
            } => Ok(ValueKind::Extension(type_name.clone()?)),
        }
    }
}

impl fmt::Display for ValueKind {
    fn fmt<W: fmt::Write>(&self, f: &mut fmt::Formatter<W>) -> fmt::Result {
        match self {
            ValueKind::Bool => write!(f, "Bool"),
            ValueKind::Long => write!(f, "Long"),
            ValueKind::String => write!(f, "String"),
            ValueKind::Entity(entity_type) => write!(f, "{entity_type}"),
            ValueKind::Set => write!(f, "Set"),
            ValueKind::Record => write!(f, "Record"),
            ValueKind::Extension(name) => write!(f, "{name}"),
        }
    }
}

/// The reason why a value does not fit its type.
#[derive(Debug, PartialEq, Eq, Drop, Error)]
pub enum Mismatch {
    /// The value is of another type.
    #[error("expected {expected}, found {found}")]
    WrongType {
        expected: CedarType,
        found: ValueKind,
    },
    /// The attribute, which is required, is missing. It would have this type.
    #[error("expected {expected}, found nothing")]
    MissingAttribute {
        expected: CedarType,
    },
    /// The attribute is present, but the type has none of its name.
    #[error("the attribute is not declared")]
    UndeclaredAttribute,
}

/// The first place at which a value does not fit its type, and the mismatch.
#[derive(Debug, PartialEq, Eq, Drop)]
pub struct ValueFault {
    // the last step first
    steps_back: Vec<Step>,
    /// The mismatch at that place.
    pub mismatch: Mismatch,
}

impl ValueFault {
    /// Makes the fault of the value itself.
    pub(crate) fn here(alloc: Global, mismatch: Mismatch) -> ValueFault {
        ValueFault {
            steps_back: Vec::new(alloc),
            mismatch,
        }
    }

    /// Moves the fault one level up: `step` leads from the outer value to the part that has it.
    pub(crate) fn below(self, step: Step) -> Result<ValueFault, AllocError> {
        let ValueFault {
            mut steps_back,
            mismatch,
        } = self;
        steps_back.push(step)?;
        Ok(ValueFault {
            steps_back,
            mismatch,
        })
    }
}

impl fmt::Display for ValueFault {
    fn fmt<W: fmt::Write>(&self, f: &mut fmt::Formatter<W>) -> fmt::Result {
        for step in self.steps_back.iter().rev() {
            write!(f, "{step}")?;
        }
        write!(f, ": {}", self.mismatch)
    }
}
