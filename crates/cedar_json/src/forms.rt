// Forms of values: the readers that check a value of JSON against the form that Cedar demands.
use crate::faults::{Fault, ReadError};
use crate::values::{Key, Value, ValueKind};
use cedar_types::base::Loc;
use std::alloc::{AllocError, AllocFailed};
use std::fmt;
use thiserror::Error;

/// A fault at a byte of a JSON text that is read as a schema or as policies.
#[derive(Clone, Copy, PartialEq, Eq, Debug)]
pub enum FormFault {
    /// The text is not JSON that the reader accepts.
    Json(Fault),
    /// Another form of value is expected here.
    Expected(&'static str),
    /// `null` stands where Cedar has a value.
    Null,
    /// A key is missing in an object.
    Missing(&'static str),
    /// A key that has no meaning in its object, or none together with the other keys.
    UnknownKey,
    /// A name that is not words with `::` between them.
    Name,
    Undeclared,
    /// A name that means another type in Cedar's own syntax, for example if an entity type and a
    /// common type share it.
    Hidden,
    /// A common type whose definition leads back to itself.
    Circular,
    OpenRecord,
    ActionAttributes,
    /// The type of an action in a policy's scope is not named `Action`.
    ActionType,
    /// `a is T in b`, if `a` stands twice in the tree and has such an operator itself.
    Twice,
    /// The schema would be too long in Cedar's own syntax.
    TooLarge,
    TooDeep,
}

impl FormFault {
    /// The text of a fault without data; nothing for the others.
    fn text(self) -> &'static str {
        match self {
            FormFault::Null => "`null` has no meaning here",
            FormFault::UnknownKey => "a key that has no meaning here",
            FormFault::Name => "a name is expected, as words with `::` between them",
            FormFault::Undeclared => "a name that is not declared",
            FormFault::Hidden => "a name that means another type in Cedar's own syntax",
            FormFault::Circular => "a common type that stands for itself",
            FormFault::OpenRecord => "a record that is open to other attributes",
            FormFault::ActionAttributes => "attributes of an action",
            FormFault::ActionType => "the type of an action has to be named `Action`",
            FormFault::Twice => "an `is` with `in` behind an operand that has one too",
            FormFault::TooLarge => "too large",
            FormFault::TooDeep => "nested too deep",
            _ => "",
        }
    }
}

impl fmt::Display for FormFault {
    fn fmt<W: fmt::Write>(&self, f: &mut fmt::Formatter<W>) -> fmt::Result {
        match self {
            FormFault::Json(it) => write!(f, "{it}"),
            FormFault::Expected(it) => write!(f, "{it} is expected"),
            FormFault::Missing(it) => write!(f, "the key `{it}` is missing"),
            _ => f.write_str(self.text()),
        }
    }
}

/// The reason why a JSON text gives no schema or no policy: its first fault and the byte at which
/// it stands, or refused memory.
#[derive(Debug, Drop, Error)]
pub enum FormError {
    #[error("memory was refused")]
    Memory(AllocError),
    #[error("at byte {0}: {1}")]
    At(usize, FormFault),
}

/// A fault of a JSON text, and the byte at which it stands.
#[derive(Clone, Copy, PartialEq, Eq, Debug)]
pub struct PlacedFault {
    pub start: usize,
    pub fault: FormFault,
}

impl From<AllocError> for FormError {
    fn from(error: AllocError) -> FormError {
        FormError::Memory(error)
    }
}

impl<T: Drop> From<AllocFailed<T>> for FormError {
    fn from(error: AllocFailed<T>) -> FormError {
        FormError::Memory(AllocError::from(error))
    }
}

impl From<ReadError> for FormError {
    fn from(error: ReadError) -> FormError {
        match error {
            ReadError::Memory(error) => FormError::Memory(error),
            ReadError::At(start, fault) => FormError::At(start, FormFault::Json(fault)),
        }
    }
}

/// The entries of an object, and its place in the text.
#[derive(Clone, Copy)]
pub struct Object<'a> {
    pub entries: &'a [(Key, Value)],
    pub place: Loc,
}

impl<'a> Object<'a> {
    /// Reads a value as an object. Another kind of value is a fault.
    pub fn of(value: &'a Value) -> Result<Object<'a>, FormError> {
        match &value.kind {
            ValueKind::Object(entries) => Ok(Object {
                entries: entries.as_slice(),
                place: value.place,
            }),
            _ => Err(expected(value, "an object")),
        }
    }

    /// Returns the value of a key, if the object has the key.
    pub fn get(&self, key: &str) -> Option<&'a Value> {
        for (own, value) in self.entries {
            if own.name.as_str() == key {
                return Some(value);
            }
        }
        None
    }

    /// Returns the value of a key, if the object has the key. Returns `None` for `null`, because
    /// Cedar writes `null` for an absent value.
    pub fn given(&self, key: &str) -> Option<&'a Value> {
        let value = self.get(key)?;
        if is_null(value) { None } else { Some(value) }
    }

    /// Returns the value of a key. A missing key is a fault.
    pub fn need(&self, key: &'static str) -> Result<&'a Value, FormError> {
        match self.get(key) {
            Some(value) => Ok(value),
            None => Err(FormError::At(self.place.start, FormFault::Missing(key))),
        }
    }

    /// Fails at the first key that is not in `keys`.
    pub fn allow(&self, keys: &[&str]) -> Result<(), FormError> {
        for (own, _) in self.entries {
            if !is_among(keys, own.name.as_str()) {
                return Err(FormError::At(own.place.start, FormFault::UnknownKey));
            }
        }
        Ok(())
    }
}

/// Returns whether a name is one of these keys.
pub fn is_among(keys: &[&str], name: &str) -> bool {
    for key in keys {
        if *key == name {
            return true;
        }
    }
    false
}

/// Returns whether a value is `null`.
pub fn is_null(value: &Value) -> bool {
    matches!(value.kind, ValueKind::Null)
}

/// Returns the fault of a value that stands in the place of `what`.
pub fn expected(value: &Value, what: &'static str) -> FormError {
    let fault = match &value.kind {
        ValueKind::Null => FormFault::Null,
        _ => FormFault::Expected(what),
    };
    FormError::At(value.place.start, fault)
}

/// Returns the items of a value that has to be an array.
pub fn items_of(value: &Value) -> Result<&[Value], FormError> {
    match &value.kind {
        ValueKind::Array(items) => Ok(items.as_slice()),
        _ => Err(expected(value, "a list")),
    }
}

/// Returns the string of a value that has to be a text.
pub fn text_of(value: &Value) -> Result<&str, FormError> {
    match &value.kind {
        ValueKind::Text(text) => Ok(text.as_str()),
        _ => Err(expected(value, "a text")),
    }
}

/// Returns the truth value of a value that has to be `true` or `false`.
pub fn truth_of(value: &Value) -> Result<bool, FormError> {
    match &value.kind {
        ValueKind::Boolean(truth) => Ok(*truth),
        _ => Err(expected(value, "`true` or `false`")),
    }
}

/// Fails if the annotations are not an object of texts. A value may also be `null`, because Cedar
/// writes `null` for an annotation without a value.
pub fn check_annotations(object: Object<'_>) -> Result<(), FormError> {
    let Some(annotations) = object.given("annotations") else {
        return Ok(());
    };
    for (_, value) in Object::of(annotations)?.entries {
        annotation_of(value)?;
    }
    Ok(())
}

/// Returns the text of an annotation: the empty text for `null`.
pub fn annotation_of(value: &Value) -> Result<&str, FormError> {
    if is_null(value) {
        return Ok("");
    }
    text_of(value)
}
