// Values, as a program holds them.
ghost use Rattle.std.specs.Prelude.{◌≡◌, option_map, IfOk};
ghost use Rattle.cedar_types.specs.Values.{VString, VExtension};
ghost use Rattle.cedar_types.specs.Names.{path_of, uid_of};
ghost use Rattle.cedar_conformance.specs.Values.{value_of, record_of, values_of};
ghost use Rattle.cedar_conformance.specs.Tests.{bool_in, is_long, is_string, entity_in, set_in, record_in, extension_in};

use cedar_types::base::{EntityUID, Name};
use std::alloc::{AllocError, Global};
use std::collections::BTreeMap;
use std::rc::RcStr;

/// The values of a record, of an entity's attributes or of its tags, by their names.
pub type Record = BTreeMap<RcStr, Value>;

/// A value of an attribute, a tag or a context. To drop a value that is nested deep takes a deep
/// stack.
///
/// The order of values is the order of their kinds here, and within a kind the order of their
/// contents; sets compare by their lists.
#[derive(PartialEq, Eq, PartialOrd, Ord, Debug)]
pub enum Value {
    /// A truth value.
    Bool(bool),
    /// A whole number.
    Long(i64),
    /// A text.
    String(RcStr),
    /// The id of an entity, which may or may not exist.
    EntityUID(EntityUID),
    /// A set, by a list of its members. A repeated member counts once.
    Set(Vec<Value>),
    /// Values by key.
    Record(BTreeMap<RcStr, Value>),
    /// A value of the extension type of this name, by a text that stands for it.
    Extension { type_name: Name, text: RcStr },
}

// Dropping is written by hand, so that a proof has one call for each dropped value.
impl Drop for Value {
    fn drop(self) {
        match self {
            Value::Bool(_) => {}
            Value::Long(_) => {}
            Value::String(_) => {}
            Value::EntityUID(_) => {}
            Value::Set(_) => {}
            Value::Record(_) => {}
            Value::Extension {
                type_name: _,
                text: _,
            } => {}
        }
    }
}

impl Value {
    /// Makes the value of a text.
    pub fn string(alloc: Global, text: &str) -> Result<Value, AllocError>
        ensures { IfOk result (λ v. value_of v ≡ VString text.now) }
    {
        Ok(Value::String(RcStr::from_str(alloc, text)?))
    }

    /// Makes the extension value of this text. It does not check that the type has such a value.
    pub fn extension(alloc: Global, type_name: Name, text: &str) -> Result<Value, AllocError>
        ensures { IfOk result (λ v. value_of v ≡ VExtension (path_of type_name) text.now) }
    {
        let text = RcStr::from_str(alloc, text)?;
        Ok(Value::Extension { type_name, text })
    }

    /// Returns the truth value, if the value is one.
    pub fn as_bool(&self) -> Option<bool>
        ensures { result ≡ bool_in (value_of self.now) }
    {
        match self {
            Value::Bool(b) => Some(*b),
            _ => None,
        }
    }

    /// Returns whether the value is a whole number.
    pub fn is_long(&self) -> bool
        ensures { result ≡ is_long (value_of self.now) }
    {
        match self {
            Value::Long(_) => true,
            _ => false,
        }
    }

    /// Returns whether the value is a text.
    pub fn is_string(&self) -> bool
        ensures { result ≡ is_string (value_of self.now) }
    {
        match self {
            Value::String(_) => true,
            _ => false,
        }
    }

    /// Returns the id, if the value is an entity's id.
    pub fn as_entity_uid(&self) -> Option<&EntityUID>
        ensures { option_map (λ u. uid_of u.now) result ≡ entity_in (value_of self.now) }
    {
        match self {
            Value::EntityUID(uid) => Some(uid),
            _ => None,
        }
    }

    /// Returns the members, if the value is a set.
    pub fn as_set(&self) -> Option<&Vec<Value>>
        ensures { option_map (λ vs. values_of vs.now.items) result ≡ set_in (value_of self.now) }
    {
        match self {
            Value::Set(members) => Some(members),
            _ => None,
        }
    }

    /// Returns the values by key, if the value is a record.
    pub fn as_record(&self) -> Option<&BTreeMap<RcStr, Value>>
        ensures { option_map (λ r. record_of r.now) result ≡ record_in (value_of self.now) }
    {
        match self {
            Value::Record(entries) => Some(entries),
            _ => None,
        }
    }

    /// Returns the name of the type, if the value is of an extension type.
    pub fn extension_type(&self) -> Option<&Name>
        ensures { option_map (λ n. path_of n.now) result ≡ extension_in (value_of self.now) }
    {
        match self {
            Value::Extension {
                type_name,
                text: _text,
            } => Some(type_name),
            _ => None,
        }
    }
}
