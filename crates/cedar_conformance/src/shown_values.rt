// Shown values: a value displays as a literal of a policy.
use crate::values::{Record, Value};
use std::fmt;

impl fmt::Display for Value {
    #[cycle(shown_values)]
    fn fmt<W: fmt::Write>(&self, f: &mut fmt::Formatter<W>) -> fmt::Result {
        match self {
            Value::Bool(b) => write!(f, "{b}"),
            Value::Long(n) => write!(f, "{n}"),
            Value::String(text) => write!(f, "{:?}", text.as_str()),
            Value::EntityUID(uid) => write!(f, "{uid}"),
            Value::Set(members) => write_members(members, f),
            Value::Record(entries) => write_entries(entries, f),
            Value::Extension { type_name, text } => {
                write!(f, "{type_name}({:?})", text.as_str())
            }
        }
    }
}

/// Writes the members of a set in brackets, in the order of its list.
#[cycle(shown_values)]
fn write_members<W: fmt::Write>(members: &Vec<Value>, f: &mut fmt::Formatter<W>) -> fmt::Result {
    write!(f, "[")?;
    let mut is_first = true;
    for member in members {
        if !is_first {
            write!(f, ", ")?;
        }
        write!(f, "{member}")?;
        is_first = false;
    }
    write!(f, "]")
}

/// Writes the values of a record in braces, each after its key.
#[cycle(shown_values)]
fn write_entries<W: fmt::Write>(entries: &Record, f: &mut fmt::Formatter<W>) -> fmt::Result {
    write!(f, "{{")?;
    let mut is_first = true;
    for (key, value) in entries.iter() {
        if !is_first {
            write!(f, ", ")?;
        }
        write!(f, "{:?}: {value}", key.as_str())?;
        is_first = false;
    }
    write!(f, "}}")
}
