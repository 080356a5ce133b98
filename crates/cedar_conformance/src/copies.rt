// Copies of values.
ghost use Rattle.std.specs.Prelude.{◌≡◌, IfOk, map};
ghost use Rattle.cedar_conformance.specs.Values.{value_of, values_of, record_of};

use crate::values::{Record, Value};
use std::alloc::{AllocError, Global};
use std::collections::BTreeMap;

impl Value {
    /// Copies the value. If memory is refused, the answer is an `AllocError`.
    pub fn try_clone(&self, alloc: Global) -> Result<Value, AllocError>
        ensures { IfOk result (λ v. value_of v ≡ value_of self.now) }
    {
        copy_value(alloc, self)
    }
}

#[cycle(copied_values)]
fn copy_value(alloc: Global, value: &Value) -> Result<Value, AllocError>
    ensures { IfOk result (λ v. value_of v ≡ value_of value.now) }
{
    match value {
        Value::Bool(b) => Ok(Value::Bool(*b)),
        Value::Long(n) => Ok(Value::Long(*n)),
        Value::String(text) => Ok(Value::String(text.clone()?)),
        Value::EntityUID(uid) => Ok(Value::EntityUID(uid.clone()?)),
        Value::Set(members) => Ok(Value::Set(copy_members(alloc, members)?)),
        Value::Record(entries) => Ok(Value::Record(copy_record(alloc, entries)?)),
        Value::Extension { type_name, text } => {
            let type_name = type_name.clone()?;
            let text = text.clone()?;
            Ok(Value::Extension { type_name, text })
        }
    }
}

#[cycle(copied_values)]
fn copy_members(alloc: Global, members: &Vec<Value>) -> Result<Vec<Value>, AllocError>
    ensures { IfOk result (λ v. values_of v.items ≡ values_of members.now.items) }
{
    let mut copies = Vec::with_capacity(alloc, members.len())?;
    for member in members {
        copies.push(copy_value(alloc, member)?)?;
    }
    Ok(copies)
}

/// Copies a record. If memory is refused, the answer is an `AllocError`.
#[cycle(copied_values)]
pub(crate) fn copy_record(alloc: Global, entries: &Record) -> Result<Record, AllocError>
    ensures { IfOk result (λ r. record_of r ≡ record_of entries.now) }
{
    let mut copies = BTreeMap::new(alloc);
    for (key, value) in entries.iter() {
        let key = key.clone()?;
        drop(copies.insert(key, copy_value(alloc, value)?)?);
    }
    Ok(copies)
}
