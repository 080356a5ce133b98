// Differences of two record types.
use cedar_types::base::{AttributeType, Attributes, CedarType};
use std::alloc::{AllocError, Global};
use std::collections::BTreeSet;
use std::rc::RcStr;

/// The first attribute in which two record types differ, in words; `None` for other types.
pub fn difference(
    alloc: Global,
    types: &BTreeSet<CedarType>,
) -> Result<Option<String>, AllocError> {
    let mut all = types.iter();
    let (Some(first), Some(second), None) = (all.next(), all.next(), all.next()) else {
        return Ok(None);
    };
    match (first, second) {
        (
            CedarType::Record {
                attributes: left,
                ..
            },
            CedarType::Record {
                attributes: right,
                ..
            },
        ) => difference_of_records(alloc, left, right),
        _ => Ok(None),
    }
}

fn difference_of_records(
    alloc: Global,
    left: &Attributes,
    right: &Attributes,
) -> Result<Option<String>, AllocError> {
    for (name, one) in left.attrs.iter() {
        match right.get_attr(name) {
            None => return Ok(Some(in_one_alone(alloc, name)?)),
            Some(other) if one != other => return Ok(Some(tell_apart(alloc, name, one, other)?)),
            Some(_) => {}
        }
    }
    for name in right.attrs.keys() {
        if left.get_attr(name).is_none() {
            return Ok(Some(in_one_alone(alloc, name)?));
        }
    }
    Ok(None)
}

fn in_one_alone(alloc: Global, name: &RcStr) -> Result<String, AllocError> {
    format!(in alloc; "one of the records lacks `{name}`")
}

fn tell_apart(
    alloc: Global,
    name: &RcStr,
    one: &AttributeType,
    other: &AttributeType,
) -> Result<String, AllocError> {
    if one.attr_type == other.attr_type {
        return format!(in alloc; "`{name}` is optional in one of the records alone");
    }
    let one = &one.attr_type;
    let other = &other.attr_type;
    format!(in alloc; "`{name}` is `{one}` in one of the records and `{other}` in the other")
}
