// Values as texts, with their places, because `==` passes over places.
use std::alloc::{AllocError, Global};
use std::collections::HashSet;
use std::fmt::Debug;
use std::hash::Hash;

/// The text of all of a value.
pub fn picture<T: Debug>(alloc: Global, value: &T) -> Result<String, AllocError> {
    format!(in alloc; "{value:?}")
}

/// The text of all of each of these values, in order.
pub fn pictures<T: Debug>(alloc: Global, values: &[T]) -> Result<Vec<String>, AllocError> {
    let mut texts = Vec::new(alloc);
    for value in values {
        texts.push(picture(alloc, value)?)?;
    }
    Ok(texts)
}

/// The members of a set, each once, in ascending order of their texts.
pub fn members<T: Debug + Eq + Hash>(
    alloc: Global,
    set: &HashSet<T>,
) -> Result<Vec<String>, AllocError> {
    let mut texts = Vec::new(alloc);
    for member in set {
        texts.push(picture(alloc, member)?)?;
    }
    texts.sort()?;
    Ok(texts)
}
