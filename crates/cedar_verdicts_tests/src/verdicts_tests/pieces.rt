// Texts that stand in tables by their parts.
use std::alloc::{AllocError, Global};

/// The text of these parts, one behind another.
pub fn joined(alloc: Global, parts: &[&str]) -> Result<String, AllocError> {
    let mut text = String::new(alloc);
    for part in parts {
        text.push_str(part)?;
    }
    Ok(text)
}

/// The text of these pieces, each repeated as its number says.
pub fn repeated(alloc: Global, pieces: &[(&str, usize)]) -> Result<String, AllocError> {
    let mut text = String::new(alloc);
    for (piece, times) in pieces {
        for _ in 0..*times {
            text.push_str(piece)?;
        }
    }
    Ok(text)
}
