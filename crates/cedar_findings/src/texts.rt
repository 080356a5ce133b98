// Small helps with texts: one call in place of many, because each call that may fail has a proof of its own.
use std::alloc::AllocError;

/// Adds these parts.
pub(crate) fn push_all(out: &mut String, parts: &[&str]) -> Result<(), AllocError> {
    for part in parts {
        out.push_str(part)?;
    }
    Ok(())
}

/// Adds these texts, with another between two.
pub(crate) fn push_joined(
    out: &mut String,
    texts: &[&str],
    between: &str,
) -> Result<(), AllocError> {
    let mut before = "";
    for text in texts {
        push_all(out, &[before, text])?;
        before = between;
    }
    Ok(())
}

/// Whether one of these texts is this one.
pub(crate) fn is_among(texts: &[&str], text: &str) -> bool {
    for own in texts {
        if *own == text {
            return true;
        }
    }
    false
}

/// The text beside which this one stands in a table, or an empty text.
pub(crate) fn found_in(table: &[(&[&str], &'static str)], text: &str) -> &'static str {
    for (texts, found) in table {
        if is_among(texts, text) {
            return found;
        }
    }
    ""
}
