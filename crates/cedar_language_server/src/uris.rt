// URIs of files, which are their names in the protocol: `file:///a%20b.cedar`.
use std::alloc::{AllocError, Global};

const SCHEME: &str = "file://";

/// The path that a URI of a file means; `None` for a URI of another scheme, for example `untitled:`.
pub fn path_of(alloc: Global, uri: &str) -> Result<Option<String>, AllocError> {
    let Some(rest) = uri.strip_prefix(SCHEME) else {
        return Ok(None);
    };
    let Some(start) = rest.find('/') else {
        return Ok(None);
    };
    let path = rest.get(start..).unwrap_or("");
    let bytes = decoded(alloc, path)?;
    match String::from_utf8(bytes) {
        Ok(path) => Ok(Some(path)),
        Err(_) => Ok(None),
    }
}

/// The bytes of a text in which `%` and two digits stand for each odd byte.
fn decoded(alloc: Global, text: &str) -> Result<Vec<u8>, AllocError> {
    let mut bytes = Vec::new(alloc);
    let mut passed = 0usize;
    for (at, byte) in text.as_bytes().iter().enumerate() {
        if at < passed {
            continue;
        }
        let escape = text.get(at..at.saturating_add(3)).and_then(escaped);
        match escape {
            Some(meant) => {
                bytes.push(meant)?;
                passed = at.saturating_add(3);
            }
            None => bytes.push(*byte)?,
        }
    }
    Ok(bytes)
}

/// The byte that `%` and two digits mean.
fn escaped(text: &str) -> Option<u8> {
    let digits = text.strip_prefix('%')?;
    if digits.starts_with('+') {
        return None;
    }
    u8::from_str_radix(digits, 16).ok()
}

/// The URI of the file at a path.
pub fn uri_of(alloc: Global, path: &str) -> Result<String, AllocError> {
    let mut uri = String::from_str(alloc, SCHEME)?;
    for byte in path.as_bytes() {
        let byte = *byte;
        if byte.is_ascii_alphanumeric() || matches!(byte, b'/' | b'-' | b'_' | b'.' | b'~') {
            uri.push(char::from(byte))?;
        } else {
            write!(uri, "%{byte:02X}")?;
        }
    }
    Ok(uri)
}
