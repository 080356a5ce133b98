//! Texts of files.
use crate::faults::{TextFault, push_hint};
use cedar_reading::MAX_LENGTH;
use cedar_types::base::Loc;
use std::alloc::{AllocError, Global};
use std::io::Read;
use std::rt::Files;
use std::{fs, io, str};

/// The number of bytes of a file that are read: one more than a text may have, so that a longer one is seen to be too long.
const MOST_READ: u64 = (1 << 26) + 1;

/// A text that was read, and the name of its file.
#[derive(Clone, Copy)]
pub struct Source<'a> {
    pub name: &'a str,
    pub text: &'a str,
}

/// The content of a file.
#[derive(Drop)]
pub enum Content {
    Text(String),
    /// No text, or one that is too long: the text before the first bad byte, and the fault there.
    Broken(String, TextFault),
}

/// The content of the file of this name, or of standard input at `-`.
pub fn read<R: Files + AllocGlobal + Input>(rt: &R, name: &str) -> io::Result<Content> {
    let bytes = read_bytes(rt, name)?;
    Ok(content_of(rt.alloc(), bytes.as_slice())?)
}

fn read_bytes<R: Files + AllocGlobal + Input>(rt: &R, name: &str) -> io::Result<Vec<u8>> {
    let mut bytes = Vec::new(rt.alloc());
    if name == "-" {
        rt.reader().take(MOST_READ).read_to_end(&mut bytes)?;
    } else {
        fs::open(rt, name)?.take(MOST_READ).read_to_end(&mut bytes)?;
    }
    Ok(bytes)
}

/// The content of these bytes in UTF-8. A byte order mark at the beginning is no part of the text.
pub fn content_of(alloc: Global, bytes: &[u8]) -> Result<Content, AllocError> {
    if bytes.len() > MAX_LENGTH {
        return Ok(Content::Broken(String::new(alloc), too_long(alloc)?));
    }
    let valid = match str::from_utf8(bytes) {
        Ok(text) => return Ok(Content::Text(String::from_str(alloc, without_mark(text))?)),
        Err(error) => error.valid_up_to(),
    };
    let front = String::from_str(alloc, without_mark(front_of(bytes, valid)))?;
    let start = front.len();
    let fault = TextFault {
        place: Loc { start, end: start },
        text: broken_text(alloc, bytes, valid)?,
    };
    Ok(Content::Broken(front, fault))
}

/// The fault of a file that is too long.
fn too_long(alloc: Global) -> Result<TextFault, AllocError> {
    Ok(TextFault {
        place: Loc { start: 0, end: 0 },
        text: String::from_str(alloc, "the text is longer than 64 MiB")?,
    })
}

/// The first bytes, which are a text.
fn front_of(bytes: &[u8], size: usize) -> &str {
    match str::from_utf8(bytes.get(..size).unwrap_or(&[])) {
        Ok(front) => front,
        Err(_) => "",
    }
}

fn without_mark(text: &str) -> &str {
    text.strip_prefix('\u{feff}').unwrap_or(text)
}

/// The fault at this byte, which is no text.
fn broken_text(alloc: Global, bytes: &[u8], at: usize) -> Result<String, AllocError> {
    let byte = bytes.get(at).copied().unwrap_or(0);
    let mut text = format!(in alloc;
        "the byte 0x{byte:02x} is no text in UTF-8, as a file has to be"
    )?;
    if let [0xff, 0xfe, ..] | [0xfe, 0xff, ..] = bytes {
        push_hint(&mut text, "it seems to be UTF-16")?;
    }
    Ok(text)
}
