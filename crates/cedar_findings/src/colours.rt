//! Colours of the kinds of findings, in lines for people.
use crate::escapes::ShownFile;
use std::alloc::{AllocError, Global};
use std::env::VarError;

/// Whether kinds of findings have colours.
#[derive(Clone, Copy, PartialEq, Eq, Debug)]
pub enum Colours {
    None,
    /// Colours in the escapes of terminals.
    Terminal,
}

impl Colours {
    /// The colours of standard output, if it is a terminal, by the variable `NO_COLOR`: nothing is
    /// painted if the variable is set and is not empty. A variable that is no text in UTF-8 is not
    /// empty; if memory is refused for it, nothing is painted.
    pub fn of_output(is_terminal: bool, no_color: Result<String, VarError>) -> Colours {
        let is_refused = match no_color {
            Ok(text) => !text.is_empty(),
            Err(VarError::NotPresent) => false,
            Err(VarError::NotUnicode | VarError::OutOfMemory) => true,
        };
        if is_terminal && !is_refused {
            Colours::Terminal
        } else {
            Colours::None
        }
    }
}

/// The escape that ends a colour.
const END: &str = "\x1b[0m";

/// The colour of a kind of findings, if it has one.
fn colour_of(kind: &str) -> Option<&'static str> {
    match kind {
        "error" | "fault" => Some("\x1b[1;31m"),
        "warning" => Some("\x1b[1;33m"),
        _ => None,
    }
}

/// Lines about the file of this name, the kind of each in its colour. A line that does not begin
/// with a place of the file stays as it is, for example a line of the file's text.
pub fn painted(alloc: Global, name: &str, lines: &str) -> Result<String, AllocError> {
    let name = ShownFile(name);
    let file = format!(in alloc; "{name}:")?;
    let mut shown = String::new(alloc);
    for line in lines.split_inclusive('\n') {
        push_line(&mut shown, file.as_str(), line)?;
    }
    Ok(shown)
}

fn push_line(shown: &mut String, file: &str, line: &str) -> Result<(), AllocError> {
    let Some(kind) = kind_of(file, line) else {
        return shown.push_str(line);
    };
    let Some(colour) = colour_of(kind.text) else {
        return shown.push_str(line);
    };
    let before = line.get(..kind.start).unwrap_or("");
    let behind = line.get(kind.start..).unwrap_or("");
    let behind = behind.strip_prefix(kind.text).unwrap_or("");
    let text = kind.text;
    write!(shown, "{before}{colour}{text}{END}{behind}")
}

/// A kind, and the byte of its line at which it stands.
#[derive(Clone, Copy)]
struct Kind<'a> {
    start: usize,
    text: &'a str,
}

/// The kind of a line that begins with a place of this file: the text behind the place, up to a
/// colon.
fn kind_of<'a>(file: &str, line: &'a str) -> Option<Kind<'a>> {
    let rest = line.strip_prefix(file)?;
    let rest = rest.trim_start_matches(|c: char| c.is_ascii_digit() || c == ':');
    let rest = rest.strip_prefix(' ')?;
    let (text, _) = rest.split_once(':')?;
    let start = line.len().saturating_sub(rest.len());
    Some(Kind { start, text })
}
