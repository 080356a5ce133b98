//! Writing of JSON. Nothing else writes brackets, commas, colons, quotes and escapes.
use crate::digits::push_number;
use crate::escapes::is_hidden;
use crate::texts::push_all;
use std::alloc::AllocError;

/// Writes values of JSON behind a text, one after another. It remembers only whether a comma is
/// due, at any depth, because the end of a nested value is again a value before the next.
#[derive(Clone, Copy)]
pub struct JsonWriter {
    is_behind_value: bool,
}

impl JsonWriter {
    /// A writer that has written nothing yet.
    pub fn new() -> JsonWriter {
        JsonWriter {
            is_behind_value: false,
        }
    }

    /// Begins an object. You must add a key and then a value for each member.
    pub fn begin_object(&mut self, out: &mut String) -> Result<(), AllocError> {
        self.begin(out, "{")
    }

    /// Ends the object that was begun last.
    pub fn end_object(&mut self, out: &mut String) -> Result<(), AllocError> {
        self.end(out, "}")
    }

    /// Ends values that were begun, from the last one on: `ends` has the bracket or brace of each.
    pub fn end_nested(&mut self, out: &mut String, ends: &str) -> Result<(), AllocError> {
        self.end(out, ends)
    }

    /// Begins a list.
    pub fn begin_list(&mut self, out: &mut String) -> Result<(), AllocError> {
        self.begin(out, "[")
    }

    /// Ends the list that was begun last.
    pub fn end_list(&mut self, out: &mut String) -> Result<(), AllocError> {
        self.end(out, "]")
    }

    /// Adds a key. You must add its value next.
    pub fn key(&mut self, out: &mut String, key: &str) -> Result<(), AllocError> {
        self.text(out, key)?;
        out.push_str(":")?;
        self.is_behind_value = false;
        Ok(())
    }

    /// Adds a text.
    pub fn text(&mut self, out: &mut String, text: &str) -> Result<(), AllocError> {
        self.begin_text(out)?;
        self.text_part(out, text)?;
        self.end_text(out)
    }

    /// Begins a text that is written in parts.
    pub fn begin_text(&mut self, out: &mut String) -> Result<(), AllocError> {
        self.begin(out, "\"")
    }

    /// Adds a part of the text that was begun.
    pub fn text_part(&self, out: &mut String, part: &str) -> Result<(), AllocError> {
        if part.bytes().all(is_plain) {
            return out.push_str(part);
        }
        for c in part.chars() {
            push_char(out, c)?;
        }
        Ok(())
    }

    /// Adds a character to the text that was begun.
    pub fn char_part(&self, out: &mut String, part: char) -> Result<(), AllocError> {
        push_char(out, part)
    }

    /// Adds a number to the text that was begun.
    pub fn number_part(&self, out: &mut String, part: u64) -> Result<(), AllocError> {
        push_number(out, part)
    }

    /// Ends the text that was begun.
    pub fn end_text(&mut self, out: &mut String) -> Result<(), AllocError> {
        self.end(out, "\"")
    }

    /// Adds a number.
    pub fn number(&mut self, out: &mut String, number: u64) -> Result<(), AllocError> {
        self.begin(out, "")?;
        push_number(out, number)?;
        self.end(out, "")
    }

    /// Adds `true` or `false`.
    pub fn boolean(&mut self, out: &mut String, value: bool) -> Result<(), AllocError> {
        self.begin(out, if value { "true" } else { "false" })?;
        self.end(out, "")
    }

    /// Adds `null`.
    pub fn null(&mut self, out: &mut String) -> Result<(), AllocError> {
        self.begin(out, "null")?;
        self.end(out, "")
    }

    /// Adds a member that is a text.
    pub fn text_at(&mut self, out: &mut String, key: &str, text: &str) -> Result<(), AllocError> {
        self.key(out, key)?;
        self.text(out, text)
    }

    /// Adds a member that is a number.
    pub fn number_at(
        &mut self,
        out: &mut String,
        key: &str,
        number: u64,
    ) -> Result<(), AllocError> {
        self.key(out, key)?;
        self.number(out, number)
    }

    /// Adds the key of a member that is an object, and begins the object.
    pub fn object_at(&mut self, out: &mut String, key: &str) -> Result<(), AllocError> {
        self.key(out, key)?;
        self.begin_object(out)
    }

    /// Adds the key of a member that is a list, and begins the list.
    pub fn list_at(&mut self, out: &mut String, key: &str) -> Result<(), AllocError> {
        self.key(out, key)?;
        self.begin_list(out)
    }

    /// Adds a member that is `true` or `false`.
    pub fn boolean_at(
        &mut self,
        out: &mut String,
        key: &str,
        value: bool,
    ) -> Result<(), AllocError> {
        self.key(out, key)?;
        self.boolean(out, value)
    }

    /// Begins a line between two values, because JSON allows blanks there. A comma that is due
    /// comes before the line's end.
    pub fn begin_line(&mut self, out: &mut String) -> Result<(), AllocError> {
        self.begin(out, "\n")
    }

    /// Ends the line behind a value.
    pub fn end_line(&self, out: &mut String) -> Result<(), AllocError> {
        out.push_str("\n")
    }

    /// Adds the beginning of the next value, behind a comma if one is due.
    fn begin(&mut self, out: &mut String, beginning: &str) -> Result<(), AllocError> {
        if !self.is_behind_value {
            return out.push_str(beginning);
        }
        self.is_behind_value = false;
        push_all(out, &[",", beginning])
    }

    /// Adds the end of a value.
    fn end(&mut self, out: &mut String, end: &str) -> Result<(), AllocError> {
        self.is_behind_value = true;
        out.push_str(end)
    }
}

/// Whether a byte is a character of ASCII that stays as it is in a text, whatever stands before it.
fn is_plain(byte: u8) -> bool {
    matches!(byte, b' '..=b'~') && byte != b'"' && byte != b'\\' && byte != b'#'
}

/// Adds a character of a text. A quote or a backslash gets a backslash before it; a character that
/// [`is_hidden`], or a `#` behind another, is written as `\u` with its digits.
fn push_char(out: &mut String, c: char) -> Result<(), AllocError> {
    if c == '"' || c == '\\' {
        out.push('\\')?;
        return out.push(c);
    }
    if is_hidden(c) || (c == '#' && out.ends_with('#')) {
        return push_units(out, u32::from(c));
    }
    out.push(c)
}

/// Adds the number of a character: as a pair of units if one is too small.
fn push_units(out: &mut String, number: u32) -> Result<(), AllocError> {
    if number < 0x10000 {
        return write!(out, "\\u{number:04x}");
    }
    let rest = number.saturating_sub(0x10000);
    let high = (rest >> 10) | 0xd800;
    let low = (rest & 0x3ff) | 0xdc00;
    write!(out, "\\u{high:04x}\\u{low:04x}")
}
