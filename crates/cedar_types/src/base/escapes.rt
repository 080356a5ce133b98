// Displays of untrusted texts. No contract states the text that they write.
use std::fmt;

/// A name, an attribute, an id or a literal, which you show between quotes or backquotes.
///
/// `Display` writes the text as `{:?}` does, without the quotes around it: it escapes control
/// characters, line breaks, double quotes, backslashes, marks of direction and characters without a
/// shape of their own. It writes a backquote as `\u{60}`. So the output is one line and ends
/// neither double quotes nor backquotes.
#[derive(Clone, Copy, Drop)]
pub struct Escaped<'a>(pub &'a str);

/// A whole text with quotes and backquotes of its own, for example an error's, which you show on a
/// line of its own.
///
/// `Display` writes the text as `{:?}` does, without the quotes around it, but leaves quotes and
/// backquotes as they are. So the output is one line. A name that the text quotes may end its
/// quotes; if this matters, you must show each name by [`Escaped`].
#[derive(Clone, Copy, Drop)]
pub struct OneLine<'a>(pub &'a str);

impl fmt::Display for Escaped<'_> {
    fn fmt<W: fmt::Write>(&self, f: &mut fmt::Formatter<W>) -> fmt::Result {
        for c in self.0.chars() {
            match c {
                '\'' => f.write_char(c)?,
                '`' => f.write_str("\\u{60}")?,
                _ => write_escaped(c, f)?,
            }
        }
        Ok(())
    }
}

impl fmt::Display for OneLine<'_> {
    fn fmt<W: fmt::Write>(&self, f: &mut fmt::Formatter<W>) -> fmt::Result {
        for c in self.0.chars() {
            match c {
                '\'' | '"' => f.write_char(c)?,
                _ => write_escaped(c, f)?,
            }
        }
        Ok(())
    }
}

fn write_escaped<W: fmt::Write>(c: char, f: &mut fmt::Formatter<W>) -> fmt::Result {
    for part in c.escape_debug() {
        f.write_char(part)?;
    }
    Ok(())
}
