// Frames of the texts in tables of cases.

/// The text before a part, and the text behind it.
pub type Frame<'a> = (&'a str, &'a str);
