// Lines and columns of bytes, as people count them.

/// A line of a text and a column of that line, in characters, each from 1 on.
#[derive(Clone, Copy, PartialEq, Eq, Debug)]
pub struct Position {
    pub line: usize,
    pub column: usize,
}

impl Position {
    /// The line and column of the byte `at` of a text. A line ends with `\n`; a `\r` before that is
    /// the line's last character.
    pub fn in_text(text: &str, at: usize) -> Position {
        let before = text.get(..at).unwrap_or(text);
        let line = before.split('\n').count();
        let column = before.rsplit('\n').next().unwrap_or("").chars().count();
        Position {
            line,
            column: column.saturating_add(1),
        }
    }
}
