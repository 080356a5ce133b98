// Edits of texts, and the lines of the texts behind them.
use cedar_editor::edits::{Edit, edited};
use cedar_editor::examples::examples_of_edits;
use cedar_editor::lines::{Lines, Position, Range};
use cedar_types::base::Loc;
use std::alloc::{AllocError, Global};
use std::test::Fail;

/// An edit: the line and the unit at which its range begins, those at which the range ends, and the text; no range for the
/// whole text.
type Row = (Option<(usize, usize, usize, usize)>, &'static str);

/// Texts, their edits, and the texts behind those.
const EDITS: [(&str, &[Row], &str); 12] = [
    ("ab", &[], "ab"),
    ("ab", &[(None, "cd")], "cd"),
    ("ab\ncd", &[(Some((0, 1, 0, 1)), "X")], "aXb\ncd"),
    ("ab\r\ncd", &[(Some((0, 1, 1, 1)), "")], "ad"),
    ("ab\rcd", &[(Some((1, 0, 1, 2)), "é")], "ab\ré"),
    // each edit is applied to the result of those before it
    (
        "ab",
        &[(Some((0, 0, 0, 0)), "x\n"), (Some((1, 1, 1, 2)), "")],
        "x\na",
    ),
    (
        "ab\ncd\nef",
        &[
            (Some((2, 1, 2, 1)), "X"),
            (Some((0, 1, 0, 1)), "Y\n"),
            (Some((3, 1, 3, 2)), "\r"),
            (Some((4, 0, 4, 0)), "\n"),
            (Some((1, 1, 2, 0)), ""),
            (Some((3, 1, 3, 1)), "!"),
        ],
        "aY\nbcd\ne\r\nf!",
    ),
    ("zz", &[(None, "é𝒳c"), (Some((0, 1, 0, 3)), "-")], "é-c"),
    ("zz", &[(Some((0, 0, 0, 1)), "y"), (None, "whole")], "whole"),
    // a range goes on behind its line, behind the text, or backwards
    ("ab\ncd", &[(Some((0, 1, 0, 99)), "")], "a\ncd"),
    ("ab", &[(Some((5, 0, 9, 9)), "!")], "ab!"),
    ("abc", &[(Some((0, 2, 0, 1)), "X")], "abXc"),
];

fn edits_of<'a>(alloc: Global, rows: &'a [Row]) -> Result<Vec<Edit<'a>>, AllocError> {
    let mut edits = Vec::new(alloc);
    for (places, text) in rows {
        let range = match *places {
            None => None,
            Some((line, unit, last, end)) => Some(Range {
                start: Position { line, unit },
                end: Position {
                    line: last,
                    unit: end,
                },
            }),
        };
        edits.push(Edit { range, text: *text })?;
    }
    Ok(edits)
}

/// Texts, the place of a change, the inserted text, and the text behind the change.
const CHANGES: [(&str, usize, usize, &str, &str); 12] = [
    ("a\nb", 0, 0, "\n", "\na\nb"),
    ("a\nb", 3, 3, "\n", "a\nb\n"),
    ("x\nab", 2, 3, "", "x\nb"),
    ("a\nb\nc\nd", 1, 5, "\n\n", "a\n\n\nd"),
    ("a\nb\nc", 0, 5, "", ""),
    ("é\n𝒳\nc", 3, 7, "日\n", "é\n日\n\nc"),
    // a line feed comes to a carriage return, or goes
    ("a\rb", 2, 2, "\n", "a\r\nb"),
    ("a\nb", 1, 1, "\r", "a\r\nb"),
    ("a\r\nb", 2, 3, "", "a\rb"),
    ("a\r\nb", 1, 2, "", "a\nb"),
    ("a\r\nb", 2, 2, "x", "a\rx\nb"),
    ("a\r\r\nb", 1, 2, "", "a\r\nb"),
];

#[test]
fn texts_and_lines_behind_edits(rt: HostRuntime) -> Result<(), Fail> {
    examples_of_edits();
    let alloc = rt.alloc();
    for (text, rows, wanted) in &EDITS {
        let edits = edits_of(alloc, rows)?;
        let new = edited(alloc, text, edits.as_slice())?;
        assert_eq!(rt; new.as_str(), *wanted, "for {text:?}");
    }
    for (old, start, end, inserted, new) in &CHANGES {
        let place = Loc {
            start: *start,
            end: *end,
        };
        let before = Lines::new(alloc, old)?;
        let edit = Edit {
            range: Some(before.range(old, place)),
            text: *inserted,
        };
        let whole = edited(alloc, old, &[edit])?;
        assert_eq!(rt; whole.as_str(), *new, "for {old:?}");
        let after = before.changed(alloc, new, place, inserted.len())?;
        let lines = Lines::new(alloc, new)?;
        for byte in 0..new.len().saturating_add(1) {
            let position = lines.position(new, byte);
            assert_eq!(rt; after.position(new, byte), position, "{byte} of {new:?}");
        }
    }
    Ok(())
}

/// The number of lines of a long text.
const MANY: usize = 5000;

/// A long text, in which another one stands before each seventh line.
fn long_text(alloc: Global, before: &str) -> Result<String, AllocError> {
    let mut text = String::new(alloc);
    for line in 0..MANY {
        let front = if line % 7 == 0 { before } else { "" };
        writeln!(text, "{front}line {line}")?;
    }
    Ok(text)
}

/// Edits that put a text before each seventh line of a long text, from the first one on or from the last one. The text has so
/// many ends of lines.
fn insertions<'a>(
    alloc: Global,
    text: &'a str,
    ends: usize,
    is_upward: bool,
) -> Result<Vec<Edit<'a>>, AllocError> {
    let mut edits = Vec::new(alloc);
    let count = MANY.div_ceil(7);
    for number in 0..count {
        let line = if is_upward {
            (count - 1 - number) * 7
        } else {
            number * (7 + ends)
        };
        let start = Position { line, unit: 0 };
        edits.push(Edit {
            range: Some(Range { start, end: start }),
            text,
        })?;
    }
    Ok(edits)
}

#[test]
fn edits_of_many_lines(rt: HostRuntime) -> Result<(), Fail> {
    let alloc = rt.alloc();
    let text = long_text(alloc, "")?;
    for (inserted, ends) in [("é", 0), ("x\n", 1), ("\r\n", 1)] {
        let wanted = long_text(alloc, inserted)?;
        for is_upward in [false, true] {
            let edits = insertions(alloc, inserted, ends, is_upward)?;
            let new = edited(alloc, text.as_str(), edits.as_slice())?;
            assert_eq!(rt; new.as_str(), wanted.as_str(), "{inserted:?} {is_upward}");
        }
    }
    Ok(())
}
