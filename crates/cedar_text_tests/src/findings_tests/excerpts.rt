// The line of a place, and the carets below it.
use cedar_findings::excerpts::Excerpt;
use cedar_types::base::Loc;
use std::alloc::{AllocError, Global};
use std::test::Fail;

/// Texts, places in them, and the excerpt of the seventh line.
const EXCERPTS: [(&str, Loc, &str); 9] = [
    (
        "a b c",
        Loc { start: 2, end: 3 },
        "  7 | a b c\n    |   ^\n",
    ),
    ("a\nbc\nd", Loc { start: 2, end: 4 }, "  7 | bc\n    | ^^\n"),
    ("a\nbc\nd", Loc { start: 3, end: 6 }, "  7 | bc\n    |  ^\n"),
    ("ab\r\nc", Loc { start: 1, end: 2 }, "  7 | ab\n    |  ^\n"),
    (
        "a\\b\t\u{202e}\u{e9}c",
        Loc { start: 9, end: 10 },
        "  7 | a\\b\t\\u{202e}\u{e9}c\n    |    \t         ^\n",
    ),
    ("a", Loc { start: 1, end: 1 }, "  7 | a\n    |  ^\n"),
    // a code host takes `::` at the beginning of a line for a command, and `##[` anywhere
    (
        "{\n::error::x\n}",
        Loc { start: 2, end: 4 },
        "  7 | ::error::x\n    | ^^\n",
    ),
    (
        "a ##[b] c",
        Loc { start: 3, end: 7 },
        "  7 | a #\\u{23}[b] c\n    |    ^^^^^^^^^\n",
    ),
    (
        "###",
        Loc { start: 0, end: 1 },
        "  7 | #\\u{23}\\u{23}\n    | ^\n",
    ),
];

#[test]
fn excerpts(rt: HostRuntime) -> Result<(), Fail> {
    for (text, place, wanted) in &EXCERPTS {
        let mut shown = String::new(rt.alloc());
        Excerpt::new(text, *place, 7).push_to(&mut shown)?;
        assert_eq!(rt; shown.as_str(), *wanted, "for {text}");
    }
    Ok(())
}

/// The gutter is as wide as the number.
#[test]
fn the_number_of_a_line(rt: HostRuntime) -> Result<(), Fail> {
    for (number, wanted) in [
        (0, "  0 | a\n    | ^\n"),
        (9, "  9 | a\n    | ^\n"),
        (10, "  10 | a\n     | ^\n"),
        (99, "  99 | a\n     | ^\n"),
        (1000, "  1000 | a\n       | ^\n"),
    ] {
        let place = Loc { start: 0, end: 1 };
        let mut shown = String::new(rt.alloc());
        Excerpt::new("a", place, number).push_to(&mut shown)?;
        assert_eq!(rt; shown.as_str(), wanted);
    }
    Ok(())
}

/// Wide texts by their pieces, places in them, and the text shown behind the number: at most 200
/// characters before a place, in it and behind it.
const WIDE: [(&[(&str, usize)], Loc, &[(&str, usize)]); 3] = [
    (
        &[("a", 150), ("b", 100)],
        Loc {
            start: 150,
            end: 250,
        },
        &[
            ("a", 150),
            ("b", 100),
            ("\n    | ", 1),
            (" ", 150),
            ("^", 100),
        ],
    ),
    (
        &[("a", 201), ("b", 201), ("c", 1)],
        Loc {
            start: 201,
            end: 402,
        },
        &[
            ("a", 200),
            ("b", 200),
            ("\n    | ", 1),
            (" ", 200),
            ("^", 200),
        ],
    ),
    (
        &[("\u{e9}", 201), ("b", 1), ("\u{e9}", 201)],
        Loc {
            start: 402,
            end: 403,
        },
        &[
            ("\u{e9}", 200),
            ("b", 1),
            ("\u{e9}", 200),
            ("\n    | ", 1),
            (" ", 200),
            ("^", 1),
        ],
    ),
];

/// The text of these pieces, each repeated as its number says.
fn repeated(alloc: Global, pieces: &[(&str, usize)]) -> Result<String, AllocError> {
    let mut text = String::new(alloc);
    for (piece, times) in pieces {
        for _ in 0..*times {
            text.push_str(piece)?;
        }
    }
    Ok(text)
}

#[test]
fn wide_places(rt: HostRuntime) -> Result<(), Fail> {
    let alloc = rt.alloc();
    for (pieces, place, below) in &WIDE {
        let text = repeated(alloc, pieces)?;
        let below = repeated(alloc, below)?;
        let mut shown = String::new(alloc);
        Excerpt::new(text.as_str(), *place, 7).push_to(&mut shown)?;
        let wanted = format!(in alloc; "  7 | {below}\n")?;
        assert_eq!(rt; shown.as_str(), wanted.as_str());
    }
    Ok(())
}
