// Positions of bytes, and the bytes at positions.
use cedar_editor::lines::{Lines, Position, Range};
use cedar_editor::offsets::{bytes_before, units_of};
use cedar_editor::walks::Walk;
use cedar_types::base::Loc;
use std::test::Fail;

/// Texts, and the numbers of their units of UTF-16.
const UNITS: [(&str, usize); 6] = [
    ("", 0),
    ("abc", 3),
    ("é", 1),
    ("日", 1),
    ("𝒳", 2),
    ("aé日𝒳", 5),
];

/// Numbers of units, and the bytes before so many in `aé日𝒳`, whose characters have 1, 2, 3 and 4 bytes.
const BEFORE: [(usize, usize); 8] = [
    (0, 0),
    (1, 1),
    (2, 3),
    (3, 6),
    // inside of a character
    (4, 6),
    (5, 10),
    (6, 10),
    (99, 10),
];

/// Texts, a byte at which a character begins or the text ends, and its line and unit.
const POSITIONS: [(&str, usize, usize, usize); 26] = [
    ("", 0, 0, 0),
    ("ab\ncd\n", 0, 0, 0),
    ("ab\ncd\n", 2, 0, 2),
    ("ab\ncd\n", 3, 1, 0),
    ("ab\ncd\n", 5, 1, 2),
    ("ab\ncd\n", 6, 2, 0),
    ("ab\r\ncd", 2, 0, 2),
    ("ab\r\ncd", 3, 0, 3),
    ("ab\r\ncd", 4, 1, 0),
    ("ab\r\ncd", 6, 1, 2),
    ("ab\rcd", 2, 0, 2),
    ("ab\rcd", 3, 1, 0),
    ("ab\r", 3, 1, 0),
    ("\n\r\n\r\r\n", 1, 1, 0),
    ("\n\r\n\r\r\n", 2, 1, 1),
    ("\n\r\n\r\r\n", 3, 2, 0),
    ("\n\r\n\r\r\n", 4, 3, 0),
    ("\n\r\n\r\r\n", 5, 3, 1),
    ("\n\r\n\r\r\n", 6, 4, 0),
    ("é日\n𝒳b", 2, 0, 1),
    ("é日\n𝒳b", 5, 0, 2),
    ("é日\n𝒳b", 6, 1, 0),
    ("é日\n𝒳b", 10, 1, 2),
    ("é日\n𝒳b", 11, 1, 3),
    // no other character ends a line
    ("a\u{2028}b\u{85}c", 4, 0, 2),
    ("a\u{2028}b\u{85}c", 7, 0, 4),
];

/// Texts, a position that is that of no byte, and the byte to which it leads.
const OTHERS: [(&str, usize, usize, usize); 10] = [
    // behind the end of a line
    ("ab\ncd", 0, 3, 2),
    ("ab\ncd", 0, 99, 2),
    ("ab\r\ncd", 0, 4, 2),
    ("ab\rcd", 0, 3, 2),
    ("ab\n\ncd", 1, 1, 3),
    ("ab\ncd", 1, 3, 5),
    // behind the end of the text
    ("ab\ncd", 2, 0, 5),
    ("", 7, 7, 0),
    // inside of a character
    ("𝒳", 0, 1, 0),
    ("a\r\né𝒳", 1, 2, 5),
];

#[test]
fn positions_and_bytes(rt: HostRuntime) -> Result<(), Fail> {
    let alloc = rt.alloc();
    for (text, count) in &UNITS {
        assert_eq!(rt; units_of(text.as_bytes()), *count, "{text}");
    }
    for (count, bytes) in &BEFORE {
        assert_eq!(rt; bytes_before("aé日𝒳".as_bytes(), *count), *bytes, "{count}");
    }
    for (text, byte, line, unit) in &POSITIONS {
        let lines = Lines::new(alloc, text)?;
        let position = Position {
            line: *line,
            unit: *unit,
        };
        assert_eq!(rt; lines.position(text, *byte), position, "{byte} of {text:?}");
        assert_eq!(rt;
            lines.byte(text, position),
            *byte,
            "{position:?} of {text:?}"
        );
    }
    for (text, line, unit, byte) in &OTHERS {
        let lines = Lines::new(alloc, text)?;
        let position = Position {
            line: *line,
            unit: *unit,
        };
        assert_eq!(rt;
            lines.byte(text, position),
            *byte,
            "{position:?} of {text:?}"
        );
    }
    Ok(())
}

/// A walk gives each position, whichever one it gave before.
#[test]
fn positions_of_a_walk(rt: HostRuntime) -> Result<(), Fail> {
    let alloc = rt.alloc();
    for (text, start, line, unit) in &POSITIONS {
        let lines = Lines::new(alloc, text)?;
        let first = Position {
            line: *line,
            unit: *unit,
        };
        for (other, end, line, unit) in &POSITIONS {
            if text != other {
                continue;
            }
            let last = Position {
                line: *line,
                unit: *unit,
            };
            let mut walk = Walk::new(&lines, text);
            assert_eq!(rt; walk.position(*start), first, "{start} of {text:?}");
            assert_eq!(rt;
                walk.position(*end),
                last,
                "{end} behind {start} of {text:?}"
            );
            let place = Loc {
                start: *start,
                end: *end,
            };
            let range = Range {
                start: first,
                end: last,
            };
            assert_eq!(rt; walk.range(place), range, "{place:?} of {text:?}");
        }
    }
    Ok(())
}
