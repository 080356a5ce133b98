// Lines and columns, in any order.
use cedar_findings::columns::Columns;
use cedar_findings::places::{Places, position_behind};
use cedar_reading::Position;
use std::alloc::{AllocError, Global};
use std::test::Fail;

/// The number of lines of the text.
const LINES: usize = 3000;

/// Lines of nine bytes, six units of UTF-16 and five characters.
fn text(alloc: Global) -> Result<String, AllocError> {
    let mut text = String::new(alloc);
    for _ in 0..LINES {
        text.push_str("\u{e4}\u{1d4b3}ab\n")?;
    }
    Ok(text)
}

/// The byte of the `a` in a line, with its position. The first line has the number 0.
fn in_line(number: usize, columns: Columns) -> (usize, Position) {
    let at = number.saturating_mul(9).saturating_add(6);
    let line = number.saturating_add(1);
    let column = match columns {
        Columns::Characters => 3,
        Columns::Utf16 => 4,
        Columns::Bytes => 7,
    };
    (at, Position { line, column })
}

#[test]
fn in_any_order(rt: HostRuntime) -> Result<(), Fail> {
    let text = text(rt.alloc())?;
    for columns in [Columns::Characters, Columns::Utf16, Columns::Bytes] {
        for is_indexed in [false, true] {
            let mut places = Places::new(rt.alloc(), text.as_str(), columns);
            if is_indexed {
                places.index()?;
            }
            for number in [0, 2999, 3, 456, 455, 454, 910, 911, 2, 0, 1800] {
                let (at, wanted) = in_line(number, columns);
                assert_eq!(rt; places.position(at), wanted, "{number}");
                let (behind, next) = in_line(number.saturating_add(1).min(2999), columns);
                let passed = text.as_str().get(at..behind).unwrap_or("");
                assert_eq!(rt; position_behind(wanted, passed, columns), next, "{number}");
            }
        }
    }
    Ok(())
}
