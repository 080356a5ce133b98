// Characters that show nothing, or change the order in which others are shown.
use cedar_findings::escapes::{Shown, ShownId, is_hidden};
use cedar_findings::json::JsonWriter;
use std::test::Fail;

/// The first and the last of each run of characters that Unicode's tables list as not shown by default, except for unassigned
/// ones; and some more that show nothing.
const HIDDEN: [(u32, u32); 24] = [
    (0x0, 0x1f),
    (0x7f, 0x9f),
    (0xad, 0xad),
    (0x34f, 0x34f),
    (0x61c, 0x61c),
    (0x115f, 0x1160),
    (0x17b4, 0x17b5),
    (0x180b, 0x180f),
    (0x200b, 0x200f),
    (0x2028, 0x202e),
    (0x2060, 0x2064),
    (0x2066, 0x206f),
    (0x2800, 0x2800),
    (0x3164, 0x3164),
    (0xfe00, 0xfe0f),
    (0xfeff, 0xfeff),
    (0xffa0, 0xffa0),
    (0xfff9, 0xfffb),
    (0x1bca0, 0x1bca3),
    (0x1d159, 0x1d159),
    (0x1d173, 0x1d17a),
    (0xe0001, 0xe0001),
    (0xe0020, 0xe007f),
    (0xe0100, 0xe01ef),
];

#[test]
fn what_is_hidden(rt: HostRuntime) -> Result<(), Fail> {
    for (first, last) in &HIDDEN {
        for number in *first..=*last {
            let is_hidden = char::from_u32(number).is_some_and(is_hidden);
            assert!(rt; is_hidden, "{number:x}");
        }
    }
    for c in "aZ09_é ü漢字가ﾡ⠁\"'`\\".chars() {
        assert!(rt; !is_hidden(c), "{c}");
    }
    Ok(())
}

#[test]
fn how_it_is_shown(rt: HostRuntime) -> Result<(), Fail> {
    let text = "a\u{3164}\u{202e}`\"'\\\u{1d159}";
    let alloc = rt.alloc();
    let shown = format!(in alloc; "{}", Shown(text))?;
    assert_eq!(rt; shown.as_str(), "a\\u{3164}\\u{202e}`\"'\\\\u{1d159}");
    let shown = format!(in alloc; "{}", ShownId(text))?;
    assert_eq!(rt;
        shown.as_str(),
        "a\\u{3164}\\u{202e}\\u{60}\\\"'\\\\\\u{1d159}"
    );
    let mut shown = String::new(alloc);
    JsonWriter::new().text(&mut shown, text)?;
    assert_eq!(rt;
        shown.as_str(),
        "\"a\\u3164\\u202e`\\\"'\\\\\\ud834\\udd59\""
    );
    Ok(())
}
