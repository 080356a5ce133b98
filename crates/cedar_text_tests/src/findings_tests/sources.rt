// Bytes of files, and their texts.
use cedar_findings::sources::{Content, content_of};
use cedar_reading::Position;
use std::alloc::{AllocError, Global};
use std::test::Fail;

/// Bytes, and their text or the place at which they are none.
const FILES: [(&[u8], &str); 8] = [
    (b"a\nb", "text a\nb"),
    (b"", "text "),
    (b"\xef\xbb\xbfa", "text a"),
    (b"a\xef\xbb\xbfb", "text a\u{feff}b"),
    (
        b"a\nb\xff",
        "2:2: the byte 0xff is no text in UTF-8, as a file has to be",
    ),
    (
        b"\xef\xbb\xbf\xc3\xa4\xc3(",
        "1:2: the byte 0xc3 is no text in UTF-8, as a file has to be",
    ),
    (
        b"a\xe2\x82",
        "1:2: the byte 0xe2 is no text in UTF-8, as a file has to be",
    ),
    (
        b"\xff\xfep\0",
        "1:1: the byte 0xff is no text in UTF-8, as a file has to be; it seems to be UTF-16",
    ),
];

#[test]
fn files(rt: HostRuntime) -> Result<(), Fail> {
    for (bytes, wanted) in &FILES {
        let got = describe(rt.alloc(), bytes)?;
        assert_eq!(rt; got.as_str(), *wanted);
    }
    Ok(())
}

/// The text of these bytes, or the place and the reason of their fault.
fn describe(alloc: Global, bytes: &[u8]) -> Result<String, AllocError> {
    match content_of(alloc, bytes)? {
        Content::Text(text) => format!(in alloc; "text {text}"),
        Content::Broken(front, fault) => {
            let Position { line, column } = Position::in_text(front.as_str(), fault.place.start);
            format!(in alloc; "{line}:{column}: {fault}")
        }
    }
}
