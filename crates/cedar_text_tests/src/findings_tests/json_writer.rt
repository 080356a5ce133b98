// JSON of the writer, by the grammar of RFC 8259.
use cedar_findings::json::JsonWriter;
use std::alloc::{AllocError, Global};
use std::test::Fail;

#[test]
fn objects_in_lists_in_objects(rt: HostRuntime) -> Result<(), Fail> {
    let mut out = String::new(rt.alloc());
    write_nested(&mut out)?;
    let wanted = r#"{"a":[],"b":[{},{"c":true,"d":null},[false,"e"],7],"f":{"g":"h"},"i":8}"#;
    assert_eq!(rt; out.as_str(), wanted);
    Ok(())
}

fn write_nested(out: &mut String) -> Result<(), AllocError> {
    let mut json = JsonWriter::new();
    json.begin_object(out)?;
    json.key(out, "a")?;
    json.begin_list(out)?;
    json.end_list(out)?;
    json.key(out, "b")?;
    json.begin_list(out)?;
    json.begin_object(out)?;
    json.end_object(out)?;
    json.begin_object(out)?;
    json.key(out, "c")?;
    json.boolean(out, true)?;
    json.key(out, "d")?;
    json.null(out)?;
    json.end_object(out)?;
    json.begin_list(out)?;
    json.boolean(out, false)?;
    json.text(out, "e")?;
    json.end_list(out)?;
    json.number(out, 7)?;
    json.end_list(out)?;
    json.key(out, "f")?;
    json.begin_object(out)?;
    json.text_at(out, "g", "h")?;
    json.end_object(out)?;
    json.number_at(out, "i", 8)?;
    json.end_object(out)
}

#[test]
fn lines_between_values(rt: HostRuntime) -> Result<(), Fail> {
    let mut out = String::new(rt.alloc());
    let mut json = JsonWriter::new();
    json.begin_list(&mut out)?;
    json.begin_line(&mut out)?;
    json.number(&mut out, 1)?;
    json.begin_line(&mut out)?;
    json.number(&mut out, 2)?;
    json.end_line(&mut out)?;
    json.end_list(&mut out)?;
    assert_eq!(rt; out.as_str(), "[\n1,\n2\n]");
    Ok(())
}

/// Texts, and each between its quotes: `"`, `\` and control characters must be escaped there, and no escape is longer than one
/// unit of UTF-16.
const TEXTS: [(&str, &str); 8] = [
    ("", r#""""#),
    (" az09~!#[]{}:,/'`", r#"" az09~!#[]{}:,/'`""#),
    ("a\"b", r#""a\"b""#),
    ("\\", r#""\\""#),
    (
        "\u{0}\n\t\r\u{1f}\u{7f}",
        r#""\u0000\u000a\u0009\u000d\u001f\u007f""#,
    ),
    ("é漢😀", "\"é漢😀\""),
    ("\u{202e}é\u{2028}", "\"\\u202eé\\u2028\""),
    ("\u{e0001}", r#""\udb40\udc01""#),
];

#[test]
fn texts_between_quotes(rt: HostRuntime) -> Result<(), Fail> {
    for (text, wanted) in &TEXTS {
        let mut out = String::new(rt.alloc());
        JsonWriter::new().text(&mut out, text)?;
        assert_eq!(rt; out.as_str(), *wanted, "{text}");
        let parts = text_in_parts(rt.alloc(), text)?;
        assert_eq!(rt; parts.as_str(), *wanted, "{text}");
    }
    Ok(())
}

/// A text, written a character at a time.
fn text_in_parts(alloc: Global, text: &str) -> Result<String, AllocError> {
    let mut out = String::new(alloc);
    let mut json = JsonWriter::new();
    json.begin_text(&mut out)?;
    for c in text.chars() {
        json.char_part(&mut out, c)?;
    }
    json.end_text(&mut out)?;
    Ok(out)
}

#[test]
fn numbers_in_digits(rt: HostRuntime) -> Result<(), Fail> {
    for (number, wanted) in [
        (0, "0"),
        (9, "9"),
        (10, "10"),
        (1009, "1009"),
        (9999999999999999999, "9999999999999999999"),
        (10000000000000000000, "10000000000000000000"),
        (u64::MAX, "18446744073709551615"),
    ] {
        let mut out = String::new(rt.alloc());
        JsonWriter::new().number(&mut out, number)?;
        assert_eq!(rt; out.as_str(), wanted);
    }
    Ok(())
}
