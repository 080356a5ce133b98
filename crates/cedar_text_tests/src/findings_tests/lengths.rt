// Long names in messages, of which only the beginning is shown.
use cedar_findings::lengths::{cut_name, shortened};
use std::alloc::Global;
use std::test::Fail;

/// A part of a message: a text, so many times.
type Part = (&'static str, usize);

/// Messages, and what is shown of them. An ellipsis stands for the rest of a name.
const MESSAGES: [(&[Part], &[Part]); 8] = [
    (
        &[("`", 1), ("a", 200), ("`", 1)],
        &[("`", 1), ("a", 200), ("`", 1)],
    ),
    (
        &[("`", 1), ("a", 201), ("` is unknown", 1)],
        &[("`", 1), ("a", 200), ("\u{2026}` is unknown", 1)],
    ),
    // a name of several words, and one of letters of several bytes
    (
        &[("no `", 1), ("a b ", 100), ("` here", 1)],
        &[("no `", 1), ("a b ", 50), ("\u{2026}` here", 1)],
    ),
    (
        &[("`", 1), ("\u{e4}", 300), ("`", 1)],
        &[("`", 1), ("\u{e4}", 200), ("\u{2026}`", 1)],
    ),
    // words outside of backquotes
    (&[("word ", 100)], &[("word ", 100)]),
    (
        &[("User::", 1), ("a", 300), (": unknown", 1)],
        &[("User::", 1), ("a", 194), ("\u{2026} unknown", 1)],
    ),
    (
        &[("`a` `", 1), ("b", 300), ("`", 1)],
        &[("`a` `", 1), ("b", 200), ("\u{2026}`", 1)],
    ),
    // many short names
    (&[("`a` ", 2000)], &[("`a` ", 1000), ("`\u{2026}", 1)]),
];

#[test]
fn long_messages(rt: HostRuntime) -> Result<(), Fail> {
    let alloc = rt.alloc();
    for (message, wanted) in &MESSAGES {
        let message = repeated(alloc, message)?;
        let wanted = repeated(alloc, wanted)?;
        let shown = shortened(alloc, message)?;
        assert_eq!(rt; shown.as_str(), wanted.as_str());
    }
    Ok(())
}

#[test]
fn long_names(rt: HostRuntime) -> Result<(), Fail> {
    let alloc = rt.alloc();
    for (size, kept, mark) in &[(200, 200, ""), (201, 200, "\u{2026}"), (0, 0, "")] {
        let name = repeated(alloc, &[("\u{e4}", *size)])?;
        let wanted = repeated(alloc, &[("\u{e4}", *kept), (*mark, 1)])?;
        let shown = cut_name(alloc, name)?;
        assert_eq!(rt; shown.as_str(), wanted.as_str());
    }
    Ok(())
}

/// The text of these parts.
fn repeated(alloc: Global, parts: &[(&str, usize)]) -> Result<String, Fail> {
    let mut text = String::new(alloc);
    for (part, count) in parts {
        for _ in 0..*count {
            text.push_str(part)?;
        }
    }
    Ok(text)
}
