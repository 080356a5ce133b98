//! Usage and help of `cedar-validate`. Both are made of the table of words.
use crate::options::{Asks, Values, WORDS, Word};
use crate::texts::{push_all, push_joined};
use std::alloc::{AllocError, Global};

/// The width of the lines of the usage.
const WIDTH: usize = 96;

/// The words behind the options.
const FILES: &str = "[--] SCHEMA POLICY..";

/// The purpose of the program.
pub const PURPOSE: &str = "\
Validates the policies of some files by a schema, and says what is wrong and where.
With --entities or --request it checks data by the schema too, or alone.
";

/// The words that are no options.
const OTHERS: &str = "  --
        each word behind it is a file, whatever it begins with
  -
        in place of a file: standard input
";

/// Examples of calls.
pub const EXAMPLES: [&str; 4] = [
    "cedar-validate --level 1 photos.cedarschema share.cedar",
    "cedar-validate --schema photos.cedarschema --policies share.cedar --template-linked links.json",
    "cedar-validate --since old.cedarschema photos.cedarschema share.cedar",
    "cedar-validate --entities entities.json --request request.json photos.cedarschema",
];

/// The exit statuses: the program's own, the one of `cedar validate`, which --cedar-status gives, and the outcome.
pub const STATUSES: [(&str, &str, &str); 4] = [
    (
        "0",
        "0",
        "all policies are accepted, and all data is as the schema says",
    ),
    (
        "1",
        "3",
        "some are not, or have a warning and --deny-warnings is given",
    ),
    ("2", "1", "a file cannot be read or understood"),
    (
        "2",
        "2",
        "the words are wrong, or memory or the output fails",
    ),
];

/// The usage of the program: each word of the table.
pub fn usage(alloc: Global) -> Result<String, AllocError> {
    let mut shown = String::from_str(alloc, "usage: cedar-validate")?;
    push_usage(alloc, &mut shown)?;
    Ok(shown)
}

fn push_usage(alloc: Global, shown: &mut String) -> Result<(), AllocError> {
    let mut column = shown.len();
    for word in &WORDS {
        push_bracketed(alloc, shown, &mut column, word)?;
    }
    push_wrapped(shown, &mut column, FILES)?;
    shown.push_str("\n")
}

/// Adds a word of the table in brackets.
fn push_bracketed(
    alloc: Global,
    shown: &mut String,
    column: &mut usize,
    word: &Word,
) -> Result<(), AllocError> {
    let mut part = String::from_str(alloc, "[")?;
    push_word(&mut part, word, "|")?;
    part.push_str("]")?;
    push_wrapped(shown, column, part.as_str())
}

/// The help of the program: its purpose, each option, and each exit status.
pub fn help(alloc: Global) -> Result<String, AllocError> {
    let mut shown = usage(alloc)?;
    push_help(&mut shown)?;
    Ok(shown)
}

fn push_help(shown: &mut String) -> Result<(), AllocError> {
    push_all(shown, &[PURPOSE, "\n"])?;
    for word in &WORDS {
        push_about(shown, word)?;
    }
    shown.push_str(OTHERS)?;
    for example in &EXAMPLES {
        push_all(shown, &["\n  ", *example, "\n"])?;
    }
    shown.push_str("\nThe exit status, and in brackets the one with --cedar-status:\n")?;
    for (own, cedar, when) in &STATUSES {
        push_all(shown, &["  ", *own, " (", *cedar, ")  ", *when, "\n"])?;
    }
    Ok(())
}

fn push_about(shown: &mut String, word: &Word) -> Result<(), AllocError> {
    shown.push_str("  ")?;
    push_word(shown, word, ", ")?;
    push_all(shown, &["\n        ", word.about, "\n"])
}

/// Adds a part behind a blank, or on a new line if this one has no room.
fn push_wrapped(shown: &mut String, column: &mut usize, part: &str) -> Result<(), AllocError> {
    let end = column.saturating_add(part.len()).saturating_add(1);
    let before = if end > WIDTH {
        *column = part.len().saturating_add(4);
        "\n    "
    } else {
        *column = end;
        " "
    };
    push_all(shown, &[before, part])
}

/// Adds the names of a word, and the values that it takes behind a blank, if it takes some.
pub(crate) fn push_word(shown: &mut String, word: &Word, between: &str) -> Result<(), AllocError> {
    push_joined(shown, word.names, between)?;
    match word.asks {
        Asks::Flag(_) => Ok(()),
        Asks::Value(_, values) => push_values(shown, values),
    }
}

fn push_values(shown: &mut String, values: Values) -> Result<(), AllocError> {
    match values {
        Values::File => shown.push_str(" FILE"),
        Values::Number => shown.push_str(" N"),
        Values::OneOf(texts) => {
            shown.push_str(" ")?;
            push_joined(shown, texts, "|")
        }
    }
}
