//! The program's page for `man`. It is made of the table of words.
use crate::help::{EXAMPLES, PURPOSE, STATUSES, push_word};
use crate::options::{WORDS, Word};
use std::alloc::{AllocError, Global};
use std::fmt;

const BEGINNING: &str = ".TH CEDAR\\-VALIDATE 1
.SH NAME
cedar\\-validate \\- validates policies of Cedar by a schema
.SH SYNOPSIS
.B cedar\\-validate
[OPTION].. [\\-\\-] SCHEMA POLICY..
.SH DESCRIPTION
";

/// The words that are no options.
const OTHERS: &str = ".TP
.B \\-\\-
each word behind it is a file, whatever it begins with
.TP
.B \\-
in place of a file: standard input
";

/// The page.
pub fn man_page(alloc: Global) -> Result<String, AllocError> {
    let mut shown = String::from_str(alloc, BEGINNING)?;
    push_parts(alloc, &mut shown)?;
    Ok(shown)
}

fn push_parts(alloc: Global, shown: &mut String) -> Result<(), AllocError> {
    push_purpose(shown)?;
    push_options(alloc, shown)?;
    push_statuses(shown)?;
    push_examples(shown)
}

fn push_purpose(shown: &mut String) -> Result<(), AllocError> {
    let purpose = Roff(PURPOSE);
    write!(shown, "{purpose}.SH OPTIONS\n")
}

fn push_options(alloc: Global, shown: &mut String) -> Result<(), AllocError> {
    for word in &WORDS {
        push_option(alloc, shown, word)?;
    }
    shown.push_str(OTHERS)
}

fn push_option(alloc: Global, shown: &mut String, word: &Word) -> Result<(), AllocError> {
    let mut names = String::new(alloc);
    push_word(&mut names, word, ", ")?;
    let names = Roff(names.as_str());
    let about = Roff(word.about);
    write!(shown, ".TP\n.B {names}\n{about}\n")
}

fn push_examples(shown: &mut String) -> Result<(), AllocError> {
    shown.push_str(".SH EXAMPLES\n")?;
    for example in &EXAMPLES {
        let example = Roff(example);
        write!(shown, ".PP\n{example}\n")?;
    }
    Ok(())
}

fn push_statuses(shown: &mut String) -> Result<(), AllocError> {
    shown.push_str(".SH EXIT STATUS\n")?;
    for (own, cedar, when) in &STATUSES {
        let when = Roff(when);
        write!(
            shown,
            ".TP\n.B {own}\n{when}; {cedar} with \\-\\-cedar\\-status\n"
        )?;
    }
    Ok(())
}

/// A text of the page, in which no character is a command.
#[derive(Drop)]
struct Roff<'a>(&'a str);

impl fmt::Display for Roff<'_> {
    fn fmt<W: fmt::Write>(&self, f: &mut fmt::Formatter<W>) -> fmt::Result {
        for c in self.0.chars() {
            let written = match c {
                '-' => f.write_str("\\-"),
                '\\' => f.write_str("\\e"),
                _ => f.write_char(c),
            };
            written?;
        }
        Ok(())
    }
}
