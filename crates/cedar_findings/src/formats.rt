//! Formats of findings. Each is a file with a `FindingsWriter`, and a line of each list here.
use crate::columns::Columns;
use crate::lines::Lines;
use crate::objects::Objects;
use crate::sarif::Sarif;
use crate::totals::Totals;
use crate::writers::{Entry, FindingsWriter};
use std::alloc::AllocError;

/// A format, with the state of its writer.
#[derive(Clone, Copy)]
pub enum Format {
    /// Lines for people, with the text that is meant.
    Lines(Lines),
    /// Objects of JSON, one a line.
    Objects(Objects),
    /// One object of JSON for all, as SARIF 2.1.0 has it.
    Sarif(Sarif),
}

impl Format {
    /// The format of this name, if there is one, before anything is written.
    pub fn by_name(name: &str) -> Option<Format> {
        match name {
            "lines" => Some(Format::Lines(Lines)),
            "json" => Some(Format::Objects(Objects)),
            "sarif" => Some(Format::Sarif(Sarif::new())),
            _ => None,
        }
    }

    /// This format with columns in a unit: only SARIF says which unit it has.
    pub(crate) fn with_columns(self, columns: Columns) -> Format {
        match self {
            Format::Sarif(_) => Format::Sarif(Sarif::with_columns(columns)),
            other => other,
        }
    }
}

impl FindingsWriter for Format {
    fn begin(&mut self, out: &mut String) -> Result<(), AllocError> {
        match self {
            Format::Lines(writer) => writer.begin(out),
            Format::Objects(writer) => writer.begin(out),
            Format::Sarif(writer) => writer.begin(out),
        }
    }

    fn add(&mut self, out: &mut String, entry: Entry<'_>) -> Result<(), AllocError> {
        match self {
            Format::Lines(writer) => writer.add(out, entry),
            Format::Objects(writer) => writer.add(out, entry),
            Format::Sarif(writer) => writer.add(out, entry),
        }
    }

    fn end(&mut self, out: &mut String, totals: &Totals) -> Result<(), AllocError> {
        match self {
            Format::Lines(writer) => writer.end(out, totals),
            Format::Objects(writer) => writer.end(out, totals),
            Format::Sarif(writer) => writer.end(out, totals),
        }
    }
}
