//! Writers of findings: a format writes its beginning, each entry, and its end.
use crate::columns::Columns;
use crate::data_findings::DataFinding;
use crate::escapes::ShownFile;
use crate::findings::{Finding, Severity, Verdict};
use crate::places::position_behind;
use crate::sources::Source;
use crate::totals::Totals;
use cedar_reading::Position;
use cedar_types::base::Loc;
use std::alloc::AllocError;
use std::fmt;

/// A place of a file. It is shown as `FILE:LINE:COLUMN`, by its beginning.
#[derive(Clone, Copy)]
pub struct Place<'a> {
    pub source: Source<'a>,
    pub loc: Loc,
    /// The position of its beginning.
    pub at: Position,
    /// The unit of its columns.
    pub columns: Columns,
}

impl Place<'_> {
    /// The position right behind the place, which takes a reading of the text that it covers.
    pub fn end(&self) -> Position {
        let Loc { start, end } = self.loc;
        let covered = self.source.text.get(start..end).unwrap_or("");
        position_behind(self.at, covered, self.columns)
    }
}

impl fmt::Display for Place<'_> {
    fn fmt<W: fmt::Write>(&self, f: &mut fmt::Formatter<W>) -> fmt::Result {
        let file = ShownFile(self.source.name);
        let Position { line, column } = self.at;
        write!(f, "{file}:{line}:{column}")
    }
}

/// An entry of the output.
#[derive(Clone, Copy)]
pub enum Entry<'a> {
    /// A policy of this id, with its verdict. Its findings come next.
    Policy(Place<'a>, &'a str, &'a Verdict),
    /// A finding in the policy of this id.
    Finding(Place<'a>, &'a str, Severity, &'a Finding),
    /// The number of findings in the policy of this id that are not shown.
    Rest(Place<'a>, &'a str, usize),
    /// A mistake in data.
    Data(Place<'a>, &'a DataFinding),
    /// A fault of a text, in words.
    Fault(Place<'a>, &'a str),
    /// A file that cannot be read, and the reason.
    Missing(&'a str, &'a str),
}

/// A writer of findings in a format. You must begin it once, and end it once behind all entries.
pub trait FindingsWriter {
    /// Adds the beginning of the output: nothing, if a format has none.
    fn begin(&mut self, _: &mut String) -> Result<(), AllocError> {
        Ok(())
    }

    /// Adds an entry.
    fn add(&mut self, out: &mut String, entry: Entry<'_>) -> Result<(), AllocError>;

    /// Adds the end of the output, with the counts of all.
    fn end(&mut self, out: &mut String, totals: &Totals) -> Result<(), AllocError>;
}
