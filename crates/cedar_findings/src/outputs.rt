//! Output of a call in the format that the caller asks for, until it is written, with the counts so far. Once memory is
//! refused, nothing more is shown.
ghost use Rattle.std.specs.Prelude.{◌≡◌, length, IfOk};
ghost use Rattle.cedar_findings.specs.Counts.{text_in, CountsFaults, CountsSame};

use crate::changes::{ChangeTally, push_tally};
use crate::colours::{Colours, painted};
use crate::columns::Columns;
use crate::faults::TextFault;
use crate::formats::Format;
use crate::lines::Lines;
use crate::reports::{Report, render_fault, render_missing};
use crate::sources::{Content, Source};
use crate::totals::Totals;
use crate::writers::FindingsWriter;
use std::alloc::{AllocError, Global};
use std::io;

/// The text to write, and the counts.
#[derive(Drop)]
pub struct Output {
    pub format: Format,
    /// The unit of the columns of places.
    pub columns: Columns,
    /// Whether the output leaves out accepted policies without a finding, and the counts.
    pub is_quiet: bool,
    pub totals: Totals,
    pub changes: ChangeTally,
    colours: Colours,
    shown: String,
}

impl Output {
    /// An empty output, in lines for people until another format is asked for.
    pub fn new(alloc: Global, colours: Colours) -> Output {
        Output {
            format: Format::Lines(Lines),
            columns: Columns::Characters,
            is_quiet: false,
            totals: Totals::default(),
            changes: ChangeTally::default(),
            colours,
            shown: String::new(alloc),
        }
    }

    /// The text that is shown and not yet cleared.
    pub fn shown(&self) -> &str {
        self.shown.as_str()
    }

    /// Clears the text, because it was written.
    pub fn clear(&mut self)
        ensures { CountsSame self.old self.new }
    {
        self.shown.clear();
    }

    /// Shows the beginning of the output, in a format and with columns in a unit. SARIF says the unit, so it must be one that
    /// SARIF has a word for.
    pub fn begin(
        &mut self,
        alloc: Global,
        format: Format,
        columns: Columns,
    ) -> Result<(), AllocError>
        ensures { CountsSame self.old self.new }
    {
        self.format = format.with_columns(columns);
        self.columns = columns;
        let mut shown = String::new(alloc);
        self.format.begin(&mut shown)?;
        self.shown.push_str(shown.as_str())
    }

    /// Shows the findings in the file of this name.
    pub fn show(&mut self, alloc: Global, name: &str, found: &str) -> Result<(), AllocError>
        ensures { CountsSame self.old self.new }
    {
        match (self.colours, self.format) {
            (Colours::Terminal, Format::Lines(_)) => {
                let painted = painted(alloc, name, found)?;
                self.shown.push_str(painted.as_str())
            }
            _ => self.shown.push_str(found),
        }
    }

    /// Shows a fault of a file.
    pub fn show_fault(
        &mut self,
        alloc: Global,
        source: Source<'_>,
        fault: &TextFault,
    ) -> Result<(), AllocError>
        ensures { CountsSame self.old self.new }
    {
        let columns = self.columns;
        let found = render_fault(alloc, &mut self.format, columns, source, fault)?;
        self.show(alloc, source.name, found.as_str())
    }

    /// Shows a fault of a file, and counts it.
    pub fn add_fault(
        &mut self,
        alloc: Global,
        source: Source<'_>,
        fault: &TextFault,
    ) -> Result<(), AllocError>
        ensures { CountsFaults 1 self.old self.new }
    {
        self.totals.add_fault();
        self.show_fault(alloc, source, fault)
    }

    /// Shows that a file, or the rest of it, cannot be read.
    pub fn show_missing(&mut self, alloc: Global, name: &str, why: &str) -> Result<(), AllocError>
        ensures { CountsSame self.old self.new }
    {
        let found = render_missing(alloc, &mut self.format, name, why)?;
        self.show(alloc, name, found.as_str())
    }

    /// The text of a file, as it was read. If it cannot be read, the reason is shown, and the answer is `None`; you must count
    /// the fault.
    pub fn text_of(
        &mut self,
        alloc: Global,
        name: &str,
        read: io::Result<Content>,
    ) -> Result<Option<String>, AllocError>
        ensures exact { IfOk result (λ text. text ≡ text_in read) }
        ensures kept { CountsSame self.old self.new }
    {
        match read {
            Ok(Content::Text(text)) => return Ok(Some(text)),
            Ok(Content::Broken(front, fault)) => {
                let text = front.as_str();
                self.show_fault(alloc, Source { name, text }, &fault)?;
            }
            Err(error) => {
                let why = format!(in alloc; "cannot be read: {error}")?;
                self.show_missing(alloc, name, why.as_str())?;
            }
        }
        Ok(None)
    }

    /// Shows faults of a file, and counts them. They are found fast if they stand in the order of their places.
    pub fn add_faults(
        &mut self,
        alloc: Global,
        source: Source<'_>,
        faults: &[TextFault],
    ) -> Result<(), AllocError>
        ensures { CountsFaults (length faults.now) self.old self.new }
    {
        self.totals.add_faults(faults.len() as u64);
        let mut report = Report::new(alloc, self.format, self.columns, source);
        for fault in faults {
            let found = report.fault_shown(alloc, fault)?;
            self.show(alloc, source.name, found.as_str())?;
        }
        self.format = report.format();
        Ok(())
    }

    /// Shows the number of further faults of a file, and counts them.
    pub fn add_others(&mut self, alloc: Global, name: &str, faults: u64) -> Result<(), AllocError>
        ensures { CountsFaults faults self.old self.new }
    {
        self.totals.add_faults(faults);
        let why = format!(in alloc; "{faults} more faults")?;
        self.show_missing(alloc, name, why.as_str())
    }

    /// Shows and counts that the rest of a file is not read, because the file has this many faults.
    pub fn add_cut(&mut self, alloc: Global, name: &str, faults: u64) -> Result<(), AllocError>
        ensures { CountsFaults 1 self.old self.new }
    {
        self.totals.add_fault();
        let why = format!(in alloc; "{faults} faults, so the rest of the file is not read")?;
        self.show_missing(alloc, name, why.as_str())
    }

    /// Shows the end of the output: a quiet output leaves it out, unless the format is one object for all.
    pub fn end(&mut self, alloc: Global) -> Result<(), AllocError>
        ensures { CountsSame self.old self.new }
    {
        if self.is_quiet && !matches!(self.format, Format::Sarif(_)) {
            return Ok(());
        }
        let mut shown = String::new(alloc);
        self.format.end(&mut shown, &self.totals)?;
        self.shown.push_str(shown.as_str())
    }

    /// Shows the end of a comparison's output.
    pub fn end_changes(&mut self, alloc: Global) -> Result<(), AllocError>
        ensures { CountsSame self.old self.new }
    {
        if matches!(self.format, Format::Sarif(_)) || self.totals.lacks_schema {
            return self.end(alloc);
        }
        if self.is_quiet {
            return Ok(());
        }
        let mut shown = String::new(alloc);
        push_tally(&mut shown, self.format, self.changes, self.totals.faults)?;
        self.shown.push_str(shown.as_str())
    }
}
