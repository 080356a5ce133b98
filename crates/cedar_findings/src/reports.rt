//! Findings in a file, in the format that the caller asks for.
use crate::codes::Code;
use crate::columns::Columns;
use crate::data_findings::DataVerdict;
use crate::faults::TextFault;
use crate::findings::{Finding, Severity, Verdict};
use crate::formats::Format;
use crate::lengths::shortened;
use crate::places::Places;
use crate::sources::Source;
use crate::writers::{Entry, FindingsWriter, Place};
use cedar_types::base::{Loc, Template};
use std::alloc::{AllocError, Global};

/// The initial room of a line, in bytes.
const LINE: usize = 128;

/// A report of the findings in a file.
#[derive(Drop)]
pub struct Report<'a> {
    format: Format,
    columns: Columns,
    source: Source<'a>,
    places: Places<'a>,
}

impl<'a> Report<'a> {
    /// A report on this file, in this format and with columns in this unit.
    pub fn new(alloc: Global, format: Format, columns: Columns, source: Source<'a>) -> Report<'a> {
        Report {
            format,
            columns,
            source,
            places: Places::new(alloc, source.text, columns),
        }
    }

    /// Prepares for findings that are not in the order of the text, for example those of links.
    pub fn index_places(&mut self) -> Result<(), AllocError> {
        self.places.index()
    }

    /// The format, with the state of its writer.
    pub fn format(&self) -> Format {
        self.format
    }

    fn place(&mut self, loc: Loc) -> Place<'a> {
        Place {
            source: self.source,
            loc,
            at: self.places.position(loc.start),
            columns: self.columns,
        }
    }

    /// The text that shows a policy and its findings: the first ones in the order of their places, and the number of the
    /// others.
    pub fn policy_shown(
        &mut self,
        alloc: Global,
        policy: &Template,
        verdict: &Verdict,
    ) -> Result<String, AllocError> {
        let mut shown = String::with_capacity(alloc, LINE)?;
        let out = &mut shown;
        let place = self.place(loc_of(policy));
        let id = policy.id.text.as_str();
        self.format.add(out, Entry::Policy(place, id, verdict))?;
        for (severity, finding) in in_order(alloc, verdict)? {
            let found_at = self.place(Loc {
                start: finding.start,
                end: finding.end,
            });
            self.format
                .add(out, Entry::Finding(found_at, id, severity, finding))?;
        }
        if verdict.others > 0 {
            self.format
                .add(out, Entry::Rest(place, id, verdict.others))?;
        }
        Ok(shown)
    }

    /// The text that shows the mistakes in data. A text that is no data is shown as a fault.
    pub fn data_shown(
        &mut self,
        alloc: Global,
        verdict: &DataVerdict,
    ) -> Result<String, AllocError> {
        let mut shown = String::new(alloc);
        for finding in &verdict.findings {
            let place = self.place(finding.place);
            let entry = match finding.code {
                Code::Fault => Entry::Fault(place, finding.text.as_str()),
                _ => Entry::Data(place, finding),
            };
            self.format.add(&mut shown, entry)?;
        }
        Ok(shown)
    }

    /// The text that shows a fault.
    pub fn fault_shown(&mut self, alloc: Global, fault: &TextFault) -> Result<String, AllocError> {
        let mut shown = String::new(alloc);
        let place = self.place(fault.place);
        let text = shortened(alloc, fault.text.clone()?)?;
        self.format
            .add(&mut shown, Entry::Fault(place, text.as_str()))?;
        Ok(shown)
    }

    /// The text that shows that the file, or the rest of it, cannot be read.
    pub fn missing_shown(&mut self, alloc: Global, why: &str) -> Result<String, AllocError> {
        render_missing(alloc, &mut self.format, self.source.name, why)
    }
}

/// The errors and warnings of a policy in the order of their places, errors first if one place has both.
fn in_order(alloc: Global, verdict: &Verdict) -> Result<Vec<(Severity, &Finding)>, AllocError> {
    let mut all = Vec::new(alloc);
    for finding in &verdict.errors {
        all.push((Severity::Error, finding))?;
    }
    for finding in &verdict.warnings {
        all.push((Severity::Warning, finding))?;
    }
    all.sort_by_key(|it| (it.1.start, it.1.end))?;
    Ok(all)
}

/// The place of a policy.
fn loc_of(policy: &Template) -> Loc {
    policy.loc.unwrap_or(Loc { start: 0, end: 0 })
}

/// The text that shows a fault of a file.
pub fn render_fault(
    alloc: Global,
    format: &mut Format,
    columns: Columns,
    source: Source<'_>,
    fault: &TextFault,
) -> Result<String, AllocError> {
    let mut report = Report::new(alloc, *format, columns, source);
    let shown = report.fault_shown(alloc, fault)?;
    *format = report.format();
    Ok(shown)
}

/// The text that shows that a file cannot be read.
pub fn render_missing(
    alloc: Global,
    format: &mut Format,
    file: &str,
    why: &str,
) -> Result<String, AllocError> {
    let mut shown = String::new(alloc);
    format.add(&mut shown, Entry::Missing(file, why))?;
    Ok(shown)
}
