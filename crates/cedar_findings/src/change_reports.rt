//! Changes for the policies of a file, in the format that the caller asks for.
use crate::changes::{Comparison, Whose, push_change, push_gone};
use crate::columns::Columns;
use crate::findings::{Finding, Verdict};
use crate::formats::Format;
use crate::places::Places;
use crate::sources::Source;
use crate::writers::{Entry, FindingsWriter, Place};
use cedar_types::base::{Loc, Template};
use std::alloc::{AllocError, Global};

/// A report of changes for the policies of a file.
#[derive(Drop)]
pub struct ChangeReport<'a> {
    columns: Columns,
    source: Source<'a>,
    places: Places<'a>,
}

impl<'a> ChangeReport<'a> {
    /// A report on this file, with columns in this unit. Its places have an index, because findings that came and findings that
    /// went are not in one order.
    pub fn new(
        alloc: Global,
        columns: Columns,
        source: Source<'a>,
    ) -> Result<ChangeReport<'a>, AllocError> {
        let mut places = Places::new(alloc, source.text, columns);
        places.index()?;
        Ok(ChangeReport {
            columns,
            source,
            places,
        })
    }

    /// The file of the report.
    pub fn source(&self) -> Source<'a> {
        self.source
    }

    /// The text that shows a change: the changes for the policy, the findings that came, and those that went. It is empty if
    /// nothing changed.
    pub fn change_shown(
        &mut self,
        alloc: Global,
        format: &mut Format,
        policy: &Template,
        (old, new): (&Verdict, &Verdict),
        comparison: &Comparison<'_, '_>,
    ) -> Result<String, AllocError> {
        let mut shown = String::new(alloc);
        if comparison.is_empty() {
            return Ok(shown);
        }
        let id = policy.id.text.as_str();
        let place = self.place(policy.loc.unwrap_or(Loc { start: 0, end: 0 }));
        push_change(
            &mut shown,
            format,
            Whose { place, id },
            old,
            new,
            comparison,
        )?;
        for (severity, finding) in &comparison.came {
            let entry = Entry::Finding(self.place_of(finding), id, *severity, finding);
            format.add(&mut shown, entry)?;
        }
        for found in &comparison.went {
            let place = self.place_of(found.1);
            push_gone(&mut shown, *format, place, id, *found)?;
        }
        Ok(shown)
    }

    fn place_of(&mut self, finding: &Finding) -> Place<'a> {
        let (start, end) = (finding.start, finding.end);
        self.place(Loc { start, end })
    }

    fn place(&mut self, loc: Loc) -> Place<'a> {
        let at = self.places.position(loc.start);
        let (source, columns) = (self.source, self.columns);
        Place {
            source,
            loc,
            at,
            columns,
        }
    }
}
