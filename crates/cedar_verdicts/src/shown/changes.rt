//! Changes for the policies of a file from one schema to another, as an output shows them.
use crate::applied::environment_changes;
use crate::changes::{Compared, Comparisons, compare};
use crate::links::{Links, judge_link};
use crate::settings::Settings;
use crate::texts::{MAX_FAULTS, PolicyText};
use cedar_findings::change_reports::ChangeReport;
use cedar_findings::findings::Verdict;
use cedar_findings::outputs::Output;
use cedar_findings::search_room::SearchRoom;
use cedar_findings::sources::Source;
use cedar_types::base::{ArgumentCheck, Template};
use std::alloc::{AllocError, Global};

/// The settings of both schemas, the older and the newer.
#[derive(Drop)]
pub struct BothSettings<'a, C = Box<dyn ArgumentCheck>> {
    pub old: Settings<'a, C>,
    pub new: Settings<'a, C>,
}

/// The policies of a file, whose changes are shown one after another.
#[derive(Drop)]
pub struct ShownChanges<'a> {
    compared: Comparisons<'a>,
    report: ChangeReport<'a>,
    /// The room of the links for searches of near names.
    room: SearchRoom,
}

impl<'a> ShownChanges<'a> {
    /// The policies of a file, none shown yet. If the whole text has a fault, the fault is shown, and the answer is `None`.
    pub fn begin<C: ArgumentCheck>(
        alloc: Global,
        settings: &BothSettings<'_, C>,
        source: Source<'a>,
        output: &mut Output,
    ) -> Result<Option<ShownChanges<'a>>, AllocError> {
        let text = PolicyText::new(settings.new.syntax, source.text);
        let functions = settings.new.validator.extensions();
        match Comparisons::new(alloc, functions, &text)? {
            Ok(compared) => {
                let report = ChangeReport::new(alloc, output.columns, source)?;
                let room = SearchRoom::new();
                Ok(Some(ShownChanges {
                    compared,
                    report,
                    room,
                }))
            }
            Err(fault) => {
                output.add_fault(alloc, source, &fault)?;
                Ok(None)
            }
        }
    }

    /// An upper bound on the number of policies that are shown.
    pub fn most(&self) -> usize {
        self.compared.most()
    }

    /// Judges the next policy with its links by both settings, and shows its changes, or shows why it cannot be read. The
    /// answer is false if no policy is left.
    pub fn show_next<C: ArgumentCheck>(
        &mut self,
        alloc: Global,
        settings: &BothSettings<'_, C>,
        links: &mut Links,
        output: &mut Output,
    ) -> Result<bool, AllocError> {
        let BothSettings { old, new } = settings;
        let Some(next) = self.compared.next_compared(alloc, old, new)? else {
            return Ok(false);
        };
        match next {
            Compared::Fault(fault) => output.add_fault(alloc, self.report.source(), &fault)?,
            Compared::Verdicts(policy, was, is) => {
                self.show_change(alloc, settings, &policy, (&was, &is), output)?;
                for number in links.numbers_of(alloc, &policy) {
                    if let Some(linked) = links.link(alloc, number, &policy)? {
                        self.show_link(alloc, settings, &linked, output)?;
                    }
                }
            }
        }
        Ok(true)
    }

    /// Judges a policy that links a template by both settings, and shows its changes.
    fn show_link<C: ArgumentCheck>(
        &mut self,
        alloc: Global,
        settings: &BothSettings<'_, C>,
        linked: &Template,
        output: &mut Output,
    ) -> Result<(), AllocError> {
        let text = self.report.source().text;
        let was = judge_link(alloc, &settings.old, text, linked, &mut self.room)?;
        let is = judge_link(alloc, &settings.new, text, linked, &mut self.room)?;
        self.show_change(alloc, settings, linked, (&was, &is), output)
    }

    /// Counts a policy, and shows the changes between these verdicts, if there are any.
    fn show_change<C: ArgumentCheck>(
        &mut self,
        alloc: Global,
        settings: &BothSettings<'_, C>,
        policy: &Template,
        verdicts: (&Verdict, &Verdict),
        output: &mut Output,
    ) -> Result<(), AllocError> {
        let environments = environment_changes(alloc, &settings.old, &settings.new, policy)?;
        let comparison = compare(alloc, verdicts.0, verdicts.1, environments)?;
        output.changes.add(&comparison);
        let format = &mut output.format;
        let shown = self
            .report
            .change_shown(alloc, format, policy, verdicts, &comparison)?;
        output.show(alloc, self.report.source().name, shown.as_str())
    }

    /// Shows that the rest of the file is not read, if it is not.
    pub fn end(self, alloc: Global, output: &mut Output) -> Result<(), AllocError> {
        if self.compared.is_cut() {
            output.add_cut(alloc, self.report.source().name, MAX_FAULTS)?;
        }
        Ok(())
    }
}
