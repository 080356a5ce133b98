//! Policies of a file with the verdicts on them and on their links, as an output shows them.
use crate::call_ids::CallIds;
use crate::links::{Links, judge_link};
use crate::settings::Settings;
use crate::texts::{MAX_FAULTS, PolicyText, PolicyVerdicts, Said};
use cedar_findings::findings::Verdict;
use cedar_findings::outputs::Output;
use cedar_findings::reports::Report;
use cedar_findings::search_room::SearchRoom;
use cedar_findings::sources::Source;
use cedar_types::base::{ArgumentCheck, Template};
use std::alloc::{AllocError, Global};

/// The state that the policy files of a call share.
#[derive(Drop)]
pub struct Shared {
    /// The ids of the policies, if they must be unique in all files.
    pub ids: Option<CallIds>,
    pub links: Links,
}

/// The policies of a file, which are shown one after another.
#[derive(Drop)]
pub struct ShownPolicies<'a> {
    source: Source<'a>,
    said: PolicyVerdicts<'a>,
    report: Report<'a>,
    /// The room of the links for searches of near names.
    room: SearchRoom,
}

impl<'a> ShownPolicies<'a> {
    /// The policies of a file, none shown yet. If the whole text has a fault, the fault is shown, and the answer is `None`.
    pub fn begin<C: ArgumentCheck>(
        alloc: Global,
        settings: &Settings<'_, C>,
        source: Source<'a>,
        shared: &mut Shared,
        output: &mut Output,
    ) -> Result<Option<ShownPolicies<'a>>, AllocError> {
        if let Some(ids) = &mut shared.ids {
            ids.begin_file();
        }
        let text = PolicyText::new(settings.syntax, source.text);
        let said = match text.verdicts(alloc, settings.validator.extensions())? {
            Ok(said) => said,
            Err(fault) => {
                output.add_fault(alloc, source, &fault)?;
                return Ok(None);
            }
        };
        let mut report = Report::new(alloc, output.format, output.columns, source);
        if text.is_json() {
            report.index_places()?;
        }
        Ok(Some(ShownPolicies {
            source,
            said,
            report,
            room: SearchRoom::new(),
        }))
    }

    /// An upper bound on the number of policies that are shown.
    pub fn most(&self) -> usize {
        self.said.most()
    }

    /// Judges and shows the next policy with its links, or shows why it cannot be read. The answer is false if no policy is
    /// left.
    pub fn show_next<C: ArgumentCheck>(
        &mut self,
        alloc: Global,
        settings: &Settings<'_, C>,
        shared: &mut Shared,
        output: &mut Output,
    ) -> Result<bool, AllocError> {
        let Some(said) = self.said.next_said(alloc, settings)? else {
            return Ok(false);
        };
        match said {
            Said::Fault(fault) => {
                output.totals.add_fault();
                let shown = self.report.fault_shown(alloc, &fault)?;
                output.show(alloc, self.source.name, shown.as_str())?;
            }
            Said::Verdict(policy, verdict) => {
                self.show_policy(alloc, &policy, verdict, shared, output)?;
                self.show_links(alloc, settings, &policy, shared, output)?;
            }
        }
        Ok(true)
    }

    /// Judges and shows the policies that link a template, one after another.
    fn show_links<C: ArgumentCheck>(
        &mut self,
        alloc: Global,
        settings: &Settings<'_, C>,
        template: &Template,
        shared: &mut Shared,
        output: &mut Output,
    ) -> Result<(), AllocError> {
        let numbers = shared.links.numbers_of(alloc, template);
        if numbers.is_empty() {
            return Ok(());
        }
        // each link goes back to the place of its template
        self.report.index_places()?;
        for number in numbers {
            if let Some(linked) = shared.links.link(alloc, number, template)? {
                let (text, room) = (self.source.text, &mut self.room);
                let verdict = judge_link(alloc, settings, text, &linked, room)?;
                self.show_policy(alloc, &linked, verdict, shared, output)?;
            }
        }
        Ok(())
    }

    /// Counts and shows a policy.
    fn show_policy(
        &mut self,
        alloc: Global,
        policy: &Template,
        mut verdict: Verdict,
        shared: &mut Shared,
        output: &mut Output,
    ) -> Result<(), AllocError> {
        let name = self.source.name;
        if let Some(ids) = &mut shared.ids {
            ids.take(alloc, name, policy, &mut verdict)?;
        }
        output.totals.add(&verdict);
        if output.is_quiet && verdict.is_accepted && verdict.warnings.is_empty() {
            return Ok(());
        }
        let shown = self.report.policy_shown(alloc, policy, &verdict)?;
        output.show(alloc, name, shown.as_str())
    }

    /// Shows that the rest of the file is not read, if it is not.
    pub fn end(self, alloc: Global, output: &mut Output) -> Result<(), AllocError> {
        output.format = self.report.format();
        if self.said.is_cut() {
            output.add_cut(alloc, self.source.name, MAX_FAULTS)?;
        }
        Ok(())
    }
}
