// Lines of verdicts on texts: each has a place, and the last one has the counts.
use cedar_findings::codes::Code;
use cedar_findings::data_findings::DataVerdict;
use cedar_findings::escapes::{Shown, ShownId};
use cedar_findings::faults::TextFault;
use cedar_findings::findings::{Finding, Requirement, Severity, Verdict};
use cedar_findings::sources::Source;
use cedar_findings::totals::Totals;
use cedar_reading::Position;
use cedar_types::base::{Loc, Template};
use std::alloc::{AllocError, Global};

/// The lines of some texts, and the counts.
#[derive(Drop)]
pub struct Lines {
    pub shown: String,
    pub totals: Totals,
}

/// An error, a warning or a fault, and a hint, which may be empty.
#[derive(Clone, Copy)]
struct Message<'a> {
    kind: &'a str,
    text: &'a str,
    hint: &'a str,
}

impl Lines {
    /// No lines so far.
    pub fn new(alloc: Global) -> Lines {
        Lines {
            shown: String::new(alloc),
            totals: Totals::default(),
        }
    }

    /// Adds a fault of a text, which is not counted.
    pub fn add_fault(&mut self, source: Source<'_>, fault: &TextFault) -> Result<(), AllocError> {
        let message = Message {
            kind: "fault",
            text: fault.text.as_str(),
            hint: "",
        };
        self.push_message(source, fault.place.start, message)
    }

    /// Adds a policy, with its findings in the order of their places.
    pub fn add_policy(
        &mut self,
        alloc: Global,
        source: Source<'_>,
        policy: &Template,
        verdict: &Verdict,
    ) -> Result<(), AllocError> {
        let Loc { start, .. } = policy.loc.unwrap_or(Loc { start: 0, end: 0 });
        self.push_place(source, start)?;
        self.push_verdict(policy, verdict)?;
        for (severity, finding) in in_order(alloc, verdict)? {
            let message = Message {
                kind: severity.text(),
                text: finding.text.as_str(),
                hint: finding.hint.as_str(),
            };
            self.push_message(source, finding.start, message)?;
        }
        if verdict.others > 0 {
            self.push_place(source, start)?;
            writeln!(self.shown, "{} more findings", verdict.others)?;
        }
        Ok(())
    }

    /// Adds the findings of data.
    pub fn add_data(
        &mut self,
        source: Source<'_>,
        verdict: &DataVerdict,
    ) -> Result<(), AllocError> {
        for finding in &verdict.findings {
            let message = Message {
                kind: kind_of(finding.code),
                text: finding.text.as_str(),
                hint: finding.hint.as_str(),
            };
            self.push_message(source, finding.place.start, message)?;
        }
        Ok(())
    }

    /// Adds the counts.
    pub fn add_totals(&mut self) -> Result<(), AllocError> {
        let mut before = "";
        for (name, count) in self.totals.counts() {
            write!(self.shown, "{before}{name}: {count}")?;
            before = ", ";
        }
        let data = self.totals.data;
        if data.is_asked {
            let (entities, errors) = (data.entities, data.errors);
            write!(
                self.shown,
                ", entities: {entities}, errors in data: {errors}"
            )?;
        }
        self.push_requirement(self.totals.requirement)
    }

    /// Whether a line begins so.
    pub fn has(&self, beginning: &str) -> bool {
        self.shown
            .as_str()
            .lines()
            .any(|line| line.starts_with(beginning))
    }

    fn push_place(&mut self, source: Source<'_>, start: usize) -> Result<(), AllocError> {
        let Position { line, column } = Position::in_text(source.text, start);
        write!(self.shown, "{}:{line}:{column}: ", source.name)
    }

    fn push_message(
        &mut self,
        source: Source<'_>,
        start: usize,
        message: Message<'_>,
    ) -> Result<(), AllocError> {
        let Message { kind, text, hint } = message;
        self.push_place(source, start)?;
        write!(self.shown, "{kind}: {}", Shown(text))?;
        if !hint.is_empty() {
            write!(self.shown, "; {}", Shown(hint))?;
        }
        self.shown.push_str("\n")
    }

    fn push_verdict(&mut self, policy: &Template, verdict: &Verdict) -> Result<(), AllocError> {
        let id = ShownId(policy.id.text.as_str());
        let outcome = if verdict.is_accepted {
            "accepted"
        } else {
            "refused"
        };
        write!(self.shown, "policy `{id}`: {outcome}")?;
        self.push_requirement(verdict.requirement)
    }

    /// Adds the level that is enough, and ends the line.
    fn push_requirement(&mut self, requirement: Requirement) -> Result<(), AllocError> {
        match requirement {
            Requirement::Unsaid => self.shown.push_str("\n"),
            Requirement::NoLevel => self.shown.push_str(", no level is enough\n"),
            Requirement::Level(level) => writeln!(self.shown, ", level {level}"),
        }
    }
}

/// The word for a finding of data of this kind.
fn kind_of(code: Code) -> &'static str {
    if code == Code::Fault {
        "fault"
    } else {
        "error"
    }
}

/// The errors and warnings of a policy in the order of their places, errors first at one place.
fn in_order(alloc: Global, verdict: &Verdict) -> Result<Vec<(Severity, &Finding)>, AllocError> {
    let mut all = Vec::new(alloc);
    for finding in &verdict.errors {
        all.push((Severity::Error, finding))?;
    }
    for finding in &verdict.warnings {
        all.push((Severity::Warning, finding))?;
    }
    all.sort_by_key(|it| (it.1.start, it.1.end))?;
    Ok(all)
}
