//! Counts of findings.
ghost use Rattle.std.specs.Prelude.{◌≡◌, length, filter};
ghost use Rattle.cedar_findings.specs.Counts.{is_fault, is_mistake, with_data, with_faults, with_missing_schema, with_read, with_verdict};

use crate::codes::Code;
use crate::data_findings::{DataFinding, DataVerdict};
use crate::findings::{Requirement, Verdict};

/// The number of policies that were read, accepted and refused, of warnings and of faults, and the requirement of all policies
/// whose level is known.
#[derive(Clone, Copy, Default)]
pub struct Totals {
    pub policies: u64,
    pub accepted: u64,
    pub refused: u64,
    pub warnings: u64,
    pub faults: u64,
    pub requirement: Requirement,
    pub data: DataTally,
    /// Whether there is no schema, so that nothing was validated by one.
    pub lacks_schema: bool,
}

/// Whether data is checked, and whether some is refused; the number of entities that were read, and of mistakes in data.
#[derive(Clone, Copy, Default)]
pub struct DataTally {
    pub is_asked: bool,
    pub is_refused: bool,
    pub entities: u64,
    pub errors: u64,
}

impl Totals {
    /// Counts a policy by its verdict. Every counter here stays at the greatest number of its type.
    pub fn add(&mut self, verdict: &Verdict)
        ensures { self.new ≡ with_verdict verdict.now self.old }
    {
        self.policies = self.policies.saturating_add(1);
        if verdict.is_accepted {
            self.accepted = self.accepted.saturating_add(1);
        } else {
            self.refused = self.refused.saturating_add(1);
        }
        self.warnings = self.warnings.saturating_add(verdict.warning_count);
        self.requirement = self.requirement.join(verdict.requirement);
    }

    /// Counts policies that were read, and not validated.
    pub fn add_read(&mut self, count: u64)
        ensures { self.new ≡ with_read count self.old }
    {
        self.policies = self.policies.saturating_add(count);
    }

    /// Counts data, and each of its mistakes. A text that is no data counts as a fault.
    pub fn add_data(&mut self, verdict: &DataVerdict)
        ensures { self.new ≡ with_data verdict.now self.old }
    {
        let findings = verdict.findings.as_slice();
        self.add_faults(count_faults(findings));
        self.data.is_refused = self.data.is_refused | !verdict.is_accepted;
        self.data.entities = self.data.entities.saturating_add(verdict.entities as u64);
        self.data.errors = self.data.errors.saturating_add(count_mistakes(findings));
    }

    /// Counts a fault.
    pub fn add_fault(&mut self)
        ensures { self.new ≡ with_faults 1 self.old }
    {
        self.add_faults(1);
    }

    /// Counts so many faults.
    pub fn add_faults(&mut self, count: u64)
        ensures { self.new ≡ with_faults count self.old }
    {
        self.faults = self.faults.saturating_add(count);
    }

    /// Counts the missing schema as a fault.
    pub fn add_missing_schema(&mut self)
        ensures { self.new ≡ with_missing_schema self.old }
    {
        self.lacks_schema = true;
        self.add_fault();
    }

    /// The counts that are always shown, with their names.
    pub fn counts(&self) -> [(&'static str, u64); 5] {
        [
            ("policies", self.policies),
            ("accepted", self.accepted),
            ("refused", self.refused),
            ("warnings", self.warnings),
            ("faults", self.faults),
        ]
    }
}

/// The number of findings that a text is no data.
fn count_faults(findings: &[DataFinding]) -> u64
    ensures { result ≡ length (filter is_fault findings.now) }
{
    findings.iter().filter(|it| says_fault(it)).count() as u64
}

/// The number of mistakes in data among findings.
fn count_mistakes(findings: &[DataFinding]) -> u64
    ensures { result ≡ length (filter is_mistake findings.now) }
{
    findings.iter().filter(|it| !says_fault(it)).count() as u64
}

/// Whether a finding says that a text is no data.
fn says_fault(finding: &DataFinding) -> bool
    ensures { result ≡ is_fault finding.now }
{
    matches!(finding.code, Code::Fault)
}
