// Outcomes of a call, and their exit statuses.
ghost use Rattle.std.specs.Prelude.{◌≡◌, ◌↔◌};
ghost use Rattle.cedar_validate.specs.Outcomes.{counts_a_refusal, is_comparison, outcome_by, outcome_of, status_by};
ghost use Rattle.cedar_validate.specs.Outcomes.{CountsNoRefusal};

use cedar_findings::arguments::{Arguments, Task};
use cedar_findings::outputs::Output;
use cedar_findings::statuses::Statuses;

/// The outcome of a call.
#[derive(Clone, Copy)]
pub enum Outcome {
    /// Each text is read, each policy is accepted, and data conforms.
    Accepted,
    /// A policy or data is refused, a warning is denied, or a policy is worse off.
    Refused,
    /// A text cannot be read or understood.
    Unread,
}

impl Outcome {
    /// The outcome of a call with these arguments, by the counts of its output. It is `Accepted` only if they count no fault, no
    /// refused policy and no refused data (clause `accepted`).
    pub fn of(arguments: &Arguments, output: &Output) -> Outcome
        ensures exact { result ≡ outcome_by arguments.now output.now }
        ensures accepted { result ≡ Outcome.Accepted → CountsNoRefusal output.now }
    {
        by_counts(arguments, output)
    }

    /// The exit status of an outcome: 0 exactly if it is `Accepted` (clause `zero`).
    pub fn status(self, statuses: Statuses) -> u8
        ensures exact { result ≡ status_by statuses self }
        ensures zero { (result ≡ 0) ↔ (self ≡ Outcome.Accepted) }
    {
        match (statuses, self) {
            (_, Outcome::Accepted) => 0,
            (Statuses::Own, Outcome::Refused) => 1,
            (Statuses::Own, Outcome::Unread) => 2,
            (Statuses::Cedar, Outcome::Refused) => 3,
            (Statuses::Cedar, Outcome::Unread) => 1,
        }
    }
}

fn by_counts(arguments: &Arguments, output: &Output) -> Outcome
    ensures { result ≡ outcome_by arguments.now output.now }
{
    let has_fault = output.totals.faults > 0;
    joined(has_fault, counts_refusal(arguments, output))
}

/// Whether a policy or data is refused, a warning is denied, or a policy is worse off.
fn counts_refusal(arguments: &Arguments, output: &Output) -> bool
    ensures { result ≡ counts_a_refusal arguments.now output.now }
{
    let totals = &output.totals;
    let is_denied = arguments.denies_warnings & (totals.warnings > 0);
    let is_worse = compares(arguments.task) & (output.changes.worse > 0);
    (totals.refused > 0) | (totals.data.is_refused | (is_denied | is_worse))
}

/// Whether a task compares two schemas, so that policies can be worse off.
fn compares(task: Task) -> bool
    ensures { result ≡ is_comparison task }
{
    matches!(task, Task::Comparison)
}

/// The outcome of a call that has a fault, or refuses something.
fn joined(has_fault: bool, is_refused: bool) -> Outcome
    ensures { result ≡ outcome_of has_fault is_refused }
{
    match (has_fault, is_refused) {
        (true, _) => Outcome::Unread,
        (false, true) => Outcome::Refused,
        (false, false) => Outcome::Accepted,
    }
}
