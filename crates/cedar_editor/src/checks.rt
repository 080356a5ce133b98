//! Policies of a text, each with the verdict on it.
ghost use Rattle.std.specs.Prelude.{◌≡◌, min, string_bytes, IfOk, IfSome};
ghost use Rattle.cedar_types.specs.Names.{text_of};
ghost use Rattle.cedar_verdicts.specs.Verdicts.{basis_of};
ghost use Rattle.cedar_editor.specs.Checks.{finding_count, has_shown_error, IsRightlySaid, IsSafeAsShown};
ghost use Rattle.cedar_editor.specs.Ids.{id_of, sum_of};

use crate::readings::{FaultyReading, Reading, read_policy};
use cedar_findings::faults::TextFault;
use cedar_findings::findings::{Finding, Requirement, Verdict};
use cedar_types::base::{ArgumentCheck, ExtensionSchemas, Loc, Template};
use cedar_verdicts::settings::Settings;
use cedar_verdicts::verdicts::judge;
use itoa::Buffer;
use std::alloc::{AllocError, Global};
use std::rc::RcStr;

/// A policy with the verdict on it. All places are bytes of the policy's own text.
#[derive(Drop)]
pub struct CheckedPolicy {
    pub text: String,
    /// The policy as it was read; for a policy with a fault, its good parts.
    pub template: Template,
    /// The text of the policy names its id, so the id does not depend on the number of policies before it.
    pub names_itself: bool,
    /// The fault because of which the policy cannot be read, if there is one.
    pub fault: Option<TextFault>,
    /// The verdict by the schema, if there is a schema. For a policy with a fault it has the errors of the good parts, which
    /// stay whatever else will be written.
    pub verdict: Option<Verdict>,
}

impl CheckedPolicy {
    /// The id of the policy, if `number` policies come before it. If memory is refused, the answer is an `AllocError`.
    pub fn id(&self, alloc: Global, number: usize) -> Result<RcStr, AllocError>
        ensures { IfOk result (λ id. text_of id ≡ id_of number self.now) }
    {
        if self.names_itself {
            return self.template.id.text.clone();
        }
        let mut id = String::from_str(alloc, "policy")?;
        let mut digits = Buffer::new();
        id.push_str(digits.format(number))?;
        RcStr::from_str(alloc, id.as_str())
    }

    /// A number that policies with one id share, and most others do not, by the number of policies that come before it. If memory
    /// is refused, the answer is an `AllocError`.
    pub fn id_sum(&self, alloc: Global, number: usize) -> Result<u64, AllocError>
        ensures { IfOk result (λ sum. sum ≡ sum_of (id_of number self.now)) }
    {
        if self.names_itself {
            return Ok(sum_of(self.template.id.text.as_str()));
        }
        let id = self.id(alloc, number)?;
        Ok(sum_of(id.as_str()))
    }

    /// The number of findings that are shown of the policy: its fault, its errors and its warnings.
    pub fn finding_count(&self) -> usize
        ensures { result ≡ min (finding_count self.now) 18446744073709551615 }
    {
        let said = match &self.verdict {
            Some(verdict) => verdict.errors.len().saturating_add(verdict.warnings.len()),
            None => 0,
        };
        said.saturating_add(usize::from(self.fault.is_some()))
    }

    /// Whether an error of the policy is shown. A policy that is checked by a schema and is shown without an error is accepted.
    pub fn has_error(&self) -> bool
        ensures { result ≡ has_shown_error self.now }
    {
        if self.fault.is_some() {
            return true;
        }
        match &self.verdict {
            Some(verdict) => !verdict.errors.is_empty(),
            None => false,
        }
    }
}

/// The first policy of a text, if there is one, read without a schema and so without a verdict. It holds the text (clause
/// `text`).
pub fn read_alone<C>(
    alloc: Global,
    functions: &ExtensionSchemas<C>,
    text: &str,
) -> Result<Option<CheckedPolicy>, AllocError>
    ensures verdict { IfOk result (λ read. IfSome read (λ policy. policy.verdict ≡ None)) }
    ensures text { IfOk result (λ read. IfSome read (λ policy.
        string_bytes policy.text ≡ text.now)) }
{
    match read_policy(alloc, functions, text)? {
        Some(reading) => Ok(Some(unjudged(alloc, text, reading)?)),
        None => Ok(None),
    }
}

/// The first policy of a text, if there is one, with the text (clause `text`) and the verdict on it. A policy without a fault has
/// the verdict of `judge` (clause `right`), so a policy that is shown without an error keeps the promise of validation (clause
/// `safe`). If memory is refused, the answer is an `AllocError`.
pub fn check_policy<C: ArgumentCheck>(
    alloc: Global,
    settings: &Settings<'_, C>,
    text: &str,
) -> Result<Option<CheckedPolicy>, AllocError>
    ensures right { IfOk result (λ read. IfSome read
        (IsRightlySaid (basis_of C.refusal settings.now) settings.now.level)) }
    ensures safe { IfOk result (λ read. IfSome read
        (IsSafeAsShown (basis_of C.refusal settings.now) settings.now.level)) }
    ensures text { IfOk result (λ read. IfSome read (λ policy.
        string_bytes policy.text ≡ text.now)) }
{
    match read_policy(alloc, settings.validator.extensions(), text)? {
        Some(reading) => Ok(Some(judged(alloc, settings, text, reading)?)),
        None => Ok(None),
    }
}

/// The policy that was read from this text, without a verdict.
pub(crate) fn unjudged(
    alloc: Global,
    text: &str,
    reading: Reading,
) -> Result<CheckedPolicy, AllocError>
    ensures verdict { IfOk result (λ policy. policy.verdict ≡ None) }
    ensures text { IfOk result (λ policy. string_bytes policy.text ≡ text.now) }
{
    let own = String::from_str(alloc, text)?;
    let names_itself = reading.names_itself(text);
    let (template, fault) = match reading {
        Reading::Whole(template) => (template, None),
        Reading::Faulty(
            FaultyReading {
                template,
                fault,
                ..
            },
        ) => (template, Some(fault)),
    };
    Ok(CheckedPolicy {
        text: own,
        template,
        names_itself,
        fault,
        verdict: None,
    })
}

/// The policy that was read from this text, with the verdict on it, as `check_policy` gives it.
pub(crate) fn judged<C: ArgumentCheck>(
    alloc: Global,
    settings: &Settings<'_, C>,
    text: &str,
    reading: Reading,
) -> Result<CheckedPolicy, AllocError>
    ensures right { IfOk result
        (IsRightlySaid (basis_of C.refusal settings.now) settings.now.level) }
    ensures text { IfOk result (λ policy. string_bytes policy.text ≡ text.now) }
{
    let own = String::from_str(alloc, text)?;
    let names_itself = reading.names_itself(text);
    match reading {
        Reading::Whole(template) => {
            let verdict = judge(alloc, settings, text, &template)?;
            Ok(CheckedPolicy {
                text: own,
                template,
                names_itself,
                fault: None,
                verdict: Some(verdict),
            })
        }
        Reading::Faulty(faulty) => {
            let verdict = judge_good_parts(alloc, settings, text, &faulty)?;
            let FaultyReading {
                template,
                fault,
                ..
            } = faulty;
            Ok(CheckedPolicy {
                text: own,
                template,
                names_itself,
                fault: Some(fault),
                verdict: Some(verdict),
            })
        }
    }
}

/// The verdict on the good parts of a policy with a fault: the errors that stay whatever else will be written. It does not
/// accept the policy.
fn judge_good_parts<C: ArgumentCheck>(
    alloc: Global,
    settings: &Settings<'_, C>,
    text: &str,
    faulty: &FaultyReading,
) -> Result<Verdict, AllocError> {
    let said = judge(alloc, settings, text, &faulty.template)?;
    let whole = faulty.template.loc;
    let mut errors = Vec::new(alloc);
    for error in said.errors {
        let place = place_of(&error);
        // an error of the whole policy may go away, and so may one of a part that may go on, for example that it is no Boolean
        if Some(place) != whole && !may_go_on(text, place, faulty.unfinished) {
            errors.push(error)?;
        }
    }
    Ok(Verdict {
        is_accepted: false,
        requirement: Requirement::Unsaid,
        errors,
        warnings: Vec::new(alloc),
        others: 0,
        warning_count: 0,
    })
}

/// Whether a part may go on behind the unfinished part, because nothing but brackets stands between their ends.
fn may_go_on(text: &str, part: Loc, unfinished: Option<Loc>) -> bool {
    let Some(unfinished) = unfinished else {
        return false;
    };
    match text.get(part.end..unfinished.end) {
        Some(between) => between
            .trim_matches(|c: char| c == ')' || c.is_whitespace())
            .is_empty(),
        None => false,
    }
}

/// The place of a finding in the policy's text.
pub fn place_of(finding: &Finding) -> Loc
    ensures start { result.start ≡ finding.now.start }
    ensures end { result.end ≡ finding.now.end }
{
    Loc {
        start: finding.start,
        end: finding.end,
    }
}

/// The sum of a text by the method of Fowler, Noll and Vo (FNV-1a).
fn sum_of(text: &str) -> u64
    ensures { result ≡ sum_of text.now }
{
    let mut sum = 0xcbf2_9ce4_8422_2325u64;
    for byte in text.as_bytes() {
        sum = (sum ^ u64::from(*byte)).wrapping_mul(0x100_0000_01b3);
    }
    sum
}
