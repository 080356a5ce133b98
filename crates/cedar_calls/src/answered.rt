//! Verdicts on the policies of a call that validates, before they are written as an answer.
ghost use Rattle.std.specs.Prelude.{◌≡◌, map, All, IfOk};
ghost use Rattle.cedar_verdicts.specs.Verdicts.{basis_of};
ghost use Rattle.cedar_calls.specs.Answers.{IsRightAnswer, IsWholeAnswer};

use crate::given::Given;
use cedar_findings::findings::Verdict;
use cedar_types::base::ArgumentCheck;
use cedar_verdicts::settings::Settings;
use cedar_verdicts::verdicts::judge;
use std::alloc::{AllocError, Global};

/// A policy of a call, and the verdict on it.
#[derive(Drop)]
pub struct Answered<'a> {
    pub given: &'a Given,
    pub verdict: Verdict,
}

/// The verdict on each policy of a call, in the order of the policies (clause `each`). A policy
/// that is accepted in Strict or in Permissive does not go wrong, and at a level it needs the slice
/// alone; a level that the verdict names is the required one (clause `right`). A policy is accepted
/// exactly if its checks, its names, its levels and the texts of its calls have no error, and a
/// refused policy has an error (clause `whole`). If memory is refused, the answer is an
/// `AllocError`.
pub fn judge_all<'a, C: ArgumentCheck>(
    alloc: Global,
    settings: &Settings<'_, C>,
    given: &'a [Given],
) -> Result<Vec<Answered<'a>>, AllocError>
    ensures each { IfOk result (λ all. map (λ a. a.given.now) all.items ≡ given.now) }
    ensures right { IfOk result (λ all.
        All (IsRightAnswer (basis_of C.refusal settings.now) settings.now.level) all.items) }
    ensures whole { IfOk result (λ all.
        All (IsWholeAnswer (basis_of C.refusal settings.now) settings.now.level) all.items) }
{
    let mut all = Vec::with_capacity(alloc, given.len())?;
    for policy in given {
        let answer = judge_one(alloc, settings, policy)?;
        all.push(answer)?;
    }
    Ok(all)
}

/// The verdict on one policy of a call.
pub(crate) fn judge_one<'a, C: ArgumentCheck>(
    alloc: Global,
    settings: &Settings<'_, C>,
    policy: &'a Given,
) -> Result<Answered<'a>, AllocError>
    ensures given { IfOk result (λ a. a.given ≡ policy.entry) }
    ensures right { IfOk result
        (IsRightAnswer (basis_of C.refusal settings.now) settings.now.level) }
    ensures whole { IfOk result
        (IsWholeAnswer (basis_of C.refusal settings.now) settings.now.level) }
{
    let verdict = judge(alloc, settings, policy.examples.as_str(), &policy.policy)?;
    Ok(Answered {
        given: policy,
        verdict,
    })
}
