// Answers in sequence, followed up by one call.
ghost use Rattle.std.specs.Prelude.{◌≡◌, IfOk};
ghost use Rattle.std.specs.Iterator.{IsFinite, IsFiniteIterable};
ghost use Rattle.cedar_typing.specs.Answer.{OnAllHanded, SequencesAll, answer_where};
ghost use Rattle.cedar_typing.specs.Views.{Gathers};

use crate::typecheck::answer::TypecheckAnswer;
use cedar_types::base::{CedarType, Expr};
use cedar_types::types::capability::CapabilitySet;
use std::alloc::{AllocError, Global};

impl<'a> TypecheckAnswer<'a> {
    /// The answer of `f` for the typed expressions and the capabilities of all answers, in order, where a failure
    /// has no capabilities. It is made a failure if one of the answers is a failure. After the first limit no more
    /// answers are taken, and the result is the limit, though `f` is still called. If memory is refused for one of
    /// the answers that are taken, the result is the first such `AllocError`, and `f` is not called.
    pub fn sequence_all_then_typecheck<I, F>(
        alloc: Global,
        answers: I,
        f: F,
    ) -> Result<TypecheckAnswer<'a>, AllocError>
    where
        I: IntoIterator<Item = Result<TypecheckAnswer<'a>, AllocError>>,
        F: FnOnce(
            Vec<(Box<Expr<Option<CedarType>>>, CapabilitySet<'a>)>,
        ) -> Result<TypecheckAnswer<'a>, AllocError>,
        requires ends { IsFiniteIterable I.into_iter_gives I.IntoIter.can_next I.IntoIter.remaining
            answers }
        requires callable { (it : I.IntoIter)
            → I.into_iter_gives answers it
            → OnAllHanded I.IntoIter.next_gives it (F.pre f) }
        ensures { IfOk result (λ a.
            (it : I.IntoIter) × I.into_iter_gives answers it × SequencesAll
            I.IntoIter.next_gives it (F.post f) a) }
    {
        let Gathered {
            handed,
            is_limit,
            succeeded,
        } = gather(alloc, answers.into_iter())?;
        let answer = f(handed)?;
        Ok(answer.adjusted(is_limit, succeeded))
    }

    /// The answer, adjusted to those before it: the limit after a limit, else a failure after a failure.
    fn adjusted(self, is_limit: bool, succeeded: bool) -> TypecheckAnswer<'a>
        ensures { result ≡ answer_where is_limit succeeded self.entry }
    {
        if is_limit {
            TypecheckAnswer::RecursionLimit
        } else {
            self.fail_unless(succeeded)
        }
    }
}

/// The answers that were taken: all of them, or those before the first limit.
#[derive(Drop)]
struct Gathered<'a> {
    handed: Vec<(Box<Expr<Option<CedarType>>>, CapabilitySet<'a>)>,
    is_limit: bool,
    succeeded: bool,
}

fn gather<'a, I>(alloc: Global, answers: I) -> Result<Gathered<'a>, AllocError>
where
    I: Iterator<Item = Result<TypecheckAnswer<'a>, AllocError>>,
    requires can { I.can_next answers }
    requires ends { IsFinite (I.remaining answers) }
    ensures { IfOk result (Gathers I.next_gives answers) }
{
    let mut handed = Vec::new(alloc);
    let mut succeeded = true;
    let mut is_limit = false;
    for answer in answers {
        // answers after a limit are not asked for, because the whole is the limit already
        let Some(part) = answer?.into_part(alloc) else {
            is_limit = true;
            break;
        };
        succeeded &= part.succeeded;
        handed.push((part.typed, part.capabilities))?;
    }
    Ok(Gathered {
        handed,
        is_limit,
        succeeded,
    })
}
