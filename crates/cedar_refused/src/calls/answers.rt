// Follow-ups on answers. The function that follows up takes memory itself.
use crate::calls::capabilities::having;
use crate::calls::lines::{Probe, Trial};
use crate::outcomes::{Outcome, finish};
use crate::refusals::refuse;
use cedar_types::base::{CedarType, Expr, ExprKind, Literal};
use cedar_typing::typecheck::answer::TypecheckAnswer;
use std::alloc::{AllocError, Global};

/// Follow-ups on answers.
#[derive(Clone, Copy)]
pub enum FollowUp {
    Map,
    Then,
    Sequence,
}

/// A literal, typed as a long.
pub fn long(alloc: Global, value: i64) -> Result<Box<Expr<Option<CedarType>>>, AllocError> {
    let kind = ExprKind::Lit(Literal::Long(value));
    let typed = Expr {
        annotation: Some(CedarType::Long),
        loc: None,
        kind,
    };
    Ok(Box::new(alloc, typed)?)
}

/// A success that knows two attributes.
pub fn success<'a>(alloc: Global) -> Result<TypecheckAnswer<'a>, AllocError> {
    let known = having(alloc, "vip", "nick")?;
    Ok(TypecheckAnswer::success_with_capability(long(alloc, 7)?, known))
}

impl Probe for FollowUp {
    fn run(self, alloc: Global, trial: Trial<'_>) -> Result<Outcome, AllocError> {
        let answer = success(alloc)?;
        let answers = vec![in alloc; Ok(success(alloc)?), Ok(success(alloc)?)]?;
        refuse(alloc, trial.number);
        let followed = match self {
            FollowUp::Map => answer.map_capability(|set| set.try_clone(alloc)),
            FollowUp::Then => {
                answer.then_typecheck(alloc, |expr, set| {
                    let copied = set.try_clone(alloc)?;
                    Ok(TypecheckAnswer::success_with_capability(expr, copied))
                })
            }
            FollowUp::Sequence => {
                TypecheckAnswer::sequence_all_then_typecheck(alloc, answers, |_| success(alloc))
            }
        };
        finish(alloc, followed, &())
    }
}

/// Follow-ups on answers.
pub const FOLLOW_UPS: [(FollowUp, &str); 3] = [
    (FollowUp::Map, "TypecheckAnswer::map_capability | nick"),
    (FollowUp::Then, "TypecheckAnswer::then_typecheck | nick"),
    (
        FollowUp::Sequence,
        "TypecheckAnswer::sequence_all_then_typecheck | nick",
    ),
];
