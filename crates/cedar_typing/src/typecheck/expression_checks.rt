// The check of an expression where it stands, for example under the cursor of an editor.
ghost use Rattle.std.specs.Prelude.{◌≡◌, IfOk, map, option_map};
ghost use Rattle.cedar_types.specs.Capability.{caps};
ghost use Rattle.cedar_types.specs.Errors.{finding_of};
ghost use Rattle.cedar_types.specs.Expressions.View.{written};
ghost use Rattle.cedar_typing.specs.ExpressionCheck.{ExpressionChecks, IsSoundAnswer, tree_of_answer};
ghost use Rattle.cedar_typing.specs.TypedExpr.{typed_tree};
ghost use Rattle.cedar_typing.specs.Views.ExpressionChecks.{setting_by};
ghost use Rattle.cedar_typing.specs.Views.{answer_of};

use crate::typecheck::answer::TypecheckAnswer;
use crate::typecheck::prior::Prior;
use crate::typecheck::typechecker::Typechecker;
use cedar_types::base::{ArgumentCheck, CedarType, Expr, PolicyID, ValidationError};
use cedar_types::types::capability::CapabilitySet;
use cedar_types::types::request_env::RequestEnv;
use std::alloc::{AllocError, Global};

/// The check of an expression where it stands: the answer of typing, and the errors.
#[derive(Debug, Drop)]
pub struct ExpressionCheck<'a> {
    /// The answer: whether the expression is typed, its typed copy, and the capabilities that hold where it is true.
    pub answer: TypecheckAnswer<'a>,
    /// The errors, each as often as it is found, in any order. A success has none, and a failure may have none.
    pub errors: Vec<ValidationError>,
}

impl<'a, C: ArgumentCheck> Typechecker<'a, C> {
    /// Types an expression where it stands: in this environment, with these capabilities known, and at depth 1, as a whole
    /// condition is. So an editor can show the type of a part without a policy around it.
    ///
    /// You must pass the capabilities that are known at the expression. On the right side of `a && b`, and in the first branch
    /// of `if a`, these are the capabilities known at the whole, and those that a success of `a` produces. The errors name the
    /// policy of this id. No part that lies deeper than `MAX_TYPED_DEPTH` is visited: if there is one, the answer is
    /// `RecursionLimit`.
    ///
    /// In Strict and in Permissive (clause `sound`), on the premises of
    /// `typecheck_by_single_request_env`, and where the prior capabilities hold: evaluation of a success gives a value of the
    /// type that was found, or fails only for a missing entity, an overflow or an extension function; where it is true, the
    /// capabilities of the success hold. Evaluation of a failure with a type at its root gives a value of that type, or fails.
    /// The typed copy evaluates as the expression does. This is the law `laws::type_soundness`, with
    /// `typed_copies::copies_mean_the_same`.
    ///
    /// Where memory is refused, the answer is an `AllocError`.
    pub fn typecheck_expr<'x>(
        &self,
        alloc: Global,
        policy_id: &PolicyID,
        env: &RequestEnv<'_>,
        prior: &CapabilitySet<'x>,
        e: &'x Expr,
    ) -> Result<ExpressionCheck<'x>, AllocError>
        ensures exact { IfOk result (λ r.
            ExpressionChecks (setting_by C.refusal self.now policy_id.now env.now)
            (written e.now) (caps prior.now)
            (answer_of r.answer) (map finding_of r.errors.items)) }
        ensures sound { IfOk result (λ r.
            IsSoundAnswer (setting_by C.refusal self.now policy_id.now env.now)
            (written e.now) (caps prior.now) (answer_of r.answer)) }
    {
        let checker = self.in_environment(alloc, policy_id, env)?;
        let mut errors = Vec::new(alloc);
        let known = Prior::of(prior);
        let answer = checker.typecheck(&known, 1, e, &mut errors)?;
        Ok(ExpressionCheck { answer, errors })
    }
}

impl<'a> ExpressionCheck<'a> {
    /// The typed copy, of a success and of a failure. There is none if a part is nested too deep.
    pub fn typed(&self) -> Option<&Expr<Option<CedarType>>>
        ensures { option_map (λ e. typed_tree e.now) result
            ≡ tree_of_answer (answer_of self.now.answer) }
    {
        match &self.answer {
            TypecheckAnswer::TypecheckSuccess { expr_type, .. } => Some(expr_type),
            TypecheckAnswer::TypecheckFail { expr_recovery_type } => Some(expr_recovery_type),
            TypecheckAnswer::RecursionLimit => None,
        }
    }
}
