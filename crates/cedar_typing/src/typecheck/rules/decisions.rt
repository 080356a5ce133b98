// Operands and branches as they were written, and what the tables of the forms with two operands say.
ghost use Rattle.std.specs.Prelude.{◌≡◌, [], ◌∷◌, IfOk, option_map};
ghost use Rattle.cedar_types.specs.Types.{ty_of};
ghost use Rattle.cedar_types.specs.Expressions.View.{written};
ghost use Rattle.cedar_typing.specs.Views.{env_at, at, decision_of, form_of_two};
ghost use Rattle.cedar_typing.specs.Capabilities.Priors.{known_in};

use crate::typecheck::prior::Prior;
use crate::typecheck::rules::eager::{Decision, gives, gives_unless};
use crate::typecheck::rules::equality::member_type;
use crate::typecheck::rules::two_operands::TwoOperands;
use crate::typecheck::type_env::TypeEnv;
use crate::typecheck::type_tests::any_bool;
use cedar_types::base::{CedarType, Expr, Loc, LubContext};
use std::alloc::AllocError;

/// The operands, as they were written.
#[derive(Clone, Copy)]
pub(crate) struct Operands<'a> {
    pub(crate) left: &'a Expr,
    pub(crate) right: &'a Expr,
}

/// The branches of an `if`, as they were written.
#[derive(Clone, Copy)]
pub(crate) struct Branches<'a> {
    pub(crate) then_expr: &'a Expr,
    pub(crate) else_expr: &'a Expr,
}

impl TypeEnv<'_, '_, '_, '_> {
    /// What the form's table says, by the types of its operands.
    pub(crate) fn decide_two<'a>(
        &self,
        prior: &Prior<'_, 'a>,
        loc: Option<Loc>,
        form: TwoOperands,
        operands: Operands<'a>,
        found: &Option<CedarType>,
        other: &Option<CedarType>,
    ) -> Result<Decision<'a>, AllocError>
        ensures { IfOk result (λ d. decision_of d
            ≡ (form_of_two (env_at self.now) (at loc) (known_in prior.now)
            (written operands.entry.left.now) (written operands.entry.right.now) form).decides
            (option_map ty_of found.now ∷ option_map ty_of other.now ∷ [])) }
    {
        let left = operands.left;
        let right = operands.right;
        match form {
            TwoOperands::Equality => {
                self.decide_equality(loc, left, right, found.as_ref(), other.as_ref())
            }
            TwoOperands::Comparison(_) => {
                self.decide_comparison(left.loc, right.loc, found, other)
            }
            TwoOperands::Arithmetic(_) => Ok(gives(self.alloc, CedarType::Long)),
            TwoOperands::Membership => self.decide_in(left, right, found, other),
            TwoOperands::Contains => {
                let member = member_type(found);
                let errors = self.strict_errors(loc, LubContext::Contains, member, other.as_ref())?;
                Ok(gives_unless(self.alloc, errors, any_bool()))
            }
            TwoOperands::ContainsSeveral(_) => {
                let context = LubContext::ContainsAnyAll;
                let errors = self.strict_errors(loc, context, found.as_ref(), other.as_ref())?;
                Ok(gives_unless(self.alloc, errors, any_bool()))
            }
            TwoOperands::HasTag => self.decide_has_tag(prior, loc, operands, found),
            TwoOperands::GetTag => self.decide_get_tag(prior, loc, operands, found),
        }
    }
}
