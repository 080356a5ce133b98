// Operators with two operands.
ghost use Rattle.std.specs.Prelude.{◌≡◌, ◌≤◌, [], ◌∷◌, Some, IfOk, option_map, if◌then◌else◌};
ghost use Rattle.cedar_types.specs.declared.base.types.BoolType.TheVariants.{AnyBool};
ghost use Rattle.cedar_types.specs.Types.{ty_of, TBool};
ghost use Rattle.cedar_types.specs.Expressions.Tree.{binary};
ghost use Rattle.cedar_types.specs.Expressions.View.{written};
ghost use Rattle.cedar_typing.specs.Eager.{first_expectation, later_expectations};
ghost use Rattle.cedar_typing.specs.Infer.Eager.{infer_form, type_given};
ghost use Rattle.cedar_typing.specs.Judgments.{max_nesting};
ghost use Rattle.cedar_typing.specs.Rules.Binary.{binary_form};
ghost use Rattle.cedar_typing.specs.TypedExpr.{typed_as, typed_tree};
ghost use Rattle.cedar_typing.specs.Views.Settings.{setting_at, infer_two, form_with};
ghost use Rattle.cedar_typing.specs.Views.{expected_types, answer_of, part_of, findings, at, form_of_two, two_parts};
ghost use Rattle.cedar_typing.specs.Capabilities.Priors.{known_in};

use crate::typecheck::answer::{Part, TypecheckAnswer};
use crate::typecheck::operands::Expected;
use crate::typecheck::prior::Prior;
use crate::typecheck::rules::decisions::Operands;
use crate::typecheck::rules::eager::{Decision, add_errors};
use crate::typecheck::single_env::SingleEnvTypechecker;
use crate::typecheck::type_env::TypeEnv;
use crate::typecheck::type_tests::any_bool;
use crate::typecheck::typed_nodes::{node, with_capabilities};
use cedar_types::base::{ArgumentCheck, BinaryOp, CedarType, Expr, ExprKind, Loc, ValidationError};
use std::alloc::{AllocError, Global};

/// A form with two operands.
#[derive(Clone, Copy)]
pub(crate) enum TwoOperands {
    /// `==`.
    Equality,
    /// `<` and `<=`.
    Comparison(BinaryOp),
    /// `+`, `-` and `*`.
    Arithmetic(BinaryOp),
    /// `in`.
    Membership,
    /// `contains`.
    Contains,
    /// `containsAll` and `containsAny`.
    ContainsSeveral(BinaryOp),
    HasTag,
    GetTag,
}

impl TwoOperands {
    /// The form of this operator.
    pub(crate) fn of(op: BinaryOp) -> TwoOperands
        ensures { (env : _) → (m : _) → (prior : _) → (a : _) → (b : _)
            → form_of_two env m prior a b result ≡ binary_form env m prior a b op }
    {
        match op {
            BinaryOp::Eq => TwoOperands::Equality,
            BinaryOp::Less => TwoOperands::Comparison(BinaryOp::Less),
            BinaryOp::LessEq => TwoOperands::Comparison(BinaryOp::LessEq),
            BinaryOp::Add => TwoOperands::Arithmetic(BinaryOp::Add),
            BinaryOp::Sub => TwoOperands::Arithmetic(BinaryOp::Sub),
            BinaryOp::Mul => TwoOperands::Arithmetic(BinaryOp::Mul),
            BinaryOp::Contains => TwoOperands::Contains,
            BinaryOp::ContainsAll => TwoOperands::ContainsSeveral(BinaryOp::ContainsAll),
            BinaryOp::ContainsAny => TwoOperands::ContainsSeveral(BinaryOp::ContainsAny),
            BinaryOp::In => TwoOperands::Membership,
            BinaryOp::GetTag => TwoOperands::GetTag,
            BinaryOp::HasTag => TwoOperands::HasTag,
        }
    }

    /// Whether the right operand is still typed after a left one that is too deep, because the
    /// original types both operands before it looks at an answer.
    fn goes_on(self) -> bool
        ensures { (env : _) → (m : _) → (prior : _) → (a : _) → (b : _)
            → (form_of_two env m prior a b self).goes_on ≡ result }
    {
        match self {
            TwoOperands::Equality => true,
            TwoOperands::Comparison(_) => false,
            TwoOperands::Arithmetic(_) => false,
            TwoOperands::Membership => true,
            TwoOperands::Contains => false,
            TwoOperands::ContainsSeveral(_) => false,
            TwoOperands::HasTag => false,
            TwoOperands::GetTag => false,
        }
    }

    /// The expected type of the left operand; `None` if it may be anything.
    fn expected_left(self) -> Option<Expected<'static>>
        ensures { (env : _) → (m : _) → (prior : _) → (a : _) → (b : _)
            → first_expectation (form_of_two env m prior a b self).expects
            ≡ option_map expected_types result }
    {
        match self {
            TwoOperands::Equality => None,
            TwoOperands::Comparison(_) => None,
            TwoOperands::Arithmetic(_) => Some(Expected::Long),
            TwoOperands::Membership => Some(Expected::Entity),
            TwoOperands::Contains => Some(Expected::Set),
            TwoOperands::ContainsSeveral(_) => Some(Expected::Set),
            TwoOperands::HasTag => Some(Expected::Entity),
            TwoOperands::GetTag => Some(Expected::Entity),
        }
    }

    /// The expected type of the right operand; `None` if it may be anything.
    fn expected_right(self) -> Option<Expected<'static>>
        ensures { (env : _) → (m : _) → (prior : _) → (a : _) → (b : _)
            → first_expectation (later_expectations (form_of_two env m prior a b self).expects)
            ≡ option_map expected_types result }
    {
        match self {
            TwoOperands::Equality => None,
            TwoOperands::Comparison(_) => None,
            TwoOperands::Arithmetic(_) => Some(Expected::Long),
            TwoOperands::Membership => Some(Expected::Ancestor),
            TwoOperands::Contains => None,
            TwoOperands::ContainsSeveral(_) => Some(Expected::Set),
            TwoOperands::HasTag => Some(Expected::String),
            TwoOperands::GetTag => Some(Expected::String),
        }
    }

    /// The operator of the form.
    fn op(self) -> BinaryOp
        ensures { (env : _) → (m : _) → (prior : _) → (a : _) → (b : _)
            → (k : _) → (x : _) → (y : _)
            → (form_of_two env m prior a b self).node k (x ∷ y ∷ []) ≡ binary k result x y }
    {
        match self {
            TwoOperands::Equality => BinaryOp::Eq,
            TwoOperands::Comparison(op) => op,
            TwoOperands::Arithmetic(op) => op,
            TwoOperands::Membership => BinaryOp::In,
            TwoOperands::Contains => BinaryOp::Contains,
            TwoOperands::ContainsSeveral(op) => op,
            TwoOperands::HasTag => BinaryOp::HasTag,
            TwoOperands::GetTag => BinaryOp::GetTag,
        }
    }

    /// The type of the whole, from the table's type and from whether both operands succeeded: a
    /// failed `in` is Bool.
    fn type_given(self, succeeded: bool, ty: CedarType) -> CedarType
        ensures { (env : _) → (m : _) → (prior : _) → (a : _) → (b : _)
            → ty_of result ≡ type_given (form_of_two env m prior a b self) succeeded (ty_of ty) }
    {
        match self {
            TwoOperands::Equality => ty,
            TwoOperands::Comparison(_) => ty,
            TwoOperands::Arithmetic(_) => ty,
            // the original asks the schema only if both operands succeeded
            TwoOperands::Membership => bool_unless(succeeded, ty),
            TwoOperands::Contains => ty,
            TwoOperands::ContainsSeveral(_) => ty,
            TwoOperands::HasTag => ty,
            TwoOperands::GetTag => ty,
        }
    }
}

impl<C: ArgumentCheck> SingleEnvTypechecker<'_, '_, '_, '_, C> {
    /// Types a form with two operands, at `loc`.
    #[cycle(typing)]
    #[inline(never)]
    pub(crate) fn type_two_operands<'a>(
        &self,
        prior: &Prior<'_, 'a>,
        depth: usize,
        loc: Option<Loc>,
        form: TwoOperands,
        operands: Operands<'a>,
        errors: &mut Vec<ValidationError>,
    ) -> Result<TypecheckAnswer<'a>, AllocError>
        requires { depth ≤ max_nesting }
        ensures { IfOk result (λ r.
            infer_two (setting_at C.refusal self.now) (at loc) (written operands.entry.left.now)
            (written operands.entry.right.now) (known_in prior.now) depth form
            (findings errors.old.items)
            ≡ (answer_of r, findings errors.new.items)) }
    {
        let Operands { left, right } = operands;
        let one = self.typecheck(prior, depth + 1, left, errors)?;
        let one = self
            .env
            .operand(form.expected_left(), left.loc, one, errors)?;
        if one.is_none() & !form.goes_on() {
            return Ok(TypecheckAnswer::RecursionLimit);
        }
        let other = self.typecheck(prior, depth + 1, right, errors)?;
        let other = self
            .env
            .operand(form.expected_right(), right.loc, other, errors)?;
        let answer = self
            .env
            .two_answer(prior, loc, form, operands, (one, other), errors)?;
        Ok(answer)
    }
}

impl TypeEnv<'_, '_, '_, '_> {
    /// The answer for a form with two operands, at `loc`, each of which is typed or too deep.
    fn two_answer<'a>(
        &self,
        prior: &Prior<'_, 'a>,
        loc: Option<Loc>,
        form: TwoOperands,
        operands: Operands<'a>,
        parts: (Option<Part<'a>>, Option<Part<'a>>),
        errors: &mut Vec<ValidationError>,
    ) -> Result<TypecheckAnswer<'a>, AllocError>
        ensures { IfOk result (λ r.
            infer_form (form_with self.now loc prior.now operands.entry form)
            (two_parts (option_map part_of parts.entry.0) (option_map part_of parts.entry.1))
            (findings errors.old.items)
            ≡ (answer_of r, findings errors.new.items)) }
    {
        let (one, other) = parts;
        let Some(one) = one else {
            return Ok(TypecheckAnswer::RecursionLimit);
        };
        let Some(other) = other else {
            return Ok(TypecheckAnswer::RecursionLimit);
        };
        self.two_parts_answer(prior, loc, form, operands, (one, other), errors)
    }

    /// The answer for a form with two typed operands, at `loc`.
    #[inline(never)]
    fn two_parts_answer<'a>(
        &self,
        prior: &Prior<'_, 'a>,
        loc: Option<Loc>,
        form: TwoOperands,
        operands: Operands<'a>,
        parts: (Part<'a>, Part<'a>),
        errors: &mut Vec<ValidationError>,
    ) -> Result<TypecheckAnswer<'a>, AllocError>
        ensures { IfOk result (λ r.
            infer_form (form_with self.now loc prior.now operands.entry form)
            (two_parts (Some (part_of parts.entry.0)) (Some (part_of parts.entry.1)))
            (findings errors.old.items)
            ≡ (answer_of r, findings errors.new.items)) }
    {
        let (one, other) = parts;
        let succeeded = other.succeeded & one.succeeded;
        let found = &one.typed.annotation;
        match self.decide_two(prior, loc, form, operands, found, &other.typed.annotation)? {
            Decision::Gives(ty, capabilities) => {
                // the table is asked about failed operands too, so that one run shows all errors
                let ty = form.type_given(succeeded, ty);
                let typed = binary_node(
                    self.alloc,
                    loc,
                    Some(ty),
                    form.op(),
                    one.typed,
                    other.typed,
                )?;
                Ok(with_capabilities(succeeded, typed, capabilities))
            }
            Decision::Refuses(ty, found) => {
                add_errors(errors, found)?;
                let typed = binary_node(self.alloc, loc, ty, form.op(), one.typed, other.typed)?;
                Ok(TypecheckAnswer::fail(typed))
            }
        }
    }
}

/// The table's type, or Bool if an operand failed.
fn bool_unless(succeeded: bool, ty: CedarType) -> CedarType
    ensures { ty_of result ≡ if succeeded then ty_of ty else TBool AnyBool }
{
    if succeeded {
        return ty;
    }
    any_bool()
}

/// The typed copy of an operator on two operands.
fn binary_node(
    alloc: Global,
    loc: Option<Loc>,
    ty: Option<CedarType>,
    op: BinaryOp,
    left: Box<Expr<Option<CedarType>>>,
    right: Box<Expr<Option<CedarType>>>,
) -> Result<Box<Expr<Option<CedarType>>>, AllocError>
    ensures { IfOk result (λ e. typed_tree e.value
        ≡ binary (typed_as (option_map ty_of ty) (at loc)) op (typed_tree left.value)
        (typed_tree right.value)) }
{
    let kind = ExprKind::BinaryApp(op, left, right);
    node(alloc, loc, ty, kind)
}
