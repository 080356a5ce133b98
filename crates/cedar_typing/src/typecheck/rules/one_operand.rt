// Forms with one operand.
ghost use Rattle.std.specs.Prelude.{◌≡◌, ◌≤◌, [], ◌∷◌, Some, IfOk, option_map};
ghost use Rattle.cedar_types.specs.Capability.{expr_in};
ghost use Rattle.cedar_types.specs.Types.{ty_of};
ghost use Rattle.cedar_types.specs.Expressions.View.{written};
ghost use Rattle.cedar_typing.specs.Eager.{first_expectation};
ghost use Rattle.cedar_typing.specs.Infer.{infer};
ghost use Rattle.cedar_typing.specs.Infer.Eager.{infer_of_one};
ghost use Rattle.cedar_typing.specs.Infer.Parts.{expect};
ghost use Rattle.cedar_typing.specs.Judgments.{max_nesting};
ghost use Rattle.cedar_typing.specs.TypedExpr.{place_of, typed_as, typed_tree};
ghost use Rattle.cedar_typing.specs.Views.Settings.{setting_at, infer_one};
ghost use Rattle.cedar_typing.specs.Views.{env_at, expected_types, answer_of, part_of, findings, decision_of, form_of_one, mark_of_one};
ghost use Rattle.cedar_typing.specs.Capabilities.Priors.{known_in};

use crate::typecheck::answer::{Part, TypecheckAnswer};
use crate::typecheck::expressions::MAX_TYPED_DEPTH;
use crate::typecheck::operands::Expected;
use crate::typecheck::prior::Prior;
use crate::typecheck::rules::eager::{Decision, add_errors, gives};
use crate::typecheck::rules::unary::{decide_is, decide_not};
use crate::typecheck::single_env::SingleEnvTypechecker;
use crate::typecheck::type_env::TypeEnv;
use crate::typecheck::type_tests::any_bool;
use crate::typecheck::typed_nodes::{node, with_capabilities};
use cedar_types::base::{
    ArgumentCheck, AttrChain, CedarType, EntityType, Expr, ExprKind, Loc, PatternElem, UnaryOp,
    ValidationError,
};
use cedar_types::types::capability::DigestedBase;
use std::alloc::{AllocError, Global};
use std::rc::RcStr;

/// A form with one operand.
#[derive(Clone, Copy)]
pub(crate) enum OneOperand<'x> {
    Unary(UnaryOp),
    Has(&'x RcStr),
    Get(&'x RcStr),
    Like(&'x Vec<PatternElem>),
    Is(&'x EntityType),
    /// Extended `has`.
    Chain(&'x AttrChain),
}

impl OneOperand<'_> {
    /// The expected type of the operand.
    fn expected(self) -> Expected<'static>
        ensures { (env : _) → (m : _) → (prior : _) → (e : _)
            → first_expectation (form_of_one env m prior e self.entry).expects
            ≡ Some (expected_types result) }
    {
        match self {
            OneOperand::Unary(UnaryOp::Not) => Expected::Bool,
            OneOperand::Unary(UnaryOp::Neg) => Expected::Long,
            OneOperand::Unary(UnaryOp::IsEmpty) => Expected::Set,
            OneOperand::Has(_) => Expected::Object,
            OneOperand::Get(_) => Expected::Object,
            OneOperand::Like(_) => Expected::String,
            OneOperand::Is(_) => Expected::Entity,
            OneOperand::Chain(_) => Expected::Object,
        }
    }

    /// The typed copy of the whole.
    fn node(
        self,
        alloc: Global,
        loc: Option<Loc>,
        ty: Option<CedarType>,
        operand: Box<Expr<Option<CedarType>>>,
    ) -> Result<Box<Expr<Option<CedarType>>>, AllocError>
        ensures { (env : _) → (prior : _) → (e : _)
            → IfOk result (λ r. typed_tree r.value
            ≡ (form_of_one env (mark_of_one loc self.entry) prior e self.entry).node
            (typed_as (option_map ty_of ty)
            (form_of_one env (mark_of_one loc self.entry) prior e self.entry).at)
            (typed_tree operand.value ∷ [])) }
    {
        let kind = self.kind(alloc, operand)?;
        let typed = node(alloc, loc, ty, kind)?;
        Ok(typed)
    }

    /// The form itself, on a typed operand.
    fn kind(
        self,
        alloc: Global,
        operand: Box<Expr<Option<CedarType>>>,
    ) -> Result<ExprKind<Option<CedarType>>, AllocError>
        ensures { (env : _) → (prior : _) → (e : _) → (loc : _) → (ty : _)
            → IfOk result (λ k. typed_tree (record { annotation = ty; loc = loc; kind = k })
            ≡ (form_of_one env (mark_of_one loc self.entry) prior e self.entry).node
            (typed_as (option_map ty_of ty)
            (form_of_one env (mark_of_one loc self.entry) prior e self.entry).at)
            (typed_tree operand.value ∷ [])) }
    {
        match self {
            OneOperand::Unary(op) => Ok(ExprKind::UnaryApp(op, operand)),
            OneOperand::Has(attr) => Ok(ExprKind::HasAttr(operand, attr.clone()?)),
            OneOperand::Get(attr) => Ok(ExprKind::GetAttr(operand, attr.clone()?)),
            OneOperand::Like(pattern) => {
                Ok(ExprKind::Like(operand, Vec::from_slice(alloc, pattern)?))
            }
            OneOperand::Is(entity_type) => Ok(ExprKind::Is(operand, entity_type.clone()?)),
            OneOperand::Chain(chain) => Ok(ExprKind::ExtHasAttr(operand, chain.clone()?)),
        }
    }
}

impl<C: ArgumentCheck> SingleEnvTypechecker<'_, '_, '_, '_, C> {
    /// Types a form with one operand, at `loc`.
    #[cycle(typing)]
    pub(crate) fn type_one_operand<'a>(
        &self,
        prior: &Prior<'_, 'a>,
        depth: usize,
        loc: Option<Loc>,
        form: OneOperand<'a>,
        operand: &'a Expr,
        errors: &mut Vec<ValidationError>,
    ) -> Result<TypecheckAnswer<'a>, AllocError>
        requires { depth ≤ max_nesting }
        ensures { IfOk result (λ r.
            infer_one (setting_at C.refusal self.now) (mark_of_one loc form.entry)
            (known_in prior.now) (written operand.now) depth form.entry
            (findings errors.old.items)
            ≡ (answer_of r, findings errors.new.items)) }
    {
        let expected = form.expected();
        let (part, base) = self.type_base(prior, depth + 1, expected, operand, errors)?;
        let mut base = base;
        let answer = self
            .env
            .one_answer(prior, loc, form, &mut base, part, errors)?;
        Ok(answer)
    }

    /// Types a part that has an expected type, and gives the part as a base of accesses too. The base of an access comes from
    /// that of its own operand, so that digests are carried along a chain, for example `a.b.c`.
    #[cycle(typing)]
    fn type_base<'a>(
        &self,
        prior: &Prior<'_, 'a>,
        depth: usize,
        expected: Expected<'_>,
        e: &'a Expr,
        errors: &mut Vec<ValidationError>,
    ) -> Result<(Option<Part<'a>>, DigestedBase<'a>), AllocError>
        ensures typed { IfOk result (λ r.
            expect (setting_at C.refusal self.now).env (expected_types expected.entry)
            (place_of (written e.now))
            (infer (setting_at C.refusal self.now) (written e.now) (known_in prior.now) depth
            (findings errors.old.items))
            ≡ (option_map part_of r.0, findings errors.new.items)) }
        ensures base { IfOk result (λ r. expr_in r.1 ≡ e.now) }
    {
        match &e.kind {
            // a base that is too deep is left to `type_part`, which answers the limit
            ExprKind::GetAttr(owner, attr) if depth <= MAX_TYPED_DEPTH => {
                let form = OneOperand::Get(attr);
                let asked = form.expected();
                let (part, base) = self.type_base(prior, depth + 1, asked, owner, errors)?;
                let mut base = base;
                let answer = self
                    .env
                    .one_answer(prior, e.loc, form, &mut base, part, errors)?;
                let part = self.env.expect(expected, e.loc, answer, errors)?;
                Ok((part, base.access(e, attr)))
            }
            _ => {
                let part = self.type_part(prior, depth, expected, e, errors)?;
                Ok((part, DigestedBase::new(e)))
            }
        }
    }
}

impl TypeEnv<'_, '_, '_, '_> {
    /// The answer for a form with one operand, at `loc`, from the typed operand.
    ///
    /// This function is never inlined, because two functions of the recursion call it, and its locals would enlarge both of their
    /// frames.
    #[inline(never)]
    fn one_answer<'a>(
        &self,
        prior: &Prior<'_, 'a>,
        loc: Option<Loc>,
        form: OneOperand<'a>,
        base: &mut DigestedBase<'a>,
        part: Option<Part<'a>>,
        errors: &mut Vec<ValidationError>,
    ) -> Result<TypecheckAnswer<'a>, AllocError>
        ensures typed { IfOk result (λ r.
            infer_of_one (form_of_one (env_at self.now) (mark_of_one loc form.entry)
            (known_in prior.now) (written (expr_in base.old)) form.entry)
            (option_map part_of part.entry) (findings errors.old.items)
            ≡ (answer_of r, findings errors.new.items)) }
        ensures kept { expr_in base.new ≡ expr_in base.old }
    {
        let Some(part) = part else {
            return Ok(TypecheckAnswer::RecursionLimit);
        };
        match self.decide_one(prior, loc, form, base, &part.typed.annotation)? {
            Decision::Gives(ty, capabilities) => {
                let typed = form.node(self.alloc, loc, Some(ty), part.typed)?;
                Ok(with_capabilities(part.succeeded, typed, capabilities))
            }
            Decision::Refuses(ty, found) => {
                add_errors(errors, found)?;
                let typed = form.node(self.alloc, loc, ty, part.typed)?;
                Ok(TypecheckAnswer::fail(typed))
            }
        }
    }

    /// The decision of the form's table by the type of its operand.
    fn decide_one<'a>(
        &self,
        prior: &Prior<'_, 'a>,
        loc: Option<Loc>,
        form: OneOperand<'a>,
        base: &mut DigestedBase<'a>,
        found: &Option<CedarType>,
    ) -> Result<Decision<'a>, AllocError>
        ensures decides { IfOk result (λ d. decision_of d
            ≡ (form_of_one (env_at self.now) (mark_of_one loc form.entry) (known_in prior.now)
            (written (expr_in base.old)) form.entry).decides
            (option_map ty_of found.now ∷ [])) }
        ensures kept { expr_in base.new ≡ expr_in base.old }
    {
        match form {
            OneOperand::Unary(UnaryOp::Not) => Ok(decide_not(self.alloc, found)),
            OneOperand::Unary(UnaryOp::Neg) => Ok(gives(self.alloc, CedarType::Long)),
            OneOperand::Unary(UnaryOp::IsEmpty) => Ok(gives(self.alloc, any_bool())),
            OneOperand::Has(attr) => self.decide_has(prior, base, attr, found),
            OneOperand::Get(attr) => self.decide_get(prior, loc, base, attr, found),
            OneOperand::Like(_) => Ok(gives(self.alloc, any_bool())),
            OneOperand::Is(entity_type) => Ok(decide_is(self.alloc, entity_type, found)),
            OneOperand::Chain(chain) => self.decide_chain(prior, loc, base.expr(), chain, found),
        }
    }
}
