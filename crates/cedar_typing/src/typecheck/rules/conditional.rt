// `if`.
ghost use Rattle.std.specs.Prelude.{◌≡◌, ◌≤◌, ◌++◌, IfOk, option_map};
ghost use Rattle.cedar_types.specs.declared.base.errors.type_errors.LubContext.TheVariants.{Conditional};
ghost use Rattle.cedar_types.specs.Types.{ty_of};
ghost use Rattle.cedar_types.specs.Expressions.Tree.{if_then_else};
ghost use Rattle.cedar_types.specs.Expressions.View.{written};
ghost use Rattle.cedar_types.specs.Types.Bounds.{lub};
ghost use Rattle.cedar_types.specs.Capability.{caps};
ghost use Rattle.cedar_typing.specs.Capabilities.{union};
ghost use Rattle.cedar_typing.specs.Infer.{infer_within};
ghost use Rattle.cedar_typing.specs.Infer.Conditional.{infer_constant_test, infer_open_test, infer_open_parts};
ghost use Rattle.cedar_typing.specs.TypeTests.Joins.{joined, join_errors, bound_errors};
ghost use Rattle.cedar_typing.specs.Judgments.{max_nesting};
ghost use Rattle.cedar_typing.specs.TypedExpr.{annotation, typed_tree, typed_as};
ghost use Rattle.cedar_typing.specs.Views.Settings.{setting_at};
ghost use Rattle.cedar_typing.specs.Views.{env_at, answer_of, part_of, findings, at};
ghost use Rattle.cedar_typing.specs.Capabilities.Priors.{known_in};

use crate::typecheck::answer::{Part, TypecheckAnswer};
use crate::typecheck::capabilities::{intersection_of, union_of};
use crate::typecheck::operands::Expected;
use crate::typecheck::prior::Prior;
use crate::typecheck::rules::decisions::Branches;
use crate::typecheck::single_env::SingleEnvTypechecker;
use crate::typecheck::type_env::TypeEnv;
use crate::typecheck::type_tests::{is_typed_false, is_typed_true};
use crate::typecheck::typed_nodes::{node, with_capabilities};
use cedar_types::base::{
    ArgumentCheck, CedarType, Expr, ExprKind, Loc, LubContext, ValidationError,
};
use cedar_types::types::capability::CapabilitySet;
use std::alloc::{AllocError, Global};
use std::rc::Rc;

impl<C: ArgumentCheck> SingleEnvTypechecker<'_, '_, '_, '_, C> {
    /// `if` at `loc`.
    #[cycle(typing)]
    #[inline(never)]
    pub(crate) fn type_if<'a>(
        &self,
        prior: &Prior<'_, 'a>,
        depth: usize,
        loc: Option<Loc>,
        test: &'a Expr,
        branches: Branches<'a>,
        errors: &mut Vec<ValidationError>,
    ) -> Result<TypecheckAnswer<'a>, AllocError>
        requires { depth ≤ max_nesting }
        ensures { IfOk result (λ r.
            infer_within (setting_at C.refusal self.now)
            (if_then_else (at loc) (written test.now) (written branches.entry.then_expr.now)
            (written branches.entry.else_expr.now))
            (known_in prior.now) depth (findings errors.old.items)
            ≡ (answer_of r, findings errors.new.items)) }
    {
        let Some(test) = self.type_part(prior, depth + 1, Expected::Bool, test, errors)? else {
            return Ok(TypecheckAnswer::RecursionLimit);
        };
        // the other branch is never evaluated, so it is not typed, and nothing in it is an error
        if is_typed_true(&test.typed) {
            let known = (&*prior).with(&test.capabilities);
            let branch = self.typecheck(&known, depth + 1, branches.then_expr, errors)?;
            let Some(branch) = branch.into_part(self.env.alloc) else {
                return Ok(TypecheckAnswer::RecursionLimit);
            };
            let answer = true_test_answer(self.env.alloc, loc, test, branch)?;
            return Ok(answer);
        }
        if is_typed_false(&test.typed) {
            let branch = self.typecheck(prior, depth + 1, branches.else_expr, errors)?;
            let Some(branch) = branch.into_part(self.env.alloc) else {
                return Ok(TypecheckAnswer::RecursionLimit);
            };
            let answer = false_test_answer(self.env.alloc, loc, test, branch)?;
            return Ok(answer);
        }
        // where this branch is evaluated, the test was true
        let known = (&*prior).with(&test.capabilities);
        let one = self.typecheck(&known, depth + 1, branches.then_expr, errors)?;
        // a branch that is nested too deep does not hide what is wrong in the other
        let one = one.into_part(self.env.alloc);
        let other = self.typecheck(prior, depth + 1, branches.else_expr, errors)?;
        let other = other.into_part(self.env.alloc);
        self.env.open_test_answer(loc, test, one, other, errors)
    }
}

impl TypeEnv<'_, '_, '_, '_> {
    /// `if` at `loc`, where the test is open and both branches were typed.
    fn open_test_answer<'a>(
        &self,
        loc: Option<Loc>,
        test: Part<'a>,
        one: Option<Part<'a>>,
        other: Option<Part<'a>>,
        errors: &mut Vec<ValidationError>,
    ) -> Result<TypecheckAnswer<'a>, AllocError>
        ensures { IfOk result (λ r.
            infer_open_parts (env_at self.now) (at loc) (part_of test.entry)
            (option_map part_of one.entry) (option_map part_of other.entry)
            (findings errors.old.items)
            ≡ (answer_of r, findings errors.new.items)) }
    {
        let Some(one) = one else {
            return Ok(TypecheckAnswer::RecursionLimit);
        };
        let Some(other) = other else {
            return Ok(TypecheckAnswer::RecursionLimit);
        };
        self.open_test_parts(loc, test, one, other, errors)
    }

    #[tactic(auto, using(crate::proofs::Views::Typed::annotation_is))]
    #[inline(never)]
    fn open_test_parts<'a>(
        &self,
        loc: Option<Loc>,
        test: Part<'a>,
        one: Part<'a>,
        other: Part<'a>,
        errors: &mut Vec<ValidationError>,
    ) -> Result<TypecheckAnswer<'a>, AllocError>
        ensures { IfOk result (λ r.
            infer_open_test (env_at self.now) (at loc) (part_of test.entry) (part_of one.entry)
            (part_of other.entry) (findings errors.old.items)
            ≡ (answer_of r, findings errors.new.items)) }
    {
        let ty = self.joined_type(loc, &one.typed.annotation, &other.typed.annotation, errors)?;
        let succeeded = test.succeeded & one.succeeded & other.succeeded & ty.is_some();
        let known = union_of(test.capabilities, one.capabilities)?;
        // either branch may be taken, so only what both say holds, the first with the test behind it
        let capabilities = intersection_of(self.alloc, &other.capabilities, &known)?;
        let then_expr = Rc::new(self.alloc, Box::into_inner(one.typed))?;
        let else_expr = Rc::new(self.alloc, Box::into_inner(other.typed))?;
        let typed = if_node(self.alloc, loc, ty, test.typed, then_expr, else_expr)?;
        Ok(with_capabilities(succeeded, typed, capabilities))
    }

    /// The bound of the types of both branches, if both have one, and an error at `loc` where those have none.
    fn joined_type(
        &self,
        loc: Option<Loc>,
        one: &Option<CedarType>,
        other: &Option<CedarType>,
        errors: &mut Vec<ValidationError>,
    ) -> Result<Option<CedarType>, AllocError>
        ensures bound { IfOk result (λ o.
            option_map ty_of o
            ≡ joined (env_at self.now).mode (option_map ty_of one.now)
            (option_map ty_of other.now)) }
        ensures reported { IfOk result (λ o.
            findings errors.new.items
            ≡ findings errors.old.items
            ++ join_errors (env_at self.now) loc Conditional (option_map ty_of one.now)
            (option_map ty_of other.now)) }
    {
        let Some(one) = one else {
            return Ok(None);
        };
        let Some(other) = other else {
            return Ok(None);
        };
        self.bound_type(loc, one, other, errors)
    }

    fn bound_type(
        &self,
        loc: Option<Loc>,
        one: &CedarType,
        other: &CedarType,
        errors: &mut Vec<ValidationError>,
    ) -> Result<Option<CedarType>, AllocError>
        ensures bound { IfOk result (λ o.
            option_map ty_of o
            ≡ lub (env_at self.now).mode (ty_of one.now) (ty_of other.now)) }
        ensures reported { IfOk result (λ o.
            findings errors.new.items
            ≡ findings errors.old.items
            ++ bound_errors (env_at self.now) loc Conditional (ty_of one.now) (ty_of other.now)
            (lub (env_at self.now).mode (ty_of one.now) (ty_of other.now))) }
    {
        let bound = CedarType::least_upper_bound(self.alloc, one, other, self.mode)?;
        match bound {
            Some(ty) => Ok(Some(ty)),
            None => {
                errors.push(self.incompatible(loc, LubContext::Conditional, one, other)?)?;
                Ok(None)
            }
        }
    }
}

/// `if` at `loc` whose test is True: the first branch stands for both, and hands on what the test knows too.
#[inline(never)]
fn true_test_answer<'a>(
    alloc: Global,
    loc: Option<Loc>,
    test: Part<'a>,
    branch: Part<'a>,
) -> Result<TypecheckAnswer<'a>, AllocError>
    ensures { IfOk result (λ r.
        answer_of r
        ≡ infer_constant_test (at loc) (part_of test.entry) (part_of branch.entry)
        (union (caps test.entry.capabilities) (caps branch.entry.capabilities))) }
{
    let succeeded = test.succeeded & branch.succeeded;
    let known = union_of(test.capabilities, branch.capabilities)?;
    let typed = constant_test_node(alloc, loc, test.typed, branch.typed)?;
    Ok(with_capabilities(succeeded, typed, known))
}

/// `if` at `loc` whose test is False: the second branch stands for both.
#[inline(never)]
fn false_test_answer<'a>(
    alloc: Global,
    loc: Option<Loc>,
    test: Part<'a>,
    branch: Part<'a>,
) -> Result<TypecheckAnswer<'a>, AllocError>
    ensures { IfOk result (λ r.
        answer_of r
        ≡ infer_constant_test (at loc) (part_of test.entry) (part_of branch.entry)
        (caps branch.entry.capabilities)) }
{
    let succeeded = test.succeeded & branch.succeeded;
    let typed = constant_test_node(alloc, loc, test.typed, branch.typed)?;
    Ok(with_capabilities(succeeded, typed, branch.capabilities))
}

/// One branch that stands for both, which share it.
#[tactic(auto, using(crate::proofs::Views::Typed::annotation_is))]
fn constant_test_node(
    alloc: Global,
    loc: Option<Loc>,
    test: Box<Expr<Option<CedarType>>>,
    branch: Box<Expr<Option<CedarType>>>,
) -> Result<Box<Expr<Option<CedarType>>>, AllocError>
    ensures { IfOk result (λ e.
        typed_tree e.value
        ≡ if_then_else (typed_as (annotation (typed_tree branch.value)) (at loc))
        (typed_tree test.value)
        (typed_tree branch.value) (typed_tree branch.value)) }
{
    let ty = same_type(&branch.annotation)?;
    // the branch that was not typed has no typed copy, and a walk over the tree must meet no other node
    let then_expr = Rc::new(alloc, Box::into_inner(branch))?;
    let else_expr = then_expr.clone()?;
    if_node(alloc, loc, ty, test, then_expr, else_expr)
}

/// `if` with these typed parts.
fn if_node(
    alloc: Global,
    loc: Option<Loc>,
    ty: Option<CedarType>,
    test_expr: Box<Expr<Option<CedarType>>>,
    then_expr: Rc<Expr<Option<CedarType>>>,
    else_expr: Rc<Expr<Option<CedarType>>>,
) -> Result<Box<Expr<Option<CedarType>>>, AllocError>
    ensures { IfOk result (λ e.
        typed_tree e.value
        ≡ if_then_else (typed_as (option_map ty_of ty) (at loc)) (typed_tree test_expr.value)
        (typed_tree then_expr.value) (typed_tree else_expr.value)) }
{
    let kind = ExprKind::If {
        test_expr,
        then_expr,
        else_expr,
    };
    node(alloc, loc, ty, kind)
}

fn same_type(ty: &Option<CedarType>) -> Result<Option<CedarType>, AllocError>
    ensures { IfOk result (λ o. option_map ty_of o ≡ option_map ty_of ty.now) }
{
    match ty {
        Some(ty) => Ok(Some(CedarType::clone(ty)?)),
        None => Ok(None),
    }
}
