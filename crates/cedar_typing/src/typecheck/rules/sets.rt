// The rule of sets: the types of the elements decide the type of the whole.
ghost use Rattle.std.specs.Prelude.{◌≡◌, ◌≤◌, ◌+◌, true, [], IfOk, map, option_map};
ghost use Rattle.cedar_types.specs.declared.base.errors.type_errors.LubContext.TheVariants as context;
ghost use Rattle.cedar_types.specs.Capability.{caps};
ghost use Rattle.cedar_types.specs.Errors.{finding_of, incompatible_types};
ghost use Rattle.cedar_types.specs.Expressions.Tree.{set_of};
ghost use Rattle.cedar_types.specs.Types.Order.{in_order};
ghost use Rattle.cedar_types.specs.Types.{ty_of};
ghost use Rattle.cedar_types.specs.Expressions.View.{trees_of, written};
ghost use Rattle.cedar_typing.specs.Eager.{types_found};
ghost use Rattle.cedar_typing.specs.Infer.{infer_all, infer_within};
ghost use Rattle.cedar_typing.specs.Infer.Eager.{all_typed, infer_decided, infer_form};
ghost use Rattle.cedar_typing.specs.Judgments.{max_nesting};
ghost use Rattle.cedar_typing.specs.Rules.Sets.{all_types, errors_of, set_decides, set_form, set_of_types};
ghost use Rattle.cedar_typing.specs.Capabilities.Priors.{known_in};
ghost use Rattle.cedar_typing.specs.Views.Settings.{setting_at};
ghost use Rattle.cedar_typing.specs.TypeEnv.{finding};
ghost use Rattle.cedar_typing.specs.TypedExpr.{typed_as, typed_tree};
ghost use Rattle.cedar_typing.specs.Views.{answer_of, at, decision_of, env_at, findings, operands_of, part_of, with_element};

use crate::typecheck::answer::{Part, TypecheckAnswer};
use crate::typecheck::capabilities::no_capabilities;
use crate::typecheck::prior::Prior;
use crate::typecheck::rules::eager::{Decision, add_errors};
use crate::typecheck::rules::operand_list::OperandList;
use crate::typecheck::single_env::SingleEnvTypechecker;
use crate::typecheck::type_env::TypeEnv;
use crate::typecheck::typed_nodes::{node, with_capabilities};
use cedar_types::base::{
    ArgumentCheck, CedarType, Expr, ExprKind, Loc, LubContext, ValidationError, types_in_order,
};
use cedar_types::types::capability::CapabilitySet;
use std::alloc::{AllocError, Global};
use std::rc::Rc;

impl<C: ArgumentCheck> SingleEnvTypechecker<'_, '_, '_, '_, C> {
    /// Types a set, at `loc`. The elements after one that is too deep are typed too, so that their
    /// errors count.
    #[cycle(typing)]
    #[inline(never)]
    pub(crate) fn type_set<'a>(
        &self,
        prior: &Prior<'_, 'a>,
        depth: usize,
        loc: Option<Loc>,
        elements: &'a Vec<Expr>,
        errors: &mut Vec<ValidationError>,
    ) -> Result<TypecheckAnswer<'a>, AllocError>
        requires { depth ≤ max_nesting }
        ensures { IfOk result (λ r.
            infer_within (setting_at C.refusal self.now)
            (set_of (at loc) (trees_of (map written elements.now.items)))
            (known_in prior.now) depth (findings errors.old.items)
            ≡ (answer_of r, findings errors.new.items)) }
    {
        // the original types all elements before it looks at any answer
        let typed = self.type_operands(prior, depth, true, &[], elements, errors)?;
        self.env.set_answer(loc, typed, errors)
    }
}

impl TypeEnv<'_, '_, '_, '_> {
    /// The answer for a set at `loc` whose elements are typed.
    #[inline(never)]
    pub(crate) fn set_answer<'a>(
        &self,
        loc: Option<Loc>,
        elements: OperandList,
        errors: &mut Vec<ValidationError>,
    ) -> Result<TypecheckAnswer<'a>, AllocError>
        ensures { IfOk result (λ r.
            infer_form (set_form (env_at self.now) (at loc)) (operands_of elements)
            (findings errors.old.items)
            ≡ (answer_of r, findings errors.new.items)) }
    {
        if elements.is_cut {
            add_errors(errors, self.errors_before_cut(loc, &elements.typed)?)?;
            return Ok(TypecheckAnswer::RecursionLimit);
        }
        self.typed_set(loc, elements.succeeded, elements.typed, errors)
    }

    /// The answer for a set of which no element is too deep.
    fn typed_set<'a>(
        &self,
        loc: Option<Loc>,
        succeeded: bool,
        elements: Vec<Expr<Option<CedarType>>>,
        errors: &mut Vec<ValidationError>,
    ) -> Result<TypecheckAnswer<'a>, AllocError>
        ensures { IfOk result (λ r.
            infer_decided (set_form (env_at self.now) (at loc)) succeeded
            (map typed_tree elements.items) (findings errors.old.items)
            (set_decides (env_at self.now) loc (types_found (map typed_tree elements.items)))
            ≡ (answer_of r, findings errors.new.items)) }
    {
        match self.decide_set(loc, &elements)? {
            Decision::Gives(ty, capabilities) => {
                let typed = set_node(self.alloc, loc, Some(ty), elements)?;
                Ok(with_capabilities(succeeded, typed, capabilities))
            }
            Decision::Refuses(ty, found) => {
                let typed = set_node(self.alloc, loc, ty, elements)?;
                add_errors(errors, found)?;
                Ok(TypecheckAnswer::fail(typed))
            }
        }
    }

    /// The decision on a set by its elements. In Strict there must be an element.
    fn decide_set<'a>(
        &self,
        loc: Option<Loc>,
        elements: &[Expr<Option<CedarType>>],
    ) -> Result<Decision<'a>, AllocError>
        ensures { IfOk result (λ d. decision_of d
            ≡ set_decides (env_at self.now) loc (types_found (map typed_tree elements.now))) }
    {
        // an empty set does not tell the type of its members, and Strict asks for one type
        if elements.is_empty() & self.is_strict() {
            let mut errors = Vec::new(self.alloc);
            errors.push(ValidationError::empty_set_forbidden(loc, self.policy_id.clone()?))?;
            return Ok(Decision::Refuses(None, errors));
        }
        let types = types_of(self.alloc, elements)?;
        self.decide_by_types(loc, types)
    }

    /// The errors of a set beside an element that is too deep: the elements before it must have a
    /// bound all the same.
    fn errors_before_cut(
        &self,
        loc: Option<Loc>,
        elements: &[Expr<Option<CedarType>>],
    ) -> Result<Vec<ValidationError>, AllocError>
        ensures { IfOk result (λ es. findings es.items
            ≡ errors_of (set_of_types (env_at self.now) loc
            (all_types (types_found (map typed_tree elements.now))))) }
    {
        let types = types_of(self.alloc, elements)?;
        match self.decide_by_types(loc, types)? {
            Decision::Gives(_, _) => Ok(Vec::new(self.alloc)),
            Decision::Refuses(_, errors) => Ok(errors),
        }
    }

    /// The decision on a set by the types of its elements: a set of their bound, or the error that
    /// they have none. If an element has no type, the set has none either, and adds no error.
    fn decide_by_types<'a>(
        &self,
        loc: Option<Loc>,
        types: Option<Vec<&CedarType>>,
    ) -> Result<Decision<'a>, AllocError>
        ensures { IfOk result (λ d. decision_of d
            ≡ set_of_types (env_at self.now) loc
            (option_map (λ v. map (λ t. ty_of t.now) v.items) types.entry)) }
    {
        // an element without a type has failed already, so the set adds no error
        let Some(types) = types else {
            return Ok(Decision::Refuses(None, Vec::new(self.alloc)));
        };
        let bound = CedarType::reduce_to_least_upper_bound(self.alloc, &types, self.mode)?;
        match bound {
            Some(element) => {
                let ty = CedarType::Set(Rc::new(self.alloc, element)?);
                Ok(Decision::Gives(ty, no_capabilities(self.alloc)))
            }
            None => {
                let mut errors = Vec::new(self.alloc);
                errors.push(self.without_bound(loc, &types)?)?;
                Ok(Decision::Refuses(None, errors))
            }
        }
    }

    /// The error of elements whose types have no bound. It names all types.
    fn without_bound(
        &self,
        loc: Option<Loc>,
        types: &[&CedarType],
    ) -> Result<ValidationError, AllocError>
        ensures { IfOk result (λ e. finding_of e
            ≡ finding (env_at self.now) loc
            (incompatible_types (in_order (map (λ t. ty_of t.now) types.now)) context.Set)) }
    {
        let policy_id = self.policy_id.clone()?;
        let types = types_in_order(self.alloc, copies(self.alloc, types)?)?;
        Ok(ValidationError::incompatible_types(loc, policy_id, types, LubContext::Set))
    }
}

fn set_node(
    alloc: Global,
    loc: Option<Loc>,
    ty: Option<CedarType>,
    elements: Vec<Expr<Option<CedarType>>>,
) -> Result<Box<Expr<Option<CedarType>>>, AllocError>
    ensures { IfOk result (λ e. typed_tree e.value
        ≡ set_of (typed_as (option_map ty_of ty) (at loc))
        (trees_of (map typed_tree elements.items))) }
{
    node(alloc, loc, ty, ExprKind::Set(elements))
}

/// The types of the elements, if each element has one.
fn types_of<'t>(
    alloc: Global,
    elements: &'t [Expr<Option<CedarType>>],
) -> Result<Option<Vec<&'t CedarType>>, AllocError>
    ensures { IfOk result (λ o. option_map (λ v. map (λ t. ty_of t.now) v.items) o
        ≡ all_types (types_found (map typed_tree elements.now))) }
{
    let mut types = Vec::new(alloc);
    for element in elements {
        let Some(ty) = &element.annotation else {
            return Ok(None);
        };
        types.push(ty)?;
    }
    Ok(Some(types))
}

fn copies(alloc: Global, types: &[&CedarType]) -> Result<Vec<CedarType>, AllocError>
    ensures { IfOk result (λ v. map ty_of v.items ≡ map (λ t. ty_of t.now) types.now) }
{
    let mut all = Vec::new(alloc);
    for ty in types {
        all.push(CedarType::clone(ty)?)?;
    }
    Ok(all)
}
