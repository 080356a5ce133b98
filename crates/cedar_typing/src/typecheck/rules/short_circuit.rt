// The rules of `&&` and `||`.
ghost use Rattle.std.specs.Prelude.{◌≡◌, ◌≤◌, Some, IfOk, option_map};
ghost use Rattle.cedar_types.specs.Types.{ty_of};
ghost use Rattle.cedar_types.specs.Expressions.View.{written};
ghost use Rattle.cedar_types.specs.Capability.{caps};
ghost use Rattle.cedar_typing.specs.Infer.Parts.{answer_if};
ghost use Rattle.cedar_typing.specs.Infer.ShortCircuit.{infer_sides};
ghost use Rattle.cedar_typing.specs.Judgments.{max_nesting};
ghost use Rattle.cedar_typing.specs.Rules.ShortCircuit.{side_of, type_of_side};
ghost use Rattle.cedar_typing.specs.TypeTests.{annotation_passes};
ghost use Rattle.cedar_typing.specs.TypedExpr.{annotation, at_place, typed, typed_tree};
ghost use Rattle.cedar_typing.specs.Views.Settings.{setting_at, infer_connective};
ghost use Rattle.cedar_typing.specs.Views.{answer_of, part_of, findings, at, connective_of, side_seen};
ghost use Rattle.cedar_typing.specs.Capabilities.Priors.{known_in};

use crate::typecheck::answer::{Part, TypecheckAnswer};
use crate::typecheck::capabilities::{intersection_of, no_capabilities, union_of};
use crate::typecheck::operands::Expected;
use crate::typecheck::prior::Prior;
use crate::typecheck::rules::decisions::Operands;
use crate::typecheck::single_env::SingleEnvTypechecker;
use crate::typecheck::type_env::TypeEnv;
use crate::typecheck::type_tests::{any_bool, is_false_type, is_true_type};
use crate::typecheck::typed_nodes::{at_place, node, with_capabilities};
use cedar_types::base::{ArgumentCheck, CedarType, Expr, ExprKind, Loc, ValidationError};
use cedar_types::types::capability::CapabilitySet;
use std::alloc::{AllocError, Global};

/// `&&` or `||`.
#[derive(Clone, Copy)]
pub(crate) enum Connective {
    And,
    Or,
}

/// The side that gives the whole its type.
#[derive(Clone, Copy)]
pub(crate) enum Side {
    /// The right side, because it ends the whole.
    RightEnds,
    /// The left side, because the right one changes nothing.
    LeftAlone,
    /// The right side, because the left one changes nothing.
    RightAlone,
    /// No side: the whole is Bool.
    Neither,
}

impl Connective {
    /// Whether a side of this type ends the whole: False ends `&&`, and True ends `||`.
    fn ends(self, ty: &CedarType) -> bool
        ensures { result ≡ (connective_of self).ends (ty_of ty.now) }
    {
        match self {
            Connective::And => is_false_type(ty),
            Connective::Or => is_true_type(ty),
        }
    }

    /// Whether a side of this type leaves the value to the other side: True does in `&&`, and False in `||`.
    fn changes_nothing(self, ty: &CedarType) -> bool
        ensures { result ≡ (connective_of self).changes_nothing (ty_of ty.now) }
    {
        match self {
            Connective::And => is_true_type(ty),
            Connective::Or => is_false_type(ty),
        }
    }

    #[tactic(auto, using(crate::proofs::Views::Typed::annotation_is))]
    fn ends_with(self, typed: &Expr<Option<CedarType>>) -> bool
        ensures { result
            ≡ annotation_passes (connective_of self).ends (annotation (typed_tree typed.now)) }
    {
        match &typed.annotation {
            Some(ty) => self.ends(ty),
            None => false,
        }
    }

    fn side(self, left: &CedarType, right: &CedarType) -> Side
        ensures { side_seen result
            ≡ side_of (connective_of self) (ty_of left.now) (ty_of right.now) }
    {
        if self.ends(right) {
            return Side::RightEnds;
        }
        if self.changes_nothing(right) {
            return Side::LeftAlone;
        }
        if self.changes_nothing(left) {
            return Side::RightAlone;
        }
        Side::Neither
    }

    /// The capabilities that are known on the right. `b` of `a && b` is evaluated only if `a` is true, so `b` may use
    /// the capabilities of `a`; `b` of `a || b` only if `a` is false, so it may not. For example, `principal has x &&
    /// principal.x` is fine, and with `||` it is an error.
    fn known_on_right<'x, 'a>(
        self,
        prior: &'x Prior<'x, 'a>,
        left: &'x CapabilitySet<'a>,
    ) -> Prior<'x, 'a>
        ensures { known_in result
            ≡ (connective_of self).right_prior (known_in prior.now) (caps left.now) }
    {
        match self {
            Connective::And => prior.with(left),
            Connective::Or => *prior,
        }
    }

    /// The capabilities that a whole produces if its left side ends it.
    fn ended_capabilities<'a>(self, alloc: Global, left: CapabilitySet<'a>) -> CapabilitySet<'a>
        ensures { caps result ≡ (connective_of self).ended_caps (caps left.entry) }
    {
        match self {
            // the whole is never true then, so nothing follows from it
            Connective::And => no_capabilities(alloc),
            Connective::Or => left,
        }
    }

    /// The capabilities that a whole produces if its right side is typed too.
    fn capabilities<'a>(
        self,
        alloc: Global,
        side: Side,
        left: CapabilitySet<'a>,
        right: CapabilitySet<'a>,
    ) -> Result<CapabilitySet<'a>, AllocError>
        ensures { IfOk result (λ c. caps c
            ≡ (connective_of self).side_caps (side_seen side) (caps left.entry) (caps right.entry)) }
    {
        // a True side's capabilities hold even where the side is not evaluated; beside a False side, `||` is true
        // because of the other side; else either side may be the reason, so only the capabilities of both hold
        match (self, side) {
            (Connective::And, Side::RightEnds) => Ok(no_capabilities(alloc)),
            (Connective::And, Side::LeftAlone) => union_of(left, right),
            (Connective::And, Side::RightAlone) => union_of(left, right),
            (Connective::And, Side::Neither) => union_of(left, right),
            (Connective::Or, Side::LeftAlone) => Ok(left),
            (Connective::Or, Side::RightEnds) => Ok(right),
            (Connective::Or, Side::RightAlone) => Ok(right),
            (Connective::Or, Side::Neither) => intersection_of(alloc, &left, &right),
        }
    }

    /// The form itself, on typed sides.
    fn kind(
        self,
        left: Box<Expr<Option<CedarType>>>,
        right: Box<Expr<Option<CedarType>>>,
    ) -> ExprKind<Option<CedarType>>
        ensures { (ty : _) → (loc : _)
            → typed_tree (record { annotation = Some ty; loc = loc; kind = result })
            ≡ (connective_of self).node (typed (ty_of ty) (at loc)) (typed_tree left.value)
            (typed_tree right.value) }
    {
        match self {
            Connective::And => ExprKind::And(left, right),
            Connective::Or => ExprKind::Or(left, right),
        }
    }
}

impl<C: ArgumentCheck> SingleEnvTypechecker<'_, '_, '_, '_, C> {
    /// Types `&&` or `||`, at `loc`.
    #[cycle(typing)]
    #[inline(never)]
    pub(crate) fn type_short_circuit<'a>(
        &self,
        prior: &Prior<'_, 'a>,
        depth: usize,
        loc: Option<Loc>,
        connective: Connective,
        operands: Operands<'a>,
        errors: &mut Vec<ValidationError>,
    ) -> Result<TypecheckAnswer<'a>, AllocError>
        requires { depth ≤ max_nesting }
        ensures { IfOk result (λ r.
            infer_connective (setting_at C.refusal self.now) (connective_of connective) (at loc)
            (written operands.entry.left.now) (written operands.entry.right.now)
            (known_in prior.now) depth (findings errors.old.items)
            ≡ (answer_of r, findings errors.new.items)) }
    {
        let Operands { left, right } = operands;
        let Some(left) = self.type_part(prior, depth + 1, Expected::Bool, left, errors)? else {
            return Ok(TypecheckAnswer::RecursionLimit);
        };
        // the right side is never evaluated then, so it is not typed, and nothing in it is an error
        if connective.ends_with(&left.typed) {
            return Ok(self.env.ended_answer(loc, connective, left));
        }
        let known = connective.known_on_right(&*prior, &left.capabilities);
        let part = self.type_part(&known, depth + 1, Expected::Bool, right, errors)?;
        let Some(right) = part else {
            return Ok(TypecheckAnswer::RecursionLimit);
        };
        self.env.sides_answer(loc, connective, left, right)
    }
}

impl TypeEnv<'_, '_, '_, '_> {
    /// The answer for a whole that its left side ends: that side, at the place of the whole.
    #[inline(never)]
    fn ended_answer<'a>(
        &self,
        loc: Option<Loc>,
        connective: Connective,
        left: Part<'a>,
    ) -> TypecheckAnswer<'a>
        ensures { answer_of result
            ≡ answer_if left.entry.succeeded (at_place loc (typed_tree left.entry.typed.value))
            ((connective_of connective).ended_caps (caps left.entry.capabilities)) }
    {
        let succeeded = left.succeeded;
        // the right side is dropped, because it is never evaluated, and the left one takes the place of the whole
        let typed = at_place(left.typed, loc);
        let capabilities = connective.ended_capabilities(self.alloc, left.capabilities);
        with_capabilities(succeeded, typed, capabilities)
    }

    /// The answer for `&&` or `||` at `loc`, from two typed sides of which the left does not end the whole.
    #[tactic(auto, using(crate::proofs::Views::Typed::annotation_is))]
    #[inline(never)]
    fn sides_answer<'a>(
        &self,
        loc: Option<Loc>,
        connective: Connective,
        left: Part<'a>,
        right: Part<'a>,
    ) -> Result<TypecheckAnswer<'a>, AllocError>
        ensures { IfOk result (λ r. answer_of r
            ≡ infer_sides (connective_of connective) (at loc) (part_of left.entry)
            (part_of right.entry)
            (annotation (typed_tree left.entry.typed.value))
            (annotation (typed_tree right.entry.typed.value))) }
    {
        match (&left.typed.annotation, &right.typed.annotation) {
            (Some(one), Some(other)) => {
                let side = connective.side(one, other);
                let ty = type_by_side(side, one, other)?;
                let produced = connective.capabilities(
                    self.alloc,
                    side,
                    left.capabilities,
                    right.capabilities,
                )?;
                // failed sides still give the whole a type, so that one run shows all errors
                let succeeded = left.succeeded & right.succeeded;
                let kind = connective.kind(left.typed, right.typed);
                let typed = node(self.alloc, loc, Some(ty), kind)?;
                Ok(with_capabilities(succeeded, typed, produced))
            }
            // a side without a type has failed already, and the whole is still a Boolean
            _ => {
                let kind = connective.kind(left.typed, right.typed);
                let typed = node(self.alloc, loc, Some(any_bool()), kind)?;
                Ok(TypecheckAnswer::fail(typed))
            }
        }
    }
}

/// The type of the whole, by the side that gives it.
fn type_by_side(side: Side, left: &CedarType, right: &CedarType) -> Result<CedarType, AllocError>
    ensures { IfOk result (λ t.
        ty_of t
        ≡ type_of_side (side_seen side) (ty_of left.now) (ty_of right.now)) }
{
    match side {
        Side::LeftAlone => CedarType::clone(left),
        Side::RightEnds => CedarType::clone(right),
        Side::RightAlone => CedarType::clone(right),
        Side::Neither => Ok(any_bool()),
    }
}
