//! The answer of typing one expression.
ghost use Rattle.std.specs.Prelude.{◌≡◌, ◌↔◌, IsTrue, IfOk, Some, option_map};
ghost use Rattle.cedar_types.specs.Types.{ty_of};
ghost use Rattle.cedar_typing.specs.Answer.{SucceedsWithNone, is_success, typed_expr_of, type_of_answer, failed, failed_unless, OnSuccess, MapsCapability, OnHanded, ThenTypechecks};
ghost use Rattle.cedar_typing.specs.Infer.Parts.{part_from};
ghost use Rattle.cedar_typing.specs.Views.{BecomesPart, answer_of, part_of};

use cedar_types::base::type_laws::equal_types;
use cedar_types::base::{CedarType, Expr};
use cedar_types::types::capability::CapabilitySet;
use std::alloc::{AllocError, Global};

/// The answer of typing an expression. A typed expression has at each node the type that was found, if one was. It is boxed,
/// so that an answer is small: typing hands it on from part to whole, and a part becomes the whole's without a move.
#[derive(Debug, Drop)]
pub enum TypecheckAnswer<'a> {
    /// The expression is typed. Where it evaluates to true, the capabilities hold.
    TypecheckSuccess {
        expr_type: Box<Expr<Option<CedarType>>>,
        expr_capability: CapabilitySet<'a>,
    },
    /// The expression has failed. Its root may still have a type, with which the expression around it goes on, so that one
    /// run shows all errors.
    TypecheckFail {
        expr_recovery_type: Box<Expr<Option<CedarType>>>,
    },
    /// A part that is visited is nested deeper than `MAX_TYPED_DEPTH`, and nothing is known of the expression.
    RecursionLimit,
}

/// A typed part of the expression that is being typed: its answer as it is handed on to the whole.
#[derive(Drop)]
pub(crate) struct Part<'a> {
    pub typed: Box<Expr<Option<CedarType>>>,
    pub capabilities: CapabilitySet<'a>,
    /// Whether the answer was a success.
    pub succeeded: bool,
}

impl<'a> TypecheckAnswer<'a> {
    /// A success with this typed expression, without capabilities. It takes no memory.
    pub fn success(alloc: Global, expr_type: Box<Expr<Option<CedarType>>>) -> TypecheckAnswer<'a>
        ensures { SucceedsWithNone expr_type result }
    {
        TypecheckAnswer::TypecheckSuccess {
            expr_type,
            expr_capability: CapabilitySet::new(alloc),
        }
    }

    /// A success with this typed expression and these capabilities.
    pub fn success_with_capability(
        expr_type: Box<Expr<Option<CedarType>>>,
        expr_capability: CapabilitySet<'a>,
    ) -> TypecheckAnswer<'a>
        ensures { result ≡ TypecheckAnswer.TypecheckSuccess expr_type expr_capability.entry }
    {
        TypecheckAnswer::TypecheckSuccess {
            expr_type,
            expr_capability,
        }
    }

    /// A failure with this typed expression, whose root may lack a type.
    pub fn fail(expr_type: Box<Expr<Option<CedarType>>>) -> TypecheckAnswer<'a>
        ensures { result ≡ TypecheckAnswer.TypecheckFail expr_type }
    {
        TypecheckAnswer::TypecheckFail {
            expr_recovery_type: expr_type,
        }
    }

    /// Whether the root of the typed expression has this type. The limit has no typed expression, so its answer is `false`.
    pub fn contains_type(&self, ty: &CedarType) -> bool
        ensures { IsTrue result ↔ (type_of_answer self.now ≡ Some (ty_of ty.now)) }
    {
        match self {
            TypecheckAnswer::TypecheckSuccess { expr_type, .. } => has_type(expr_type, ty),
            TypecheckAnswer::TypecheckFail { expr_recovery_type } => {
                has_type(expr_recovery_type, ty)
            }
            TypecheckAnswer::RecursionLimit => false,
        }
    }

    /// The typed expression of a success or of a failure. The limit has none.
    pub fn into_typed_expr(self) -> Option<Box<Expr<Option<CedarType>>>>
        ensures { result ≡ typed_expr_of self.entry }
    {
        match self {
            TypecheckAnswer::TypecheckSuccess { expr_type, .. } => Some(expr_type),
            TypecheckAnswer::TypecheckFail { expr_recovery_type } => Some(expr_recovery_type),
            TypecheckAnswer::RecursionLimit => None,
        }
    }

    /// Whether the answer is a success.
    pub fn typechecked(&self) -> bool
        ensures { result ≡ is_success self.now }
    {
        match self {
            TypecheckAnswer::TypecheckSuccess { .. } => true,
            TypecheckAnswer::TypecheckFail { .. } => false,
            TypecheckAnswer::RecursionLimit => false,
        }
    }

    /// The answer as a failure with its typed expression. The limit stays.
    pub fn into_fail(self) -> TypecheckAnswer<'a>
        ensures { result ≡ failed self.entry }
    {
        match self {
            TypecheckAnswer::TypecheckSuccess { expr_type, .. } => TypecheckAnswer::fail(expr_type),
            TypecheckAnswer::TypecheckFail { .. } => self,
            TypecheckAnswer::RecursionLimit => self,
        }
    }

    /// The answer in which the capabilities of a success are replaced by those that `f` makes of them. On a failure and on
    /// the limit `f` is not called. Where `f` answers an `AllocError`, so does this call.
    pub fn map_capability<F>(self, f: F) -> Result<TypecheckAnswer<'a>, AllocError>
    where
        F: FnOnce(CapabilitySet<'a>) -> Result<CapabilitySet<'a>, AllocError>,
        requires { OnSuccess self (F.pre f) }
        ensures { MapsCapability self.entry (F.post f) result }
    {
        match self {
            TypecheckAnswer::TypecheckSuccess {
                expr_type,
                expr_capability,
            } => Ok(TypecheckAnswer::TypecheckSuccess {
                expr_type,
                expr_capability: f(expr_capability)?,
            }),
            TypecheckAnswer::TypecheckFail { .. } => Ok(self),
            TypecheckAnswer::RecursionLimit => Ok(self),
        }
    }

    /// The answer of `f` for the typed expression and the capabilities of a success. For a failure, `f` gets its typed
    /// expression and no capabilities, and its answer is made a failure. The limit stays, and `f` is not called. Where `f`
    /// answers an `AllocError`, so does this call.
    pub fn then_typecheck<F>(self, alloc: Global, f: F) -> Result<TypecheckAnswer<'a>, AllocError>
    where
        F: FnOnce(
            Box<Expr<Option<CedarType>>>,
            CapabilitySet<'a>,
        ) -> Result<TypecheckAnswer<'a>, AllocError>,
        requires { OnHanded self (F.pre f) }
        ensures { ThenTypechecks self.entry (F.post f) result }
    {
        match self {
            TypecheckAnswer::TypecheckSuccess {
                expr_type,
                expr_capability,
            } => f(expr_type, expr_capability),
            TypecheckAnswer::TypecheckFail { expr_recovery_type } => {
                // a failure hands on no capabilities, because nothing follows from it
                let answer = f(expr_recovery_type, CapabilitySet::new(alloc))?;
                Ok(answer.into_fail())
            }
            TypecheckAnswer::RecursionLimit => Ok(TypecheckAnswer::RecursionLimit),
        }
    }

    /// What the answer hands on: a failure no capabilities, the limit nothing. It takes no memory.
    pub(crate) fn into_part(self, alloc: Global) -> Option<Part<'a>>
        ensures handed { BecomesPart self.entry result }
        ensures seen { option_map part_of result ≡ part_from (answer_of self.entry) }
    {
        match self {
            TypecheckAnswer::TypecheckSuccess {
                expr_type,
                expr_capability,
            } => Some(Part {
                typed: expr_type,
                capabilities: expr_capability,
                succeeded: true,
            }),
            // nothing follows from a failure, so it hands on no capabilities
            TypecheckAnswer::TypecheckFail { expr_recovery_type } => Some(Part {
                typed: expr_recovery_type,
                capabilities: CapabilitySet::new(alloc),
                succeeded: false,
            }),
            TypecheckAnswer::RecursionLimit => None,
        }
    }

    /// The answer as it is if `succeeded`, otherwise made a failure.
    pub(crate) fn fail_unless(self, succeeded: bool) -> TypecheckAnswer<'a>
        ensures { result ≡ failed_unless succeeded self.entry }
    {
        if succeeded { self } else { self.into_fail() }
    }
}

fn has_type(typed: &Expr<Option<CedarType>>, ty: &CedarType) -> bool
    ensures { IsTrue result
        ↔ (option_map ty_of typed.now.annotation ≡ Some (ty_of ty.now)) }
{
    match &typed.annotation {
        Some(found) => equal_types(found, ty),
        None => false,
    }
}
