// Expressions and their forms.
ghost use Rattle.std.specs.Prelude.{◌≡◌};

pub(crate) mod attr_chains;
mod copies;
pub(crate) mod extensions;
pub(crate) mod literals;
mod makers;
mod operator_makers;
pub(crate) mod operators;
pub(crate) mod patterns;
pub(crate) mod shapes;
pub(crate) mod subexpressions;

use crate::base::expressions::attr_chains::AttrChain;
use crate::base::expressions::literals::Literal;
use crate::base::expressions::operators::{BinaryOp, UnaryOp, Var};
use crate::base::expressions::patterns::PatternElem;
use crate::base::location::Loc;
use crate::base::names::Name;
use crate::base::names::entities::EntityType;
use crate::base::names::slots::SlotId;
use std::collections::BTreeMap;
use std::rc::{Rc, RcStr};

/// An expression: its form, and at each node an annotation and a place in the policy's text.
///
/// `Expr` without a type argument has no annotations. Comparisons ignore annotations and places.
#[cycle(expr)]
#[derive(Debug)]
#[derive_where(PartialEq, Eq, PartialOrd, Ord)]
pub struct Expr<T = ()> {
    #[derive_where(skip(EqHashOrd))]
    pub annotation: T,
    #[derive_where(skip(EqHashOrd))]
    pub loc: Option<Loc>,
    pub kind: ExprKind<T>,
}

// `Drop` is written by hand, so that a proof has one call for each dropped expression: a derived
// drop would put all forms into the proof at each such place.
impl<T: Drop> Drop for Expr<T> {
    fn drop(self) {
        let Expr {
            annotation: _,
            loc: _,
            kind: _,
        } = self;
    }
}

/// The forms of expressions. Several expressions may share the branches of an `if`, and every walk
/// of a record is in byte order of its keys.
#[cycle(expr)]
#[derive(Drop, Debug)]
#[derive_where(PartialEq, Eq, PartialOrd, Ord)]
pub enum ExprKind<T = ()> {
    /// `true`, `7`, `"a"` or `User::"a"`.
    Lit(Literal),
    /// `principal`, `action`, `resource` or `context`.
    Var(Var),
    /// `?principal` or `?resource`.
    Slot(SlotId),
    /// The name of a value that is not known yet.
    Unknown(Name),
    /// `if a then b else c`.
    If {
        test_expr: Box<Expr<T>>,
        then_expr: Rc<Expr<T>>,
        else_expr: Rc<Expr<T>>,
    },
    /// `a && b`.
    And(Box<Expr<T>>, Box<Expr<T>>),
    /// `a || b`.
    Or(Box<Expr<T>>, Box<Expr<T>>),
    /// An operator on one operand.
    UnaryApp(UnaryOp, Box<Expr<T>>),
    /// An operator on two operands.
    BinaryApp(BinaryOp, Box<Expr<T>>, Box<Expr<T>>),
    /// A call of the extension function of this name.
    ExtensionFunctionApp(Name, Vec<Expr<T>>),
    /// `a.x`.
    GetAttr(Box<Expr<T>>, RcStr),
    /// `a has x`.
    HasAttr(Box<Expr<T>>, RcStr),
    /// `a has x.y.z`.
    ExtHasAttr(Box<Expr<T>>, AttrChain),
    /// `a like "x*"`.
    Like(Box<Expr<T>>, Vec<PatternElem>),
    /// `a is T`.
    Is(Box<Expr<T>>, EntityType),
    /// `[a, b]`.
    Set(Vec<Expr<T>>),
    /// `{x: a, y: b}`.
    Record(BTreeMap<RcStr, Expr<T>>),
}

impl<T: Drop> Expr<T> {
    /// The form of the expression, without the annotation and the place of its node. The call
    /// allocates no memory. You must use it to take an expression apart by value, because `Expr`
    /// has a `drop` of its own.
    pub fn into_expr_kind(self) -> ExprKind<T>
        ensures { result ≡ self.kind }
    {
        let Expr {
            annotation: _,
            loc: _,
            kind: form,
        } = self;
        form
    }
}
