// Expressions that compare by their shape alone.
ghost use Rattle.std.specs.Prelude.{◌≡◌, IsTrue, ◌↔◌};
ghost use Rattle.std.specs.Ordering.{as_partial_cmp};
ghost use Rattle.cedar_types.specs.Expressions.View.{shape, written};
ghost use Rattle.cedar_types.specs.Expressions.TreeEq.{tree_eq};

use crate::base::expressions::Expr;
use crate::base::expressions::copies::copy_expr;
use std::alloc::{AllocError, Global};
use std::cmp::Ordering;

impl<T> Expr<T> {
    /// Whether two expressions have one shape: one form, whatever their annotations and places.
    /// `==` answers alike.
    pub fn has_shape_of(&self, other: &Expr<T>) -> bool
        ensures test { result ≡ tree_eq (shape self.now) (shape other.now) }
        ensures equality { IsTrue result ↔ (shape self.now ≡ shape other.now) }
    {
        self == other
    }
}

/// An expression, borrowed or owned, that compares by its shape alone.
///
/// Two of them are equal exactly if they have one shape, wherever they lie in memory and whatever
/// their places. Their order agrees with this equality; no contract says more of it.
#[derive(Drop, Debug)]
pub enum ExprShapeOnly<'a> {
    /// A reference to an expression of another owner.
    Borrowed(&'a Expr),
    /// An expression that this value owns.
    Owned(Expr),
}

impl<'a> ExprShapeOnly<'a> {
    ghost use Rattle.std.specs.Prelude.{IfOk};
    ghost use Rattle.cedar_types.specs.Expressions.ShapeOnly.{expr_of};

    /// The expression inside.
    pub fn expr(&self) -> &Expr
        ensures { result.now ≡ expr_of self.now }
    {
        match self {
            ExprShapeOnly::Borrowed(e) => e,
            ExprShapeOnly::Owned(e) => e,
        }
    }

    /// A copy. A borrowed expression stays borrowed.
    pub fn try_clone(&self, alloc: Global) -> Result<ExprShapeOnly<'a>, AllocError>
        ensures { IfOk result (λ c. written (expr_of c) ≡ written (expr_of self.now)) }
    {
        match self {
            ExprShapeOnly::Borrowed(e) => Ok(ExprShapeOnly::Borrowed(*e)),
            ExprShapeOnly::Owned(e) => Ok(ExprShapeOnly::Owned(copy_expr(alloc, e)?)),
        }
    }
}

impl<'a> PartialEq for ExprShapeOnly<'a> {
    ghost use Rattle.std.specs.Cmp.{partial_equiv_from_equiv};
    ghost use Rattle.cedar_types.specs.Expressions.ShapeOnly.{shape_eq};
    ghost use Rattle.cedar_types.specs.Lemmas.ShapeOnly.{shape_eq_equiv};

    ghost eq = { shape_eq };

    ghost laws = { partial_equiv_from_equiv shape_eq_equiv };

    fn eq(&self, other: &Self) -> bool {
        self.expr().has_shape_of(other.expr())
    }
}

impl<'a> Eq for ExprShapeOnly<'a> {
    ghost use Rattle.cedar_types.specs.Lemmas.ShapeOnly.{shape_eq_equiv};

    ghost laws = { shape_eq_equiv };
}

impl<'a> PartialOrd for ExprShapeOnly<'a> {
    ghost use Rattle.std.specs.Cmp.{po};
    ghost use Rattle.cedar_types.specs.Expressions.ShapeOnly.{shape_cmp};
    ghost use Rattle.cedar_types.specs.Lemmas.ShapeOnly.{shape_cmp_total, shape_cmp_ties};

    ghost partial_cmp = { as_partial_cmp shape_cmp };

    ghost laws = { po shape_cmp_total shape_cmp_ties };

    fn partial_cmp(&self, other: &Self) -> Option<Ordering> {
        Some(self.cmp(other))
    }
}

impl<'a> Ord for ExprShapeOnly<'a> {
    ghost use Rattle.std.specs.Prelude.{refl};
    ghost use Rattle.cedar_types.specs.Expressions.ShapeOnly.{shape_cmp};
    ghost use Rattle.cedar_types.specs.Lemmas.ShapeOnly.{shape_cmp_total, shape_cmp_ties};

    ghost cmp = { shape_cmp };

    ghost total = { shape_cmp_total };

    ghost matches_partial_cmp = { λ a b. refl };

    ghost matches_eq = { shape_cmp_ties };

    fn cmp(&self, other: &Self) -> Ordering {
        self.expr().cmp(other.expr())
    }
}
