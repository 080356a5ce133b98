// Makers of expressions by their operator. The new node has no place; the operands keep theirs.
ghost use Rattle.std.specs.Prelude.{◌≡◌, IfOk};
ghost use Rattle.cedar_types.specs.declared.base.expressions.operators.UnaryOp.TheVariants as UnaryOp;
ghost use Rattle.cedar_types.specs.declared.base.expressions.operators.BinaryOp.TheVariants as BinaryOp;
ghost use Rattle.cedar_types.specs.Expressions.Tree.{unary, binary};
ghost use Rattle.cedar_types.specs.Expressions.View.{written};
ghost use Rattle.cedar_types.specs.Expressions.Makers.{unplaced};

use crate::base::expressions::makers::without_place;
use crate::base::expressions::operators::{BinaryOp, UnaryOp};
use crate::base::expressions::{Expr, ExprKind};
use std::alloc::{AllocError, Global};

impl Expr {
    /// The operator on this operand.
    pub fn unary_app(alloc: Global, op: UnaryOp, operand: Expr) -> Result<Expr, AllocError>
        ensures { IfOk result (λ e. written e ≡ unary unplaced op (written operand)) }
    {
        let operand = Box::new(alloc, operand)?;
        Ok(without_place(ExprKind::UnaryApp(op, operand)))
    }

    /// The operator on these operands.
    pub fn binary_app(
        alloc: Global,
        op: BinaryOp,
        left: Expr,
        right: Expr,
    ) -> Result<Expr, AllocError>
        ensures { IfOk result (λ e. written e ≡ binary unplaced op (written left) (written right)) }
    {
        let left = Box::new(alloc, left)?;
        let right = Box::new(alloc, right)?;
        Ok(without_place(ExprKind::BinaryApp(op, left, right)))
    }

    /// `!operand`.
    pub fn not(alloc: Global, operand: Expr) -> Result<Expr, AllocError>
        ensures { IfOk result (λ e. written e ≡ unary unplaced UnaryOp.Not (written operand)) }
    {
        Expr::unary_app(alloc, UnaryOp::Not, operand)
    }

    /// `-operand`.
    pub fn neg(alloc: Global, operand: Expr) -> Result<Expr, AllocError>
        ensures { IfOk result (λ e. written e ≡ unary unplaced UnaryOp.Neg (written operand)) }
    {
        Expr::unary_app(alloc, UnaryOp::Neg, operand)
    }

    /// `operand.isEmpty()`.
    pub fn is_empty(alloc: Global, operand: Expr) -> Result<Expr, AllocError>
        ensures { IfOk result (λ e. written e ≡ unary unplaced UnaryOp.IsEmpty (written operand)) }
    {
        Expr::unary_app(alloc, UnaryOp::IsEmpty, operand)
    }

    /// `left == right`.
    pub fn is_eq(alloc: Global, left: Expr, right: Expr) -> Result<Expr, AllocError>
        ensures { IfOk result
            (λ e. written e ≡ binary unplaced BinaryOp.Eq (written left) (written right)) }
    {
        Expr::binary_app(alloc, BinaryOp::Eq, left, right)
    }

    /// `left < right`.
    pub fn less(alloc: Global, left: Expr, right: Expr) -> Result<Expr, AllocError>
        ensures { IfOk result
            (λ e. written e ≡ binary unplaced BinaryOp.Less (written left) (written right)) }
    {
        Expr::binary_app(alloc, BinaryOp::Less, left, right)
    }

    /// `left <= right`.
    pub fn lesseq(alloc: Global, left: Expr, right: Expr) -> Result<Expr, AllocError>
        ensures { IfOk result
            (λ e. written e ≡ binary unplaced BinaryOp.LessEq (written left) (written right)) }
    {
        Expr::binary_app(alloc, BinaryOp::LessEq, left, right)
    }

    /// `left + right`.
    pub fn add(alloc: Global, left: Expr, right: Expr) -> Result<Expr, AllocError>
        ensures { IfOk result
            (λ e. written e ≡ binary unplaced BinaryOp.Add (written left) (written right)) }
    {
        Expr::binary_app(alloc, BinaryOp::Add, left, right)
    }

    /// `left - right`.
    pub fn sub(alloc: Global, left: Expr, right: Expr) -> Result<Expr, AllocError>
        ensures { IfOk result
            (λ e. written e ≡ binary unplaced BinaryOp.Sub (written left) (written right)) }
    {
        Expr::binary_app(alloc, BinaryOp::Sub, left, right)
    }

    /// `left * right`.
    pub fn mul(alloc: Global, left: Expr, right: Expr) -> Result<Expr, AllocError>
        ensures { IfOk result
            (λ e. written e ≡ binary unplaced BinaryOp.Mul (written left) (written right)) }
    {
        Expr::binary_app(alloc, BinaryOp::Mul, left, right)
    }

    /// `left in right`.
    pub fn is_in(alloc: Global, left: Expr, right: Expr) -> Result<Expr, AllocError>
        ensures { IfOk result
            (λ e. written e ≡ binary unplaced BinaryOp.In (written left) (written right)) }
    {
        Expr::binary_app(alloc, BinaryOp::In, left, right)
    }

    /// `set.contains(element)`.
    pub fn contains(alloc: Global, set: Expr, element: Expr) -> Result<Expr, AllocError>
        ensures { IfOk result
            (λ e. written e ≡ binary unplaced BinaryOp.Contains (written set) (written element)) }
    {
        Expr::binary_app(alloc, BinaryOp::Contains, set, element)
    }

    /// `left.containsAll(right)`.
    pub fn contains_all(alloc: Global, left: Expr, right: Expr) -> Result<Expr, AllocError>
        ensures { IfOk result
            (λ e. written e ≡ binary unplaced BinaryOp.ContainsAll (written left) (written right)) }
    {
        Expr::binary_app(alloc, BinaryOp::ContainsAll, left, right)
    }

    /// `left.containsAny(right)`.
    pub fn contains_any(alloc: Global, left: Expr, right: Expr) -> Result<Expr, AllocError>
        ensures { IfOk result
            (λ e. written e ≡ binary unplaced BinaryOp.ContainsAny (written left) (written right)) }
    {
        Expr::binary_app(alloc, BinaryOp::ContainsAny, left, right)
    }

    /// `entity.getTag(tag)`.
    pub fn get_tag(alloc: Global, entity: Expr, tag: Expr) -> Result<Expr, AllocError>
        ensures { IfOk result
            (λ e. written e ≡ binary unplaced BinaryOp.GetTag (written entity) (written tag)) }
    {
        Expr::binary_app(alloc, BinaryOp::GetTag, entity, tag)
    }

    /// `entity.hasTag(tag)`.
    pub fn has_tag(alloc: Global, entity: Expr, tag: Expr) -> Result<Expr, AllocError>
        ensures { IfOk result
            (λ e. written e ≡ binary unplaced BinaryOp.HasTag (written entity) (written tag)) }
    {
        Expr::binary_app(alloc, BinaryOp::HasTag, entity, tag)
    }
}
