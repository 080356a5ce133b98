// Parts of an expression, one after another.
ghost use Rattle.std.specs.Prelude.{◌≡◌, ◌++◌, [], ◌∷◌, false, IfOk, map};
ghost use Rattle.cedar_types.specs.declared.base.names.slots.SlotId.{SlotId};
ghost use Rattle.cedar_types.specs.FallibleIterators.{YieldsOrEnds, calls_left};
ghost use Rattle.cedar_types.specs.Expressions.Parts.{subexpressions, mentions_slot, is_slot, listed, field_values, parts, has_ended, expressions_left};
ghost use Rattle.cedar_types.specs.Expressions.View.{trees_of, written, fields_written};

use crate::base::expressions::{Expr, ExprKind};
use crate::base::names::slots::SlotId;
use std::alloc::{AllocError, Global};
use std::collections::BTreeMap;
use std::rc::RcStr;

/// An iterator over an expression and all its parts: each comes before its own parts, and its last
/// part before the others.
///
/// The expressions still to visit lie on the heap, so the caller's stack does not grow with the
/// depth of the expression. If memory for them is refused, the iterator yields one `AllocError`;
/// after it, and after the last expression, only `None`.
#[derive(Drop)]
pub struct ExprIterator<'a, T = ()> {
    // the last entry is visited next
    stack: Vec<&'a Expr<T>>,
    ended: bool,
}

impl<'a, T> Iterator for ExprIterator<'a, T> {
    type Item = Result<&'a Expr<T>, AllocError>;

    ghost next_gives = { YieldsOrEnds expressions_left has_ended (λ e. written e.now) };

    ghost remaining = { calls_left expressions_left has_ended };

    #[tactic(auto, unfolding(crate::specs::Expressions::Parts::expressions_left, crate::specs::Expressions::Parts::has_ended))]
    fn next(&mut self) -> Option<Result<&'a Expr<T>, AllocError>> {
        if self.ended {
            return None;
        }
        let Some(expr) = self.stack.pop() else {
            self.ended = true;
            return None;
        };
        match push_parts(&mut self.stack, expr) {
            Ok(()) => Some(Ok(expr)),
            Err(refused) => {
                self.ended = true;
                Some(Err(refused))
            }
        }
    }
}

/// Puts the parts of an expression on the stack, the first below the others.
fn push_parts<'a, T>(stack: &mut Vec<&'a Expr<T>>, expr: &'a Expr<T>) -> Result<(), AllocError>
    ensures { IfOk result (λ u.
        map (λ e. written e.now) stack.new.items
        ≡ map (λ e. written e.now) stack.old.items ++ parts (written expr.now)) }
{
    match &expr.kind {
        ExprKind::Lit(_) | ExprKind::Var(_) | ExprKind::Slot(_) | ExprKind::Unknown(_) => {}
        ExprKind::If {
            test_expr,
            then_expr,
            else_expr,
        } => {
            stack.push(test_expr)?;
            push_two(stack, then_expr, else_expr)?;
        }
        ExprKind::And(left, right) => push_two(stack, left, right)?,
        ExprKind::Or(left, right) => push_two(stack, left, right)?,
        ExprKind::BinaryApp(_, left, right) => push_two(stack, left, right)?,
        ExprKind::UnaryApp(_, operand) => stack.push(operand)?,
        ExprKind::GetAttr(base, _) => stack.push(base)?,
        ExprKind::HasAttr(base, _) => stack.push(base)?,
        ExprKind::ExtHasAttr(base, _) => stack.push(base)?,
        ExprKind::Like(operand, _) => stack.push(operand)?,
        ExprKind::Is(operand, _) => stack.push(operand)?,
        ExprKind::ExtensionFunctionApp(_, args) => push_list(stack, args)?,
        ExprKind::Set(elements) => push_list(stack, elements)?,
        ExprKind::Record(fields) => push_fields(stack, fields)?,
    }
    Ok(())
}

fn push_two<'a, T>(
    stack: &mut Vec<&'a Expr<T>>,
    first: &'a Expr<T>,
    second: &'a Expr<T>,
) -> Result<(), AllocError>
    ensures { IfOk result (λ u.
        map (λ e. written e.now) stack.new.items
        ≡ map (λ e. written e.now) stack.old.items ++ written first.now ∷ written second.now ∷ []) }
{
    stack.push(first)?;
    stack.push(second)?;
    Ok(())
}

fn push_list<'a, T>(stack: &mut Vec<&'a Expr<T>>, exprs: &'a Vec<Expr<T>>) -> Result<(), AllocError>
    ensures { IfOk result (λ u.
        map (λ e. written e.now) stack.new.items
        ≡ map (λ e. written e.now) stack.old.items
        ++ listed (trees_of (map written exprs.now.items))) }
{
    for expr in exprs {
        stack.push(expr)?;
    }
    Ok(())
}

#[tactic(auto, using(crate::proofs::Expressions::Parts::field_values_again))]
fn push_fields<'a, T>(
    stack: &mut Vec<&'a Expr<T>>,
    fields: &'a BTreeMap<RcStr, Expr<T>>,
) -> Result<(), AllocError>
    ensures { IfOk result (λ u.
        map (λ e. written e.now) stack.new.items
        ≡ map (λ e. written e.now) stack.old.items
        ++ field_values (fields_written fields.now.entries)) }
{
    for expr in fields.values() {
        stack.push(expr)?;
    }
    Ok(())
}

impl<T> Expr<T> {
    /// The direct parts of this expression, from the first to the last: the operands, the test and
    /// then the branches of an `if`, the arguments of a call, the elements of a set, the values of
    /// a record by ascending keys. A literal, a variable, a slot and an unknown have none.
    ///
    /// In a typed expression an `if` that its test decides has one branch twice;
    /// `level_validate::only_branch` of `cedar_typechecker` gives this branch. If memory for the
    /// list is refused, the answer is an `AllocError`.
    pub fn parts(&self, alloc: Global) -> Result<Vec<&Expr<T>>, AllocError>
        ensures { IfOk result (λ ps.
            map (λ e. written e.now) ps.items ≡ parts (written self.now)) }
    {
        let mut found = Vec::new(alloc);
        push_parts(&mut found, self)?;
        Ok(found)
    }

    /// This expression and all its parts, each before its own parts.
    ///
    /// The walk does not recurse. If memory for the expressions still to visit is refused, this
    /// call or the iterator answers with an `AllocError`.
    #[tactic(auto, unfolding(crate::specs::Expressions::Parts::expressions_left, crate::specs::Expressions::Parts::has_ended))]
    pub fn subexpressions(&self, alloc: Global) -> Result<ExprIterator<'_, T>, AllocError>
        ensures started { IfOk result (λ s. has_ended s ≡ false) }
        ensures left { IfOk result (λ s. expressions_left s ≡ subexpressions (written self.now)) }
    {
        let mut stack = Vec::new(alloc);
        stack.push(self)?;
        Ok(ExprIterator {
            stack,
            ended: false,
        })
    }

    /// Whether this slot occurs in the expression.
    ///
    /// The walk does not recurse. If memory for the expressions still to visit is refused, the
    /// answer is an `AllocError`.
    pub fn mentions_slot(&self, alloc: Global, slot: SlotId) -> Result<bool, AllocError>
        ensures { IfOk result (λ b. b ≡ mentions_slot slot (written self.now)) }
    {
        for item in self.subexpressions(alloc)? {
            if is_slot(item?, slot) {
                return Ok(true);
            }
        }
        Ok(false)
    }

    /// Which slots occur in the expression. One walk finds both.
    pub(crate) fn mentioned_slots(&self, alloc: Global) -> Result<MentionedSlots, AllocError>
        ensures principal { IfOk result (λ s.
            s.principal ≡ mentions_slot SlotId.Principal (written self.now)) }
        ensures resource { IfOk result (λ s.
            s.resource ≡ mentions_slot SlotId.Resource (written self.now)) }
    {
        let mut principal = false;
        let mut resource = false;
        for item in self.subexpressions(alloc)? {
            let expr = item?;
            principal |= is_slot(expr, SlotId::Principal);
            resource |= is_slot(expr, SlotId::Resource);
        }
        Ok(MentionedSlots {
            principal,
            resource,
        })
    }
}

/// Which slots occur.
#[derive(Clone, Copy)]
pub(crate) struct MentionedSlots {
    pub principal: bool,
    pub resource: bool,
}

/// Whether the expression is this slot itself.
fn is_slot<T>(expr: &Expr<T>, slot: SlotId) -> bool
    ensures { result ≡ is_slot slot (written expr.now) }
{
    match &expr.kind {
        ExprKind::Slot(own) => *own == slot,
        _ => false,
    }
}
