// Makers of expressions, one for each form. The new node has no place; its parts keep theirs.
ghost use Rattle.std.specs.Prelude.{◌≡◌, None, IfOk, map};
ghost use Rattle.cedar_types.specs.Names.{path_of, type_of};
ghost use Rattle.cedar_types.specs.Expressions.Tree.{lit, var, slot, unknown, if_then_else, and, or, call, get_attr, has_attr, ext_has_attr, like, is_type, set_of, record_of};
ghost use Rattle.cedar_types.specs.Expressions.View.{of_type, written, lit_of, lit_places, chain_of, trees_of, kind_written, fields_written};
ghost use Rattle.cedar_types.specs.Expressions.Makers.{unplaced, naming, at_place};

use crate::base::expressions::attr_chains::AttrChain;
use crate::base::expressions::literals::Literal;
use crate::base::expressions::operators::Var;
use crate::base::expressions::patterns::PatternElem;
use crate::base::expressions::{Expr, ExprKind};
use crate::base::location::Loc;
use crate::base::names::Name;
use crate::base::names::entities::EntityType;
use crate::base::names::slots::SlotId;
use std::alloc::{AllocError, Global};
use std::collections::BTreeMap;
use std::rc::{Rc, RcStr};

impl Expr {
    /// The expression of this literal. An id in it keeps its places.
    pub fn val(literal: Literal) -> Expr
        ensures { written result ≡ lit (naming (lit_places literal)) (lit_of literal) }
    {
        without_place(ExprKind::Lit(literal))
    }

    /// The expression of this variable.
    pub fn var(variable: Var) -> Expr
        ensures { written result ≡ var unplaced variable }
    {
        without_place(ExprKind::Var(variable))
    }

    /// The expression of this slot.
    pub fn slot(id: SlotId) -> Expr
        ensures { written result ≡ slot unplaced id }
    {
        without_place(ExprKind::Slot(id))
    }

    /// The unknown of this name.
    pub fn unknown(name: Name) -> Expr
        ensures { written result ≡ unknown unplaced (path_of name) }
    {
        without_place(ExprKind::Unknown(name))
    }

    /// `if test_expr then then_expr else else_expr`.
    pub fn ite(
        alloc: Global,
        test_expr: Expr,
        then_expr: Expr,
        else_expr: Expr,
    ) -> Result<Expr, AllocError>
        ensures { IfOk result (λ e. written e ≡ if_then_else unplaced
            (written test_expr)
            (written then_expr)
            (written else_expr)) }
    {
        let test_expr = Box::new(alloc, test_expr)?;
        let then_expr = Rc::new(alloc, then_expr)?;
        let else_expr = Rc::new(alloc, else_expr)?;
        Ok(without_place(ExprKind::If {
            test_expr,
            then_expr,
            else_expr,
        }))
    }

    /// `left && right`.
    pub fn and(alloc: Global, left: Expr, right: Expr) -> Result<Expr, AllocError>
        ensures { IfOk result (λ e. written e ≡ and unplaced (written left) (written right)) }
    {
        let left = Box::new(alloc, left)?;
        let right = Box::new(alloc, right)?;
        Ok(without_place(ExprKind::And(left, right)))
    }

    /// `left || right`.
    pub fn or(alloc: Global, left: Expr, right: Expr) -> Result<Expr, AllocError>
        ensures { IfOk result (λ e. written e ≡ or unplaced (written left) (written right)) }
    {
        let left = Box::new(alloc, left)?;
        let right = Box::new(alloc, right)?;
        Ok(without_place(ExprKind::Or(left, right)))
    }

    /// `name(arguments)`, a call of the extension function of this name. The maker allocates no
    /// memory.
    pub fn call_extension_fn(name: Name, arguments: Vec<Expr>) -> Expr
        ensures { written result ≡ call unplaced
            (path_of name)
            (trees_of (map written arguments.items)) }
    {
        without_place(ExprKind::ExtensionFunctionApp(name, arguments))
    }

    /// `base.attr`.
    pub fn get_attr(alloc: Global, base: Expr, attr: &str) -> Result<Expr, AllocError>
        ensures { IfOk result (λ e. written e ≡ get_attr unplaced (written base) attr.now) }
    {
        let base = Box::new(alloc, base)?;
        let attr = RcStr::from_str(alloc, attr)?;
        Ok(without_place(ExprKind::GetAttr(base, attr)))
    }

    /// `base has attr`.
    pub fn has_attr(alloc: Global, base: Expr, attr: &str) -> Result<Expr, AllocError>
        ensures { IfOk result (λ e. written e ≡ has_attr unplaced (written base) attr.now) }
    {
        let base = Box::new(alloc, base)?;
        let attr = RcStr::from_str(alloc, attr)?;
        Ok(without_place(ExprKind::HasAttr(base, attr)))
    }

    /// `base has first.second.third`, with the attributes of the chain.
    pub fn extended_has_attr(
        alloc: Global,
        base: Expr,
        chain: AttrChain,
    ) -> Result<Expr, AllocError>
        ensures { IfOk result (λ e. written e ≡ ext_has_attr unplaced
            (written base)
            (chain_of chain).0
            (chain_of chain).1) }
    {
        let base = Box::new(alloc, base)?;
        Ok(without_place(ExprKind::ExtHasAttr(base, chain)))
    }

    /// `operand like pattern`.
    pub fn like(alloc: Global, operand: Expr, pattern: Vec<PatternElem>) -> Result<Expr, AllocError>
        ensures { IfOk result (λ e. written e ≡ like unplaced (written operand) pattern.items) }
    {
        let operand = Box::new(alloc, operand)?;
        Ok(without_place(ExprKind::Like(operand, pattern)))
    }

    /// `operand is entity_type`. The type keeps its place.
    pub fn is_entity_type(
        alloc: Global,
        operand: Expr,
        entity_type: EntityType,
    ) -> Result<Expr, AllocError>
        ensures { IfOk result (λ e. written e ≡ is_type
            (naming (of_type entity_type.loc))
            (written operand)
            (type_of entity_type)) }
    {
        let operand = Box::new(alloc, operand)?;
        Ok(without_place(ExprKind::Is(operand, entity_type)))
    }

    /// The set of these elements, `[first, second]`. The maker allocates no memory.
    pub fn set(elements: Vec<Expr>) -> Expr
        ensures { written result ≡ set_of unplaced (trees_of (map written elements.items)) }
    {
        without_place(ExprKind::Set(elements))
    }

    /// The record of these fields, `{first: a, second: b}`. The maker allocates no memory.
    pub fn record(fields: BTreeMap<RcStr, Expr>) -> Expr
        ensures { written result ≡ record_of unplaced (fields_written fields.entries) }
    {
        without_place(ExprKind::Record(fields))
    }

    /// The expression at this place, or without one. Its parts, and the types and ids that it names
    /// itself, keep their places. The call allocates no memory.
    pub fn with_maybe_source_loc(mut self, loc: Option<Loc>) -> Expr
        ensures { written result ≡ at_place loc (written self) }
    {
        self.loc = loc;
        self
    }
}

/// An expression of this form without a place.
pub(crate) fn without_place(kind: ExprKind) -> Expr
    ensures { written result ≡ kind_written None kind }
{
    Expr {
        annotation: (),
        loc: None,
        kind,
    }
}
