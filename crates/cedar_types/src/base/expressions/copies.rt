// Copies of expressions.
ghost use Rattle.std.specs.Prelude.{◌≡◌, IfOk, Option, map};
ghost use Rattle.cedar_types.specs.Expressions.View.{written, kind_written, trees_of, fields_written};

use crate::base::expressions::patterns::copy_pattern;
use crate::base::expressions::{Expr, ExprKind};
use std::alloc::{AllocError, Global};
use std::collections::BTreeMap;
use std::rc::RcStr;

impl Expr {
    /// A copy of the expression, places included. It shares the branches of each `if` with the
    /// original.
    pub fn try_clone(&self, alloc: Global) -> Result<Expr, AllocError>
        ensures { IfOk result (λ c. written c ≡ written self.now) }
    {
        copy_expr(alloc, self)
    }
}

#[cycle(copy)]
pub(crate) fn copy_expr(alloc: Global, e: &Expr) -> Result<Expr, AllocError>
    ensures { IfOk result (λ c. written c ≡ written e.now) }
{
    let kind = copy_kind(alloc, &e.kind)?;
    Ok(Expr {
        annotation: (),
        loc: e.loc,
        kind,
    })
}

#[cycle(copy)]
fn copy_box(alloc: Global, e: &Expr) -> Result<Box<Expr>, AllocError>
    ensures { IfOk result (λ c. written c.value ≡ written e.now) }
{
    Ok(Box::new(alloc, copy_expr(alloc, e)?)?)
}

#[cycle(copy)]
fn copy_kind(alloc: Global, kind: &ExprKind) -> Result<ExprKind, AllocError>
    ensures { IfOk result (λ c. (l : Option _) → kind_written l c ≡ kind_written l kind.now) }
{
    match kind {
        ExprKind::Lit(x) => Ok(ExprKind::Lit(x.clone()?)),
        ExprKind::Var(x) => Ok(ExprKind::Var(*x)),
        ExprKind::Slot(x) => Ok(ExprKind::Slot(*x)),
        ExprKind::Unknown(x) => Ok(ExprKind::Unknown(x.clone()?)),
        ExprKind::If {
            test_expr,
            then_expr,
            else_expr,
        } => {
            let test_expr = copy_box(alloc, test_expr)?;
            let then_expr = then_expr.clone()?;
            let else_expr = else_expr.clone()?;
            Ok(ExprKind::If {
                test_expr,
                then_expr,
                else_expr,
            })
        }
        ExprKind::And(a, b) => Ok(ExprKind::And(copy_box(alloc, a)?, copy_box(alloc, b)?)),
        ExprKind::Or(a, b) => Ok(ExprKind::Or(copy_box(alloc, a)?, copy_box(alloc, b)?)),
        ExprKind::UnaryApp(op, a) => Ok(ExprKind::UnaryApp(*op, copy_box(alloc, a)?)),
        ExprKind::BinaryApp(op, a, b) => {
            let a = copy_box(alloc, a)?;
            let b = copy_box(alloc, b)?;
            Ok(ExprKind::BinaryApp(*op, a, b))
        }
        ExprKind::ExtensionFunctionApp(name, args) => {
            let name = name.clone()?;
            let args = copy_list(alloc, args)?;
            Ok(ExprKind::ExtensionFunctionApp(name, args))
        }
        ExprKind::GetAttr(a, x) => Ok(ExprKind::GetAttr(copy_box(alloc, a)?, x.clone()?)),
        ExprKind::HasAttr(a, x) => Ok(ExprKind::HasAttr(copy_box(alloc, a)?, x.clone()?)),
        ExprKind::ExtHasAttr(a, chain) => {
            let a = copy_box(alloc, a)?;
            Ok(ExprKind::ExtHasAttr(a, chain.clone()?))
        }
        ExprKind::Like(a, pattern) => {
            let a = copy_box(alloc, a)?;
            Ok(ExprKind::Like(a, copy_pattern(alloc, pattern)?))
        }
        ExprKind::Is(a, t) => Ok(ExprKind::Is(copy_box(alloc, a)?, t.clone()?)),
        ExprKind::Set(elements) => Ok(ExprKind::Set(copy_list(alloc, elements)?)),
        ExprKind::Record(fields) => Ok(ExprKind::Record(copy_fields(alloc, fields)?)),
    }
}

#[cycle(copy)]
fn copy_list(alloc: Global, es: &Vec<Expr>) -> Result<Vec<Expr>, AllocError>
    ensures { IfOk result (λ v.
        trees_of (map written v.items) ≡ trees_of (map written es.now.items)) }
{
    let mut copies = Vec::with_capacity(alloc, es.len())?;
    for e in es {
        copies.push(copy_expr(alloc, e)?)?;
    }
    Ok(copies)
}

#[cycle(copy)]
fn copy_fields(
    alloc: Global,
    fields: &BTreeMap<RcStr, Expr>,
) -> Result<BTreeMap<RcStr, Expr>, AllocError>
    ensures { IfOk result (λ m. fields_written m.entries ≡ fields_written fields.now.entries) }
{
    let mut copies = BTreeMap::new(alloc);
    for (key, e) in fields.iter() {
        let key = key.clone()?;
        drop(copies.insert(key, copy_expr(alloc, e)?)?);
    }
    Ok(copies)
}
