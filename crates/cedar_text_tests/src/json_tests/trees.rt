// Expressions as a line: a form and its parts in parentheses.
use cedar_fixtures::shown::{binary_name, variable_name};
use cedar_types::base::{Expr, ExprKind, Literal, PatternElem, SlotId, UnaryOp};
use std::alloc::AllocError;
use std::collections::BTreeMap;
use std::rc::RcStr;

/// Writes an expression without its places.
#[cycle(trees)]
pub fn push_expr(out: &mut String, expr: &Expr) -> Result<(), AllocError> {
    push_opening(out, &expr.kind)?;
    match &expr.kind {
        ExprKind::Lit(_) | ExprKind::Var(_) | ExprKind::Slot(_) | ExprKind::Unknown(_) => {}
        ExprKind::And(left, right)
        | ExprKind::Or(left, right)
        | ExprKind::BinaryApp(_, left, right) => {
            push_expr(out, left)?;
            out.push(' ')?;
            push_expr(out, right)?;
        }
        ExprKind::UnaryApp(_, operand)
        | ExprKind::GetAttr(operand, _)
        | ExprKind::HasAttr(operand, _)
        | ExprKind::ExtHasAttr(operand, _)
        | ExprKind::Like(operand, _)
        | ExprKind::Is(operand, _) => push_expr(out, operand)?,
        ExprKind::ExtensionFunctionApp(_, arguments) => push_list(out, arguments, " ", "")?,
        ExprKind::Set(members) => push_list(out, members, "", " ")?,
        ExprKind::Record(fields) => push_fields(out, fields)?,
        ExprKind::If {
            test_expr,
            then_expr,
            else_expr,
        } => {
            push_expr(out, test_expr)?;
            out.push(' ')?;
            push_expr(out, then_expr)?;
            out.push(' ')?;
            push_expr(out, else_expr)?;
        }
    }
    push_closing(out, &expr.kind)
}

/// Writes expressions, each between these two texts.
#[cycle(trees)]
fn push_list(
    out: &mut String,
    list: &Vec<Expr>,
    before: &str,
    behind: &str,
) -> Result<(), AllocError> {
    for part in list {
        out.push_str(before)?;
        push_expr(out, part)?;
        out.push_str(behind)?;
    }
    Ok(())
}

#[cycle(trees)]
fn push_fields(out: &mut String, fields: &BTreeMap<RcStr, Expr>) -> Result<(), AllocError> {
    for (key, field) in fields {
        write!(out, "{key}: ")?;
        push_expr(out, field)?;
        out.push(' ')?;
    }
    Ok(())
}

/// Writes the beginning of a form, before its parts: the whole form if it has none.
fn push_opening(out: &mut String, kind: &ExprKind) -> Result<(), AllocError> {
    match kind {
        ExprKind::Lit(literal) => push_literal(out, literal),
        ExprKind::Var(variable) => out.push_str(variable_name(*variable)),
        ExprKind::Slot(SlotId::Principal) => out.push_str("?principal"),
        ExprKind::Slot(SlotId::Resource) => out.push_str("?resource"),
        ExprKind::Unknown(name) => write!(out, "unknown:{name}"),
        ExprKind::If { .. } => out.push_str("(if "),
        ExprKind::And(_, _) => out.push_str("(and "),
        ExprKind::Or(_, _) => out.push_str("(or "),
        ExprKind::UnaryApp(operator, _) => write!(out, "({} ", show_unary(*operator)),
        ExprKind::BinaryApp(operator, _, _) => write!(out, "({} ", binary_name(*operator)),
        ExprKind::ExtensionFunctionApp(name, _) => write!(out, "({name}"),
        ExprKind::GetAttr(_, _) => out.push_str("(. "),
        ExprKind::HasAttr(_, _) | ExprKind::ExtHasAttr(_, _) => out.push_str("(has "),
        ExprKind::Like(_, _) => out.push_str("(like "),
        ExprKind::Is(_, _) => out.push_str("(is "),
        ExprKind::Set(_) => out.push('['),
        ExprKind::Record(_) => out.push('{'),
    }
}

/// Writes the end of a form, behind its parts.
fn push_closing(out: &mut String, kind: &ExprKind) -> Result<(), AllocError> {
    match kind {
        ExprKind::Lit(_) | ExprKind::Var(_) | ExprKind::Slot(_) | ExprKind::Unknown(_) => Ok(()),
        ExprKind::GetAttr(_, attr) | ExprKind::HasAttr(_, attr) => write!(out, " {attr})"),
        ExprKind::ExtHasAttr(_, chain) => {
            write!(out, " {}", chain.first)?;
            for attr in &chain.rest {
                write!(out, ".{attr}")?;
            }
            out.push(')')
        }
        ExprKind::Like(_, pattern) => {
            out.push(' ')?;
            push_pattern(out, pattern.as_slice())?;
            out.push(')')
        }
        ExprKind::Is(_, name) => write!(out, " {name})"),
        ExprKind::Set(_) => out.push(']'),
        ExprKind::Record(_) => out.push('}'),
        _ => out.push(')'),
    }
}

fn push_literal(out: &mut String, literal: &Literal) -> Result<(), AllocError> {
    match literal {
        Literal::Bool(truth) => write!(out, "{truth}"),
        Literal::Long(number) => write!(out, "{number}"),
        Literal::String(text) => write!(out, "`{text}`"),
        Literal::EntityUID(uid) => write!(out, "{uid}"),
    }
}

fn push_pattern(out: &mut String, pattern: &[PatternElem]) -> Result<(), AllocError> {
    for part in pattern {
        match part {
            PatternElem::Char(c) => write!(out, "{c}_")?,
            PatternElem::Wildcard => out.push('*')?,
        }
    }
    Ok(())
}

fn show_unary(operator: UnaryOp) -> &'static str {
    match operator {
        UnaryOp::Not => "not",
        UnaryOp::Neg => "neg",
        UnaryOp::IsEmpty => "isEmpty",
    }
}
