// Typed conditions: each node with its type and the text at its place.
use crate::shown::forms::form_name;
use crate::shown::places::{Source, push_place};
use cedar_fixtures::shown::variable_name;
use cedar_types::base::{CedarType, Expr, ExprKind, Literal, PatternElem, SlotId};
use cedar_typing::typecheck::PolicyCheck;
use std::alloc::{AllocError, Global};
use std::collections::BTreeMap;
use std::rc::RcStr;

type Typed = Expr<Option<CedarType>>;

/// The part of a typed condition that is still to be shown.
#[derive(Drop)]
enum Step<'a> {
    Node(&'a Typed),
    Text(&'static str),
    /// The type of a node, and its place.
    End(&'a Typed),
}

/// The typed copy of a policy's condition without its scope; `-` if a check has none.
pub fn typed_condition(
    alloc: Global,
    check: &PolicyCheck,
    source: Source<'_>,
) -> Result<String, AllocError> {
    let typed = match check {
        PolicyCheck::Success(typed) => typed,
        PolicyCheck::Irrelevant(_, typed) => typed,
        PolicyCheck::Fail(_) => return String::from_str(alloc, "-"),
    };
    let ExprKind::And(_, condition) = &typed.kind else {
        return String::from_str(alloc, "-");
    };
    let mut shown = String::new(alloc);
    let mut steps = vec![in alloc; Step::Node(condition)]?;
    for _ in 0..usize::MAX {
        match steps.pop() {
            None => break,
            Some(Step::Text(text)) => shown.push_str(text)?,
            Some(Step::End(node)) => push_end(&mut shown, node, source)?,
            Some(Step::Node(node)) => {
                push_head(&mut shown, node)?;
                push_steps(alloc, &mut steps, node)?;
            }
        }
    }
    Ok(shown)
}

/// The texts behind a node's head: its parts in parentheses, and its end. The last is pushed first, because the stack is taken
/// from its top.
fn push_steps<'a>(
    alloc: Global,
    steps: &mut Vec<Step<'a>>,
    node: &'a Typed,
) -> Result<(), AllocError> {
    steps.push(Step::End(node))?;
    let mut is_last = true;
    for part in node.parts(alloc)?.into_iter().rev() {
        steps.push(Step::Text(if is_last { ")" } else { ", " }))?;
        steps.push(Step::Node(part))?;
        is_last = false;
    }
    if !is_last {
        steps.push(Step::Text("("))?;
    }
    Ok(())
}

/// The type of a node and its place.
fn push_end(shown: &mut String, node: &Typed, source: Source<'_>) -> Result<(), AllocError> {
    match &node.annotation {
        None => shown.push_str(": -")?,
        Some(named) => write!(shown, ": {named}")?,
    }
    push_place(shown, node.loc, source)
}

/// The head of a node, without its parts.
fn push_head(shown: &mut String, node: &Typed) -> Result<(), AllocError> {
    match &node.kind {
        ExprKind::Lit(literal) => push_literal(shown, literal),
        ExprKind::Var(variable) => shown.push_str(variable_name(*variable)),
        ExprKind::Slot(SlotId::Principal) => shown.push_str("?principal"),
        ExprKind::Slot(SlotId::Resource) => shown.push_str("?resource"),
        ExprKind::Unknown(name) => write!(shown, "unknown(\"{name}\")"),
        ExprKind::ExtensionFunctionApp(name, _) => write!(shown, "call {name}"),
        ExprKind::GetAttr(_, attr) => write!(shown, ".{attr}"),
        ExprKind::HasAttr(_, attr) => write!(shown, "has {attr}"),
        ExprKind::ExtHasAttr(_, attrs) => {
            write!(shown, "has {}", attrs.first)?;
            push_rest(shown, &attrs.rest)
        }
        ExprKind::Like(_, pattern) => push_pattern(shown, pattern),
        ExprKind::Is(_, named) => write!(shown, "is {named}"),
        ExprKind::Record(entries) => push_keys(shown, entries),
        _ => shown.push_str(form_name(&node.kind)),
    }
}

fn push_literal(shown: &mut String, literal: &Literal) -> Result<(), AllocError> {
    match literal {
        Literal::Bool(value) => write!(shown, "{value}"),
        Literal::Long(value) => write!(shown, "{value}"),
        Literal::String(text) => write!(shown, "\"{text}\""),
        Literal::EntityUID(uid) => write!(shown, "{uid}"),
    }
}

/// The attributes of an extended `has` after the first.
fn push_rest(shown: &mut String, attrs: &Vec<RcStr>) -> Result<(), AllocError> {
    for attr in attrs {
        write!(shown, ".{attr}")?;
    }
    Ok(())
}

fn push_pattern(shown: &mut String, pattern: &Vec<PatternElem>) -> Result<(), AllocError> {
    shown.push_str("like \"")?;
    for part in pattern {
        match part {
            PatternElem::Char('*') => shown.push_str("\\*")?,
            PatternElem::Char(c) => shown.push(*c)?,
            PatternElem::Wildcard => shown.push('*')?,
        }
    }
    shown.push('"')
}

/// The keys of a record in braces.
fn push_keys<T>(shown: &mut String, entries: &BTreeMap<RcStr, Expr<T>>) -> Result<(), AllocError> {
    shown.push('{')?;
    let mut is_first = true;
    for (key, _) in entries {
        if !is_first {
            shown.push_str(", ")?;
        }
        shown.push_str(key.as_str())?;
        is_first = false;
    }
    shown.push('}')
}
