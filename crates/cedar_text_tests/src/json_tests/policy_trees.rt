// Policies as lines: the effect, the constraints and the condition of each.
use crate::json_tests::trees::push_expr;
use cedar_fixtures::shown::push_constraint;
use cedar_json::{FormError, Policies, ReadPolicy};
use cedar_types::base::{ActionConstraint, PrincipalOrResourceConstraint};
use std::alloc::{AllocError, Global};

/// The policies of a text, each with `;` behind it.
pub fn show_policies(alloc: Global, json: &str) -> Result<String, AllocError> {
    let mut out = String::new(alloc);
    match push_policies(alloc, &mut out, json) {
        Ok(()) => Ok(out),
        Err(FormError::Memory(error)) => Err(error),
        Err(FormError::At(at, fault)) => format!(in alloc; "{at} {fault:?}"),
    }
}

fn push_policies(alloc: Global, out: &mut String, json: &str) -> Result<(), FormError> {
    let mut policies = Policies::new(alloc, json)?;
    for _ in 0..json.len() {
        let Some(read) = policies.next_policy() else {
            break;
        };
        push_policy(out, read)?;
    }
    Ok(())
}

fn push_policy(out: &mut String, read: Result<ReadPolicy, FormError>) -> Result<(), AllocError> {
    let read = match read {
        Ok(read) => read,
        Err(FormError::Memory(error)) => return Err(error),
        Err(FormError::At(at, fault)) => return write!(out, "{at} {fault:?};"),
    };
    let policy = &read.template;
    write!(out, "{} {}", policy.id, read.effect)?;
    push_scope(out, &policy.principal_constraint.constraint)?;
    push_action(out, &policy.action_constraint)?;
    push_scope(out, &policy.resource_constraint.constraint)?;
    if let Some(rest) = &policy.non_scope_constraints {
        out.push(' ')?;
        push_expr(out, rest)?;
    }
    out.push(';')
}

fn push_scope(
    out: &mut String,
    constraint: &PrincipalOrResourceConstraint,
) -> Result<(), AllocError> {
    match constraint {
        PrincipalOrResourceConstraint::Any => out.push_str(" any"),
        _ => push_constraint(out, constraint),
    }
}

fn push_action(out: &mut String, constraint: &ActionConstraint) -> Result<(), AllocError> {
    match constraint {
        ActionConstraint::Any => out.push_str(" any"),
        ActionConstraint::Eq(uid) => write!(out, " == {uid}"),
        ActionConstraint::In(uids) => {
            out.push_str(" in")?;
            for uid in uids {
                write!(out, " {uid}")?;
            }
            Ok(())
        }
    }
}
