// Results of the cases of a file.
use crate::cases::answers::{Asked, in_order};
use crate::cases::costs::run_chain;
use crate::cases::differences::{agrees, write_fault};
use crate::cases::files::{Case, CaseFile, Field};
use crate::shown::Source;
use cedar_reading::{Fault, ReadError, condition, policy, scope_alone, uid_alone, whole_policy};
use cedar_typechecker::rbac::Validator;
use cedar_types::base::{Policy, SlotEnv, Template};
use std::alloc::{AllocError, Global};
use std::io;
use std::io::Write;
use std::rc::Rc;

/// Counts of the cases of a file.
#[derive(Clone, Copy, PartialEq, Eq, Debug)]
pub struct CaseCounts {
    /// The number of cases that ran.
    pub ran: usize,
    /// The number of these that differ or cannot be read.
    pub wrong: usize,
}

/// Runs each case of a file, and writes those that differ or cannot be read.
pub fn run_cases<W: Write>(
    alloc: Global,
    name: &str,
    file: &CaseFile<'_>,
    validator: &Validator<'_>,
    out: &mut W,
) -> io::Result<CaseCounts> {
    let mut counts = CaseCounts { ran: 0, wrong: 0 };
    let is_about_chains = file.is_about_chains();
    for case in file.cases(alloc)? {
        counts.ran = counts.ran.saturating_add(1);
        let agrees = match file.fault_of_fields(case.line) {
            Some(fault) => write_fault(name, case.number, case.line, fault, out)?,
            None if is_about_chains => { run_chain(alloc, name, &case, validator.schema(), out)? }
            None => run_policy(alloc, name, &case, &*validator, out)?,
        };
        if !agrees {
            counts.wrong = counts.wrong.saturating_add(1);
        }
    }
    Ok(counts)
}

/// Runs the case of a policy, and answers whether it agrees.
fn run_policy<'x, W: Write>(
    alloc: Global,
    name: &str,
    case: &Case<'_>,
    validator: &'x Validator<'x>,
    out: &mut W,
) -> io::Result<bool> {
    let policy = match policy_of(alloc, case)? {
        Ok(policy) => policy,
        Err(fault) => return write_fault(name, case.number, case.line, fault, out),
    };
    let asked = Asked {
        alloc,
        validator,
        policy: &policy,
        source: source_of(case, &policy.template),
    };
    let mut all_agree = true;
    for expectation in &case.wanted {
        let wanted = in_order(alloc, expectation.text)?;
        let got = asked.about(expectation.asked)?;
        let (wanted, got, column) = (wanted.as_str(), got.as_str(), expectation.column);
        if !agrees(name, case.number, column, wanted, got, out)? {
            all_agree = false;
        }
    }
    Ok(all_agree)
}

/// The text of the places in a case's policy.
fn source_of<'a>(case: &Case<'a>, policy: &Template) -> Source<'a> {
    let text = match policy.loc {
        Some(_) => case.policy.text,
        None => case.condition.text,
    };
    Source {
        text,
        policy: policy.loc,
    }
}

/// The policy of a case with its slots bound, or the byte of its line at which it cannot be read.
fn policy_of(alloc: Global, case: &Case<'_>) -> Result<Result<Policy, (usize, Fault)>, AllocError> {
    let template = match template_of(alloc, case)? {
        Ok(template) => Rc::new(alloc, template)?,
        Err(fault) => return Ok(Err(fault)),
    };
    let mut values = SlotEnv::new(alloc);
    for (slot, field) in &case.slots {
        match uid_alone(alloc, field.text) {
            Ok(uid) => drop(values.insert(*slot, uid)?),
            Err(error) => return fault_in(*field, error),
        }
    }
    Ok(Ok(Policy { template, values }))
}

/// The policy of a case with its slots as they are, or its fault.
fn template_of(
    alloc: Global,
    case: &Case<'_>,
) -> Result<Result<Template, (usize, Fault)>, AllocError> {
    if !case.policy.text.is_empty() {
        return match whole_policy(alloc, case.policy.text) {
            Ok(policy) => Ok(Ok(policy)),
            Err(error) => fault_in(case.policy, error),
        };
    }
    let scope = match scope_alone(alloc, case.scope.text) {
        Ok(scope) => scope,
        Err(error) => return fault_in(case.scope, error),
    };
    let mut rest = None;
    if !case.condition.text.is_empty() {
        match condition(alloc, case.condition.text) {
            Ok(read) => rest = Some(read),
            Err(error) => return fault_in(case.condition, error),
        }
    }
    Ok(Ok(policy(alloc, scope, rest)?))
}

fn fault_in<T>(
    field: Field<'_>,
    error: ReadError,
) -> Result<Result<T, (usize, Fault)>, AllocError> {
    match error {
        ReadError::Memory(error) => Err(error),
        ReadError::At(at, fault) => Ok(Err((field.start.saturating_add(at), fault))),
    }
}
