// Parts of a policy, read one by one so that the parts before a fault stay.
use crate::annotations::{Annotation, add_annotations};
use crate::cursor::{Cursor, MAX_GRAMMAR_STEPS};
use crate::expressions::expression;
use crate::faults::{Expected, Fault, ReadError};
use crate::parts::{Part, part_since};
use crate::policies::ReadPolicy;
use crate::scopes::{ScopeParts, read_scope_parts};
use cedar_types::base::{ActionConstraint, Expr, Loc, PolicyID, Template};
use std::alloc::{AllocError, Global};

/// The parts that were read of a policy.
#[derive(Drop)]
pub struct PolicyParts {
    pub annotations: Vec<Annotation>,
    pub scope: ScopeParts,
    /// The conditions that were read whole, all of which have to hold.
    pub condition: Option<Part>,
    /// The byte behind the brace of the condition that was not read whole, if there is one.
    pub open_condition: Option<usize>,
}

impl PolicyParts {
    /// No parts so far.
    pub fn new(alloc: Global) -> PolicyParts {
        PolicyParts {
            annotations: Vec::new(alloc),
            scope: ScopeParts::default(),
            condition: None,
            open_condition: None,
        }
    }

    /// The id of the policy with `number` policies before it: the value of `@id`, or `policy` and
    /// the number.
    pub fn id(&self, alloc: Global, number: usize) -> Result<PolicyID, AllocError> {
        for annotation in &self.annotations {
            if annotation.key.as_str() == "id" {
                return PolicyID::from_string(alloc, annotation.value.as_str());
            }
        }
        PolicyID::from_string(alloc, format!(in alloc; "policy{number}")?.as_str())
    }

    /// The policy of these parts, at `place` and with `number` policies before it. All of its scope
    /// has to be read.
    pub fn whole(self, alloc: Global, place: Loc, number: usize) -> Result<ReadPolicy, ReadError> {
        let id = self.id(alloc, number)?;
        let PolicyParts {
            annotations: _annotations,
            scope,
            condition,
            open_condition: _,
        } = self;
        let scope = scope.whole(place.start)?;
        let template = Template::new(
            id,
            Some(place),
            scope.principal,
            scope.action,
            scope.resource,
            condition.map(|part: Part| part.expr),
        );
        Ok(ReadPolicy {
            effect: scope.effect,
            template,
        })
    }
}

/// Reads a policy, each part into its field, and returns the place of the whole policy.
pub fn read_parts(cursor: &mut Cursor<'_>, parts: &mut PolicyParts) -> Result<Loc, ReadError> {
    let start = cursor.start();
    add_annotations(cursor, &mut parts.annotations)?;
    read_scope_parts(cursor, &mut parts.scope)?;
    if let Some(action) = &parts.scope.action {
        check_actions(action)?;
    }
    read_conditions(cursor, parts)?;
    cursor.expect_one(";", Expected::Condition)?;
    Ok(cursor.since(start))
}

/// Fails at the first action of the scope whose type has a last part other than `Action`.
fn check_actions(constraint: &ActionConstraint) -> Result<(), ReadError> {
    let other = match constraint {
        ActionConstraint::Any => None,
        ActionConstraint::Eq(uid) => Some(uid).filter(|uid| !uid.entity_type.is_action()),
        ActionConstraint::In(uids) => uids.iter().find(|uid| !uid.entity_type.is_action()),
    };
    match other {
        Some(uid) => Err(ReadError::At(start_of(uid.loc), Fault::ActionType)),
        None => Ok(()),
    }
}

fn start_of(place: Option<Loc>) -> usize {
    match place {
        Some(place) => place.start,
        None => 0,
    }
}

/// Reads the conditions between the scope and the `;`, all of which have to hold.
fn read_conditions(cursor: &mut Cursor<'_>, parts: &mut PolicyParts) -> Result<(), ReadError> {
    let start = cursor.start();
    // each condition nests those before it one deeper
    for _ in 0..MAX_GRAMMAR_STEPS {
        if !cursor.is_at("when") && !cursor.is_at("unless") {
            return Ok(());
        }
        let next = one_condition(cursor, &mut parts.open_condition)?;
        let before = parts.condition.take();
        parts.condition = Some(with_next(cursor, start, before, next)?);
    }
    Err(cursor.fault(Fault::TooDeep))
}

/// Reads `when` or `unless`, and the condition in braces behind it. If the condition is not read
/// whole, `open` keeps the byte at which it begins.
fn one_condition(cursor: &mut Cursor<'_>, open: &mut Option<usize>) -> Result<Part, ReadError> {
    let start = cursor.start();
    let is_negated = cursor.take().text == "unless";
    cursor.expect("{")?;
    *open = Some(cursor.start());
    let read = expression(cursor)?;
    cursor.expect("}")?;
    *open = None;
    if !is_negated {
        return Ok(read);
    }
    let whole = Expr::not(cursor.alloc, read.expr)?;
    part_since(cursor, start, read.depth, whole)
}

/// Both conditions joined, of which the first began at the byte `start`; `next` alone if there is
/// no condition before it.
fn with_next(
    cursor: &Cursor<'_>,
    start: usize,
    before: Option<Part>,
    next: Part,
) -> Result<Part, ReadError> {
    let Some(before) = before else {
        return Ok(next);
    };
    let depth = before.depth.max(next.depth);
    let whole = Expr::and(cursor.alloc, before.expr, next.expr)?;
    part_since(cursor, start, depth, whole)
}
