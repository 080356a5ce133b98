// Policies: their scopes, and perhaps a condition.
use crate::cursor::{Cursor, MAX_GRAMMAR_STEPS};
use crate::expressions::expression;
use crate::faults::{Expected, Fault, ReadError};
use crate::names::{entity_type, entity_uid, free_name};
use crate::tokens::TokenKind;
use cedar_types::base::{
    ActionConstraint, Effect, EntityReference, EntityUID, Expr, Name, PolicyID,
    PrincipalConstraint, PrincipalOrResourceConstraint, ResourceConstraint, Template,
};
use std::alloc::{AllocError, Global};

/// The id of every policy that `policy` and `whole_policy` return.
pub const POLICY: &str = "policy0";

/// The constraints of a scope that was read.
#[derive(Drop)]
pub struct Scope {
    pub effect: Effect,
    pub principal: PrincipalConstraint,
    pub action: ActionConstraint,
    pub resource: ResourceConstraint,
}

/// The parts that were read of a scope: a part is `None` if a fault stands before its end.
#[derive(Default, Drop)]
pub struct ScopeParts {
    pub effect: Option<Effect>,
    pub principal: Option<PrincipalConstraint>,
    pub action: Option<ActionConstraint>,
    pub resource: Option<ResourceConstraint>,
}

impl ScopeParts {
    /// The scope of these parts, which begins at the byte `start`. It fails if one of them was not
    /// read.
    pub fn whole(self, start: usize) -> Result<Scope, ReadError> {
        let ScopeParts {
            effect,
            principal,
            action,
            resource,
        } = self;
        let Some(effect) = effect else {
            return Err(unread_part(start));
        };
        let Some(principal) = principal else {
            return Err(unread_part(start));
        };
        let Some(action) = action else {
            return Err(unread_part(start));
        };
        let Some(resource) = resource else {
            return Err(unread_part(start));
        };
        Ok(Scope {
            effect,
            principal,
            action,
            resource,
        })
    }
}

fn unread_part(start: usize) -> ReadError {
    ReadError::At(start, Fault::Expected(Expected::Effect))
}

/// Reads a scope alone: `permit(principal, action, resource)`.
pub fn read_scope(cursor: &mut Cursor<'_>) -> Result<Scope, ReadError> {
    let start = cursor.start();
    let mut parts = ScopeParts::default();
    read_scope_parts(cursor, &mut parts)?;
    parts.whole(start)
}

/// Reads a scope alone, each part into its field, so that the parts before a fault stay.
pub fn read_scope_parts(cursor: &mut Cursor<'_>, parts: &mut ScopeParts) -> Result<(), ReadError> {
    parts.effect = Some(effect(cursor)?);
    cursor.expect("(")?;
    let constraint = entity_constraint(cursor, "principal")?;
    parts.principal = Some(PrincipalConstraint { constraint });
    cursor.expect(",")?;
    parts.action = Some(action_constraint(cursor)?);
    cursor.expect(",")?;
    let constraint = entity_constraint(cursor, "resource")?;
    parts.resource = Some(ResourceConstraint { constraint });
    // a comma may stand behind the last
    cursor.takes(",");
    cursor.expect(")")
}

/// Reads the effect of the policy.
fn effect(cursor: &mut Cursor<'_>) -> Result<Effect, ReadError> {
    if cursor.takes("forbid") {
        return Ok(Effect::Forbid);
    }
    if cursor.takes("permit") {
        return Ok(Effect::Permit);
    }
    Err(cursor.fault(Fault::Expected(Expected::Effect)))
}

/// Reads the constraint of the principal or of the resource, after its name.
fn entity_constraint(
    cursor: &mut Cursor<'_>,
    variable: &'static str,
) -> Result<PrincipalOrResourceConstraint, ReadError> {
    cursor.expect(variable)?;
    if cursor.takes("==") {
        return Ok(PrincipalOrResourceConstraint::Eq(reference(cursor, variable)?));
    }
    if cursor.takes("in") {
        return Ok(PrincipalOrResourceConstraint::In(reference(cursor, variable)?));
    }
    if !cursor.takes("is") {
        return Ok(PrincipalOrResourceConstraint::Any);
    }
    let named = entity_type(cursor)?;
    if !cursor.takes("in") {
        return Ok(PrincipalOrResourceConstraint::Is(named));
    }
    let reference = reference(cursor, variable)?;
    Ok(PrincipalOrResourceConstraint::IsIn(named, reference))
}

/// Reads an id, or the slot of this variable. Parentheses may stand around it.
fn reference(
    cursor: &mut Cursor<'_>,
    variable: &'static str,
) -> Result<EntityReference, ReadError> {
    let parentheses = opened(cursor)?;
    let reference = if cursor.takes("?") {
        slot_of(cursor, variable)?;
        EntityReference::Slot
    } else {
        EntityReference::EUID(entity_uid(cursor)?)
    };
    close(cursor, parentheses)?;
    Ok(reference)
}

/// Reads the variable of a slot, right behind its `?`.
fn slot_of(cursor: &mut Cursor<'_>, variable: &'static str) -> Result<(), ReadError> {
    let is_slot = cursor.is_at("principal") || cursor.is_at("resource");
    if !is_slot || !cursor.is_joined() {
        return Err(cursor.fault(Fault::Expected(Expected::Slot)));
    }
    cursor.expect(variable)
}

/// Reads any number of opening parentheses, and returns how many there are.
fn opened(cursor: &mut Cursor<'_>) -> Result<usize, ReadError> {
    for count in 0..MAX_GRAMMAR_STEPS {
        if !cursor.takes("(") {
            return Ok(count);
        }
    }
    Err(cursor.fault(Fault::TooDeep))
}

/// Reads this number of closing parentheses.
fn close(cursor: &mut Cursor<'_>, parentheses: usize) -> Result<(), ReadError> {
    for _ in 0..parentheses {
        cursor.expect(")")?;
    }
    Ok(())
}

/// Reads the constraint of the action, after its name.
fn action_constraint(cursor: &mut Cursor<'_>) -> Result<ActionConstraint, ReadError> {
    cursor.expect("action")?;
    if cursor.takes("==") {
        return Ok(ActionConstraint::Eq(action(cursor)?));
    }
    if !cursor.takes("in") {
        return Ok(ActionConstraint::Any);
    }
    let parentheses = opened(cursor)?;
    let actions = action_or_list(cursor)?;
    close(cursor, parentheses)?;
    Ok(ActionConstraint::In(actions))
}

/// Reads an action, or actions in brackets.
fn action_or_list(cursor: &mut Cursor<'_>) -> Result<Vec<EntityUID>, ReadError> {
    if cursor.takes("[") {
        return listed_actions(cursor);
    }
    let mut actions = Vec::new(cursor.alloc);
    actions.push(action(cursor)?)?;
    Ok(actions)
}

/// Reads the id of an action. Parentheses may stand around it.
fn action(cursor: &mut Cursor<'_>) -> Result<EntityUID, ReadError> {
    let parentheses = opened(cursor)?;
    if cursor.peek().kind == TokenKind::Text {
        return Err(cursor.fault(Fault::Expected(Expected::ActionId)));
    }
    let uid = entity_uid(cursor)?;
    close(cursor, parentheses)?;
    Ok(uid)
}

/// Reads ids with commas between them, and the bracket behind the last.
fn listed_actions(cursor: &mut Cursor<'_>) -> Result<Vec<EntityUID>, ReadError> {
    let mut uids = Vec::new(cursor.alloc);
    for _ in 0..cursor.most_left() {
        if cursor.takes("]") {
            break;
        }
        uids.push(action(cursor)?)?;
        if !cursor.takes(",") {
            cursor.expect("]")?;
            break;
        }
    }
    Ok(uids)
}

/// Reads a text that is an expression and nothing else.
pub fn condition(alloc: Global, text: &str) -> Result<Expr, ReadError> {
    let mut cursor = Cursor::new(alloc, text)?;
    let read = expression(&mut cursor)?;
    finish(&cursor)?;
    Ok(read.expr)
}

/// Reads a text that is a scope and nothing else.
pub fn scope_alone(alloc: Global, text: &str) -> Result<Scope, ReadError> {
    let mut cursor = Cursor::new(alloc, text)?;
    let read = read_scope(&mut cursor)?;
    finish(&cursor)?;
    Ok(read)
}

/// Reads a text that is a name and nothing else, words with `::` between them: `User` or
/// `Acme::User`. The name has no place.
///
/// It fails if the text cannot be read, also if it is an id or has a reserved word, and if memory
/// is refused.
pub fn name_alone(alloc: Global, text: &str) -> Result<Name, ReadError> {
    let mut cursor = Cursor::new(alloc, text)?;
    let read = free_name(&mut cursor)?;
    finish(&cursor)?;
    Ok(read.name)
}

/// Reads a text that is an id and nothing else: `User::"alice"`.
///
/// It fails if the text cannot be read, also if it is a name alone, and if memory is refused.
pub fn uid_alone(alloc: Global, text: &str) -> Result<EntityUID, ReadError> {
    let mut cursor = Cursor::new(alloc, text)?;
    let read = entity_uid(&mut cursor)?;
    finish(&cursor)?;
    Ok(read)
}

/// Reads a text that is a policy and nothing else: `permit(principal, action, resource) when { ..
/// };`. The policy stands at the whole text.
pub fn whole_policy(alloc: Global, text: &str) -> Result<Template, ReadError> {
    let mut cursor = Cursor::new(alloc, text)?;
    let start = cursor.start();
    let scope = read_scope(&mut cursor)?;
    let mut rest = None;
    if cursor.takes("when") {
        cursor.expect("{")?;
        rest = Some(expression(&mut cursor)?.expr);
        cursor.expect("}")?;
    }
    cursor.expect(";")?;
    finish(&cursor)?;
    let mut read = policy(alloc, scope, rest)?;
    read.loc = Some(cursor.since(start));
    Ok(read)
}

/// Fails if the text does not end here.
pub fn finish(cursor: &Cursor<'_>) -> Result<(), ReadError> {
    if cursor.is_at_end() {
        Ok(())
    } else {
        Err(cursor.fault(Fault::Expected(Expected::End)))
    }
}

/// The policy of this scope and this condition, without a place.
pub fn policy(
    alloc: Global,
    scope: Scope,
    condition: Option<Expr>,
) -> Result<Template, AllocError> {
    let id = PolicyID::from_string(alloc, POLICY)?;
    Ok(Template::new(
        id,
        None,
        scope.principal,
        scope.action,
        scope.resource,
        condition,
    ))
}
