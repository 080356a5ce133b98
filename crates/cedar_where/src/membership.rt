// Membership of compiled parts: `in`.
ghost use Rattle.std.specs.Prelude.{◌≡◌, IfOk, map, option_map};
ghost use Rattle.cedar_types.specs.Expressions.View.{trees_of};
ghost use Rattle.cedar_types.specs.Names.{uid_of};
ghost use Rattle.cedar_typing.specs.TypedExpr.{typed_tree};
ghost use Rattle.cedar_where.specs.Compiled.{entity_literal, entity_literals, in_any, in_any_of, in_term, plain_entity};
ghost use Rattle.cedar_where.specs.Views.{term_in, term_of};

use crate::plain::is_plain;
use crate::refusals::Reason;
use crate::scopes::Typed;
use crate::sql::SqlExpr;
use crate::terms::{Compiled, Kind, Term, made, refused};
use cedar_types::base::{EntityUID, ExprKind, Literal, Loc};
use std::alloc::{AllocError, Global};

/// `a in b` of two entities.
pub(crate) fn in_term(
    alloc: Global,
    loc: Option<Loc>,
    left: Term,
    right: Term,
) -> Result<Compiled, AllocError>
    ensures { IfOk result (λ t. in_term (term_of left) (term_of right) ≡ term_in t) }
{
    let Term {
        sql: left,
        kind: left_kind,
        is_total: left_is_total,
    } = left;
    let Term {
        sql: right,
        kind: right_kind,
        is_total: right_is_total,
    } = right;
    let is_total = left_is_total && right_is_total;
    match (left_kind, right_kind) {
        (Kind::Entity(entity_type), Kind::Entity(ancestor_type)) => {
            let sql = SqlExpr::IsIn {
                entity_type,
                eid: left,
                ancestor_type,
                ancestor_eid: right,
            };
            made(alloc, sql, Kind::Bool, is_total)
        }
        _ => refused(loc, Reason::NotEntity),
    }
}

/// `a in [..]` for some entities, if each member of the set is one.
pub(crate) fn in_any(
    alloc: Global,
    loc: Option<Loc>,
    left: Compiled,
    members: Option<Vec<EntityUID>>,
) -> Result<Compiled, AllocError>
    ensures { IfOk result (λ t.
        in_any (term_in left) (option_map (λ us. map uid_of us.items) members) ≡ term_in t) }
{
    match left {
        Err(refusal) => Ok(Err(refusal)),
        Ok(left) => match members {
            Some(members) => in_any_of(alloc, loc, left, members),
            None => refused(loc, Reason::Set),
        },
    }
}

fn in_any_of(
    alloc: Global,
    loc: Option<Loc>,
    left: Term,
    entities: Vec<EntityUID>,
) -> Result<Compiled, AllocError>
    ensures { IfOk result (λ t.
        in_any_of (term_of left) (term_of left).kind (map uid_of entities.items) ≡ term_in t) }
{
    let Term {
        sql: eid,
        kind,
        is_total,
    } = left;
    match kind {
        Kind::Bool | Kind::Long | Kind::Text => refused(loc, Reason::NotEntity),
        Kind::Entity(entity_type) => {
            let sql = SqlExpr::IsInAny {
                entity_type,
                eid,
                entities,
            };
            made(alloc, sql, Kind::Bool, is_total)
        }
    }
}

/// The entities in the members of a set, if each is written as one.
pub(crate) fn entity_literals(
    alloc: Global,
    members: &[Typed],
) -> Result<Option<Vec<EntityUID>>, AllocError>
    ensures { IfOk result (λ o.
        option_map (λ us. map uid_of us.items) o
        ≡ entity_literals (trees_of (map typed_tree members.now))) }
{
    let mut all = Vec::new(alloc);
    for member in members {
        let Some(entity) = entity_literal(member)? else {
            return Ok(None);
        };
        all.push(entity)?;
    }
    Ok(Some(all))
}

fn entity_literal(e: &Typed) -> Result<Option<EntityUID>, AllocError>
    ensures { IfOk result (λ o. option_map uid_of o ≡ entity_literal (typed_tree e.now)) }
{
    match &e.kind {
        ExprKind::Lit(Literal::EntityUID(uid)) => plain_entity(uid),
        _ => Ok(None),
    }
}

fn plain_entity(uid: &EntityUID) -> Result<Option<EntityUID>, AllocError>
    ensures { IfOk result (λ o. option_map uid_of o ≡ plain_entity (uid_of uid.now)) }
{
    if !is_plain(&uid.eid) {
        return Ok(None);
    }
    Ok(Some(uid.clone()?))
}
