// Literals and variables.
ghost use Rattle.std.specs.Prelude.{◌≡◌, IfOk};
ghost use Rattle.cedar_types.specs.Names.{text_of, uid_of};
ghost use Rattle.cedar_where.specs.Compiled.{entity_term, text_term, variable_term};
ghost use Rattle.cedar_where.specs.Views.{kind_of, scope_of, term_in};

use crate::plain::is_plain;
use crate::refusals::Reason;
use crate::scopes::Scope;
use crate::sql::SqlExpr;
use crate::terms::{Compiled, Kind, made, refused};
use cedar_types::base::{EntityType, EntityUID, Loc, Var};
use std::alloc::{AllocError, Global};
use std::rc::RcStr;

/// A literal of this text, of this kind.
pub(crate) fn text_term(
    alloc: Global,
    loc: Option<Loc>,
    text: &RcStr,
    kind: Kind,
) -> Result<Compiled, AllocError>
    ensures { IfOk result (λ t. text_term (text_of text.now) (kind_of kind) ≡ term_in t) }
{
    if !is_plain(text) {
        return refused(loc, Reason::Text);
    }
    made(alloc, SqlExpr::Text(text.clone()?), kind, true)
}

/// An entity, by its id.
pub(crate) fn entity_term(
    alloc: Global,
    loc: Option<Loc>,
    uid: &EntityUID,
) -> Result<Compiled, AllocError>
    ensures { IfOk result (λ t. entity_term (uid_of uid.now) ≡ term_in t) }
{
    text_term(alloc, loc, &uid.eid, Kind::Entity(uid.entity_type.clone()?))
}

pub(crate) fn variable_term(
    alloc: Global,
    scope: &Scope<'_>,
    loc: Option<Loc>,
    variable: Var,
) -> Result<Compiled, AllocError>
    ensures { IfOk result (λ t. variable_term (scope_of scope.now) variable ≡ term_in t) }
{
    match variable {
        Var::Principal => {
            let kind = Kind::Entity(EntityType::clone(scope.principal)?);
            made(alloc, SqlExpr::Principal, kind, true)
        }
        Var::Action => entity_term(alloc, loc, scope.action),
        Var::Resource => {
            let kind = Kind::Entity(EntityType::clone(scope.resource)?);
            made(alloc, SqlExpr::OwnId, kind, true)
        }
        Var::Context => refused(loc, Reason::Context),
    }
}
