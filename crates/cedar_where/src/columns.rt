// Attributes: those of the resource and of entities behind it, in columns, and those of which a parameter holds the value.
ghost use Rattle.std.specs.Prelude.{◌≡◌, IfOk, [], map, option_map};
ghost use Rattle.cedar_types.specs.Names.{text_of};
ghost use Rattle.cedar_types.specs.Schemas.Contents.{schema_of};
ghost use Rattle.cedar_types.specs.Types.{ty_of};
ghost use Rattle.cedar_typing.specs.TypedExpr.{typed_tree};
ghost use Rattle.cedar_where.specs.Compiled.{attribute_term, column_kind, has_at, has_behind, has_guarded, has_term, has_value, is_resource, value_at, value_behind};
ghost use Rattle.cedar_where.specs.Routes.{follow};
ghost use Rattle.cedar_where.specs.Views.{kind_of, route_of, scope_of, term_in};

use crate::refusals::Reason;
use crate::routes::{Route, behind, find_route, next_route, sql_at};
use crate::scopes::{Scope, Typed};
use crate::sql::SqlExpr;
use crate::terms::{Compiled, Kind, made, refused};
use cedar_types::base::{CedarType, EntityKind, ExprKind, Loc, ValidatorSchema, Var};
use std::alloc::{AllocError, Global};
use std::rc::RcStr;

/// `a.x`: the column or the parameter at the end of its path.
pub(crate) fn attribute_term(
    alloc: Global,
    scope: &Scope<'_>,
    loc: Option<Loc>,
    base: &Typed,
    name: &RcStr,
) -> Result<Compiled, AllocError>
    ensures { IfOk result (λ t.
        attribute_term (scope_of scope.now) (typed_tree base.now) (text_of name.now) ≡ term_in t) }
{
    let before = find_route(alloc, scope, base)?;
    let at = behind(alloc, scope, base, name, before)?;
    value_at(alloc, loc, at)
}

/// The column or the parameter that holds the value at the end of a path.
fn value_at(alloc: Global, loc: Option<Loc>, at: Option<Route>) -> Result<Compiled, AllocError>
    ensures { IfOk result (λ t. value_at (option_map route_of at) ≡ term_in t) }
{
    let Some(at) = at else {
        return refused(loc, Reason::NoPath);
    };
    let Some(kind) = column_kind(&at.end)? else {
        return refused(loc, Reason::NoColumn);
    };
    let Route {
        origin,
        path,
        end: _end,
        is_total,
    } = at;
    made(alloc, sql_at(origin, path), kind, is_total)
}

/// The kind of the values of a type, if a column holds them.
pub(crate) fn column_kind(ty: &CedarType) -> Result<Option<Kind>, AllocError>
    ensures { IfOk result (λ k. column_kind (ty_of ty.now) ≡ option_map kind_of k) }
{
    match ty {
        CedarType::Bool(_) => Ok(Some(Kind::Bool)),
        CedarType::Long => Ok(Some(Kind::Long)),
        CedarType::String => Ok(Some(Kind::Text)),
        CedarType::Entity(EntityKind::Entity(types)) => match types.get_single_entity() {
            Some(entity_type) => Ok(Some(Kind::Entity(entity_type.clone()?))),
            None => Ok(None),
        },
        CedarType::Entity(EntityKind::AnyEntity) | CedarType::Never => Ok(None),
        CedarType::Set(_) | CedarType::AnySet => Ok(None),
        CedarType::Record { .. } | CedarType::Extension(_) => Ok(None),
    }
}

/// `a has x` and `a has x.y`: whether the column or the parameter at the end of the path is not NULL.
pub(crate) fn has_term(
    alloc: Global,
    scope: &Scope<'_>,
    loc: Option<Loc>,
    base: &Typed,
    name: &RcStr,
    names: &[RcStr],
) -> Result<Compiled, AllocError>
    ensures { IfOk result (λ t.
        has_term (scope_of scope.now) (typed_tree base.now) (text_of name.now)
        (map text_of names.now) ≡ term_in t) }
{
    let value = value_behind(alloc, scope, loc, base, name, names)?;
    let before = find_route(alloc, scope, base)?;
    has_at(alloc, loc, is_resource(base), before, value)
}

/// The test of a value behind a part: the resource is stored, so NULL tells that it lacks the value.
fn has_at(
    alloc: Global,
    loc: Option<Loc>,
    is_resource: bool,
    before: Option<Route>,
    value: Compiled,
) -> Result<Compiled, AllocError>
    ensures { IfOk result (λ t.
        has_at is_resource (option_map route_of before) (term_in value) ≡ term_in t) }
{
    if is_resource {
        has_value(alloc, value)
    } else {
        has_behind(alloc, loc, before, value)
    }
}

fn is_resource(e: &Typed) -> bool
    ensures { result ≡ is_resource (typed_tree e.now) }
{
    match &e.kind {
        ExprKind::Var(Var::Resource) => true,
        _ => false,
    }
}

/// The value behind a part, at the end of one attribute or of several.
fn value_behind(
    alloc: Global,
    scope: &Scope<'_>,
    loc: Option<Loc>,
    base: &Typed,
    name: &RcStr,
    names: &[RcStr],
) -> Result<Compiled, AllocError>
    ensures { IfOk result (λ t.
        value_behind (scope_of scope.now) (typed_tree base.now) (text_of name.now)
        (map text_of names.now) ≡ term_in t) }
{
    let before = find_route(alloc, scope, base)?;
    let first = behind(alloc, scope, base, name, before)?;
    let last = follow(alloc, scope.schema, names, first)?;
    value_at(alloc, loc, last)
}

/// The path with some attributes more, one behind the other.
fn follow(
    alloc: Global,
    schema: &ValidatorSchema,
    names: &[RcStr],
    first: Option<Route>,
) -> Result<Option<Route>, AllocError>
    ensures { IfOk result (λ r.
        follow (schema_of schema.now) (map text_of names.now) (option_map route_of first)
        ≡ option_map route_of r) }
{
    let mut last = first;
    for name in names {
        last = next_route(alloc, schema, name, last)?;
    }
    Ok(last)
}

/// The test of a value at the end of a longer path: NULL if there is no value before.
fn has_behind(
    alloc: Global,
    loc: Option<Loc>,
    base: Option<Route>,
    value: Compiled,
) -> Result<Compiled, AllocError>
    ensures { IfOk result (λ t. has_behind (option_map route_of base) (term_in value) ≡ term_in t) }
{
    match base {
        None => refused(loc, Reason::NoPath),
        Some(base) => {
            if base.is_total {
                has_value(alloc, value)
            } else {
                has_guarded(alloc, value_at(alloc, loc, Some(base))?, value)
            }
        }
    }
}

fn has_guarded(alloc: Global, base: Compiled, value: Compiled) -> Result<Compiled, AllocError>
    ensures { IfOk result (λ t. has_guarded (term_in base) (term_in value) ≡ term_in t) }
{
    match base {
        Err(refusal) => Ok(Err(refusal)),
        Ok(base) => match value {
            Err(refusal) => Ok(Err(refusal)),
            Ok(value) => {
                let sql = SqlExpr::Case {
                    test: Box::new(alloc, SqlExpr::IsNotNull(base.sql))?,
                    then: Box::new(alloc, SqlExpr::IsNotNull(value.sql))?,
                    otherwise: Box::new(alloc, SqlExpr::Null)?,
                };
                made(alloc, sql, Kind::Bool, false)
            }
        },
    }
}

fn has_value(alloc: Global, value: Compiled) -> Result<Compiled, AllocError>
    ensures { IfOk result (λ t. has_value (term_in value) ≡ term_in t) }
{
    match value {
        Err(refusal) => Ok(Err(refusal)),
        Ok(value) => made(alloc, SqlExpr::IsNotNull(value.sql), Kind::Bool, true),
    }
}
