// Paths of attributes: from the principal and from the context, which parameters hold, from the resource in the row, and from
// entities in the tables of their types.
ghost use Rattle.std.specs.Prelude.{◌≡◌, ◌∷◌, [], IfOk, Some, map, option_map};
ghost use Rattle.cedar_types.specs.Names.{text_of, type_of, uid_of};
ghost use Rattle.cedar_types.specs.Schemas.Contents.{schema_of};
ghost use Rattle.cedar_types.specs.Types.{ty_of};
ghost use Rattle.cedar_types.specs.Types.Lookups.{attribute_view};
ghost use Rattle.cedar_typing.specs.TypedExpr.{typed_tree};
ghost use Rattle.cedar_where.specs.Routes.{behind, beyond, entity_type_of, is_followed, is_record, leaves_row, literal_route};
ghost use Rattle.cedar_where.specs.Routes.{longer, may_follow, next_route, own_route, resource_route, route, sql_at, start};
ghost use Rattle.cedar_where.specs.Views.{origin_of, route_of, scope_of, sql_of};

use crate::plain::{is_plain, is_word};
use crate::scopes::{Scope, Typed};
use crate::sql::SqlExpr;
use cedar_types::base::{
    AttributeType, CedarType, EntityKind, EntityType, EntityUID, ExprKind, Literal,
    ValidatorSchema, Var,
};
use std::alloc::{AllocError, Global};
use std::rc::RcStr;

/// The beginning of a path.
#[derive(Drop)]
pub(crate) enum Origin {
    /// A variable of the request.
    Variable(Var),
    /// The resource in the row.
    Row,
    /// The entity of this type with this id.
    Entity(EntityType, Box<SqlExpr>),
}

/// A path of attributes.
#[derive(Drop)]
pub(crate) struct Route {
    pub(crate) origin: Origin,
    pub(crate) path: Vec<RcStr>,
    /// The type of the value at the end.
    pub(crate) end: CedarType,
    /// Whether there is always a value.
    pub(crate) is_total: bool,
}

/// The path that a part is, if it is one that columns or a parameter may hold.
pub(crate) fn find_route(
    alloc: Global,
    scope: &Scope<'_>,
    e: &Typed,
) -> Result<Option<Route>, AllocError>
    ensures { IfOk result (λ r.
        route (scope_of scope.now) (typed_tree e.now) ≡ option_map route_of r) }
{
    match &e.kind {
        ExprKind::Lit(Literal::EntityUID(uid)) => literal_route(alloc, scope.schema, uid),
        ExprKind::Var(Var::Principal) => begun(alloc, Var::Principal, scope.principal_type),
        ExprKind::Var(Var::Context) => begun(alloc, Var::Context, scope.context),
        ExprKind::GetAttr(base, name) => {
            let before = find_route(alloc, scope, base)?;
            behind(alloc, scope, base, name, before)
        }
        _ => Ok(None),
    }
}

/// The path of an attribute behind a part, from the part's own path.
pub(crate) fn behind(
    alloc: Global,
    scope: &Scope<'_>,
    base: &Typed,
    name: &RcStr,
    before: Option<Route>,
) -> Result<Option<Route>, AllocError>
    ensures { IfOk result (λ r.
        behind (scope_of scope.now) (typed_tree base.now) (text_of name.now)
        (option_map route_of before) ≡ option_map route_of r) }
{
    match &base.kind {
        ExprKind::Var(Var::Resource) => resource_route(alloc, scope, name),
        _ => next_route(alloc, scope.schema, name, before),
    }
}

/// The path of an attribute of the resource, which is stored.
fn resource_route(
    alloc: Global,
    scope: &Scope<'_>,
    name: &RcStr,
) -> Result<Option<Route>, AllocError>
    ensures { IfOk result (λ r.
        resource_route (scope_of scope.now) (text_of name.now) ≡ option_map route_of r) }
{
    if !is_plain(name) {
        return Ok(None);
    }
    let found = CedarType::lookup_attribute_type(alloc, scope.schema, scope.resource_type, name)?;
    own_route(alloc, name, found)
}

fn own_route(
    alloc: Global,
    name: &RcStr,
    found: Option<AttributeType>,
) -> Result<Option<Route>, AllocError>
    ensures { IfOk result (λ r.
        option_map (own_route (text_of name.now)) (option_map attribute_view found)
        ≡ option_map route_of r) }
{
    let Some(attribute) = found else {
        return Ok(None);
    };
    let AttributeType {
        attr_type,
        is_required,
    } = attribute;
    let mut path = Vec::new(alloc);
    path.push(name.clone()?)?;
    Ok(Some(Route {
        origin: Origin::Row,
        path,
        end: attr_type,
        is_total: is_required,
    }))
}

fn begun(alloc: Global, variable: Var, end: &CedarType) -> Result<Option<Route>, AllocError>
    ensures { IfOk result (λ r. Some (start variable (ty_of end.now)) ≡ option_map route_of r) }
{
    Ok(Some(Route {
        origin: Origin::Variable(variable),
        path: Vec::new(alloc),
        end: CedarType::clone(end)?,
        is_total: true,
    }))
}

/// The path that is an entity's literal.
fn literal_route(
    alloc: Global,
    schema: &ValidatorSchema,
    uid: &EntityUID,
) -> Result<Option<Route>, AllocError>
    ensures { IfOk result (λ r. literal_route (uid_of uid.now) ≡ option_map route_of r) }
{
    if !is_plain(&uid.eid) {
        return Ok(None);
    }
    let eid = Box::new(alloc, SqlExpr::Text(uid.eid.clone()?))?;
    Ok(Some(Route {
        origin: Origin::Entity(uid.entity_type.clone()?, eid),
        path: Vec::new(alloc),
        end: CedarType::entity_reference(alloc, &uid.entity_type, schema)?,
        is_total: true,
    }))
}

/// The path with one attribute more, if its type declares the attribute.
pub(crate) fn next_route(
    alloc: Global,
    schema: &ValidatorSchema,
    name: &RcStr,
    before: Option<Route>,
) -> Result<Option<Route>, AllocError>
    ensures { IfOk result (λ r.
        next_route (schema_of schema.now) (text_of name.now) (option_map route_of before)
        ≡ option_map route_of r) }
{
    let Some(before) = before else {
        return Ok(None);
    };
    if !(may_follow(&before.origin, name) && is_followed(&before.end)) {
        return Ok(None);
    }
    let found = CedarType::lookup_attribute_type(alloc, schema, &before.end, name)?;
    with_found(alloc, before, name, found)
}

fn with_found(
    alloc: Global,
    before: Route,
    name: &RcStr,
    found: Option<AttributeType>,
) -> Result<Option<Route>, AllocError>
    ensures { IfOk result (λ r.
        option_map (longer (route_of before) (text_of name.now)) (option_map attribute_view found)
        ≡ option_map route_of r) }
{
    let Some(attribute) = found else {
        return Ok(None);
    };
    let after = longer(alloc, before, name, attribute)?;
    Ok(Some(after))
}

fn longer(
    alloc: Global,
    before: Route,
    name: &RcStr,
    attribute: AttributeType,
) -> Result<Route, AllocError>
    ensures { IfOk result (λ r.
        longer (route_of before) (text_of name.now) (attribute_view attribute) ≡ route_of r) }
{
    let Route {
        origin,
        path,
        end,
        is_total,
    } = before;
    let AttributeType {
        attr_type,
        is_required,
    } = attribute;
    let is_total = is_total && (is_record(&end) && is_required);
    let (origin, mut path) = beyond(alloc, origin, path, entity_type_of(&end))?;
    path.push(name.clone()?)?;
    Ok(Route {
        origin,
        path,
        end: attr_type,
        is_total,
    })
}

/// The beginning of the path behind a value, and the attributes before it: behind an entity that a table holds, a path begins
/// at the entity's own row.
fn beyond(
    alloc: Global,
    origin: Origin,
    path: Vec<RcStr>,
    entity_type: Option<&EntityType>,
) -> Result<(Origin, Vec<RcStr>), AllocError>
    ensures { IfOk result (λ b.
        beyond (origin_of origin) (map text_of path.items)
        (option_map (λ t. type_of t.now) entity_type.entry)
        ≡ (origin_of b.0, map text_of b.1.items)) }
{
    let Some(entity_type) = entity_type else {
        return Ok((origin, path));
    };
    if !leaves_row(&origin, &path) {
        return Ok((origin, path));
    }
    let eid = Box::new(alloc, sql_at(origin, path))?;
    let origin = Origin::Entity(EntityType::clone(entity_type)?, eid);
    Ok((origin, Vec::new(alloc)))
}

fn leaves_row(origin: &Origin, path: &[RcStr]) -> bool
    ensures { result ≡ leaves_row (origin_of origin.now) (map text_of path.now) }
{
    match origin {
        Origin::Variable(_) => false,
        Origin::Row | Origin::Entity(_, _) => !path.is_empty(),
    }
}

/// The column or the parameter at the end of a path.
pub(crate) fn sql_at(origin: Origin, path: Vec<RcStr>) -> SqlExpr
    ensures { sql_of result ≡ sql_at (origin_of origin) (map text_of path.items) }
{
    match origin {
        Origin::Variable(variable) => SqlExpr::Parameter { variable, path },
        Origin::Row => SqlExpr::Column(path),
        Origin::Entity(entity_type, eid) => SqlExpr::Attribute {
            entity_type,
            eid,
            path,
        },
    }
}

/// Whether a name may stand in the name of a parameter, or of a column.
fn may_follow(origin: &Origin, name: &str) -> bool
    ensures { result ≡ may_follow (origin_of origin.now) name.now }
{
    match origin {
        Origin::Variable(_) => is_word(name),
        Origin::Row | Origin::Entity(_, _) => is_plain(name),
    }
}

fn is_record(ty: &CedarType) -> bool
    ensures { result ≡ is_record (ty_of ty.now) }
{
    match ty {
        CedarType::Record { .. } => true,
        CedarType::Never | CedarType::Bool(_) | CedarType::Long | CedarType::String => false,
        CedarType::Set(_) | CedarType::AnySet => false,
        CedarType::Entity(_) | CedarType::Extension(_) => false,
    }
}

/// The entity type of a type of entities, if there is one alone.
fn entity_type_of(ty: &CedarType) -> Option<&EntityType>
    ensures { option_map (λ t. type_of t.now) result ≡ entity_type_of (ty_of ty.now) }
{
    match ty {
        CedarType::Entity(EntityKind::Entity(types)) => types.get_single_entity(),
        CedarType::Entity(EntityKind::AnyEntity) | CedarType::Never => None,
        CedarType::Bool(_) | CedarType::Long | CedarType::String => None,
        CedarType::Set(_) | CedarType::AnySet | CedarType::Extension(_) => None,
        CedarType::Record { .. } => None,
    }
}

/// Whether a path goes on to the attributes of a type: of a record, or of entities of one type.
fn is_followed(ty: &CedarType) -> bool
    ensures { result ≡ is_followed (ty_of ty.now) }
{
    is_record(ty) || entity_type_of(ty).is_some()
}
