// Compiled parts of a condition.
ghost use Rattle.std.specs.Prelude.{◌≡◌, Some, None, IfOk};
ghost use Rattle.cedar_types.specs.Names.{path_eq, type_of};
ghost use Rattle.cedar_where.specs.Compiled.{is_bool, is_entity, is_long, is_text, same_kind};
ghost use Rattle.cedar_where.specs.Views.{sql_of, kind_of, term_of, term_in};

use crate::refusals::{Reason, Refusal};
use crate::sql::SqlExpr;
use cedar_types::base::{EntityType, Loc};
use std::alloc::{AllocError, Global};

/// The kind of a part's value, if the part has a value.
#[derive(Drop)]
pub(crate) enum Kind {
    /// A truth value.
    Bool,
    /// A whole number.
    Long,
    /// A text.
    Text,
    /// An entity of this type, whose id SQL holds.
    Entity(EntityType),
}

/// A compiled part of a condition.
#[derive(Drop)]
pub(crate) struct Term {
    pub(crate) sql: Box<SqlExpr>,
    pub(crate) kind: Kind,
    /// Whether the expression is never NULL.
    pub(crate) is_total: bool,
}

/// A compiled part of a condition, or the part within it that has no clause.
pub(crate) type Compiled = Result<Term, Refusal>;

/// The expression, of this kind.
pub(crate) fn made(
    alloc: Global,
    sql: SqlExpr,
    kind: Kind,
    is_total: bool,
) -> Result<Compiled, AllocError>
    ensures { IfOk result (λ t. term_in t ≡ Some
        (record { sql = sql_of sql; kind = kind_of kind; is_total = is_total })) }
{
    Ok(Ok(Term {
        sql: Box::new(alloc, sql)?,
        kind,
        is_total,
    }))
}

/// The part has no clause, for this reason.
pub(crate) fn refused(loc: Option<Loc>, reason: Reason) -> Result<Compiled, AllocError>
    ensures { IfOk result (λ t. term_in t ≡ None) }
{
    Ok(Err(Refusal::new(loc, reason)))
}

impl Kind {
    pub(crate) fn is_bool(&self) -> bool
        ensures { result ≡ is_bool (kind_of self.now) }
    {
        match self {
            Kind::Bool => true,
            Kind::Long | Kind::Text | Kind::Entity(_) => false,
        }
    }

    pub(crate) fn is_long(&self) -> bool
        ensures { result ≡ is_long (kind_of self.now) }
    {
        match self {
            Kind::Long => true,
            Kind::Bool | Kind::Text | Kind::Entity(_) => false,
        }
    }

    pub(crate) fn is_text(&self) -> bool
        ensures { result ≡ is_text (kind_of self.now) }
    {
        match self {
            Kind::Text => true,
            Kind::Bool | Kind::Long | Kind::Entity(_) => false,
        }
    }

    pub(crate) fn is_entity(&self) -> bool
        ensures { result ≡ is_entity (kind_of self.now) }
    {
        match self {
            Kind::Entity(_) => true,
            Kind::Bool | Kind::Long | Kind::Text => false,
        }
    }

    /// Whether SQL compares values of the two kinds by the values of their columns.
    pub(crate) fn is_same(&self, other: &Kind) -> bool
        ensures { result ≡ same_kind (kind_of self.now) (kind_of other.now) }
    {
        match (self, other) {
            (Kind::Bool, Kind::Bool) => true,
            (Kind::Long, Kind::Long) => true,
            (Kind::Text, Kind::Text) => true,
            (Kind::Entity(left), Kind::Entity(right)) => is_same_type(left, right),
            _ => false,
        }
    }
}

/// Whether two entity types have one name.
pub(crate) fn is_same_type(left: &EntityType, right: &EntityType) -> bool
    ensures { result ≡ path_eq (type_of left.now) (type_of right.now) }
{
    left == right
}
