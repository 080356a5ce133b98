// Comparisons of compiled parts: `==`, `<` and `<=`.
ghost use Rattle.std.specs.Prelude.{◌≡◌, IfOk};
ghost use Rattle.cedar_where.specs.Compiled.{equality, less, less_or_equal, unless_null};
ghost use Rattle.cedar_where.specs.Views.{sql_of, term_of, term_in};

use crate::refusals::Reason;
use crate::sql::SqlExpr;
use crate::terms::{Compiled, Kind, Term, made, refused};
use cedar_types::base::Loc;
use std::alloc::{AllocError, Global};

/// `a == b`: values of two kinds, and entities of two types, are never equal, whatever their ids.
pub(crate) fn equality(alloc: Global, left: Term, right: Term) -> Result<Compiled, AllocError>
    ensures { IfOk result (λ t. equality (term_of left) (term_of right) ≡ term_in t) }
{
    let is_total = left.is_total && right.is_total;
    if left.kind.is_same(&right.kind) {
        return made(
            alloc,
            SqlExpr::Equal(left.sql, right.sql),
            Kind::Bool,
            is_total,
        );
    }
    if is_total {
        return made(alloc, SqlExpr::Truth(false), Kind::Bool, true);
    }
    let left_there = Box::new(alloc, SqlExpr::IsNotNull(left.sql))?;
    let right_there = Box::new(alloc, SqlExpr::IsNotNull(right.sql))?;
    let both_there = SqlExpr::And(left_there, right_there);
    let sql = unless_null(alloc, both_there, false)?;
    made(alloc, sql, Kind::Bool, false)
}

/// This truth value if the test is TRUE, and NULL if it is FALSE.
pub(crate) fn unless_null(alloc: Global, test: SqlExpr, truth: bool) -> Result<SqlExpr, AllocError>
    ensures { IfOk result (λ e. unless_null (sql_of test) truth ≡ sql_of e) }
{
    Ok(SqlExpr::Case {
        test: Box::new(alloc, test)?,
        then: Box::new(alloc, SqlExpr::Truth(truth))?,
        otherwise: Box::new(alloc, SqlExpr::Null)?,
    })
}

/// `a < b` of numbers.
pub(crate) fn less(
    alloc: Global,
    loc: Option<Loc>,
    left: Term,
    right: Term,
) -> Result<Compiled, AllocError>
    ensures { IfOk result (λ t. less (term_of left) (term_of right) ≡ term_in t) }
{
    if !(left.kind.is_long() && right.kind.is_long()) {
        return refused(loc, Reason::NotNumber);
    }
    let is_total = left.is_total && right.is_total;
    made(
        alloc,
        SqlExpr::Less(left.sql, right.sql),
        Kind::Bool,
        is_total,
    )
}

/// `a <= b` of numbers.
pub(crate) fn less_or_equal(
    alloc: Global,
    loc: Option<Loc>,
    left: Term,
    right: Term,
) -> Result<Compiled, AllocError>
    ensures { IfOk result (λ t. less_or_equal (term_of left) (term_of right) ≡ term_in t) }
{
    if !(left.kind.is_long() && right.kind.is_long()) {
        return refused(loc, Reason::NotNumber);
    }
    let is_total = left.is_total && right.is_total;
    made(
        alloc,
        SqlExpr::LessOrEqual(left.sql, right.sql),
        Kind::Bool,
        is_total,
    )
}
