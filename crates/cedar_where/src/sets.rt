// Joined queries of sets of policies.
ghost use Rattle.std.specs.Prelude.{◌≡◌, IfOk, map, [], ◌∷◌, ◌++◌};
ghost use Rattle.cedar_where.specs.Sets.{JoinsTheSet, KeepsAny, TellsAnyTrue, TestsEach};
ghost use Rattle.cedar_where.specs.Sql.{sql_or};
ghost use Rattle.cedar_where.specs.Views.{sql_held, sql_of};

use crate::sql::SqlExpr;
use std::alloc::{AllocError, Global};

/// The number of times that tests are joined in pairs, which makes one of 2^ROUNDS.
const ROUNDS: u32 = 24;

/// The query of a set, from the clauses of its permits and of its forbids: TRUE if some permit's clause is TRUE and no forbid's
/// is, and else FALSE, even if a clause is NULL. So a policy whose evaluation fails is left out, as an authoriser does. If
/// memory is refused, the answer is an `AllocError`.
pub fn joined(
    alloc: Global,
    permits: Vec<SqlExpr>,
    forbids: Vec<SqlExpr>,
) -> Result<SqlExpr, AllocError>
    ensures { IfOk result (λ query.
        JoinsTheSet (map sql_of permits.items) (map sql_of forbids.items) (sql_of query)) }
{
    let permitted = Box::new(alloc, any_true(alloc, permits)?)?;
    let forbidden = Box::new(alloc, any_true(alloc, forbids)?)?;
    let not_forbidden = Box::new(alloc, SqlExpr::Not(forbidden))?;
    Ok(SqlExpr::And(permitted, not_forbidden))
}

/// A test whether some clause is TRUE: a tree whose height is the logarithm of their number.
fn any_true(alloc: Global, clauses: Vec<SqlExpr>) -> Result<SqlExpr, AllocError>
    ensures { IfOk result (λ e. TellsAnyTrue (map sql_of clauses.items) (sql_of e)) }
{
    let mut tests = each_is_true(alloc, clauses)?;
    for _ in 0..ROUNDS {
        tests = in_pairs(alloc, tests)?;
    }
    let any = any_of(alloc, tests)?;
    Ok(any)
}

/// A test of each clause with IS TRUE, which is never NULL.
fn each_is_true(alloc: Global, clauses: Vec<SqlExpr>) -> Result<Vec<SqlExpr>, AllocError>
    ensures { IfOk result (λ tests.
        TestsEach (map sql_of clauses.items) (map sql_of tests.items)) }
{
    let mut tests = Vec::new(alloc);
    for clause in clauses {
        tests.push(SqlExpr::IsTrue(Box::new(alloc, clause)?))?;
    }
    Ok(tests)
}

/// Half as many tests, each of which is TRUE if one of two is.
fn in_pairs(alloc: Global, tests: Vec<SqlExpr>) -> Result<Vec<SqlExpr>, AllocError>
    ensures { IfOk result (λ pairs. KeepsAny (map sql_of tests.items) (map sql_of pairs.items)) }
{
    let (pairs, held) = pairs_and_rest(alloc, tests)?;
    let all = with_last(pairs, held)?;
    Ok(all)
}

/// The pairs of tests, and the last test if their number is odd.
fn pairs_and_rest(
    alloc: Global,
    tests: Vec<SqlExpr>,
) -> Result<(Vec<SqlExpr>, Option<SqlExpr>), AllocError>
    ensures { IfOk result (λ found. KeepsAny (map sql_of tests.items)
        (map sql_of found.0.items ++ sql_held found.1)) }
{
    let mut pairs = Vec::new(alloc);
    let mut held = None;
    for test in tests {
        match held {
            None => held = Some(test),
            Some(before) => {
                pairs.push(either(alloc, before, test)?)?;
                held = None;
            }
        }
    }
    Ok((pairs, held))
}

/// The tests with the one that is held, if there is one, behind them.
fn with_last(mut tests: Vec<SqlExpr>, held: Option<SqlExpr>) -> Result<Vec<SqlExpr>, AllocError>
    ensures { IfOk result (λ all.
        map sql_of all.items ≡ map sql_of tests.items ++ sql_held held) }
{
    if let Some(last) = held {
        tests.push(last)?;
    }
    Ok(tests)
}

/// A test that is TRUE if one of these is.
fn any_of(alloc: Global, tests: Vec<SqlExpr>) -> Result<SqlExpr, AllocError>
    ensures { IfOk result (λ e. KeepsAny (map sql_of tests.items) (sql_of e ∷ [])) }
{
    let held = any_of_some(alloc, tests)?;
    match held {
        None => Ok(SqlExpr::Truth(false)),
        Some(any) => Ok(any),
    }
}

/// A test that is TRUE if one of these is, if there are some.
fn any_of_some(alloc: Global, tests: Vec<SqlExpr>) -> Result<Option<SqlExpr>, AllocError>
    ensures { IfOk result (λ any. KeepsAny (map sql_of tests.items) (sql_held any)) }
{
    let mut any = None;
    for test in tests {
        any = match any {
            None => Some(test),
            Some(before) => Some(either(alloc, before, test)?),
        };
    }
    Ok(any)
}

fn either(alloc: Global, left: SqlExpr, right: SqlExpr) -> Result<SqlExpr, AllocError>
    ensures { IfOk result (λ e. sql_of e ≡ sql_or (sql_of left) (sql_of right)) }
{
    let left = Box::new(alloc, left)?;
    let right = Box::new(alloc, right)?;
    Ok(SqlExpr::Or(left, right))
}
