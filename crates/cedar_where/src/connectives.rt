// Connectives of compiled parts: `&&`, `||`, `!` and `if`.
ghost use Rattle.std.specs.Prelude.{◌≡◌, IfOk};
ghost use Rattle.cedar_where.specs.Compiled.{and_term, or_term, not_term, if_term, choice, conjunction, disjunction};
ghost use Rattle.cedar_where.specs.Views.{term_of, term_in};

use crate::refusals::Reason;
use crate::sql::SqlExpr;
use crate::terms::{Compiled, Kind, Term, made, refused};
use cedar_types::base::Loc;
use std::alloc::{AllocError, Global};

/// `a && b`: SQL's AND only if the left side is never NULL, because NULL AND FALSE is FALSE, and a left side that fails must
/// fail the whole.
pub(crate) fn and_term(
    alloc: Global,
    loc: Option<Loc>,
    left: Compiled,
    right: Compiled,
) -> Result<Compiled, AllocError>
    ensures { IfOk result (λ t. and_term (term_in left) (term_in right) ≡ term_in t) }
{
    match left {
        Err(refusal) => Ok(Err(refusal)),
        Ok(left) => match right {
            Err(refusal) => Ok(Err(refusal)),
            Ok(right) => conjunction(alloc, loc, left, right),
        },
    }
}

fn conjunction(
    alloc: Global,
    loc: Option<Loc>,
    left: Term,
    right: Term,
) -> Result<Compiled, AllocError>
    ensures { IfOk result (λ t. conjunction (term_of left) (term_of right) ≡ term_in t) }
{
    if !(left.kind.is_bool() && right.kind.is_bool()) {
        return refused(loc, Reason::NotBoolean);
    }
    let is_total = left.is_total && right.is_total;
    if left.is_total {
        return made(
            alloc,
            SqlExpr::And(left.sql, right.sql),
            Kind::Bool,
            is_total,
        );
    }
    let sql = SqlExpr::Case {
        test: left.sql,
        then: right.sql,
        otherwise: Box::new(alloc, SqlExpr::Truth(false))?,
    };
    made(alloc, sql, Kind::Bool, is_total)
}

/// `a || b`: SQL's OR only if the left side is never NULL, because NULL OR TRUE is TRUE, and a left side that fails must fail
/// the whole.
pub(crate) fn or_term(
    alloc: Global,
    loc: Option<Loc>,
    left: Compiled,
    right: Compiled,
) -> Result<Compiled, AllocError>
    ensures { IfOk result (λ t. or_term (term_in left) (term_in right) ≡ term_in t) }
{
    match left {
        Err(refusal) => Ok(Err(refusal)),
        Ok(left) => match right {
            Err(refusal) => Ok(Err(refusal)),
            Ok(right) => disjunction(alloc, loc, left, right),
        },
    }
}

fn disjunction(
    alloc: Global,
    loc: Option<Loc>,
    left: Term,
    right: Term,
) -> Result<Compiled, AllocError>
    ensures { IfOk result (λ t. disjunction (term_of left) (term_of right) ≡ term_in t) }
{
    if !(left.kind.is_bool() && right.kind.is_bool()) {
        return refused(loc, Reason::NotBoolean);
    }
    let is_total = left.is_total && right.is_total;
    if left.is_total {
        return made(
            alloc,
            SqlExpr::Or(left.sql, right.sql),
            Kind::Bool,
            is_total,
        );
    }
    let sql = SqlExpr::Case {
        test: left.sql,
        then: Box::new(alloc, SqlExpr::Truth(true))?,
        otherwise: right.sql,
    };
    made(alloc, sql, Kind::Bool, is_total)
}

/// `if a then b else c`: a case, if the branches are of one kind.
pub(crate) fn if_term(
    alloc: Global,
    loc: Option<Loc>,
    test: Compiled,
    then: Compiled,
    otherwise: Compiled,
) -> Result<Compiled, AllocError>
    ensures { IfOk result (λ t.
        if_term (term_in test) (term_in then) (term_in otherwise) ≡ term_in t) }
{
    match test {
        Err(refusal) => Ok(Err(refusal)),
        Ok(test) => match then {
            Err(refusal) => Ok(Err(refusal)),
            Ok(then) => match otherwise {
                Err(refusal) => Ok(Err(refusal)),
                Ok(otherwise) => choice(alloc, loc, test, then, otherwise),
            },
        },
    }
}

fn choice(
    alloc: Global,
    loc: Option<Loc>,
    test: Term,
    then: Term,
    otherwise: Term,
) -> Result<Compiled, AllocError>
    ensures { IfOk result (λ t. choice (term_of test) (term_of then) (term_of otherwise) ≡ term_in t) }
{
    if !(test.kind.is_bool() && (!then.kind.is_entity() && then.kind.is_same(&otherwise.kind))) {
        return refused(loc, Reason::Conditional);
    }
    let is_total = test.is_total && (then.is_total && otherwise.is_total);
    let Term {
        sql: then_sql,
        kind,
        is_total: _then_is_total,
    } = then;
    let sql = SqlExpr::Case {
        test: test.sql,
        then: then_sql,
        otherwise: otherwise.sql,
    };
    made(alloc, sql, kind, is_total)
}

/// `!a`.
pub(crate) fn not_term(
    alloc: Global,
    loc: Option<Loc>,
    operand: Compiled,
) -> Result<Compiled, AllocError>
    ensures { IfOk result (λ t. not_term (term_in operand) ≡ term_in t) }
{
    match operand {
        Err(refusal) => Ok(Err(refusal)),
        Ok(operand) => {
            if !operand.kind.is_bool() {
                return refused(loc, Reason::NotBoolean);
            }
            made(
                alloc,
                SqlExpr::Not(operand.sql),
                Kind::Bool,
                operand.is_total,
            )
        }
    }
}
