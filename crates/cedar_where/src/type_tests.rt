// Tests of compiled parts: `like` and `is`.
ghost use Rattle.std.specs.Prelude.{◌≡◌, IfOk};
ghost use Rattle.cedar_types.specs.Names.{type_of};
ghost use Rattle.cedar_where.specs.Compiled.{like_term, is_term, is_of_kind, type_test};
ghost use Rattle.cedar_where.specs.Views.{term_of, term_in};

use crate::comparisons::unless_null;
use crate::plain::is_plain_pattern;
use crate::refusals::Reason;
use crate::sql::SqlExpr;
use crate::terms::{Compiled, Kind, Term, is_same_type, made, refused};
use cedar_types::base::{EntityType, Loc, PatternElem};
use std::alloc::{AllocError, Global};

/// `a like p`.
pub(crate) fn like_term(
    alloc: Global,
    loc: Option<Loc>,
    operand: Compiled,
    pattern: &Vec<PatternElem>,
) -> Result<Compiled, AllocError>
    ensures { IfOk result (λ t. like_term (term_in operand) pattern.now.items ≡ term_in t) }
{
    match operand {
        Err(refusal) => Ok(Err(refusal)),
        Ok(operand) => {
            if !operand.kind.is_text() {
                return refused(loc, Reason::NotText);
            }
            if !is_plain_pattern(pattern) {
                return refused(loc, Reason::Pattern);
            }
            let pattern = Vec::from_slice(alloc, pattern)?;
            let sql = SqlExpr::Matches(operand.sql, pattern);
            made(alloc, sql, Kind::Bool, operand.is_total)
        }
    }
}

/// `a is T`: the type that typing found decides it, because SQL holds only the id of an entity.
pub(crate) fn is_term(
    alloc: Global,
    loc: Option<Loc>,
    operand: Compiled,
    entity_type: &EntityType,
) -> Result<Compiled, AllocError>
    ensures { IfOk result (λ t. is_term (term_in operand) (type_of entity_type.now) ≡ term_in t) }
{
    match operand {
        Err(refusal) => Ok(Err(refusal)),
        Ok(operand) => match &operand.kind {
            Kind::Bool | Kind::Long | Kind::Text => refused(loc, Reason::NotEntity),
            Kind::Entity(own_type) => {
                let is_of_type = is_same_type(own_type, entity_type);
                type_test(alloc, operand, is_of_type)
            }
        },
    }
}

fn type_test(alloc: Global, operand: Term, is_of_type: bool) -> Result<Compiled, AllocError>
    ensures { IfOk result (λ t. type_test (term_of operand) is_of_type ≡ term_in t) }
{
    if operand.is_total {
        return made(alloc, SqlExpr::Truth(is_of_type), Kind::Bool, true);
    }
    let there = SqlExpr::IsNotNull(operand.sql);
    let sql = unless_null(alloc, there, is_of_type)?;
    made(alloc, sql, Kind::Bool, false)
}
