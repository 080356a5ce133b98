// Sets of texts: `contains`.
ghost use Rattle.std.specs.Prelude.{◌≡◌, IfOk, map, option_map};
ghost use Rattle.cedar_types.specs.Expressions.View.{trees_of};
ghost use Rattle.cedar_types.specs.Names.{text_of};
ghost use Rattle.cedar_typing.specs.TypedExpr.{typed_tree};
ghost use Rattle.cedar_where.specs.Compiled.{among, among_texts, contains_term, plain_text, text_literal, text_literals};
ghost use Rattle.cedar_where.specs.Views.{term_in, term_of};

use crate::plain::is_plain;
use crate::refusals::Reason;
use crate::scopes::Typed;
use crate::sql::SqlExpr;
use crate::terms::{Compiled, Kind, Term, made, refused};
use cedar_types::base::{ExprKind, Literal, Loc};
use std::alloc::{AllocError, Global};
use std::rc::RcStr;

/// `[..].contains(a)` of a text, if each member of the set is written as a text. Of another set the refusal is told, because no
/// set has a clause.
pub(crate) fn contains_term(
    alloc: Global,
    loc: Option<Loc>,
    set: &Typed,
    alone: Compiled,
    member: Compiled,
) -> Result<Compiled, AllocError>
    ensures { IfOk result (λ t. contains_term (typed_tree set.now) (term_in member) ≡ term_in t) }
{
    match &set.kind {
        ExprKind::Set(members) => {
            let texts = text_literals(alloc, members)?;
            among_texts(alloc, loc, texts, member)
        }
        _ => match alone {
            Err(refusal) => Ok(Err(refusal)),
            Ok(_term) => refused(loc, Reason::Set),
        },
    }
}

fn among_texts(
    alloc: Global,
    loc: Option<Loc>,
    texts: Option<Vec<RcStr>>,
    member: Compiled,
) -> Result<Compiled, AllocError>
    ensures { IfOk result (λ t.
        among_texts (option_map (λ ts. map text_of ts.items) texts) (term_in member) ≡ term_in t) }
{
    match texts {
        None => refused(loc, Reason::Set),
        Some(texts) => match member {
            Err(refusal) => Ok(Err(refusal)),
            Ok(member) => among(alloc, loc, member, texts),
        },
    }
}

fn among(
    alloc: Global,
    loc: Option<Loc>,
    member: Term,
    texts: Vec<RcStr>,
) -> Result<Compiled, AllocError>
    ensures { IfOk result (λ t. among (term_of member) (map text_of texts.items) ≡ term_in t) }
{
    if !member.kind.is_text() {
        return refused(loc, Reason::NotText);
    }
    made(
        alloc,
        SqlExpr::IsAmong(member.sql, texts),
        Kind::Bool,
        member.is_total,
    )
}

/// The texts in the members of a set, if each is written as one.
fn text_literals(alloc: Global, members: &[Typed]) -> Result<Option<Vec<RcStr>>, AllocError>
    ensures { IfOk result (λ o.
        option_map (λ ts. map text_of ts.items) o
        ≡ text_literals (trees_of (map typed_tree members.now))) }
{
    let mut all = Vec::new(alloc);
    for member in members {
        let Some(text) = text_literal(member)? else {
            return Ok(None);
        };
        all.push(text)?;
    }
    Ok(Some(all))
}

fn text_literal(e: &Typed) -> Result<Option<RcStr>, AllocError>
    ensures { IfOk result (λ o. option_map text_of o ≡ text_literal (typed_tree e.now)) }
{
    match &e.kind {
        ExprKind::Lit(Literal::String(text)) => plain_text(text),
        _ => Ok(None),
    }
}

fn plain_text(text: &RcStr) -> Result<Option<RcStr>, AllocError>
    ensures { IfOk result (λ o. option_map text_of o ≡ plain_text (text_of text.now)) }
{
    if !is_plain(text) {
        return Ok(None);
    }
    Ok(Some(text.clone()?))
}
