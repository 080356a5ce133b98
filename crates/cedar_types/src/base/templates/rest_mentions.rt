// Names in the rest of a template.
ghost use Rattle.std.specs.Prelude.{◌≡◌, [], ◌∷◌, IfOk, MatchOption, option_map};
ghost use Rattle.cedar_types.specs.Templates.Mentions.{own_mention, rest_mentions};
ghost use Rattle.cedar_types.specs.Templates.MentionViews.{mention_of, named_by_left, rest_to_come};
ghost use Rattle.cedar_types.specs.Expressions.View.{written};

use crate::base::expressions::literals::Literal;
use crate::base::expressions::subexpressions::ExprIterator;
use crate::base::expressions::{Expr, ExprKind};
use crate::base::templates::mentions::Mention;
use std::alloc::{AllocError, Global};

/// The names in the rest of a template that are still to come. Nothing is on the heap before the
/// first call.
#[derive(Drop)]
pub(crate) struct RestMentions<'a> {
    alloc: Global,
    pub(crate) unvisited: Option<&'a Expr>,
    pub(crate) parts: Option<ExprIterator<'a>>,
}

impl<'a> RestMentions<'a> {
    pub(crate) fn new(alloc: Global, rest: &'a Option<Expr>) -> RestMentions<'a>
        ensures { rest_to_come result ≡ rest_mentions (option_map written rest.now) }
    {
        RestMentions {
            alloc,
            unvisited: rest.as_ref(),
            parts: None,
        }
    }

    /// The next name; `None` after the last.
    pub(crate) fn next_mention(&mut self) -> Result<Option<Mention<'a>>, AllocError>
        ensures { IfOk result (λ o. MatchOption o
            ((rest_to_come self.old ≡ []) × (rest_to_come self.new ≡ []))
            (λ m. rest_to_come self.old ≡ mention_of m ∷ rest_to_come self.new)) }
    {
        if let Some(rest) = self.unvisited.take() {
            self.parts = Some(rest.subexpressions(self.alloc)?);
        }
        match &mut self.parts {
            None => Ok(None),
            Some(parts) => next_of_parts(parts),
        }
    }
}

/// The next name in these expressions; `None` if none of them names anything more.
fn next_of_parts<'a>(parts: &mut ExprIterator<'a>) -> Result<Option<Mention<'a>>, AllocError>
    ensures { IfOk result (λ o. MatchOption o
        ((named_by_left parts.old ≡ []) × (named_by_left parts.new ≡ []))
        (λ m. named_by_left parts.old ≡ mention_of m ∷ named_by_left parts.new)) }
{
    while let Some(expr) = parts.next() {
        if let Some(mention) = own_mention(expr?) {
            return Ok(Some(mention));
        }
    }
    Ok(None)
}

/// The name at the expression itself, if it has one.
fn own_mention(expr: &Expr) -> Option<Mention<'_>>
    ensures { option_map mention_of result ≡ own_mention (written expr.now) }
{
    match &expr.kind {
        ExprKind::Lit(Literal::EntityUID(uid)) => Some(Mention::Uid(uid)),
        ExprKind::Is(_, entity_type) => Some(Mention::Type(entity_type)),
        _ => None,
    }
}
