// Names in a template, one occurrence after another.
ghost use Rattle.std.specs.Prelude.{◌≡◌, false, [], ◌∷◌, map, option_map, IfOk, MatchOption};
ghost use Rattle.cedar_types.specs.FallibleIterators.{YieldsOrEnds, calls_left};
ghost use Rattle.cedar_types.specs.Templates.Findings.{template_uids, template_types};
ghost use Rattle.cedar_types.specs.Templates.Mentions.{mentioned_uid, mentioned_type, template_mentions};
ghost use Rattle.cedar_types.specs.Templates.MentionViews.{mention_of, mentions_to_come, mentions_left, mentions_are_over};
ghost use Rattle.cedar_types.specs.Names.{placed_type, placed_uid};
ghost use Rattle.cedar_types.specs.Templates.{template_of};

use crate::base::names::entities::{EntityType, EntityUID};
use crate::base::templates::Template;
use crate::base::templates::rest_mentions::RestMentions;
use crate::base::templates::scope_mentions::ScopeMentions;
use std::alloc::{AllocError, Global};

/// One occurrence of a name in a template: an entity id, of a literal or of the scope, or the
/// entity type that an `is` tests for. The type of an id is a name too, which the id carries.
#[derive(Clone, Copy, Debug)]
pub enum Mention<'a> {
    /// An entity id.
    Uid(&'a EntityUID),
    /// The entity type that an `is` tests for, in the scope or in the rest.
    Type(&'a EntityType),
}

impl<'a> Mention<'a> {
    /// The entity type: that of the id, or the one that the `is` tests for.
    pub fn entity_type(&self) -> &'a EntityType
        ensures { placed_type result.now ≡ mentioned_type (mention_of self.now) }
    {
        match self {
            Mention::Uid(uid) => &uid.entity_type,
            Mention::Type(entity_type) => entity_type,
        }
    }

    /// The entity id, if the mention is one.
    pub fn uid(&self) -> Option<&'a EntityUID>
        ensures { option_map (λ u. placed_uid u.now) result ≡ mentioned_uid (mention_of self.now) }
    {
        match self {
            Mention::Uid(uid) => Some(uid),
            Mention::Type(_) => None,
        }
    }
}

/// The names in a template, each occurrence once, in the order of its condition's subexpressions:
/// those of the rest, of the resource, of the action and of the principal, and in each of these
/// from the last to the first.
///
/// The iterator holds no list of them. The parts of the rest still to visit lie on the heap, so the
/// caller's stack does not grow with the depth of the rest. If memory for them is refused, the
/// iterator yields one `AllocError`; after it, and after the last name, only `None`.
#[derive(Drop)]
pub struct Mentions<'a> {
    rest: RestMentions<'a>,
    scope: ScopeMentions<'a>,
    ended: bool,
}

impl<'a> Iterator for Mentions<'a> {
    type Item = Result<Mention<'a>, AllocError>;

    ghost next_gives = { YieldsOrEnds mentions_left mentions_are_over mention_of };

    ghost remaining = { calls_left mentions_left mentions_are_over };

    #[tactic(auto, unfolding(crate::specs::Templates::MentionViews::mentions_left, crate::specs::Templates::MentionViews::mentions_are_over))]
    fn next(&mut self) -> Option<Result<Mention<'a>, AllocError>> {
        if self.ended {
            return None;
        }
        let found = self.next_mention().transpose();
        self.ended = !matches!(found, Some(Ok(_)));
        found
    }
}

impl<'a> Mentions<'a> {
    /// The next name; `None` after the last.
    fn next_mention(&mut self) -> Result<Option<Mention<'a>>, AllocError>
        ensures next { IfOk result (λ o. MatchOption o
            (mentions_to_come self.old ≡ [])
            (λ m. mentions_to_come self.old ≡ mention_of m ∷ mentions_to_come self.new)) }
        ensures ended { self.new.ended ≡ self.old.ended }
    {
        if let Some(mention) = self.rest.next_mention()? {
            return Ok(Some(mention));
        }
        Ok(self.scope.next_mention())
    }
}

impl Template {
    /// The names in the scope's constraints and in the rest: entity ids, and the types that an `is`
    /// tests for. The call allocates no memory. The original walks over ids and over type names,
    /// each in a function of its own.
    #[tactic(auto, unfolding(crate::specs::Templates::MentionViews::mentions_left, crate::specs::Templates::MentionViews::mentions_are_over))]
    pub fn mentions(&self, alloc: Global) -> Mentions<'_>
        ensures begun { mentions_are_over result ≡ false }
        ensures left { mentions_left result ≡ template_mentions (template_of self.now) }
    {
        Mentions {
            rest: RestMentions::new(alloc, &self.non_scope_constraints),
            scope: ScopeMentions::new(self),
            ended: false,
        }
    }

    /// The entity ids in the scope's constraints and in the rest, each as often as it occurs; the
    /// original's function `policy_entity_uids`.
    ///
    /// If memory is refused for the list, or for the parts of the rest still to visit, the answer
    /// is an `AllocError`.
    pub fn policy_entity_uids(&self, alloc: Global) -> Result<Vec<&EntityUID>, AllocError>
        ensures { IfOk result (λ v.
            map (λ u. placed_uid u.now) v.items ≡ template_uids (template_of self.now)) }
    {
        let mut uids = Vec::new(alloc);
        for mention in self.mentions(alloc) {
            if let Some(uid) = mention?.uid() {
                uids.push(uid)?;
            }
        }
        Ok(uids)
    }

    /// The types of the entity ids in the scope's constraints and in the rest, and the types that
    /// an `is` tests for, each as often as it occurs; the original's function
    /// `policy_entity_type_names`.
    ///
    /// If memory is refused for the list, or for the parts of the rest still to visit, the answer
    /// is an `AllocError`.
    pub fn policy_entity_type_names(&self, alloc: Global) -> Result<Vec<&EntityType>, AllocError>
        ensures { IfOk result (λ v.
            map (λ t. placed_type t.now) v.items ≡ template_types (template_of self.now)) }
    {
        let mut types = Vec::new(alloc);
        for mention in self.mentions(alloc) {
            types.push(mention?.entity_type())?;
        }
        Ok(types)
    }
}
