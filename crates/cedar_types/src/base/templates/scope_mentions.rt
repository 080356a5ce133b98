// Names in the scope of a template.
ghost use Rattle.std.specs.Prelude.{◌≡◌, [], ◌∷◌, ◌++◌, map, option_map, MatchOption};
ghost use Rattle.std.specs.Option.{option_to_list};
ghost use Rattle.cedar_types.specs.Templates.Mentions.{named_uid, reference_mentions, scope_mentions, named_actions, action_mentions};
ghost use Rattle.cedar_types.specs.Templates.MentionViews.{mention_of, constraint_left, scope_left};
ghost use Rattle.cedar_types.specs.Names.{placed_uid};
ghost use Rattle.cedar_types.specs.Templates.{template_of, reference_of, scope_of, action_scope_of};

use crate::base::names::entities::{EntityType, EntityUID};
use crate::base::templates::Template;
use crate::base::templates::constraints::{
    ActionConstraint, EntityReference, PrincipalOrResourceConstraint,
};
use crate::base::templates::mentions::Mention;

/// The names in a constraint on the principal or on the resource that are still to come.
#[derive(Drop)]
pub(crate) struct ConstraintMentions<'a> {
    pub(crate) uid: Option<&'a EntityUID>,
    pub(crate) entity_type: Option<&'a EntityType>,
}

impl<'a> ConstraintMentions<'a> {
    fn new(constraint: &'a PrincipalOrResourceConstraint) -> ConstraintMentions<'a>
        ensures { constraint_left result ≡ scope_mentions (scope_of constraint.now) }
    {
        let (entity_type, uid) = match constraint {
            PrincipalOrResourceConstraint::Any => (None, None),
            PrincipalOrResourceConstraint::Eq(r) => (None, named_uid(r)),
            PrincipalOrResourceConstraint::In(r) => (None, named_uid(r)),
            PrincipalOrResourceConstraint::Is(t) => (Some(t), None),
            PrincipalOrResourceConstraint::IsIn(t, r) => (Some(t), named_uid(r)),
        };
        ConstraintMentions { uid, entity_type }
    }

    /// The next name: the entity's, and then the type's; `None` after the last.
    fn next_mention(&mut self) -> Option<Mention<'a>>
        ensures { MatchOption result
            ((constraint_left self.old ≡ []) × (constraint_left self.new ≡ []))
            (λ m. constraint_left self.old ≡ mention_of m ∷ constraint_left self.new) }
    {
        if let Some(uid) = self.uid.take() {
            return Some(Mention::Uid(uid));
        }
        match self.entity_type.take() {
            Some(entity_type) => Some(Mention::Type(entity_type)),
            None => None,
        }
    }
}

/// The names in the scope of a template that are still to come.
#[derive(Drop)]
pub(crate) struct ScopeMentions<'a> {
    pub(crate) resource: ConstraintMentions<'a>,
    /// The actions still to come, the last one first.
    pub(crate) actions: &'a [EntityUID],
    pub(crate) principal: ConstraintMentions<'a>,
}

impl<'a> ScopeMentions<'a> {
    pub(crate) fn new(template: &'a Template) -> ScopeMentions<'a>
        ensures { scope_left result
            ≡ scope_mentions (template_of template.now).resource
            ++ (action_mentions (named_actions (template_of template.now).action)
            ++ scope_mentions (template_of template.now).principal) }
    {
        ScopeMentions {
            resource: ConstraintMentions::new(&template.resource_constraint.constraint),
            actions: actions(&template.action_constraint),
            principal: ConstraintMentions::new(&template.principal_constraint.constraint),
        }
    }

    /// The next name, first of the resource, then of the action, then of the principal; `None`
    /// after the last.
    pub(crate) fn next_mention(&mut self) -> Option<Mention<'a>>
        ensures { MatchOption result
            ((scope_left self.old ≡ []) × (scope_left self.new ≡ []))
            (λ m. scope_left self.old ≡ mention_of m ∷ scope_left self.new) }
    {
        if let Some(mention) = self.resource.next_mention() {
            return Some(mention);
        }
        if let Some((last, others)) = self.actions.split_last() {
            self.actions = others;
            return Some(Mention::Uid(last));
        }
        self.principal.next_mention()
    }
}

/// The entity that a constraint names, if it names no slot.
fn named_uid(reference: &EntityReference) -> Option<&EntityUID>
    ensures { option_to_list (option_map (λ u. named_uid (placed_uid u.now)) result)
        ≡ reference_mentions (reference_of reference.now) }
{
    match reference {
        EntityReference::EUID(uid) => Some(uid),
        EntityReference::Slot => None,
    }
}

/// The actions that a constraint names.
fn actions(constraint: &ActionConstraint) -> &[EntityUID]
    ensures { map placed_uid result.now ≡ named_actions (action_scope_of constraint.now) }
{
    match constraint {
        ActionConstraint::Any => &[],
        ActionConstraint::Eq(uid) => std::slice::from_ref(uid),
        ActionConstraint::In(uids) => uids.as_slice(),
    }
}
