// The environments in which the typechecker checks a template.
ghost use Rattle.std.specs.Prelude.{◌≤◌};
ghost use Rattle.cedar_types.specs.Environments.SlotLinks.{links_held, most_links};

use crate::base::{Template, ValidationMode, ValidatorSchema};
use crate::types::link_pairs::{LinkPairs, Place};
use crate::types::request_env::RequestEnv;
use crate::types::unlinked_envs::UnlinkedRequestEnvs;
use std::alloc::{AllocError, Global};

/// The environments in which the typechecker checks a template, one at a time: those of the schema,
/// each with the template's slots linked in all ways.
///
/// A slot that does not occur in the template is not linked. A slot that occurs is linked to the
/// type of its variable if the scope says `==`; if the scope says `in`, to each declared type that
/// has this type as a descendant and then to the type itself, so a type below itself is listed
/// twice; if the scope says neither, to each declared type. The iterator holds the links of one
/// environment at a time: of both slots together at most twice as many as the schema has entity
/// types, and two. If neither slot occurs, it holds none, and a step takes no memory.
///
/// If memory is refused, an item is an `AllocError`, and no item follows it.
#[derive(Drop)]
pub struct LinkedRequestEnvs<'a> {
    alloc: Global,
    schema: &'a ValidatorSchema,
    template: &'a Template,
    has_principal_slot: bool,
    has_resource_slot: bool,
    unlinked: UnlinkedRequestEnvs<'a>,
    /// The links still to come for the schema's environment at hand.
    links: Option<LinkPairs<'a>>,
    ended: bool,
    ghost few_links: { links_held links ≤ most_links schema.now },
}

impl ValidatorSchema {
    ghost use Rattle.std.specs.Prelude.{◌≡◌, false, IfOk};
    ghost use Rattle.cedar_types.specs.Environments.Linking.{checked_envs};
    ghost use Rattle.cedar_types.specs.Environments.LinkViews.{linked_left, linked_is_over};
    ghost use Rattle.cedar_types.specs.Schemas.Contents.{schema_of};
    ghost use Rattle.cedar_types.specs.Templates.{template_of};

    /// The environments in which the typechecker checks `t`. If memory is refused, the answer is an
    /// `AllocError`.
    #[tactic(auto, unfolding(crate::specs::Environments::LinkViews::linked_left, crate::specs::Environments::LinkViews::linked_is_over))]
    pub fn linked_request_envs<'a>(
        &'a self,
        alloc: Global,
        mode: ValidationMode,
        t: &'a Template,
    ) -> Result<LinkedRequestEnvs<'a>, AllocError>
        ensures left { IfOk result (λ l.
            linked_left l ≡ checked_envs (schema_of self.now) mode (template_of t.now)) }
        ensures begun { IfOk result (λ l. linked_is_over l ≡ false) }
    {
        let slots = t.mentioned_slots(alloc)?;
        Ok(LinkedRequestEnvs {
            alloc,
            schema: self,
            template: t,
            has_principal_slot: slots.principal,
            has_resource_slot: slots.resource,
            unlinked: self.unlinked_request_envs(mode),
            links: None,
            ended: false,
        })
    }
}

impl<'a> Iterator for LinkedRequestEnvs<'a> {
    ghost use Rattle.cedar_types.specs.FallibleIterators.{YieldsOrEnds, calls_left};
    ghost use Rattle.cedar_types.specs.Environments.LinkViews.{linked_left, linked_is_over};
    ghost use Rattle.cedar_types.specs.Environments.RequestEnvs.{env_of};

    type Item = Result<RequestEnv<'a>, AllocError>;

    ghost next_gives = { YieldsOrEnds linked_left linked_is_over env_of };

    ghost remaining = { calls_left linked_left linked_is_over };

    #[tactic(auto, unfolding(crate::specs::Environments::LinkViews::linked_left, crate::specs::Environments::LinkViews::linked_is_over))]
    fn next(&mut self) -> Option<Result<RequestEnv<'a>, AllocError>> {
        if self.ended {
            return None;
        }
        let found = self.next_env().transpose();
        self.ended = !matches!(found, Some(Ok(_)));
        found
    }
}

impl<'a> LinkedRequestEnvs<'a> {
    ghost use Rattle.std.specs.Prelude.{◌≡◌, [], ◌∷◌, None, Some, IfOk, MatchOption};
    ghost use Rattle.cedar_types.specs.Environments.Linking.{linked_by};
    ghost use Rattle.cedar_types.specs.Environments.LinkViews.{place_env, pairs_left, linked_to_come};
    ghost use Rattle.cedar_types.specs.Environments.RequestEnvs.{Declared, env_of};
    ghost use Rattle.cedar_types.specs.Schemas.Contents.{schema_of};
    ghost use Rattle.cedar_types.specs.Templates.{template_of};

    /// The next environment; `None` after the last. The loop skips an environment without any link.
    fn next_env(&mut self) -> Result<Option<RequestEnv<'a>>, AllocError>
        ensures next { IfOk result (λ o. MatchOption o
            (linked_to_come self.old ≡ [])
            (λ e. linked_to_come self.old ≡ env_of e ∷ linked_to_come self.new)) }
        ensures ended { self.new.ended ≡ self.old.ended }
    {
        loop {
            if let Some(env) = LinkPairs::next_of(self.alloc, &mut self.links)? {
                return Ok(Some(env));
            }
            let place = match self.unlinked.next() {
                None => return Ok(None),
                Some(RequestEnv::UndeclaredAction) => {
                    return Ok(Some(RequestEnv::UndeclaredAction));
                }
                Some(
                    RequestEnv::DeclaredAction {
                        principal,
                        action,
                        resource,
                        context,
                        ..
                    },
                ) => Place {
                    principal,
                    action,
                    resource,
                    context,
                },
            };
            if !self.has_principal_slot && !self.has_resource_slot {
                return Ok(Some(place.unlinked_env()));
            }
            self.links = Some(self.links_at(place)?);
        }
    }

    /// The ways to link both slots in the environment `place`.
    fn links_at(&self, place: Place<'a>) -> Result<LinkPairs<'a>, AllocError>
        ensures links { IfOk result (λ l.
            pairs_left l
            ≡ linked_by self.now.has_principal_slot self.now.has_resource_slot
            (schema_of self.now.schema.now) (template_of self.now.template.now)
            (Declared (place_env place.entry) None None)) }
        ensures few { IfOk result (λ l. links_held (Some l) ≤ most_links self.now.schema.now) }
    {
        let principals = self.schema.slot_links(
            self.alloc,
            self.has_principal_slot,
            &self.template.principal_constraint.constraint,
            place.principal,
        )?;
        let resources = self.schema.slot_links(
            self.alloc,
            self.has_resource_slot,
            &self.template.resource_constraint.constraint,
            place.resource,
        )?;
        Ok(LinkPairs::new(place, principals, resources))
    }
}
