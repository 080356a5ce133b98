// All ways to link the two slots of one environment.
ghost use Rattle.std.specs.Prelude.{◌≤◌, ◌-◌, length};

use crate::base::{CedarType, EntityType, EntityUID};
use crate::types::request_env::RequestEnv;
use std::alloc::{AllocError, Global};

/// A declared environment without its slots.
#[derive(Clone, Copy)]
pub(crate) struct Place<'a> {
    pub(crate) principal: &'a EntityType,
    pub(crate) action: &'a EntityUID,
    pub(crate) resource: &'a EntityType,
    pub(crate) context: &'a CedarType,
}

impl<'a> Place<'a> {
    ghost use Rattle.std.specs.Prelude.{◌≡◌};
    ghost use Rattle.cedar_types.specs.Environments.LinkViews.{place_env};
    ghost use Rattle.cedar_types.specs.Environments.RequestEnvs.{env_of, unlinked};

    /// The environment with no slot linked. It takes no memory.
    pub(crate) fn unlinked_env(self) -> RequestEnv<'a>
        ensures { env_of result ≡ unlinked (place_env self.entry) }
    {
        let Place {
            principal,
            action,
            resource,
            context,
        } = self;
        RequestEnv::DeclaredAction {
            principal,
            action,
            resource,
            context,
            principal_slot: None,
            resource_slot: None,
        }
    }
}

/// The pairs of links still to come: the principal's link at hand with each of the resource's links
/// from the one at hand on, then each later link of the principal with all of the resource's links.
#[derive(Drop)]
pub(crate) struct LinkPairs<'a> {
    pub(crate) place: Place<'a>,
    pub(crate) principals: Vec<Option<&'a EntityType>>,
    pub(crate) resources: Vec<Option<&'a EntityType>>,
    pub(crate) principal_at: usize,
    pub(crate) resource_at: usize,
    pub(crate) ghost in_row: { resource_at ≤ length resources.items - 1 },
}

impl<'a> LinkPairs<'a> {
    ghost use Rattle.std.specs.Prelude.{◌≡◌, IfOk, MatchOption, [], ◌∷◌, option_map};
    ghost use Rattle.cedar_types.specs.Names.{type_of};
    ghost use Rattle.cedar_types.specs.Environments.RequestEnvs.{env_of};
    ghost use Rattle.cedar_types.specs.Environments.LinkViews.{link_of, pairs_left, held_left};
    ghost use Rattle.cedar_types.specs.Environments.SlotLinks.{links_held};

    pub(crate) fn new(
        place: Place<'a>,
        principals: Vec<Option<&'a EntityType>>,
        resources: Vec<Option<&'a EntityType>>,
    ) -> LinkPairs<'a>
        ensures place { result.place ≡ place.entry }
        ensures principals { result.principals ≡ principals.entry }
        ensures resources { result.resources ≡ resources.entry }
        ensures principal_at { result.principal_at ≡ 0 }
        ensures resource_at { result.resource_at ≡ 0 }
    {
        LinkPairs {
            place,
            principals,
            resources,
            principal_at: 0,
            resource_at: 0,
        }
    }

    /// The next environment; `None` after the last. If memory is refused, that environment is still
    /// to come.
    pub(crate) fn next_env(&mut self, _alloc: Global) -> Result<Option<RequestEnv<'a>>, AllocError>
        ensures next { IfOk result (λ o. MatchOption o
            ((pairs_left self.old ≡ []) × (pairs_left self.new ≡ []))
            (λ e. pairs_left self.old ≡ env_of e ∷ pairs_left self.new)) }
        ensures principals { self.new.principals ≡ self.old.principals }
        ensures resources { self.new.resources ≡ self.old.resources }
    {
        let principal_at = self.principal_at;
        let resource_at = self.resource_at;
        if principal_at >= self.principals.len() {
            return Ok(None);
        }
        if resource_at >= self.resources.len() {
            return Ok(None);
        }
        let principal_slot = LinkPairs::copy_link(self.principals[principal_at])?;
        let resource_slot = LinkPairs::copy_link(self.resources[resource_at])?;
        if self.resource_at + 1 < self.resources.len() {
            self.resource_at += 1;
        } else {
            self.resource_at = 0;
            self.principal_at += 1;
        }
        let Place {
            principal,
            action,
            resource,
            context,
        } = self.place;
        Ok(Some(RequestEnv::DeclaredAction {
            principal,
            action,
            resource,
            context,
            principal_slot,
            resource_slot,
        }))
    }

    /// The next environment of `links`; `None` if there are no links, or none is left.
    pub(crate) fn next_of(
        alloc: Global,
        links: &mut Option<LinkPairs<'a>>,
    ) -> Result<Option<RequestEnv<'a>>, AllocError>
        ensures next { IfOk result (λ o. MatchOption o
            ((held_left links.old ≡ []) × (held_left links.new ≡ []))
            (λ e. held_left links.old ≡ env_of e ∷ held_left links.new)) }
        ensures held { links_held links.new ≡ links_held links.old }
    {
        match links {
            None => Ok(None),
            Some(pairs) => pairs.next_env(alloc),
        }
    }

    fn copy_link(link: Option<&EntityType>) -> Result<Option<EntityType>, AllocError>
        ensures { IfOk result (λ o. option_map type_of o ≡ link_of link.entry) }
    {
        match link {
            None => Ok(None),
            Some(entity_type) => Ok(Some(entity_type.clone()?)),
        }
    }
}
