//! Request environments: the environments that typing works in.
ghost use Rattle.std.specs.Prelude.{◌≡◌, IfOk, option_map};
ghost use Rattle.cedar_types.specs.Names.{placed_type};
ghost use Rattle.cedar_types.specs.Types.{ty_of};
ghost use Rattle.cedar_types.specs.Schemas.Contents.{schema_of};
ghost use Rattle.cedar_types.specs.Environments.RequestEnvs.{env_of, principal_in, action_in, resource_in, principal_slot_in, resource_slot_in, placed_request, request_in, principal_ty, resource_ty, action_ty, context_ty, linked, IsLinkedTo, bound_type};

use crate::base::{
    CedarType, EntityType, EntityUID, RequestType, SlotEnv, SlotId, ValidatorSchema,
};
pub use crate::types::unlinked_envs::UnlinkedRequestEnvs;
use std::alloc::{AllocError, Global};

/// A request environment, the subject of a request: an action that the schema declares with one of
/// its principal types, one of its resource types and the type of its context, or, in Partial
/// alone, an action of which nothing is known.
#[derive(Debug, Drop)]
pub enum RequestEnv<'a> {
    /// An action that the schema declares, with one of its principal types and one of its resource
    /// types.
    DeclaredAction {
        principal: &'a EntityType,
        action: &'a EntityUID,
        resource: &'a EntityType,
        context: &'a CedarType,
        /// The type of the entity that `?principal` is bound to, if it is bound.
        principal_slot: Option<EntityType>,
        /// The type of the entity that `?resource` is bound to, if it is bound.
        resource_slot: Option<EntityType>,
    },
    /// Any action that the schema does not declare.
    UndeclaredAction,
}

impl<'a> RequestEnv<'a> {
    /// The principal type, the action and the resource type, without context and slots; `None` for
    /// an undeclared action.
    pub fn to_request_type(&self, _alloc: Global) -> Result<Option<RequestType>, AllocError>
        ensures { IfOk result (λ t. option_map placed_request t ≡ request_in self.now) }
    {
        match self {
            RequestEnv::DeclaredAction {
                principal,
                action,
                resource,
                ..
            } => Ok(Some(RequestType {
                principal: EntityType::clone(principal)?,
                action: EntityUID::clone(action)?,
                resource: EntityType::clone(resource)?,
            })),
            RequestEnv::UndeclaredAction => Ok(None),
        }
    }

    /// Links each slot to the type of the entity that `slot_env` binds it to, and to none if it is
    /// not bound.
    pub fn link_slot_env(
        self,
        _alloc: Global,
        slot_env: &SlotEnv,
    ) -> Result<RequestEnv<'a>, AllocError>
        ensures { IfOk result (IsLinkedTo slot_env.now.entries self.entry) }
    {
        let principal = type_bound(slot_env, SlotId::Principal)?;
        let resource = type_bound(slot_env, SlotId::Resource)?;
        Ok(self.link(principal, resource))
    }

    /// This environment with the given slot types in place of its own. It takes no memory.
    pub fn link(
        self,
        principal_slot: Option<EntityType>,
        resource_slot: Option<EntityType>,
    ) -> RequestEnv<'a>
        ensures { result ≡ linked self.entry principal_slot resource_slot }
    {
        match self {
            RequestEnv::DeclaredAction {
                principal,
                action,
                resource,
                context,
                ..
            } => RequestEnv::DeclaredAction {
                principal,
                action,
                resource,
                context,
                principal_slot,
                resource_slot,
            },
            RequestEnv::UndeclaredAction => RequestEnv::UndeclaredAction,
        }
    }

    /// The principal's entity type, if it is known.
    pub fn principal_entity_type(&self) -> Option<&'a EntityType>
        ensures { result ≡ principal_in self.now }
    {
        match self {
            RequestEnv::DeclaredAction { principal, .. } => Some(principal),
            RequestEnv::UndeclaredAction => None,
        }
    }

    /// The principal's type: any entity if the type is not known.
    pub fn principal_type(&self, alloc: Global) -> Result<CedarType, AllocError>
        ensures { IfOk result (λ t. ty_of t ≡ principal_ty (env_of self.now)) }
    {
        match self {
            RequestEnv::DeclaredAction { principal, .. } => {
                CedarType::named_entity_reference(alloc, EntityType::clone(principal)?)
            }
            RequestEnv::UndeclaredAction => Ok(CedarType::any_entity_reference()),
        }
    }

    /// The action, if it is known.
    pub fn action_entity_uid(&self) -> Option<&'a EntityUID>
        ensures { result ≡ action_in self.now }
    {
        match self {
            RequestEnv::DeclaredAction { action, .. } => Some(action),
            RequestEnv::UndeclaredAction => None,
        }
    }

    /// The action's type: any entity if the action is not known, `None` if `schema` does not
    /// declare it.
    pub fn action_type(
        &self,
        alloc: Global,
        schema: &ValidatorSchema,
    ) -> Result<Option<CedarType>, AllocError>
        ensures { IfOk result (λ t.
            option_map ty_of t ≡ action_ty (schema_of schema.now) (env_of self.now)) }
    {
        match self {
            RequestEnv::DeclaredAction { action, .. } => {
                CedarType::euid_literal(alloc, action, schema)
            }
            RequestEnv::UndeclaredAction => Ok(Some(CedarType::any_entity_reference())),
        }
    }

    /// The resource's entity type, if it is known.
    pub fn resource_entity_type(&self) -> Option<&'a EntityType>
        ensures { result ≡ resource_in self.now }
    {
        match self {
            RequestEnv::DeclaredAction { resource, .. } => Some(resource),
            RequestEnv::UndeclaredAction => None,
        }
    }

    /// The resource's type: any entity if the type is not known.
    pub fn resource_type(&self, alloc: Global) -> Result<CedarType, AllocError>
        ensures { IfOk result (λ t. ty_of t ≡ resource_ty (env_of self.now)) }
    {
        match self {
            RequestEnv::DeclaredAction { resource, .. } => {
                CedarType::named_entity_reference(alloc, EntityType::clone(resource)?)
            }
            RequestEnv::UndeclaredAction => Ok(CedarType::any_entity_reference()),
        }
    }

    /// The context's type: any record if the type is not known.
    pub fn context_type(&self, alloc: Global) -> Result<CedarType, AllocError>
        ensures { IfOk result (λ t. ty_of t ≡ context_ty (env_of self.now)) }
    {
        match self {
            RequestEnv::DeclaredAction { context, .. } => CedarType::clone(context),
            RequestEnv::UndeclaredAction => CedarType::any_record(alloc),
        }
    }

    /// The type of the entity that `?principal` is bound to, if it is bound.
    pub fn principal_slot(&self) -> Option<&EntityType>
        ensures { option_map (λ t. t.now) result ≡ principal_slot_in self.now }
    {
        match self {
            RequestEnv::DeclaredAction { principal_slot, .. } => principal_slot.as_ref(),
            RequestEnv::UndeclaredAction => None,
        }
    }

    /// The type of the entity that `?resource` is bound to, if it is bound.
    pub fn resource_slot(&self) -> Option<&EntityType>
        ensures { option_map (λ t. t.now) result ≡ resource_slot_in self.now }
    {
        match self {
            RequestEnv::DeclaredAction { resource_slot, .. } => resource_slot.as_ref(),
            RequestEnv::UndeclaredAction => None,
        }
    }
}

/// The type of the entity that `slot_env` binds `slot` to, if it binds it.
fn type_bound(slot_env: &SlotEnv, slot: SlotId) -> Result<Option<EntityType>, AllocError>
    ensures { IfOk result (λ t. option_map placed_type t ≡ bound_type slot slot_env.now.entries) }
{
    match slot_env.get(&slot) {
        Some(entity) => Ok(Some(entity.entity_type.clone()?)),
        None => Ok(None),
    }
}
