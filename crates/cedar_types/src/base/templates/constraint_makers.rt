// Makers of the constraints of a scope. None allocates memory.
ghost use Rattle.std.specs.Prelude.{◌≡◌, map};
ghost use Rattle.cedar_types.specs.Names.{placed_type, placed_uid};
ghost use Rattle.cedar_types.specs.Templates.{to_entity, to_slot, any, equal, within, typed, typed_within, any_action, equal_action, within_actions, scope_of, action_scope_of};

use crate::base::names::entities::{EntityType, EntityUID};
use crate::base::templates::constraints::{
    ActionConstraint, EntityReference, PrincipalConstraint, PrincipalOrResourceConstraint,
    ResourceConstraint,
};

impl PrincipalConstraint {
    /// No constraint.
    pub fn any() -> PrincipalConstraint
        ensures { scope_of result.constraint ≡ any }
    {
        PrincipalConstraint {
            constraint: PrincipalOrResourceConstraint::Any,
        }
    }

    /// `principal == uid`.
    pub fn is_eq(uid: EntityUID) -> PrincipalConstraint
        ensures { scope_of result.constraint ≡ equal (to_entity (placed_uid uid)) }
    {
        PrincipalConstraint {
            constraint: PrincipalOrResourceConstraint::Eq(EntityReference::EUID(uid)),
        }
    }

    /// `principal == ?principal`.
    pub fn is_eq_slot() -> PrincipalConstraint
        ensures { scope_of result.constraint ≡ equal to_slot }
    {
        PrincipalConstraint {
            constraint: PrincipalOrResourceConstraint::Eq(EntityReference::Slot),
        }
    }

    /// `principal in uid`.
    pub fn is_in(uid: EntityUID) -> PrincipalConstraint
        ensures { scope_of result.constraint ≡ within (to_entity (placed_uid uid)) }
    {
        PrincipalConstraint {
            constraint: PrincipalOrResourceConstraint::In(EntityReference::EUID(uid)),
        }
    }

    /// `principal in ?principal`.
    pub fn is_in_slot() -> PrincipalConstraint
        ensures { scope_of result.constraint ≡ within to_slot }
    {
        PrincipalConstraint {
            constraint: PrincipalOrResourceConstraint::In(EntityReference::Slot),
        }
    }

    /// `principal is entity_type`.
    pub fn is_entity_type(entity_type: EntityType) -> PrincipalConstraint
        ensures { scope_of result.constraint ≡ typed (placed_type entity_type) }
    {
        PrincipalConstraint {
            constraint: PrincipalOrResourceConstraint::Is(entity_type),
        }
    }

    /// `principal is entity_type in uid`.
    pub fn is_entity_type_in(entity_type: EntityType, uid: EntityUID) -> PrincipalConstraint
        ensures { scope_of result.constraint ≡ typed_within
            (placed_type entity_type)
            (to_entity (placed_uid uid)) }
    {
        PrincipalConstraint {
            constraint: PrincipalOrResourceConstraint::IsIn(
                entity_type,
                EntityReference::EUID(uid),
            ),
        }
    }

    /// `principal is entity_type in ?principal`.
    pub fn is_entity_type_in_slot(entity_type: EntityType) -> PrincipalConstraint
        ensures { scope_of result.constraint ≡ typed_within (placed_type entity_type) to_slot }
    {
        PrincipalConstraint {
            constraint: PrincipalOrResourceConstraint::IsIn(entity_type, EntityReference::Slot),
        }
    }
}

impl ResourceConstraint {
    /// No constraint.
    pub fn any() -> ResourceConstraint
        ensures { scope_of result.constraint ≡ any }
    {
        ResourceConstraint {
            constraint: PrincipalOrResourceConstraint::Any,
        }
    }

    /// `resource == uid`.
    pub fn is_eq(uid: EntityUID) -> ResourceConstraint
        ensures { scope_of result.constraint ≡ equal (to_entity (placed_uid uid)) }
    {
        ResourceConstraint {
            constraint: PrincipalOrResourceConstraint::Eq(EntityReference::EUID(uid)),
        }
    }

    /// `resource == ?resource`.
    pub fn is_eq_slot() -> ResourceConstraint
        ensures { scope_of result.constraint ≡ equal to_slot }
    {
        ResourceConstraint {
            constraint: PrincipalOrResourceConstraint::Eq(EntityReference::Slot),
        }
    }

    /// `resource in uid`.
    pub fn is_in(uid: EntityUID) -> ResourceConstraint
        ensures { scope_of result.constraint ≡ within (to_entity (placed_uid uid)) }
    {
        ResourceConstraint {
            constraint: PrincipalOrResourceConstraint::In(EntityReference::EUID(uid)),
        }
    }

    /// `resource in ?resource`.
    pub fn is_in_slot() -> ResourceConstraint
        ensures { scope_of result.constraint ≡ within to_slot }
    {
        ResourceConstraint {
            constraint: PrincipalOrResourceConstraint::In(EntityReference::Slot),
        }
    }

    /// `resource is entity_type`.
    pub fn is_entity_type(entity_type: EntityType) -> ResourceConstraint
        ensures { scope_of result.constraint ≡ typed (placed_type entity_type) }
    {
        ResourceConstraint {
            constraint: PrincipalOrResourceConstraint::Is(entity_type),
        }
    }

    /// `resource is entity_type in uid`.
    pub fn is_entity_type_in(entity_type: EntityType, uid: EntityUID) -> ResourceConstraint
        ensures { scope_of result.constraint ≡ typed_within
            (placed_type entity_type)
            (to_entity (placed_uid uid)) }
    {
        ResourceConstraint {
            constraint: PrincipalOrResourceConstraint::IsIn(
                entity_type,
                EntityReference::EUID(uid),
            ),
        }
    }

    /// `resource is entity_type in ?resource`.
    pub fn is_entity_type_in_slot(entity_type: EntityType) -> ResourceConstraint
        ensures { scope_of result.constraint ≡ typed_within (placed_type entity_type) to_slot }
    {
        ResourceConstraint {
            constraint: PrincipalOrResourceConstraint::IsIn(entity_type, EntityReference::Slot),
        }
    }
}

impl ActionConstraint {
    /// No constraint.
    pub fn any() -> ActionConstraint
        ensures { action_scope_of result ≡ any_action }
    {
        ActionConstraint::Any
    }

    /// `action == uid`.
    pub fn is_eq(uid: EntityUID) -> ActionConstraint
        ensures { action_scope_of result ≡ equal_action (placed_uid uid) }
    {
        ActionConstraint::Eq(uid)
    }

    /// `action in [first, second]`, with these ids.
    pub fn is_in(uids: Vec<EntityUID>) -> ActionConstraint
        ensures { action_scope_of result ≡ within_actions (map placed_uid uids.items) }
    {
        ActionConstraint::In(uids)
    }
}
