// Environments of requests, without slots.
use crate::base::names::entities::{EntityType, EntityUID};
use crate::base::types::CedarType;
use std::rc::Rc;

/// An action with one of its principal types and one of its resource types. It says nothing of
/// slots.
#[derive(Debug, Drop)]
pub struct UnlinkedRequestEnv {
    pub principal: EntityType,
    pub action: EntityUID,
    pub resource: EntityType,
    /// The type of the action's context, shared with the schema's declaration.
    pub context: Rc<CedarType>,
}
