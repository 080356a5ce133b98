// Slots of templates, and their bindings.
use crate::base::names::entities::EntityUID;
use std::collections::BTreeMap;

/// A place in a template's scope that a link fills with an entity.
#[derive(Clone, Copy, PartialEq, Eq, PartialOrd, Ord, Hash, Debug)]
pub enum SlotId {
    /// `?principal`.
    Principal,
    /// `?resource`.
    Resource,
}

/// The entities that the slots of a template are bound to.
pub type SlotEnv = BTreeMap<SlotId, EntityUID>;
