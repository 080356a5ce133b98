// Actions that a schema declares.
ghost use Rattle.std.specs.Prelude.{◌≡◌, option_map};

use crate::base::names::entities::{EntityType, EntityUID};
use crate::base::types::CedarType;
use std::collections::BTreeSet;
use std::rc::Rc;

/// An action that a schema declares.
#[derive(Debug, Drop)]
pub struct ValidatorActionId {
    pub name: EntityUID,
    /// The actions that are in this one, at any distance.
    pub descendants: BTreeSet<EntityUID>,
    pub kind: ValidatorActionKind,
}

/// The kind of an action: whether the schema knows its application.
#[derive(Debug, Drop)]
pub enum ValidatorActionKind {
    /// The action applies to these types, and to no others.
    Defined(ValidatorApplySpec),
    /// The action is declared elsewhere.
    External,
}

/// The application of an action: each principal type with each resource type, and one type of
/// context.
#[derive(Debug, Drop)]
pub struct ValidatorApplySpec {
    pub principal_apply_spec: BTreeSet<EntityType>,
    pub resource_apply_spec: BTreeSet<EntityType>,
    /// The type of the context, shared with the environments of the action.
    pub context: Rc<CedarType>,
}

impl ValidatorActionId {
    ghost use Rattle.cedar_types.specs.Schemas.Declarations.{application, applies};

    /// The application of the action; `None` for an external one.
    pub fn defined(&self) -> Option<&ValidatorApplySpec>
        ensures { option_map (λ a. application a.now) result ≡ applies self.now.kind }
    {
        match &self.kind {
            ValidatorActionKind::Defined(applies_to) => Some(applies_to),
            ValidatorActionKind::External => None,
        }
    }
}
