// Declarations of a schema by name: entity types and actions.
ghost use Rattle.std.specs.Prelude.{◌≡◌, [], Bool, List, Option, Some, None, IfOk, map};
ghost use Rattle.std.specs.Bool.{Decides};

use crate::base::names::entities::{EntityType, EntityUID};
use crate::base::schema::actions::ValidatorActionId;
use crate::base::schema::entity_types::ValidatorEntityType;
use std::alloc::AllocError;
use std::collections::BTreeSet;

/// A declaration of a schema: it has a name, and the names of its descendants.
pub(crate) trait Declared: Drop {
    /// The type of its name.
    type Name: Ord + Drop;

    // names as plain data
    ghost Key: { Type 0 };

    ghost key: { Self.Name → Key };

    // whether two names are equal
    ghost same: { Key → Key → Bool };

    // declarations as plain data
    ghost Plain: { Type 0 };

    ghost plain: { Self → Plain };

    // the name of a declaration
    ghost called: { Plain → Key };

    // the names of the descendants of a declaration, if there is one
    ghost below: { Option Plain → List Key };

    /// Its name.
    fn name(&self) -> &Self::Name
        ensures { key result.now ≡ called (plain self.now) };

    /// A copy of its name.
    fn copy_name(&self) -> Result<Self::Name, AllocError>
        ensures { IfOk result (λ n. key n ≡ called (plain self.now)) };

    /// The names of its descendants.
    fn descendants(&self) -> &BTreeSet<Self::Name>
        ensures { map key result.now.keys ≡ below (Some (plain self.now)) };

    // `same` decides whether names are equal
    ghost decides: { (a b : Key) → Decides (same a b) (a ≡ b) };

    // no declaration, no descendants: the list is empty
    ghost none_below: { below None ≡ [] };

    // `==` on names answers as `same` on their keys
    ghost equal: { (a b : Self.Name) → Self.Name.eq a b ≡ same (key a) (key b) };
}

impl Declared for ValidatorEntityType {
    ghost use Rattle.std.specs.Prelude.{refl};
    ghost use Rattle.cedar_types.specs.Names.{Path, type_of, path_eq};
    ghost use Rattle.cedar_types.specs.Schemas.{DeclaredType, type_descendants};
    ghost use Rattle.cedar_types.specs.Schemas.Declarations.{declared_type};
    ghost use Rattle.cedar_types.specs.Lemmas.Comparisons.{path_eq-Decides, entity_type_is};

    type Name = EntityType;

    ghost Key = { Path };

    ghost key = { type_of };

    ghost same = { path_eq };

    ghost Plain = { DeclaredType };

    ghost plain = { declared_type };

    ghost called = { λ t. t.name };

    ghost below = { type_descendants };

    fn name(&self) -> &EntityType {
        &self.name
    }

    fn copy_name(&self) -> Result<EntityType, AllocError> {
        self.name.clone()
    }

    fn descendants(&self) -> &BTreeSet<EntityType> {
        &self.descendants
    }

    ghost decides = { path_eq-Decides };

    ghost none_below = { refl };

    ghost equal = { entity_type_is };
}

impl Declared for ValidatorActionId {
    ghost use Rattle.std.specs.Prelude.{refl};
    ghost use Rattle.cedar_types.specs.Names.{Uid, uid_of, uid_eq};
    ghost use Rattle.cedar_types.specs.Schemas.{DeclaredAction, action_descendants};
    ghost use Rattle.cedar_types.specs.Schemas.Declarations.{declared_action};
    ghost use Rattle.cedar_types.specs.Lemmas.Comparisons.{uid_eq-Decides, uid_is};

    type Name = EntityUID;

    ghost Key = { Uid };

    ghost key = { uid_of };

    ghost same = { uid_eq };

    ghost Plain = { DeclaredAction };

    ghost plain = { declared_action };

    ghost called = { λ a. a.name };

    ghost below = { action_descendants };

    fn name(&self) -> &EntityUID {
        &self.name
    }

    fn copy_name(&self) -> Result<EntityUID, AllocError> {
        self.name.clone()
    }

    fn descendants(&self) -> &BTreeSet<EntityUID> {
        &self.descendants
    }

    ghost decides = { uid_eq-Decides };

    ghost none_below = { refl };

    ghost equal = { uid_is };
}
