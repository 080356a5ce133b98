// Memberships of entities that a schema allows.
ghost use Rattle.std.specs.Prelude.{◌≡◌, ◌&&◌};
ghost use Rattle.std.specs.List.{list_any};
ghost use Rattle.cedar_types.specs.Names.{is_action_path, type_of, path_eq};
ghost use Rattle.cedar_types.specs.Types.{lub_of};
ghost use Rattle.cedar_types.specs.Schemas.Declarations.{type_kind, uids_of};
ghost use Rattle.cedar_types.specs.Schemas.{is_open_type, is_external, is_external_kind, type_named, is_among, descendants_of, action_is_below, may_be_in, any_may_be_in};
ghost use Rattle.cedar_types.specs.Schemas.Contents.{schema_of};
ghost use Rattle.cedar_types.specs.Values.Stores.{MembershipsAreAllowed};

use crate::base::names::entities::{EntityType, EntityUID};
use crate::base::schema::ValidatorSchema;
use crate::base::schema::closures::has_descendant;
use crate::base::schema::entity_types::ValidatorEntityTypeKind;
use crate::base::types::entity_sets::EntityLUB;
use std::collections::BTreeSet;

impl ValidatorSchema {
    /// Whether an entity of one of the types `lefts` may be in an entity of one of the types
    /// `rights`.
    ///
    /// A store that conforms to the schema has no membership that this call denies: see
    /// `memberships_are_allowed`.
    pub fn any_descendent_of(&self, lefts: &EntityLUB, rights: &EntityLUB) -> bool
        ensures { result
            ≡ any_may_be_in (schema_of self.now) (lub_of lefts.now) (lub_of rights.now) }
    {
        for left in lefts.iter() {
            if self.may_be_in_any(left, rights) {
                return true;
            }
        }
        false
    }

    fn may_be_in_any(&self, left: &EntityType, rights: &EntityLUB) -> bool
        ensures { result
            ≡ list_any (may_be_in (schema_of self.now) (type_of left.now)) (lub_of rights.now) }
    {
        for right in rights.iter() {
            if self.may_be_in(left, right) {
                return true;
            }
        }
        false
    }

    fn may_be_in(&self, left: &EntityType, right: &EntityType) -> bool
        ensures { result ≡ may_be_in (schema_of self.now) (type_of left.now) (type_of right.now) }
    {
        is_same_type(left, right)
            || self.is_open(left)
            || self.is_open(right)
            || self.is_type_below(left, right)
            || self.is_action_below(left, right)
    }

    #[tactic(auto, unfolding(crate::specs::Schemas::Contents::schema_of))]
    pub(crate) fn is_open(&self, name: &EntityType) -> bool
        ensures { result ≡ is_open_type (schema_of self.now).types (type_of name.now) }
    {
        !self.types.knows(name) || self.is_external(name)
    }

    #[tactic(auto, unfolding(crate::specs::Schemas::Contents::schema_of))]
    fn is_external(&self, name: &EntityType) -> bool
        ensures { result ≡ is_external (type_named (schema_of self.now).types (type_of name.now)) }
    {
        match self.types.get(name) {
            Some(declared) => is_external_kind(&declared.kind),
            None => false,
        }
    }

    #[tactic(auto, unfolding(crate::specs::Schemas::Contents::schema_of))]
    fn is_type_below(&self, left: &EntityType, right: &EntityType) -> bool
        ensures { result ≡ is_among (descendants_of (schema_of self.now).types (type_of right.now))
            (type_of left.now) }
    {
        match self.types.get(right) {
            Some(declared) => has_descendant(declared, left),
            None => false,
        }
    }

    fn is_action_below(&self, left: &EntityType, right: &EntityType) -> bool
        ensures { result
            ≡ action_is_below (schema_of self.now).actions (type_of left.now) (type_of right.now) }
    {
        are_action_types(left, right) && self.has_action_below(left, right)
    }

    fn has_action_below(&self, left: &EntityType, right: &EntityType) -> bool
        ensures { result
            ≡ list_any (λ a. path_eq (type_of right.now) (type_of a.name.entity_type)
            && list_any (λ d. path_eq (type_of left.now) d.entity_type) (uids_of a.descendants))
            self.now.actions.declared.items }
    {
        self.actions.declared.iter().any(|a| is_same_type(right, &a.name.entity_type)
            && has_action_of(&a.descendants, left))
    }
}

fn are_action_types(left: &EntityType, right: &EntityType) -> bool
    ensures { result ≡ (is_action_path (type_of left.now) && is_action_path (type_of right.now)) }
{
    left.is_action() && right.is_action()
}

/// If a schema denies that an entity of one type may be in one of another, no store that conforms
/// to it has such an entity with such an ancestor; this holds for actions of different namespaces
/// too. The function does nothing: its contract is the statement.
pub fn memberships_are_allowed()
    ensures { MembershipsAreAllowed }
{}

fn is_external_kind(kind: &ValidatorEntityTypeKind) -> bool
    ensures { result ≡ is_external_kind (type_kind kind.now) }
{
    match kind {
        ValidatorEntityTypeKind::Standard(_) => false,
        ValidatorEntityTypeKind::Enum(_) => false,
        ValidatorEntityTypeKind::External => true,
    }
}

fn has_action_of(actions: &BTreeSet<EntityUID>, name: &EntityType) -> bool
    ensures { result
        ≡ list_any (λ d. path_eq (type_of name.now) d.entity_type) (uids_of actions.now) }
{
    for action in actions.iter() {
        if is_same_type(name, &action.entity_type) {
            return true;
        }
    }
    false
}

/// Whether two entity types have one name.
pub(crate) fn is_same_type(left: &EntityType, right: &EntityType) -> bool
    ensures { result ≡ path_eq (type_of left.now) (type_of right.now) }
{
    left == right
}
