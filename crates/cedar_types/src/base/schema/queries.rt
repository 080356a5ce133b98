// Queries of a schema.
ghost use Rattle.std.specs.Prelude.{◌≡◌, false, [], map, option_map, IfOk, OnOk};
ghost use Rattle.std.specs.List.Sorted.{IsPermutation};
ghost use Rattle.cedar_types.specs.Names.{type_of, uid_of, uid_eq};
ghost use Rattle.cedar_types.specs.Schemas.Declarations.{declared_type, declared_action, declared, uids_of};
ghost use Rattle.cedar_types.specs.Schemas.Listings.{ListsTypes, ListsActions, AddsIds, types_within};
ghost use Rattle.cedar_types.specs.Schemas.{has_repeat, knows_type, type_named, declares_action, action_named};
ghost use Rattle.cedar_types.specs.Schemas.Contents.{schema_of};

use crate::base::names::entities::{EntityType, EntityUID};
use crate::base::schema::ValidatorSchema;
use crate::base::schema::actions::ValidatorActionId;
use crate::base::schema::entity_types::ValidatorEntityType;
use crate::base::schema::memberships::is_same_type;
use crate::base::schema::references::EntityReferences;
use crate::base::schema::tables::{ActionTable, EntityTypeTable};
use std::alloc::{AllocError, Global};
use std::collections::BTreeSet;

#[tactic(auto, unfolding(crate::specs::Schemas::Contents::schema_of))]
impl ValidatorSchema {
    /// The schema that declares nothing.
    pub fn empty(alloc: Global) -> ValidatorSchema
        ensures { schema_of result ≡ declared [] [] }
    {
        ValidatorSchema {
            types: EntityTypeTable::empty(alloc),
            actions: ActionTable::empty(alloc),
            environments: Vec::new(alloc),
            references: EntityReferences::empty(alloc),
        }
    }

    /// The declaration of an entity type, if there is one. An action's type has none.
    pub fn get_entity_type(&self, entity_type: &EntityType) -> Option<&ValidatorEntityType>
        ensures { option_map (λ t. declared_type t.now) result
            ≡ type_named (schema_of self.now).types (type_of entity_type.now) }
    {
        self.types.get(entity_type)
    }

    /// The declaration of an action, if there is one.
    pub fn get_action_id(&self, action_id: &EntityUID) -> Option<&ValidatorActionId>
        ensures { option_map (λ a. declared_action a.now) result
            ≡ action_named (schema_of self.now).actions (uid_of action_id.now) }
    {
        self.actions.get(action_id)
    }

    /// Whether an entity type is declared, or is an action's.
    pub fn is_known_entity_type(&self, entity_type: &EntityType) -> bool
        ensures { result ≡ knows_type (schema_of self.now).types (type_of entity_type.now) }
    {
        self.types.knows(entity_type)
    }

    /// Whether an action is declared.
    pub fn is_known_action_id(&self, action_id: &EntityUID) -> bool
        ensures { result ≡ declares_action (schema_of self.now).actions (uid_of action_id.now) }
    {
        self.actions.contains(action_id)
    }

    /// The declared entity types, in any order.
    pub fn entity_types(&self, alloc: Global) -> Result<Vec<&ValidatorEntityType>, AllocError>
        ensures { IfOk result (λ v.
            IsPermutation (schema_of self.now).types (map (λ t. declared_type t.now) v.items)) }
    {
        let mut listed = Vec::with_capacity(alloc, self.types.declared.len())?;
        for entity_type in &self.types.declared {
            listed.push(entity_type)?;
        }
        Ok(listed)
    }

    /// The names of the declared entity types, in any order.
    pub fn entity_type_names(&self, alloc: Global) -> Result<Vec<&EntityType>, AllocError>
        ensures { IfOk result (λ v. IsPermutation (map (λ t. t.name) (schema_of self.now).types)
            (map (λ t. type_of t.now) v.items)) }
    {
        let mut listed = Vec::with_capacity(alloc, self.types.declared.len())?;
        for entity_type in &self.types.declared {
            listed.push(&entity_type.name)?;
        }
        Ok(listed)
    }

    /// The declared actions, in any order.
    pub fn action_ids(&self, alloc: Global) -> Result<Vec<&ValidatorActionId>, AllocError>
        ensures { IfOk result (λ v. IsPermutation (schema_of self.now).actions
            (map (λ a. declared_action a.now) v.items)) }
    {
        let mut listed = Vec::with_capacity(alloc, self.actions.declared.len())?;
        for action in &self.actions.declared {
            listed.push(action)?;
        }
        Ok(listed)
    }

    /// The entity type and its descendants, each once, in any order; the type is listed even if it
    /// is unknown.
    pub fn get_entity_types_in<'a>(
        &'a self,
        alloc: Global,
        entity_type: &'a EntityType,
    ) -> Result<Vec<&'a EntityType>, AllocError>
        ensures { IfOk result (λ v.
            ListsTypes (types_within (schema_of self.now).types (type_of entity_type.now))
            (map (λ t. type_of t.now) v.items)) }
    {
        let mut within = Vec::new(alloc);
        within.push(entity_type)?;
        let Some(declared) = self.types.get(entity_type) else {
            return Ok(within);
        };
        for descendant in declared.descendants.iter() {
            if !is_same_type(entity_type, descendant) {
                within.push(descendant)?;
            }
        }
        Ok(within)
    }

    /// The actions and their descendants, each once, in any order; `None` if one of the actions is
    /// not declared.
    pub fn get_actions_in_set<'a>(
        &'a self,
        alloc: Global,
        actions: &'a [EntityUID],
    ) -> Result<Option<Vec<&'a EntityUID>>, AllocError>
        ensures { IfOk result (λ o. ListsActions (schema_of self.now).actions
            (map uid_of actions.now) (option_map (λ v. map (λ u. uid_of u.now) v.items) o)) }
    {
        let mut within = BTreeSet::new(alloc);
        for action in actions {
            let Some(declared) = self.actions.get(action) else {
                return Ok(None);
            };
            within.insert(action)?;
            add_all(&mut within, &declared.descendants)?;
        }
        Ok(Some(listed(alloc, &within)?))
    }
}

fn listed<'a>(
    alloc: Global,
    actions: &BTreeSet<&'a EntityUID>,
) -> Result<Vec<&'a EntityUID>, AllocError>
    ensures same { IfOk result (λ v.
        map (λ u. uid_of u.now) v.items ≡ map (λ u. uid_of u.now) actions.now.keys) }
    ensures apart { IfOk result (λ v. has_repeat uid_eq (map (λ u. uid_of u.now) v.items) ≡ false) }
{
    let mut all = Vec::with_capacity(alloc, actions.len())?;
    for action in actions.iter() {
        all.push(*action)?;
    }
    Ok(all)
}

fn add_all<'a>(
    actions: &mut BTreeSet<&'a EntityUID>,
    others: &'a BTreeSet<EntityUID>,
) -> Result<(), AllocError>
    ensures { OnOk result (AddsIds (map (λ u. uid_of u.now) actions.old.keys)
        (uids_of others.now) (map (λ u. uid_of u.now) actions.new.keys)) }
{
    for other in others.iter() {
        actions.insert(other)?;
    }
    Ok(())
}
