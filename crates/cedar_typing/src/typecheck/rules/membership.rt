// `in`.
ghost use Rattle.std.specs.Prelude.{◌≡◌, [], ◌∷◌, Some, IfOk, map, option_map};
ghost use Rattle.std.specs.List.{list_all};
ghost use Rattle.cedar_types.specs.Schemas.Declarations.{uids_of};
ghost use Rattle.cedar_types.specs.Names.{uid_of, uid_eq};
ghost use Rattle.cedar_types.specs.Schemas.{declares_action, descendants_of_action, uid_is_among};
ghost use Rattle.cedar_types.specs.Types.{ty_of, lub_of};
ghost use Rattle.cedar_types.specs.Expressions.View.{trees_of, written};
ghost use Rattle.cedar_typing.specs.Rules.Membership.{entity_of, entities_of, ancestors_of, is_action_in, only_actions, action_decides, types_of_entity, types_of_ancestors, may_be_among, entity_decides, in_decides};
ghost use Rattle.cedar_typing.specs.Views.{env_at, decision_of};

use crate::typecheck::rules::eager::{Decision, gives};
use crate::typecheck::rules::leaves::bool_type;
use crate::typecheck::type_env::TypeEnv;
use crate::typecheck::type_tests::{any_bool, named_types};
use cedar_types::base::{
    BoolType, CedarType, EntityKind, EntityLUB, EntityUID, Expr, ExprKind, Literal, ValidationMode,
};
use std::alloc::{AllocError, Global};
use std::collections::BTreeSet;

impl TypeEnv<'_, '_, '_, '_> {
    /// What `left in right` has for a type: of an action in entities that all stand as they are by the schema's actions,
    /// else by the types of both.
    pub(crate) fn decide_in<'a>(
        &self,
        left: &Expr,
        right: &Expr,
        found: &Option<CedarType>,
        other: &Option<CedarType>,
    ) -> Result<Decision<'a>, AllocError>
        ensures { IfOk result (λ d. decision_of d
            ≡ in_decides (env_at self.now)
            (entity_of (env_at self.now).request_env (written left.now))
            (ancestors_of (env_at self.now).request_env (written right.now))
            (option_map ty_of found.now) (option_map ty_of other.now)) }
    {
        let Some(entity) = self.entity_of(left)? else {
            return Ok(self.decide_entity(found, other));
        };
        let Some(ancestors) = self.ancestors_of(right)? else {
            return Ok(self.decide_entity(found, other));
        };
        // which of the other entities are in each other the store says, and not the schema
        if !entity.entity_type.is_action() {
            return Ok(self.decide_entity(found, other));
        }
        let actions = only_actions(self.alloc, ancestors)?;
        let decision = self.decide_action(&entity, &actions);
        Ok(decision)
    }

    /// The entity that an expression is. The variable `action` counts as the environment's action.
    fn entity_of(&self, e: &Expr) -> Result<Option<EntityUID>, AllocError>
        ensures { IfOk result (λ o.
            option_map uid_of o ≡ entity_of (env_at self.now).request_env (written e.now)) }
    {
        match self.literal_of(e)? {
            Some(Literal::EntityUID(entity)) => Ok(Some(entity)),
            Some(Literal::Bool(_)) => Ok(None),
            Some(Literal::Long(_)) => Ok(None),
            Some(Literal::String(_text)) => Ok(None),
            None => Ok(None),
        }
    }

    /// The entities on the right, if all stand as they are: one, or those of a set.
    fn ancestors_of(&self, e: &Expr) -> Result<Option<Vec<EntityUID>>, AllocError>
        ensures { IfOk result (λ o.
            option_map (λ v. map uid_of v.items) o
            ≡ ancestors_of (env_at self.now).request_env (written e.now)) }
    {
        match &e.kind {
            ExprKind::Set(elements) => self.entities_of(elements),
            ExprKind::Lit(_) | ExprKind::Var(_) => self.one_entity(e),
            ExprKind::Slot(_) | ExprKind::Unknown(_) | ExprKind::If { .. } => Ok(None),
            ExprKind::And(_, _) | ExprKind::Or(_, _) | ExprKind::UnaryApp(_, _) => Ok(None),
            ExprKind::BinaryApp(_, _, _) | ExprKind::ExtensionFunctionApp(_, _) => Ok(None),
            ExprKind::GetAttr(_, _) | ExprKind::HasAttr(_, _) | ExprKind::Record(_) => Ok(None),
            ExprKind::ExtHasAttr(_, _) | ExprKind::Like(_, _) | ExprKind::Is(_, _) => Ok(None),
        }
    }

    fn one_entity(&self, e: &Expr) -> Result<Option<Vec<EntityUID>>, AllocError>
        ensures { IfOk result (λ o.
            option_map (λ v. map uid_of v.items) o
            ≡ option_map (λ u. u ∷ []) (entity_of (env_at self.now).request_env (written e.now))) }
    {
        let Some(entity) = self.entity_of(e)? else {
            return Ok(None);
        };
        let mut all = Vec::new(self.alloc);
        all.push(entity)?;
        Ok(Some(all))
    }

    /// The entities that these expressions are, if each is one.
    fn entities_of(&self, elements: &[Expr]) -> Result<Option<Vec<EntityUID>>, AllocError>
        ensures { IfOk result (λ o.
            option_map (λ v. map uid_of v.items) o
            ≡ entities_of (env_at self.now).request_env (trees_of (map written elements.now))) }
    {
        let mut all = Vec::new(self.alloc);
        for element in elements {
            let Some(entity) = self.entity_of(element)? else {
                return Ok(None);
            };
            all.push(entity)?;
        }
        Ok(Some(all))
    }

    /// Of an action in actions the schema decides, if it declares all of them. Only in Partial is it no failure that one is
    /// not declared.
    fn decide_action<'a>(&self, action: &EntityUID, ancestors: &[EntityUID]) -> Decision<'a>
        ensures { decision_of result
            ≡ action_decides (env_at self.now) (uid_of action.now) (map uid_of ancestors.now) }
    {
        if self.are_declared(ancestors) {
            return gives(self.alloc, bool_type(self.is_action_in(action, ancestors)));
        }
        // a schema of a part of what there is need not declare all actions
        if self.mode == ValidationMode::Partial {
            gives(self.alloc, any_bool())
        } else {
            Decision::Refuses(Some(any_bool()), Vec::new(self.alloc))
        }
    }

    fn are_declared(&self, actions: &[EntityUID]) -> bool
        ensures { result
            ≡ list_all (declares_action (env_at self.now).schema.actions) (map uid_of actions.now) }
    {
        actions
            .iter()
            .all(|action| self.schema.is_known_action_id(action))
    }

    /// Whether an action is one of these, or a descendant of one.
    fn is_action_in(&self, action: &EntityUID, ancestors: &[EntityUID]) -> bool
        ensures { result
            ≡ is_action_in (env_at self.now).schema.actions (uid_of action.now)
            (map uid_of ancestors.now) }
    {
        ancestors.iter().any(|ancestor| is_same_entity(action, ancestor)
            || self.is_below(action, ancestor))
    }

    fn is_below(&self, action: &EntityUID, ancestor: &EntityUID) -> bool
        ensures { result
            ≡ uid_is_among (descendants_of_action (env_at self.now).schema.actions
            (uid_of ancestor.now))
            (uid_of action.now) }
    {
        match self.schema.get_action_id(ancestor) {
            Some(declared) => has_action(&declared.descendants, action),
            None => false,
        }
    }

    /// Of other entities their types decide: False where the schema allows no such membership.
    fn decide_entity<'a>(
        &self,
        found: &Option<CedarType>,
        other: &Option<CedarType>,
    ) -> Decision<'a>
        ensures { decision_of result
            ≡ entity_decides (env_at self.now) (option_map ty_of found.now)
            (option_map ty_of other.now) }
    {
        // a store that conforms has no membership that the schema does not allow
        if self.may_be_among(types_of_entity(found), types_of_ancestors(other)) {
            gives(self.alloc, any_bool())
        } else {
            gives(self.alloc, CedarType::Bool(BoolType::False))
        }
    }

    fn may_be_among(&self, types: Option<&EntityLUB>, ancestors: Option<&EntityLUB>) -> bool
        ensures { result
            ≡ may_be_among (env_at self.now).schema
            (option_map (λ s. lub_of s.now) types.entry)
            (option_map (λ s. lub_of s.now) ancestors.entry) }
    {
        // of what may be any entity nothing can be ruled out
        let Some(types) = types else {
            return true;
        };
        let Some(ancestors) = ancestors else {
            return true;
        };
        self.schema.any_descendent_of(types, ancestors)
    }
}

fn is_same_entity(one: &EntityUID, other: &EntityUID) -> bool
    ensures { result ≡ uid_eq (uid_of one.now) (uid_of other.now) }
{
    one == other
}

fn has_action(actions: &BTreeSet<EntityUID>, action: &EntityUID) -> bool
    ensures { result ≡ uid_is_among (uids_of actions.now) (uid_of action.now) }
{
    actions.contains(action)
}

/// Those that are actions.
fn only_actions(alloc: Global, entities: Vec<EntityUID>) -> Result<Vec<EntityUID>, AllocError>
    ensures { IfOk result (λ v. map uid_of v.items ≡ only_actions (map uid_of entities.items)) }
{
    let mut actions = Vec::new(alloc);
    for entity in entities {
        // an action is in actions alone, so others on the right change nothing
        if entity.entity_type.is_action() {
            actions.push(entity)?;
        }
    }
    Ok(actions)
}

/// The types of an entity, if they are known.
fn types_of_entity(ty: &Option<CedarType>) -> Option<&EntityLUB>
    ensures { option_map (λ s. lub_of s.now) result ≡ types_of_entity (option_map ty_of ty.now) }
{
    match ty {
        Some(ty) => named_types(ty),
        None => None,
    }
}

/// The types of an entity, or of the entities in a set.
fn types_of_ancestors(ty: &Option<CedarType>) -> Option<&EntityLUB>
    ensures { option_map (λ s. lub_of s.now) result ≡ types_of_ancestors (option_map ty_of ty.now) }
{
    match ty {
        Some(CedarType::Set(element)) => named_types(element),
        Some(CedarType::Entity(EntityKind::Entity(types))) => Some(types),
        Some(CedarType::Entity(EntityKind::AnyEntity) | CedarType::Never) => None,
        Some(CedarType::Bool(_) | CedarType::Long | CedarType::String) => None,
        Some(CedarType::AnySet | CedarType::Record { .. } | CedarType::Extension(_)) => None,
        None => None,
    }
}
