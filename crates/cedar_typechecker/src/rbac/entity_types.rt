// The entity types that the scope of a policy admits.
ghost use Rattle.std.specs.Prelude.{◌≡◌, ◌||◌, map, IfOk};
ghost use Rattle.cedar_types.specs.Schemas.Listings.{ListsTypes, types_within};
ghost use Rattle.cedar_types.specs.Names.{type_of};
ghost use Rattle.cedar_types.specs.Schemas.Contents.{schema_of};
ghost use Rattle.cedar_types.specs.Schemas.{is_among};
ghost use Rattle.cedar_types.specs.Templates.{scope_of};
ghost use Rattle.cedar_typechecker.specs.Scopes.{admitted_types, only_if};
ghost use Rattle.cedar_typechecker.specs.ValidatorViews.{schema_in};

use crate::rbac::members::{is_declared_below, is_same_type};
use crate::rbac::validator::Validator;
use cedar_types::base::{
    ArgumentCheck, EntityReference, EntityType, PrincipalConstraint, PrincipalOrResourceConstraint,
    ResourceConstraint, ValidatorSchema,
};
use std::alloc::{AllocError, Global};

impl<C: ArgumentCheck> Validator<'_, C> {
    /// The entity types that the constraint on the principal admits, each once, in any order:
    ///
    /// without a constraint, and for `==` or `in` the slot, each declared type; for `== e` the type of `e`, known or not;
    /// for `in e` the type of `e` and its descendants; for `is T`, and for `is T in` the slot, `T` if the schema knows it;
    /// for `is T in e`, `T` if it is the type of `e` or one of its descendants. Where memory is refused, the answer is an
    /// `AllocError`.
    #[tactic(auto, unfolding(crate::specs::ValidatorViews::schema_in))]
    pub fn get_principals_satisfying_constraint<'b>(
        &'b self,
        alloc: Global,
        constraint: &'b PrincipalConstraint,
    ) -> Result<Vec<&'b EntityType>, AllocError>
        ensures { IfOk result (λ v. ListsTypes
            (admitted_types (schema_of (schema_in self.now)) (scope_of constraint.now.constraint))
            (map (λ t. type_of t.now) v.items)) }
    {
        admitted_types(&self.schema, alloc, &constraint.constraint)
    }

    /// The entity types that the constraint on the resource admits, each once, in any order, by the rules of
    /// `get_principals_satisfying_constraint`. Where memory is refused, the answer is an `AllocError`.
    #[tactic(auto, unfolding(crate::specs::ValidatorViews::schema_in))]
    pub fn get_resources_satisfying_constraint<'b>(
        &'b self,
        alloc: Global,
        constraint: &'b ResourceConstraint,
    ) -> Result<Vec<&'b EntityType>, AllocError>
        ensures { IfOk result (λ v. ListsTypes
            (admitted_types (schema_of (schema_in self.now)) (scope_of constraint.now.constraint))
            (map (λ t. type_of t.now) v.items)) }
    {
        admitted_types(&self.schema, alloc, &constraint.constraint)
    }
}

/// The entity types that a constraint admits, each once.
pub(crate) fn admitted_types<'b>(
    schema: &'b ValidatorSchema,
    alloc: Global,
    constraint: &'b PrincipalOrResourceConstraint,
) -> Result<Vec<&'b EntityType>, AllocError>
    ensures { IfOk result (λ v. ListsTypes
        (admitted_types (schema_of schema.now) (scope_of constraint.now))
        (map (λ t. type_of t.now) v.items)) }
{
    match constraint {
        // a slot may be bound to an entity of any type, so it admits as much as no constraint
        PrincipalOrResourceConstraint::Any => declared_types(schema, alloc),
        PrincipalOrResourceConstraint::Eq(EntityReference::Slot) => declared_types(schema, alloc),
        PrincipalOrResourceConstraint::In(EntityReference::Slot) => declared_types(schema, alloc),
        // the type need not be known, because the passes over names report an unknown one
        PrincipalOrResourceConstraint::Eq(EntityReference::EUID(uid)) => {
            only_if(alloc, true, &uid.entity_type)
        }
        PrincipalOrResourceConstraint::In(EntityReference::EUID(uid)) => {
            schema.get_entity_types_in(alloc, &uid.entity_type)
        }
        PrincipalOrResourceConstraint::Is(entity_type)
        | PrincipalOrResourceConstraint::IsIn(entity_type, EntityReference::Slot) => {
            let is_known = schema.is_known_entity_type(entity_type);
            only_if(alloc, is_known, entity_type)
        }
        PrincipalOrResourceConstraint::IsIn(entity_type, EntityReference::EUID(uid)) => {
            let is_within = is_within(schema, &uid.entity_type, entity_type);
            only_if(alloc, is_within, entity_type)
        }
    }
}

fn declared_types<'b>(
    schema: &'b ValidatorSchema,
    alloc: Global,
) -> Result<Vec<&'b EntityType>, AllocError>
    ensures { IfOk result (λ v. ListsTypes
        (map (λ t. t.name) (schema_of schema.now).types)
        (map (λ t. type_of t.now) v.items)) }
{
    let names = schema.entity_type_names(alloc)?;
    Ok(names)
}

/// The list of the type alone if the test holds, otherwise the empty list.
fn only_if(
    alloc: Global,
    holds: bool,
    entity_type: &EntityType,
) -> Result<Vec<&EntityType>, AllocError>
    ensures { IfOk result (λ v. ListsTypes
        (only_if holds (type_of entity_type.now))
        (map (λ t. type_of t.now) v.items)) }
{
    let mut types = Vec::new(alloc);
    if holds {
        types.push(entity_type)?;
    }
    Ok(types)
}

/// Whether the type `below` is the type `above`, or is declared as its descendant.
pub(crate) fn is_within(schema: &ValidatorSchema, above: &EntityType, below: &EntityType) -> bool
    ensures { result
        ≡ is_among (types_within (schema_of schema.now).types (type_of above.now))
        (type_of below.now) }
{
    is_same_type(below, above) || is_declared_below(schema, above, below)
}
