// Types that the slots of a template are linked to, in one environment.
ghost use Rattle.std.specs.Prelude.{◌≡◌, ◌++◌, ◌∷◌, [], map, IfOk, OnOk};
ghost use Rattle.cedar_types.specs.Names.{type_of};
ghost use Rattle.cedar_types.specs.Templates.{scope_of};
ghost use Rattle.cedar_types.specs.Schemas.Contents.{schema_of};
ghost use Rattle.cedar_types.specs.Environments.Linking.{slot_links as links_of_slot, slot_types, type_names, types_above};
ghost use Rattle.cedar_types.specs.Environments.LinkViews.{link_of, AddsLinks};

use crate::base::names::entities::EntityType;
use crate::base::schema::ValidatorSchema;
use crate::base::schema::closures::has_descendant;
use crate::base::templates::constraints::PrincipalOrResourceConstraint;
use std::alloc::{AllocError, Global};

impl ValidatorSchema {
    /// The links of a slot: each type that the constraint on its variable allows, or the lone
    /// `None` if the slot does not occur.
    pub(crate) fn slot_links<'a>(
        &'a self,
        alloc: Global,
        occurs: bool,
        constraint: &PrincipalOrResourceConstraint,
        own: &'a EntityType,
    ) -> Result<Vec<Option<&'a EntityType>>, AllocError>
        ensures { IfOk result (λ v.
            map link_of v.items
            ≡ links_of_slot occurs (schema_of self.now).types (scope_of constraint.now)
            (type_of own.now)) }
    {
        let mut links = Vec::new(alloc);
        if occurs {
            add_types(self, constraint, own, &mut links)?;
        } else {
            links.push(None)?;
        }
        Ok(links)
    }
}

fn add_types<'a>(
    schema: &'a ValidatorSchema,
    constraint: &PrincipalOrResourceConstraint,
    own: &'a EntityType,
    links: &mut Vec<Option<&'a EntityType>>,
) -> Result<(), AllocError>
    ensures { OnOk result (AddsLinks links.old.items
        (slot_types (schema_of schema.now).types (scope_of constraint.now) (type_of own.now))
        links.new.items) }
{
    match constraint {
        PrincipalOrResourceConstraint::Eq(_) => {
            links.push(Some(own))?;
            Ok(())
        }
        PrincipalOrResourceConstraint::In(_) => add_types_above_and_own(schema, own, links),
        PrincipalOrResourceConstraint::IsIn(_, _) => add_types_above_and_own(schema, own, links),
        PrincipalOrResourceConstraint::Any => add_all_types(schema, links),
        PrincipalOrResourceConstraint::Is(_) => add_all_types(schema, links),
    }
}

/// Adds the types above a type, and the type itself: a type above itself is added twice.
#[tactic(auto, unfolding(crate::specs::Schemas::Contents::schema_of))]
fn add_types_above_and_own<'a>(
    schema: &'a ValidatorSchema,
    own: &'a EntityType,
    links: &mut Vec<Option<&'a EntityType>>,
) -> Result<(), AllocError>
    ensures { OnOk result (AddsLinks links.old.items
        (types_above (schema_of schema.now).types (type_of own.now) ++ (type_of own.now ∷ []))
        links.new.items) }
{
    for declared in &schema.types.declared {
        if has_descendant(declared, own) {
            links.push(Some(&declared.name))?;
        }
    }
    links.push(Some(own))?;
    Ok(())
}

#[tactic(auto, unfolding(crate::specs::Schemas::Contents::schema_of))]
fn add_all_types<'a>(
    schema: &'a ValidatorSchema,
    links: &mut Vec<Option<&'a EntityType>>,
) -> Result<(), AllocError>
    ensures { OnOk result (
        AddsLinks links.old.items (type_names (schema_of schema.now).types) links.new.items) }
{
    for declared in &schema.types.declared {
        links.push(Some(&declared.name))?;
    }
    Ok(())
}
