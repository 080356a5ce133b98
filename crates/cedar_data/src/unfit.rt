// Unfit entities: the mistakes of the entities that do not fit a schema.
use crate::collected::Collected;
use crate::faults::Problem;
use crate::listed::{List, Listed, attribute_types, tag_types};
use crate::mismatches::Mismatches;
use crate::values::Types;
use cedar_conformance::entity_faults::{EntityFault, EntityProblem};
use cedar_conformance::stored::check_entity;
use cedar_json::Object;
use cedar_types::base::{EntityUID, Loc, OpenTag, ValidatorSchema};
use std::alloc::AllocError;

/// Lists the mistakes of the entities that do not fit the schema.
pub(crate) fn add_unfit(collected: &mut Collected<'_>, list: &List<'_>) -> Result<(), AllocError> {
    for listed in &list.entries {
        if collected.faults.has_more() {
            return Ok(());
        }
        add_unfit_one(collected, listed)?;
    }
    Ok(())
}

/// Lists the mistakes of an entity, if it does not fit the schema.
pub(crate) fn add_unfit_one(
    collected: &mut Collected<'_>,
    listed: &Listed<'_>,
) -> Result<(), AllocError> {
    let (alloc, schema) = (collected.alloc, collected.schema);
    match check_entity(alloc, schema, &listed.id, &listed.entity)? {
        Ok(()) => Ok(()),
        Err(problem) => add_problems(collected, listed, problem),
    }
}

/// Lists the mistakes of an entity whose first problem is `problem`.
fn add_problems(
    collected: &mut Collected<'_>,
    listed: &Listed<'_>,
    problem: EntityProblem,
) -> Result<(), AllocError> {
    let written = listed.part.read_again(collected.alloc)?;
    let Some(object) = written.as_ref().and_then(|it| Object::of(it).ok()) else {
        return add_problem(collected, listed, listed.place, problem);
    };
    match &problem {
        EntityProblem::Attribute(_)
        | EntityProblem::Tag(_)
        | EntityProblem::UndeclaredTags
        | EntityProblem::Ancestor(_) => {
            add_in_attributes(collected, listed, object)?;
            add_in_tags(collected, listed, object)?;
            add_in_parents(collected, listed)
        }
        EntityProblem::UndeclaredAncestor(_) => add_in_action(collected, listed, object, problem),
        _ => {
            let place = place_of(listed, object, &problem);
            add_problem(collected, listed, place, problem)
        }
    }
}

fn add_problem(
    collected: &mut Collected<'_>,
    listed: &Listed<'_>,
    place: Loc,
    problem: EntityProblem,
) -> Result<(), AllocError> {
    let id = listed.id.clone()?;
    let problem = Problem::Entity(EntityFault { id, problem });
    collected.faults.add(place, problem)
}

/// Returns the place of a problem of an entity.
fn place_of(listed: &Listed<'_>, object: Object<'_>, problem: &EntityProblem) -> Loc {
    match problem {
        EntityProblem::HasAttributes => place_of_key(listed, object, "attrs"),
        EntityProblem::HasTags => place_of_key(listed, object, "tags"),
        EntityProblem::UndeclaredTags => place_of_key(listed, object, "tags"),
        EntityProblem::HasAncestors => place_of_key(listed, object, "parents"),
        EntityProblem::MissingAncestor(_) => place_of_key(listed, object, "parents"),
        _ => listed.place,
    }
}

/// Returns the place of a key of an entity; without the key, that of the entity's id.
fn place_of_key(listed: &Listed<'_>, object: Object<'_>, name: &str) -> Loc {
    for (key, _) in object.entries {
        if key.name.as_str() == name {
            return key.place;
        }
    }
    listed.place
}

fn add_in_attributes(
    collected: &mut Collected<'_>,
    listed: &Listed<'_>,
    object: Object<'_>,
) -> Result<(), AllocError> {
    let Some(attrs) = object_at(object, "attrs") else {
        return Ok(());
    };
    let Types::Attributes(attributes) = attribute_types(collected.schema, &listed.id) else {
        return Ok(());
    };
    let fields = &listed.entity.attributes;
    let closed = OpenTag::ClosedAttributes;
    let alloc = collected.alloc;
    let mut found = Mismatches::new(alloc, &mut collected.faults, Some(&listed.id));
    found.add_in_record(attributes, closed, fields, attrs)
}

fn add_in_tags(
    collected: &mut Collected<'_>,
    listed: &Listed<'_>,
    object: Object<'_>,
) -> Result<(), AllocError> {
    let Some(written) = object_at(object, "tags") else {
        return Ok(());
    };
    let tags = &listed.entity.tags;
    if let Types::Tags(ty) = tag_types(collected.schema, &listed.id) {
        let alloc = collected.alloc;
        let mut found = Mismatches::new(alloc, &mut collected.faults, Some(&listed.id));
        return found.add_in_tags(ty, tags, written);
    }
    if tags.is_empty() {
        return Ok(());
    }
    let place = place_of_key(listed, object, "tags");
    add_problem(collected, listed, place, EntityProblem::UndeclaredTags)
}

/// Returns the object at a key, if there is one.
fn object_at<'a>(object: Object<'a>, name: &str) -> Option<Object<'a>> {
    Object::of(object.get(name)?).ok()
}

/// Lists the parents that an entity of this type may not have. A forbidden ancestor that is no
/// parent is a mistake of the parent.
fn add_in_parents(collected: &mut Collected<'_>, listed: &Listed<'_>) -> Result<(), AllocError> {
    for parent in &listed.parents {
        if !may_be_in(collected.schema, &listed.id, &parent.id) {
            let problem = EntityProblem::Ancestor(parent.id.clone()?);
            add_problem(collected, listed, parent.place, problem)?;
        }
    }
    Ok(())
}

fn may_be_in(schema: &ValidatorSchema, id: &EntityUID, parent: &EntityUID) -> bool {
    match schema.get_entity_type(&parent.entity_type) {
        Some(declared) => declared.descendants.contains(&id.entity_type),
        None => false,
    }
}

/// Lists the parents that an action is not declared to be in. If all are declared, it lists
/// `problem`.
fn add_in_action(
    collected: &mut Collected<'_>,
    listed: &Listed<'_>,
    object: Object<'_>,
    problem: EntityProblem,
) -> Result<(), AllocError> {
    let mut is_found = false;
    for parent in &listed.parents {
        if !is_declared_in(collected.schema, &listed.id, &parent.id) {
            let undeclared = EntityProblem::UndeclaredAncestor(parent.id.clone()?);
            add_problem(collected, listed, parent.place, undeclared)?;
            is_found = true;
        }
    }
    if is_found {
        return Ok(());
    }
    let place = place_of_key(listed, object, "parents");
    add_problem(collected, listed, place, problem)
}

fn is_declared_in(schema: &ValidatorSchema, id: &EntityUID, parent: &EntityUID) -> bool {
    match schema.get_action_id(parent) {
        Some(action) => action.descendants.contains(id),
        None => false,
    }
}
