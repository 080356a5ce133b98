// Names in a template, each occurrence with its places. The names of the rest come first, then the resource's, the action's and
// the principal's, in each from the last to the first.
use crate::parts::{add, boxed, place, policy};
use cedar_types::base::{
    ActionConstraint, EntityType, EntityUID, Expr, Loc, Mention, Mentions, Name, PolicyID,
    PrincipalConstraint, ResourceConstraint, SlotId, Template, Var,
};
use std::alloc::{AllocError, Global};
use std::test::Fail;

/// The type of this name at this place.
fn entity_type_at(alloc: Global, name: &str, at: usize) -> Result<EntityType, AllocError> {
    let name = Name::unqualified_name(alloc, name)?;
    Ok(EntityType::new(name, place(at)))
}

/// The id `a` of this type, the type at this place and the id at the next one.
fn id(alloc: Global, name: &str, at: usize) -> Result<EntityUID, AllocError> {
    let entity_type = entity_type_at(alloc, name, at)?;
    EntityUID::from_components(alloc, entity_type, "a", place(at.saturating_add(1)))
}

/// The start of a place, and 0 if there is none.
fn start(loc: Option<Loc>) -> usize {
    match loc {
        Some(Loc { start, end: _end }) => start,
        None => 0,
    }
}

/// The start of an id, and 0 if there is none.
fn id_start(uid: Option<&EntityUID>) -> usize {
    match uid {
        Some(uid) => start(uid.loc),
        None => 0,
    }
}

/// Whether the mention is of this type at its first place, and has its id at the second, or 0 if it is no id.
fn is_of(mention: &Mention<'_>, (name, type_at, id_at): (&str, usize, usize)) -> bool {
    let entity_type = mention.entity_type();
    entity_type.name.basename.as_str() == name
        && start(entity_type.loc) == type_at
        && id_start(mention.uid()) == id_at
}

/// Whether these names come, and nothing after them.
fn come(
    mentions: &mut Mentions<'_>,
    expected: &[(&str, usize, usize)],
) -> Result<bool, AllocError> {
    for name in expected {
        if !is_of(&mentions.next().ok_or(AllocError)??, *name) {
            return Ok(false);
        }
    }
    Ok(mentions.next().is_none() && mentions.next().is_none())
}

/// `principal is User in Group::"a"`.
fn user_in_group(alloc: Global) -> Result<PrincipalConstraint, AllocError> {
    let user = entity_type_at(alloc, "User", 1)?;
    Ok(PrincipalConstraint::is_entity_type_in(user, id(alloc, "Group", 3)?))
}

/// `principal is User in Group::"a"`, `action == Action::"a"`, `resource is Photo in ?resource`, and a rest in which the
/// principal is a `Robot`.
fn whole(alloc: Global) -> Result<Box<Template>, AllocError> {
    let principal = user_in_group(alloc)?;
    let action = ActionConstraint::is_eq(id(alloc, "Action", 5)?);
    let resource = ResourceConstraint::is_entity_type_in_slot(entity_type_at(alloc, "Photo", 7)?);
    let robot = entity_type_at(alloc, "Robot", 9)?;
    let rest = Expr::is_entity_type(alloc, Expr::var(Var::Principal), robot)?;
    let id = policy(alloc)?;
    boxed(
        alloc,
        Template::new(id, None, principal, action, resource, Some(rest)),
    )
}

/// The names of the template, in the order in which they come.
const NAMED: [(&str, usize, usize); 5] = [
    ("Robot", 9, 0),
    ("Photo", 7, 0),
    ("Action", 5, 6),
    ("Group", 3, 4),
    ("User", 1, 0),
];

fn are_named(alloc: Global, t: &Template) -> Result<bool, AllocError> {
    let mut mentions = t.mentions(alloc);
    come(&mut mentions, &NAMED)
}

#[test]
fn each_occurrence_comes_once(rt: HostRuntime) -> Result<(), Fail> {
    let t = whole(rt.alloc())?;
    assert!(rt; are_named(rt.alloc(), &t)?);
    Ok(())
}

/// The places of the ids in a template.
fn ids_at(alloc: Global, t: &Template) -> Result<Vec<usize>, AllocError> {
    let mut places = Vec::new(alloc);
    for uid in t.policy_entity_uids(alloc)? {
        add(&mut places, start(uid.loc))?;
    }
    Ok(places)
}

/// The places of the types in a template, with those of its ids.
fn types_at(alloc: Global, t: &Template) -> Result<Vec<usize>, AllocError> {
    let mut places = Vec::new(alloc);
    for entity_type in t.policy_entity_type_names(alloc)? {
        add(&mut places, start(entity_type.loc))?;
    }
    Ok(places)
}

/// Whether these are the places of the template's ids and types.
fn are_listed(alloc: Global, t: &Template) -> Result<bool, AllocError> {
    let ids = ids_at(alloc, t)?;
    let types = types_at(alloc, t)?;
    Ok(ids.as_slice() == [6, 4].as_slice() && types.as_slice() == [9, 7, 5, 3, 1].as_slice())
}

#[test]
fn ids_and_types_are_listed(rt: HostRuntime) -> Result<(), Fail> {
    let t = whole(rt.alloc())?;
    assert!(rt; are_listed(rt.alloc(), &t)?);
    Ok(())
}

/// The template of only these constraints.
fn template_of_scope(
    id: PolicyID,
    principal: PrincipalConstraint,
    resource: ResourceConstraint,
) -> Template {
    let action = ActionConstraint::any();
    Template::new(id, None, principal, action, resource, None)
}

/// Whether the condition has the slots of principal and resource.
fn slots(alloc: Global, t: &Template) -> Result<(bool, bool), AllocError> {
    let condition = t.condition(alloc)?;
    let of_principal = condition.mentions_slot(alloc, SlotId::Principal)?;
    Ok((
        of_principal,
        condition.mentions_slot(alloc, SlotId::Resource)?,
    ))
}

/// A template with only the principal's slot.
fn of_principal(alloc: Global) -> Result<Box<Template>, AllocError> {
    let principal = PrincipalConstraint::is_eq_slot();
    boxed(
        alloc,
        template_of_scope(policy(alloc)?, principal, ResourceConstraint::any()),
    )
}

/// A template with only the resource's slot.
fn of_resource(alloc: Global) -> Result<Box<Template>, AllocError> {
    let resource = ResourceConstraint::is_in_slot();
    boxed(
        alloc,
        template_of_scope(policy(alloc)?, PrincipalConstraint::any(), resource),
    )
}

#[test]
fn a_condition_has_the_slots_of_its_scope(rt: HostRuntime) -> Result<(), Fail> {
    let alloc = rt.alloc();
    assert!(rt; slots(alloc, &*of_principal(alloc)?)? == (true, false));
    assert!(rt; slots(alloc, &*of_resource(alloc)?)? == (false, true));
    Ok(())
}
