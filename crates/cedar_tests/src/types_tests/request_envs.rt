// Environments of requests: their parts, and the links of slots.
use crate::parts::{boxed, entity_type, uid};
use cedar_types::base::{CedarType, EntityType, RequestType, SlotEnv, SlotId, UnlinkedRequestEnv};
use cedar_types::types::request_env::RequestEnv;
use std::alloc::{AllocError, Global};
use std::collections::BTreeMap;
use std::rc::Rc;
use std::test::Fail;

/// The action `view` with the types that it is asked for.
fn view_env(alloc: Global) -> Result<Box<UnlinkedRequestEnv>, AllocError> {
    let context = Rc::new(alloc, CedarType::any_record(alloc)?)?;
    let asked = UnlinkedRequestEnv {
        context,
        principal: entity_type(alloc, "User")?,
        resource: entity_type(alloc, "Photo")?,
        action: uid(alloc, "Action", "view")?,
    };
    boxed(alloc, asked)
}

/// Whether the environment has the types that are asked for.
fn has_types(env: &RequestEnv<'_>, asked: &UnlinkedRequestEnv) -> bool {
    env.principal_entity_type() == Some(&asked.principal)
        && env.resource_entity_type() == Some(&asked.resource)
}

/// Whether the question's own environment has these types.
fn has_its_types(asked: &UnlinkedRequestEnv) -> bool {
    has_types(&asked.as_request_env(), asked)
}

#[test]
fn an_environment_has_its_parts(rt: HostRuntime) -> Result<(), Fail> {
    assert!(rt; has_its_types(&*view_env(rt.alloc())?));
    Ok(())
}

/// The request of the environment.
fn request(alloc: Global, asked: &UnlinkedRequestEnv) -> Result<Option<RequestType>, AllocError> {
    asked.as_request_env().to_request_type(alloc)
}

/// Whether there is a request, and it is for this question.
fn is_for(request: &Option<RequestType>, asked: &UnlinkedRequestEnv) -> bool {
    match request {
        Some(request) => {
            request.principal == asked.principal
                && request.resource == asked.resource
                && request.action == asked.action
        }
        None => false,
    }
}

/// Whether the request of the question's environment is for the question.
fn is_asked(alloc: Global, asked: &UnlinkedRequestEnv) -> Result<bool, AllocError> {
    Ok(is_for(&request(alloc, asked)?, asked))
}

#[test]
fn a_request_has_the_parts_of_its_environment(rt: HostRuntime) -> Result<(), Fail> {
    let asked = view_env(rt.alloc())?;
    assert!(rt; is_asked(rt.alloc(), &asked)?);
    Ok(())
}

/// Links that bind `?principal` to a team.
fn team(alloc: Global) -> Result<SlotEnv, AllocError> {
    let mut slots = BTreeMap::new(alloc);
    drop(slots.insert(SlotId::Principal, uid(alloc, "Team", "t")?)?);
    Ok(slots)
}

/// The environment with an album for `?resource`, and then with a team for `?principal`.
fn link_env<'a>(
    alloc: Global,
    asked: &'a UnlinkedRequestEnv,
) -> Result<Box<RequestEnv<'a>>, AllocError> {
    let slots = team(alloc)?;
    let album = entity_type(alloc, "Album")?;
    let env = asked.as_request_env().link(None, Some(album));
    boxed(alloc, env.link_slot_env(alloc, &slots)?)
}

/// Whether `?principal` is of this type, and `?resource` is not bound.
fn has_slots(env: &RequestEnv<'_>, principal: &EntityType) -> bool {
    env.principal_slot() == Some(principal) && env.resource_slot().is_none()
}

/// Whether the last of the two links counts.
fn last_counts(alloc: Global, asked: &UnlinkedRequestEnv) -> Result<bool, AllocError> {
    let env = link_env(alloc, asked)?;
    Ok(has_slots(&env, &entity_type(alloc, "Team")?))
}

#[test]
fn the_last_linking_counts_for_both_slots(rt: HostRuntime) -> Result<(), Fail> {
    let asked = view_env(rt.alloc())?;
    assert!(rt; last_counts(rt.alloc(), &asked)?);
    Ok(())
}
