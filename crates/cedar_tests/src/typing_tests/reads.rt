// What expressions read of environments, and environments that agree on it.
use crate::parts::{entity_type, uid};
use cedar_alike::Reads;
use cedar_types::base::{CedarType, Expr, SlotId, UnlinkedRequestEnv, Var};
use cedar_types::types::request_env::RequestEnv;
use std::alloc::{AllocError, Global};
use std::rc::Rc;
use std::test::Fail;

/// What an expression reads that reads nothing.
const NOTHING: Reads = Reads {
    principal: false,
    action: false,
    resource: false,
    context: false,
    principal_slot: false,
    resource_slot: false,
};

/// All that there is to read.
const EVERYTHING: Reads = Reads {
    principal: true,
    action: true,
    resource: true,
    context: true,
    principal_slot: true,
    resource_slot: true,
};

/// `if principal == ?principal then context.x else action`.
fn choice(alloc: Global) -> Result<Expr, AllocError> {
    let test = Expr::is_eq(
        alloc,
        Expr::var(Var::Principal),
        Expr::slot(SlotId::Principal),
    )?;
    let chosen = Expr::get_attr(alloc, Expr::var(Var::Context), "x")?;
    Expr::ite(alloc, test, chosen, Expr::var(Var::Action))
}

#[test]
fn an_expression_reads_what_occurs_in_it(rt: HostRuntime) -> Result<(), Fail> {
    let whole = choice(rt.alloc())?;
    let expected = Reads {
        resource: false,
        resource_slot: false,
        ..EVERYTHING
    };
    assert_eq!(rt; Reads::of(rt.alloc(), &whole)?, expected);
    Ok(())
}

/// The environment of this principal, action and resource in this context.
fn asked(
    alloc: Global,
    (principal, action, resource): (&str, &str, &str),
    context: CedarType,
) -> Result<Box<UnlinkedRequestEnv>, AllocError> {
    let asked = UnlinkedRequestEnv {
        context: Rc::new(alloc, context)?,
        principal: entity_type(alloc, principal)?,
        resource: entity_type(alloc, resource)?,
        action: uid(alloc, "Action", action)?,
    };
    crate::parts::boxed(alloc, asked)
}

/// Users view photos in the context of all records, and no slot is linked.
fn view(alloc: Global) -> Result<Box<UnlinkedRequestEnv>, AllocError> {
    asked(
        alloc,
        ("User", "view", "Photo"),
        CedarType::any_record(alloc)?,
    )
}

/// What two environments agree on, asked for each part alone.
fn agreed(one: &RequestEnv<'_>, other: &RequestEnv<'_>) -> Reads {
    Reads {
        principal: Reads {
            principal: true,
            ..NOTHING
        }
        .agree(one, other),
        action: Reads {
            action: true,
            ..NOTHING
        }
        .agree(one, other),
        resource: Reads {
            resource: true,
            ..NOTHING
        }
        .agree(one, other),
        context: Reads {
            context: true,
            ..NOTHING
        }
        .agree(one, other),
        principal_slot: Reads {
            principal_slot: true,
            ..NOTHING
        }
        .agree(one, other),
        resource_slot: Reads {
            resource_slot: true,
            ..NOTHING
        }
        .agree(one, other),
    }
}

/// What the environment that users view photos in agrees on with another one.
fn agreed_with_view(alloc: Global, other: &UnlinkedRequestEnv) -> Result<Reads, AllocError> {
    let view = view(alloc)?;
    Ok(agreed(&view.as_request_env(), &other.as_request_env()))
}

#[test]
fn environments_agree_on_all_but_the_part_that_differs(rt: HostRuntime) -> Result<(), Fail> {
    let alloc = rt.alloc();
    let robot = asked(
        alloc,
        ("Robot", "view", "Photo"),
        CedarType::any_record(alloc)?,
    )?;
    let edit = asked(
        alloc,
        ("User", "edit", "Photo"),
        CedarType::any_record(alloc)?,
    )?;
    let album = asked(
        alloc,
        ("User", "view", "Album"),
        CedarType::any_record(alloc)?,
    )?;
    let long = asked(
        alloc,
        ("User", "view", "Photo"),
        CedarType::primitive_long(),
    )?;
    let no_principal = Reads {
        principal: false,
        ..EVERYTHING
    };
    let no_action = Reads {
        action: false,
        ..EVERYTHING
    };
    let no_resource = Reads {
        resource: false,
        ..EVERYTHING
    };
    let no_context = Reads {
        context: false,
        ..EVERYTHING
    };
    assert_eq!(rt; agreed_with_view(alloc, &robot)?, no_principal);
    assert_eq!(rt; agreed_with_view(alloc, &edit)?, no_action);
    assert_eq!(rt; agreed_with_view(alloc, &album)?, no_resource);
    assert_eq!(rt; agreed_with_view(alloc, &long)?, no_context);
    Ok(())
}

/// What an environment agrees on with itself, after its slots are linked to these types.
fn agreed_when_linked(
    alloc: Global,
    principal: Option<&str>,
    resource: Option<&str>,
) -> Result<Reads, AllocError> {
    let view = view(alloc)?;
    let principal = match principal {
        Some(name) => Some(entity_type(alloc, name)?),
        None => None,
    };
    let resource = match resource {
        Some(name) => Some(entity_type(alloc, name)?),
        None => None,
    };
    let linked = view.as_request_env().link(principal, resource);
    Ok(agreed(&view.as_request_env(), &linked))
}

#[test]
fn a_slot_differs_by_its_link_alone(rt: HostRuntime) -> Result<(), Fail> {
    let alloc = rt.alloc();
    let no_principal_slot = Reads {
        principal_slot: false,
        ..EVERYTHING
    };
    let no_resource_slot = Reads {
        resource_slot: false,
        ..EVERYTHING
    };
    assert_eq!(rt;
        agreed_when_linked(alloc, Some("User"), None)?,
        no_principal_slot
    );
    assert_eq!(rt;
        agreed_when_linked(alloc, None, Some("Photo"))?,
        no_resource_slot
    );
    assert_eq!(rt; agreed_when_linked(alloc, None, None)?, EVERYTHING);
    Ok(())
}

#[test]
fn an_undeclared_action_agrees_on_any_record_and_on_free_slots(
    rt: HostRuntime,
) -> Result<(), Fail> {
    let alloc = rt.alloc();
    let view = view(alloc)?;
    let expected = Reads {
        context: true,
        principal_slot: true,
        resource_slot: true,
        ..NOTHING
    };
    assert_eq!(rt;
        agreed(&view.as_request_env(), &RequestEnv::UndeclaredAction),
        expected
    );
    assert_eq!(rt;
        agreed(&RequestEnv::UndeclaredAction, &view.as_request_env()),
        expected
    );
    assert_eq!(rt;
        agreed(&RequestEnv::UndeclaredAction, &RequestEnv::UndeclaredAction),
        EVERYTHING
    );
    Ok(())
}
