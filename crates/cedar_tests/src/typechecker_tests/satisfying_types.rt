// Types that a constraint on the resource admits.
use crate::parts::{entity_type, uid};
use crate::typechecker_tests::schemas::users_and_files;
use cedar_typechecker::base::{EntityType, ExtensionSchemas, ResourceConstraint};
use cedar_typechecker::rbac::Validator;
use std::alloc::{AllocError, Global};
use std::test::Fail;

/// The constraint of a scope on the resource: its id is `a`, and its types have these names.
#[derive(Clone, Copy, Debug)]
enum Asked {
    Anything,
    EqSlot,
    InSlot,
    Eq(&'static str),
    In(&'static str),
    Is(&'static str),
    IsInSlot(&'static str),
    IsIn(&'static str, &'static str),
}

fn constraint(alloc: Global, asked: Asked) -> Result<ResourceConstraint, AllocError> {
    match asked {
        Asked::Anything => Ok(ResourceConstraint::any()),
        Asked::EqSlot => Ok(ResourceConstraint::is_eq_slot()),
        Asked::InSlot => Ok(ResourceConstraint::is_in_slot()),
        Asked::Eq(name) => Ok(ResourceConstraint::is_eq(uid(alloc, name, "a")?)),
        Asked::In(name) => Ok(ResourceConstraint::is_in(uid(alloc, name, "a")?)),
        Asked::Is(name) => Ok(ResourceConstraint::is_entity_type(entity_type(alloc, name)?)),
        Asked::IsInSlot(name) => {
            Ok(ResourceConstraint::is_entity_type_in_slot(entity_type(alloc, name)?))
        }
        Asked::IsIn(name, group) => {
            let group = uid(alloc, group, "a")?;
            Ok(ResourceConstraint::is_entity_type_in(entity_type(alloc, name)?, group))
        }
    }
}

/// The names in ascending order.
fn names(alloc: Global, types: &[&EntityType]) -> Result<String, AllocError> {
    let mut names = Vec::new(alloc);
    for entity_type in types {
        names.push(entity_type.to_string(alloc)?)?;
    }
    names.sort()?;
    names.as_slice().join(alloc, ",")
}

fn resources(alloc: Global, asked: Asked) -> Result<String, Fail> {
    let extensions = ExtensionSchemas::default(alloc);
    let validator = Validator::new(users_and_files(alloc)?, &extensions);
    let constraint = constraint(alloc, asked)?;
    let types = validator.get_resources_satisfying_constraint(alloc, &constraint)?;
    Ok(names(alloc, &types)?)
}

const ADMITTED: [(Asked, &str); 13] = [
    (Asked::Anything, "File,Group,User"),
    (Asked::EqSlot, "File,Group,User"),
    (Asked::InSlot, "File,Group,User"),
    (Asked::Eq("Gone"), "Gone"),
    (Asked::In("Gone"), "Gone"),
    (Asked::In("User"), "User"),
    (Asked::In("Group"), "Group,User"),
    (Asked::Is("User"), "User"),
    (Asked::Is("Gone"), ""),
    (Asked::Is("Action"), "Action"),
    (Asked::IsInSlot("User"), "User"),
    (Asked::IsIn("User", "Group"), "User"),
    (Asked::IsIn("File", "Group"), ""),
];

#[test]
fn each_type_is_listed_once(rt: HostRuntime) -> Result<(), Fail> {
    for (asked, want) in &ADMITTED {
        let found = resources(rt.alloc(), *asked)?;
        assert!(rt; found.as_str() == *want, "{asked:?}");
    }
    Ok(())
}
