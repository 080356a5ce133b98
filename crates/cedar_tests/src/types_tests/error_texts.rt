// Texts of errors that no case shows.
use crate::parts::{assert_text, entity_type, place, policy};
use cedar_types::base::{EntityDerefLevel, SchemaError, ValidationError};
use std::alloc::{AllocError, Global};
use std::test::Fail;

fn render(alloc: Global, error: &ValidationError) -> Result<String, AllocError> {
    error.to_string(alloc)
}

/// The message about tags of an entity type of this name, or of any entity.
fn no_tags(alloc: Global, name: Option<&str>) -> Result<String, AllocError> {
    let owner = match name {
        Some(name) => Some(entity_type(alloc, name)?),
        None => None,
    };
    render(
        alloc,
        &ValidationError::no_tags_allowed(place(1), policy(alloc)?, owner),
    )
}

#[test]
fn tags_are_not_allowed(rt: HostRuntime) -> Result<(), Fail> {
    let alloc = rt.alloc();
    let shown = no_tags(alloc, Some("Photo"))?;
    let want = "for policy `policy0`, tags are not allowed on `Photo`";
    assert_text(&rt, shown.as_str(), want);
    let shown = no_tags(alloc, None)?;
    let want = "for policy `policy0`, tags are not allowed on `entity`";
    assert_text(&rt, shown.as_str(), want);
    Ok(())
}

/// The message if the highest level is needed and none is allowed.
fn render_level_error(alloc: Global) -> Result<String, AllocError> {
    let allowed = EntityDerefLevel::default();
    let needed = EntityDerefLevel::from(4294967295);
    render(
        alloc,
        &ValidationError::maximum_level_exceeded(place(1), policy(alloc)?, allowed, needed),
    )
}

#[test]
fn a_level_is_exceeded(rt: HostRuntime) -> Result<(), Fail> {
    let want =
        "for policy `policy0`, this policy requires level 4294967295, which exceeds the maximum allowed level (0)";
    assert_text(&rt, render_level_error(rt.alloc())?.as_str(), want);
    Ok(())
}

#[test]
fn refused_memory_is_an_error_of_a_schema(rt: HostRuntime) -> Result<(), Fail> {
    let shown = SchemaError::from(AllocError).to_string(rt.alloc())?;
    assert_text(&rt, shown.as_str(), "Memory");
    Ok(())
}
