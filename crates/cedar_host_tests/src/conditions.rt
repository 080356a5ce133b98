// Typed conditions of a policy.
use crate::embedding::policies::{approved_sharing, unguarded};
use crate::embedding::schemas::documents;
use cedar_host::conditions::{TypedCondition, typed_conditions};
use cedar_types::base::{
    BoolType, CedarType, ExtensionSchemas, Template, ValidationMode, ValidatorSchema,
};
use cedar_typing::typecheck::Typechecker;
use std::alloc::{AllocError, Global};
use std::test::Fail;

/// The action of the environment, and whether the condition is False there.
fn show(alloc: Global, condition: &TypedCondition<'_>) -> Result<String, AllocError> {
    let action = match condition.env.action_entity_uid() {
        None => "any",
        Some(action) => action.eid.as_str(),
    };
    let annotation = &condition.condition.annotation;
    let is_false = matches!(annotation, Some(CedarType::Bool(BoolType::False)));
    format!(in alloc; "{action} {is_false}")
}

/// Each typed condition of the policy in Strict, shown, in ascending order.
fn all_shown(
    alloc: Global,
    schema: &ValidatorSchema,
    policy: &Template,
) -> Result<Option<Vec<String>>, AllocError> {
    let extensions = ExtensionSchemas::default(alloc);
    let checker = Typechecker::new(schema, &extensions, ValidationMode::Strict);
    let Some(conditions) = typed_conditions(alloc, &checker, policy)? else {
        return Ok(None);
    };
    let mut lines = Vec::new(alloc);
    for condition in &conditions {
        lines.push(show(alloc, condition)?)?;
    }
    lines.sort()?;
    Ok(Some(lines))
}

/// A view's context has no `approved`, so the condition is False there.
#[test]
fn each_environment_has_a_typed_condition(rt: HostRuntime) -> Result<(), Fail> {
    let alloc = rt.alloc();
    let schema = documents(alloc)?;
    let lines = all_shown(alloc, &schema, &approved_sharing(alloc)?)?;
    let wanted = vec![in alloc;
        String::from_str(alloc, "share false")?,
        String::from_str(alloc, "view true")?,
    ]?;
    assert_eq!(rt; lines, Some(wanted));
    Ok(())
}

#[test]
fn a_refused_policy_has_none(rt: HostRuntime) -> Result<(), Fail> {
    let alloc = rt.alloc();
    let schema = documents(alloc)?;
    assert_eq!(rt; all_shown(alloc, &schema, &unguarded(alloc)?)?, None);
    Ok(())
}
