// Surveys of a policy.
use crate::parts::{entity_type, uid};
use crate::typechecker_tests::policies::permit;
use crate::typechecker_tests::schemas::{
    users_and_external_action, users_and_photos, users_and_robots,
};
use cedar_typechecker::base::{
    ActionConstraint, EntityDerefLevel, Expr, ExtensionSchemas, PrincipalConstraint, RequestType,
    Template, ValidationMode, ValidatorSchema, Var,
};
use cedar_typechecker::rbac::Validator;
use cedar_typechecker::survey::{Environments, MAX_ENVIRONMENTS_LISTED, Survey};
use cedar_types::types::request_env::RequestEnv;
use std::alloc::{AllocError, Global};
use std::process::Abort;
use std::test::Fail;

/// `permit(principal, action, resource) when { principal.ATTRIBUTE.ATTRIBUTE };`
fn policy(alloc: Global, first: &str, second: &str) -> Result<Template, AllocError> {
    let user = Expr::get_attr(alloc, Expr::var(Var::Principal), first)?;
    let condition = Expr::get_attr(alloc, user, second)?;
    let (principal, action) = (PrincipalConstraint::any(), ActionConstraint::any());
    permit(alloc, principal, action, condition)
}

fn survey(alloc: Global, first: &str, second: &str) -> Result<Survey, Fail> {
    let extensions = ExtensionSchemas::default(alloc);
    let validator = Validator::new(users_and_photos(alloc)?, &extensions);
    let policy = policy(alloc, first, second)?;
    Ok(validator.survey(alloc, &policy, ValidationMode::Strict)?)
}

/// Checks whether the policy passes, and that it may apply, in one environment.
fn applies_once(rt: &impl Abort, survey: &Survey, passes: bool) {
    assert_eq!(rt; survey.passes(), passes);
    assert_eq!(rt; survey.is_impossible(), false);
    assert_eq!(rt; survey.applicable_environments(), 1);
}

#[test]
fn what_passes_has_its_levels(rt: HostRuntime) -> Result<(), Fail> {
    let alloc = rt.alloc();
    let survey = survey(alloc, "user", "bool")?;
    applies_once(&rt, &survey, true);
    assert_eq!(rt; survey.fails_without_error(), false);
    assert_eq!(rt; survey.errors().len(), 0);
    assert_eq!(rt; survey.level_errors(alloc, 1)?.len(), 1);
    assert_eq!(rt; survey.level_errors(alloc, 2)?.len(), 0);
    assert_eq!(rt; survey.required_level(), Some(EntityDerefLevel::from(2)));
    Ok(())
}

#[test]
fn an_error_has_its_environments(rt: HostRuntime) -> Result<(), Fail> {
    let alloc = rt.alloc();
    let survey = survey(alloc, "user", "gone")?;
    applies_once(&rt, &survey, false);
    let viewed = RequestType {
        principal: entity_type(alloc, "User")?,
        action: uid(alloc, "Action", "view")?,
        resource: entity_type(alloc, "Photo")?,
    };
    let mut found: usize = 0;
    for (_error, environments) in survey.into_errors() {
        found = found.saturating_add(1);
        assert_eq!(rt; environments.count, 1);
        for environment in &environments.listed {
            assert!(rt; environment.request.as_ref() == Some(&viewed));
            assert!(rt; environment.principal_slot.is_none());
        }
    }
    assert_eq!(rt; found, 1);
    Ok(())
}

#[test]
fn each_environment_counts_and_the_first_are_listed(rt: HostRuntime) -> Result<(), Fail> {
    let alloc = rt.alloc();
    let schema = users_and_photos(alloc)?;
    let mut environments = Environments::none(alloc);
    for env in schema.unlinked_request_envs(ValidationMode::Strict) {
        environments.add(alloc, &env)?;
    }
    assert_eq!(rt; environments.count, 1);
    for _ in 0..MAX_ENVIRONMENTS_LISTED {
        environments.add(alloc, &RequestEnv::UndeclaredAction)?;
    }
    assert_eq!(rt; environments.count, 6);
    assert_eq!(rt; environments.listed.len(), MAX_ENVIRONMENTS_LISTED);
    let mut declared: usize = 0;
    for environment in &environments.listed {
        if environment.request.is_some() {
            declared = declared.saturating_add(1);
        }
    }
    assert_eq!(rt; declared, 1);
    Ok(())
}

/// `permit(PRINCIPAL, action == Action::"ACTION", resource) when { principal.bool };`, surveyed by
/// a schema.
fn survey_about(
    alloc: Global,
    schema: ValidatorSchema,
    principal: PrincipalConstraint,
    action: &str,
) -> Result<Survey, Fail> {
    let extensions = ExtensionSchemas::default(alloc);
    let validator = Validator::new(schema, &extensions);
    let action = ActionConstraint::is_eq(uid(alloc, "Action", action)?);
    let condition = Expr::get_attr(alloc, Expr::var(Var::Principal), "bool")?;
    let policy = permit(alloc, principal, action, condition)?;
    Ok(validator.survey(alloc, &policy, ValidationMode::Strict)?)
}

/// The constraint `principal in User::"alice"`.
fn in_alice(alloc: Global) -> Result<PrincipalConstraint, AllocError> {
    Ok(PrincipalConstraint::is_in(uid(alloc, "User", "alice")?))
}

/// Surveys `permit` of principals in alice, by the schema in which users and robots view, edit and
/// print.
fn survey_of_action(alloc: Global, action: &str) -> Result<Survey, Fail> {
    survey_about(alloc, users_and_robots(alloc)?, in_alice(alloc)?, action)
}

#[test]
fn actions_that_the_scope_leaves_out_count(rt: HostRuntime) -> Result<(), Fail> {
    let alloc = rt.alloc();
    let view = survey_of_action(alloc, "view")?;
    assert_eq!(rt; view.passes(), true);
    assert_eq!(rt; view.is_impossible(), false);
    assert_eq!(rt; view.applicable_environments(), 1);
    assert_eq!(rt; view.required_level(), Some(EntityDerefLevel::from(1)));
    let unknown = survey_of_action(alloc, "unknown")?;
    assert_eq!(rt; unknown.passes(), true);
    assert_eq!(rt; unknown.is_impossible(), true);
    assert_eq!(rt; unknown.applicable_environments(), 0);
    assert_eq!(rt; unknown.level_errors(alloc, 0)?.len(), 1);
    assert_eq!(rt; unknown.required_level(), Some(EntityDerefLevel::from(1)));
    Ok(())
}

#[test]
fn an_external_action_has_no_environment(rt: HostRuntime) -> Result<(), Fail> {
    let alloc = rt.alloc();
    let read = survey_about(
        alloc,
        users_and_external_action(alloc)?,
        PrincipalConstraint::any(),
        "read",
    )?;
    assert_eq!(rt; read.passes(), true);
    assert_eq!(rt; read.is_impossible(), true);
    assert_eq!(rt; read.applicable_environments(), 0);
    assert_eq!(rt; read.required_level(), Some(EntityDerefLevel::from(0)));
    let within = survey_about(
        alloc,
        users_and_external_action(alloc)?,
        in_alice(alloc)?,
        "read",
    )?;
    assert_eq!(rt; within.is_impossible(), true);
    assert_eq!(rt; within.required_level(), Some(EntityDerefLevel::from(1)));
    let view = survey_about(
        alloc,
        users_and_external_action(alloc)?,
        PrincipalConstraint::any(),
        "view",
    )?;
    applies_once(&rt, &view, true);
    assert_eq!(rt; view.required_level(), Some(EntityDerefLevel::from(1)));
    Ok(())
}
