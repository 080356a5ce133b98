// Validation of a policy without levels.
use crate::parts::uid;
use crate::typechecker_tests::schemas::users_and_photos;
use cedar_typechecker::base::{
    ActionConstraint, Expr, ExtensionSchemas, PolicyID, PrincipalConstraint, ResourceConstraint,
    Template, ValidationMode, Var,
};
use cedar_typechecker::rbac::Validator;
use std::alloc::{AllocError, Global};
use std::test::Fail;

/// `permit(PRINCIPAL, ACTION, resource) when { CONDITION };`
pub fn permit(
    alloc: Global,
    principal: PrincipalConstraint,
    action: ActionConstraint,
    condition: Expr,
) -> Result<Template, AllocError> {
    let id = PolicyID::from_string(alloc, "p")?;
    let resource = ResourceConstraint::any();
    Ok(Template::new(id, None, principal, action, resource, Some(condition)))
}

/// `permit(PRINCIPAL, action, resource) when { principal.user.ATTRIBUTE };`
fn policy(
    alloc: Global,
    principal: PrincipalConstraint,
    attribute: &str,
) -> Result<Template, AllocError> {
    let user = Expr::get_attr(alloc, Expr::var(Var::Principal), "user")?;
    let condition = Expr::get_attr(alloc, user, attribute)?;
    permit(alloc, principal, ActionConstraint::any(), condition)
}

/// The lines of all errors of a policy, and then those of all warnings.
fn render_findings(alloc: Global, policy: &Template, mode: ValidationMode) -> Result<String, Fail> {
    let extensions = ExtensionSchemas::default(alloc);
    let validator = Validator::new(users_and_photos(alloc)?, &extensions);
    let (errors, warnings) = validator.validate_policy(alloc, policy, mode)?;
    let mut lines = String::new(alloc);
    for error in &errors {
        lines.push_str(error.to_string(alloc)?.as_str())?;
        lines.push_str("\n")?;
    }
    for warning in &warnings {
        lines.push_str(warning.to_string(alloc)?.as_str())?;
        lines.push_str("\n")?;
    }
    Ok(lines)
}

#[test]
fn errors_and_warnings_of_a_policy_are_found(rt: HostRuntime) -> Result<(), Fail> {
    let alloc = rt.alloc();
    let any = policy(alloc, PrincipalConstraint::any(), "bool")?;
    assert_eq!(rt;
        render_findings(alloc, &any, ValidationMode::Strict)?.as_str(),
        ""
    );
    let wrong = policy(alloc, PrincipalConstraint::any(), "gone")?;
    assert_eq!(rt;
        render_findings(alloc, &wrong, ValidationMode::Strict)?.as_str(),
        "for policy `p`, attribute `gone` does not exist on `User`\n"
    );
    let unknown = policy(
        alloc,
        PrincipalConstraint::is_eq(uid(alloc, "Gone", "a")?),
        "bool",
    )?;
    let lines = render_findings(alloc, &unknown, ValidationMode::Strict)?;
    assert_eq!(rt;
        lines.as_str(),
        "for policy `p`, unrecognized entity type `Gone`\n\
        for policy `p`, unable to find an applicable action given the policy scope constraints\n"
    );
    assert_eq!(rt;
        render_findings(alloc, &unknown, ValidationMode::Partial)?.as_str(),
        ""
    );
    Ok(())
}
