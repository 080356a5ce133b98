// The check of one condition in Strict, in a small schema.
use cedar_fixtures::addresses::RefusesEmptyAddress;
use cedar_fixtures::tables::functions_with_sum;
use cedar_reading::schema;
use cedar_types::base::{
    ActionConstraint, CedarType, Expr, ExprKind, ExtensionSchemas, Literal, Loc, PolicyID,
    PrincipalConstraint, ResourceConstraint, Template, ValidationError, ValidationMode,
    ValidatorSchema, Var,
};
use cedar_typing::typecheck::{PolicyCheck, Typechecker};
use std::alloc::{AllocError, Global};
use std::collections::BTreeSet;
use std::rc::Rc;
use std::test::Fail;

const POLICY: Option<Loc> = Some(Loc { start: 5, end: 900 });

const SCHEMA: &str = "
    entity User {
        ok: Bool, boss: User, ip: ipaddr, age: Long, name: String, ages: Set<Long>
    } tags User;
    action greet appliesTo { principal: User, resource: User };
";

/// `permit(principal, action, resource) when { condition }`.
pub fn permit_when(alloc: Global, condition: Expr) -> Result<Template, AllocError> {
    Ok(Template::new(
        PolicyID::from_string(alloc, "policy0")?,
        POLICY,
        PrincipalConstraint::any(),
        ActionConstraint::any(),
        ResourceConstraint::any(),
        Some(condition),
    ))
}

/// The check of a policy in Strict.
pub fn check_policy(alloc: Global, policy: &Template) -> Result<PolicyCheck, Fail> {
    check_in(alloc, policy, ValidationMode::Strict)
}

/// The check of a policy in a mode.
pub fn check_in(
    alloc: Global,
    policy: &Template,
    mode: ValidationMode,
) -> Result<PolicyCheck, Fail> {
    let Ok(schema) = schema(alloc, SCHEMA) else {
        return Err(Fail::from("a schema"));
    };
    check_by(alloc, &schema, policy, mode)
}

/// The check of a policy in the first environment of a schema.
fn check_by(
    alloc: Global,
    schema: &ValidatorSchema,
    policy: &Template,
    mode: ValidationMode,
) -> Result<PolicyCheck, Fail> {
    let check = Box::new(alloc, RefusesEmptyAddress { alloc })?;
    let functions = functions_with_sum(alloc, check)?;
    let Ok(extensions) = ExtensionSchemas::new(functions, BTreeSet::new(alloc)) else {
        return Err(Fail::from("a table"));
    };
    let typechecker = Typechecker::new(schema, &extensions, mode);
    let mut envs = schema.unlinked_request_envs(mode);
    let env = envs.next().ok_or("an environment")?;
    Ok(typechecker.typecheck_by_single_request_env(alloc, policy, &env)?)
}

/// The check of `permit(principal, action, resource) when { condition }`.
pub fn check(alloc: Global, condition: Expr) -> Result<PolicyCheck, Fail> {
    let policy = permit_when(alloc, condition)?;
    check_policy(alloc, &policy)
}

/// The outcome of a check, and the texts of its errors in ascending order.
pub fn outcome(alloc: Global, check: &PolicyCheck) -> Result<String, AllocError> {
    match check {
        PolicyCheck::Success(_) => String::from_str(alloc, "success"),
        PolicyCheck::Irrelevant(errors, _) => with_errors(alloc, "irrelevant", errors),
        PolicyCheck::Fail(errors) => with_errors(alloc, "failure", errors),
    }
}

fn with_errors(
    alloc: Global,
    outcome: &str,
    errors: &Vec<ValidationError>,
) -> Result<String, AllocError> {
    let mut texts = Vec::new(alloc);
    for error in errors {
        texts.push(error.to_string(alloc)?)?;
    }
    texts.sort()?;
    let mut shown = String::from_str(alloc, outcome)?;
    for text in &texts {
        let message = text.as_str();
        write!(
            shown,
            "; {}",
            message
                .strip_prefix("for policy `policy0`, ")
                .unwrap_or(message)
        )?;
    }
    Ok(shown)
}

/// `if .. { principal.ok } else { principal.ok }`.
fn decide(alloc: Global, test: bool) -> Result<Expr, AllocError> {
    let yes = Expr::get_attr(alloc, Expr::var(Var::Principal), "ok")?;
    let no = Expr::get_attr(alloc, Expr::var(Var::Principal), "ok")?;
    Expr::ite(alloc, Expr::val(Literal::from(test)), yes, no)
}

/// Whether both branches of the `if` on the right side of this conjunction are one tree.
fn have_one_tree(typed: &Expr<Option<CedarType>>) -> bool {
    let ExprKind::And(_, condition) = &typed.kind else {
        return false;
    };
    match &condition.kind {
        ExprKind::If {
            then_expr,
            else_expr,
            ..
        } => Rc::ptr_eq(then_expr, else_expr),
        _ => false,
    }
}

#[test]
fn under_a_test_that_decides_both_branches_are_one_tree(rt: HostRuntime) -> Result<(), Fail> {
    let alloc = rt.alloc();
    for test in [true, false] {
        let PolicyCheck::Success(typed) = &check(alloc, decide(alloc, test)?)? else {
            return Err(Fail::from("a success"));
        };
        assert!(rt; typed.loc == POLICY && have_one_tree(typed));
    }
    Ok(())
}
