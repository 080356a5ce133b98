// The check of an expression at its place, and the typed condition of a check that fails.
use crate::typing_tests::checks::permit_when;
use cedar_reading::schema;
use cedar_types::base::{
    ArgumentCheck, CedarType, Expr, ExtensionSchemas, Literal, PolicyID, ValidationMode, Var,
};
use cedar_types::types::capability::CapabilitySet;
use cedar_types::types::request_env::RequestEnv;
use cedar_typing::typecheck::answer::TypecheckAnswer;
use cedar_typing::typecheck::{PolicyCheck, Typechecker};
use std::alloc::{AllocError, Global};
use std::test::Fail;

const STRICT: ValidationMode = ValidationMode::Strict;

const SCHEMA: &str = "
    entity User { age: Long, nick?: String };
    action greet appliesTo { principal: User, resource: User };
";

/// `principal.nick`.
fn nick(alloc: Global) -> Result<Expr, AllocError> {
    Expr::get_attr(alloc, Expr::var(Var::Principal), "nick")
}

/// Whether a typed tree, if there is one, has the type of texts at its root.
fn is_text(typed: Option<&Expr<Option<CedarType>>>) -> bool {
    match typed {
        Some(typed) => matches!(typed.annotation, Some(CedarType::String)),
        None => false,
    }
}

/// The number of errors of an expression that fails without prior capabilities, and has a tree.
fn count_errors<C: ArgumentCheck>(
    alloc: Global,
    checker: &Typechecker<'_, C>,
    id: &PolicyID,
    env: &RequestEnv<'_>,
    e: &Expr,
) -> Result<usize, AllocError> {
    let nothing = CapabilitySet::new(alloc);
    let check = checker.typecheck_expr(alloc, id, env, &nothing, e)?;
    if check.answer.typechecked() || check.typed().is_none() {
        return Ok(0);
    }
    Ok(check.errors.len())
}

/// Whether an expression is a text, without an error, with these prior capabilities.
fn is_text_where<'x, C: ArgumentCheck>(
    alloc: Global,
    checker: &Typechecker<'_, C>,
    id: &PolicyID,
    env: &RequestEnv<'_>,
    prior: &CapabilitySet<'x>,
    e: &'x Expr,
) -> Result<bool, AllocError> {
    let check = checker.typecheck_expr(alloc, id, env, prior, e)?;
    Ok(check.answer.typechecked() && check.errors.is_empty() && is_text(check.typed()))
}

/// Whether an expression is a text if this other one is true, which is typed without prior capabilities.
fn is_text_after<'x, C: ArgumentCheck>(
    alloc: Global,
    checker: &Typechecker<'_, C>,
    id: &PolicyID,
    env: &RequestEnv<'_>,
    guard: &'x Expr,
    e: &'x Expr,
) -> Result<bool, AllocError> {
    let nothing = CapabilitySet::new(alloc);
    let test = checker.typecheck_expr(alloc, id, env, &nothing, guard)?;
    match &test.answer {
        TypecheckAnswer::TypecheckSuccess {
            expr_capability,
            ..
        } => is_text_where(alloc, checker, id, env, expr_capability, e),
        _ => Ok(false),
    }
}

#[test]
fn what_a_guard_knows_is_known_after_it(rt: HostRuntime) -> Result<(), Fail> {
    let alloc = rt.alloc();
    let Ok(schema) = schema(alloc, SCHEMA) else {
        return Err(Fail::from("a schema"));
    };
    let extensions = ExtensionSchemas::default(alloc);
    let checker = Typechecker::new(&schema, &extensions, STRICT);
    let mut envs = schema.unlinked_request_envs(STRICT);
    let env = envs.next().ok_or("an environment")?;
    let id = PolicyID::from_string(alloc, "policy0")?;
    let access = nick(alloc)?;
    let guard = Expr::has_attr(alloc, Expr::var(Var::Principal), "nick")?;
    assert_eq!(rt; count_errors(alloc, &checker, &id, &env, &access)?, 1);
    assert!(rt; is_text_after(alloc, &checker, &id, &env, &guard, &access)?);
    assert!(rt; !is_text_after(alloc, &checker, &id, &env, &access, &access)?);
    Ok(())
}

#[test]
fn a_check_that_fails_has_a_tree(rt: HostRuntime) -> Result<(), Fail> {
    let alloc = rt.alloc();
    let Ok(schema) = schema(alloc, SCHEMA) else {
        return Err(Fail::from("a schema"));
    };
    let extensions = ExtensionSchemas::default(alloc);
    let typechecker = Typechecker::new(&schema, &extensions, STRICT);
    let mut envs = schema.unlinked_request_envs(STRICT);
    let env = envs.next().ok_or("an environment")?;
    let text = Expr::val(Literal::from_string(alloc, "a")?);
    let policy = permit_when(alloc, Expr::is_eq(alloc, nick(alloc)?, text)?)?;
    let check = typechecker.typecheck_condition(alloc, &policy, &env)?;
    let typed = check.typed().ok_or("a tree")?;
    assert!(rt; matches!(typed.annotation, Some(CedarType::Bool(_))));
    let PolicyCheck::Fail(errors) = &check.into_policy_check() else {
        return Err(Fail::from("a failure"));
    };
    assert!(rt; errors.len() == 1);
    Ok(())
}
