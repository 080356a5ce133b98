// The three answers of typing, and questions about each of them.
use crate::typing_tests::parts::{is_failure, knowing, long, number};
use cedar_types::base::CedarType;
use cedar_typing::typecheck::answer::TypecheckAnswer;
use std::test::Fail;

/// Whether the answer is a success, and whether its item is typed as a long.
fn describe(answer: &TypecheckAnswer<'_>) -> (bool, bool) {
    (answer.typechecked(), answer.contains_type(&CedarType::Long))
}

#[test]
fn a_success_has_its_type(rt: HostRuntime) -> Result<(), Fail> {
    let alloc = rt.alloc();
    assert!(rt; describe(&TypecheckAnswer::success(alloc, long(alloc, 1)?)) == (true, true));
    assert!(rt;
        describe(&TypecheckAnswer::success(alloc, number(alloc, 3, None)?)) == (true, false)
    );
    let knowing = TypecheckAnswer::success_with_capability(long(alloc, 2)?, knowing(alloc, "x")?);
    assert!(rt; describe(&knowing) == (true, true));
    Ok(())
}

#[test]
fn a_failure_has_its_type_and_a_limit_has_none(rt: HostRuntime) -> Result<(), Fail> {
    let alloc = rt.alloc();
    assert!(rt; describe(&TypecheckAnswer::fail(long(alloc, 4)?)) == (false, true));
    assert!(rt; describe(&TypecheckAnswer::RecursionLimit) == (false, false));
    Ok(())
}

/// Whether the answer, made a failure, still has an expression.
fn has_expression(answer: TypecheckAnswer<'_>) -> bool {
    let failed = answer.into_fail();
    is_failure(&failed) && failed.into_typed_expr().is_some()
}

#[test]
fn what_is_made_a_failure_keeps_its_expression(rt: HostRuntime) -> Result<(), Fail> {
    let alloc = rt.alloc();
    assert!(rt; has_expression(TypecheckAnswer::success(alloc, long(alloc, 1)?)));
    assert!(rt; has_expression(TypecheckAnswer::fail(long(alloc, 1)?)));
    assert!(rt; !has_expression(TypecheckAnswer::RecursionLimit));
    Ok(())
}
