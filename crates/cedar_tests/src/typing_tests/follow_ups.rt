// Follow-ups on one answer.
use crate::typing_tests::parts::{is_limit, is_long, knowing, knows, long, number};
use cedar_types::base::CedarType;
use cedar_typing::typecheck::answer::TypecheckAnswer;
use std::alloc::{AllocError, Global};
use std::test::Fail;

/// A success that knows that the principal has `x`.
fn knowing_x<'a>(alloc: Global) -> Result<TypecheckAnswer<'a>, AllocError> {
    Ok(TypecheckAnswer::success_with_capability(long(alloc, 7)?, knowing(alloc, "x")?))
}

/// The answer, in which `y` replaces all that is known if `x` is known.
fn replace<'a>(
    alloc: Global,
    answer: TypecheckAnswer<'a>,
) -> Result<TypecheckAnswer<'a>, AllocError> {
    answer.map_capability(|set| {
        if knows(alloc, &set, "x")? {
            knowing(alloc, "y")
        } else {
            Ok(set)
        }
    })
}

/// Whether the answer is a success that knows that the principal has this attribute.
fn is_knowing(alloc: Global, answer: &TypecheckAnswer<'_>, attr: &str) -> Result<bool, AllocError> {
    match answer {
        TypecheckAnswer::TypecheckSuccess {
            expr_capability,
            ..
        } => knows(alloc, expr_capability, attr),
        _ => Ok(false),
    }
}

#[test]
fn the_set_of_a_success_is_replaced(rt: HostRuntime) -> Result<(), Fail> {
    let alloc = rt.alloc();
    let answer = replace(alloc, knowing_x(alloc)?)?;
    assert!(rt; is_knowing(alloc, &answer, "y")? && !is_knowing(alloc, &answer, "x")?);
    Ok(())
}

/// The answer, whose set memory is refused for.
fn refuse(answer: TypecheckAnswer<'_>) -> Result<TypecheckAnswer<'_>, AllocError> {
    answer.map_capability(|_| Err(AllocError))
}

#[test]
fn only_a_success_has_a_set_to_replace(rt: HostRuntime) -> Result<(), Fail> {
    let alloc = rt.alloc();
    assert!(rt; refuse(TypecheckAnswer::success(alloc, long(alloc, 1)?)).is_err());
    assert!(rt; refuse(TypecheckAnswer::fail(long(alloc, 1)?)).is_ok());
    assert!(rt; refuse(TypecheckAnswer::RecursionLimit).is_ok());
    Ok(())
}

/// Follows up with a string on a `7`, and with a limit on any other answer, if `x` is known or not, as `is_known` tells.
fn follow_up<'a>(
    alloc: Global,
    answer: TypecheckAnswer<'a>,
    is_known: bool,
) -> Result<TypecheckAnswer<'a>, AllocError> {
    answer.then_typecheck(alloc, |expr, set| {
        if is_long(&expr, 7) && knows(alloc, &set, "x")? == is_known {
            Ok(TypecheckAnswer::success(alloc, number(alloc, 8, Some(CedarType::String))?))
        } else {
            Ok(TypecheckAnswer::RecursionLimit)
        }
    })
}

#[test]
fn a_success_hands_on_what_it_has(rt: HostRuntime) -> Result<(), Fail> {
    let alloc = rt.alloc();
    let answer = follow_up(alloc, knowing_x(alloc)?, true)?;
    assert!(rt; answer.typechecked() && answer.contains_type(&CedarType::String));
    Ok(())
}

#[test]
fn a_failure_hands_on_its_expression_and_stays_a_failure(rt: HostRuntime) -> Result<(), Fail> {
    let alloc = rt.alloc();
    let answer = follow_up(alloc, TypecheckAnswer::fail(long(alloc, 7)?), false)?;
    assert!(rt; !answer.typechecked() && answer.contains_type(&CedarType::String));
    Ok(())
}

#[test]
fn what_follows_may_be_a_limit(rt: HostRuntime) -> Result<(), Fail> {
    let alloc = rt.alloc();
    let answer = follow_up(alloc, TypecheckAnswer::fail(long(alloc, 7)?), true)?;
    assert!(rt; is_limit(&answer));
    Ok(())
}

/// Follows up with refused memory.
fn cut_off(alloc: Global, answer: TypecheckAnswer<'_>) -> Result<TypecheckAnswer<'_>, AllocError> {
    answer.then_typecheck(alloc, |_, _| Err(AllocError))
}

#[test]
fn nothing_follows_a_limit(rt: HostRuntime) -> Result<(), Fail> {
    let alloc = rt.alloc();
    assert!(rt; is_limit(&cut_off(alloc, TypecheckAnswer::RecursionLimit)?));
    assert!(rt; cut_off(alloc, TypecheckAnswer::fail(long(alloc, 7)?)).is_err());
    Ok(())
}
