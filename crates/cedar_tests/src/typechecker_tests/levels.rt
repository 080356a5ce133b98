// Validation of a policy with levels, and the level that it requires.
use crate::parts::uid;
use crate::typechecker_tests::policies::permit;
use crate::typechecker_tests::schemas::users_and_photos;
use cedar_typechecker::base::{
    ActionConstraint, AttrChain, Expr, ExtensionSchemas, Literal, PrincipalConstraint, SlotId,
    Template, ValidationMode, Var,
};
use cedar_typechecker::level_validate::{EntityDerefLevel, LevelErrors, LevelWarnings};
use cedar_typechecker::rbac::Validator;
use std::alloc::{AllocError, Global};
use std::fmt;
use std::test::Fail;

const UNKNOWN: &str = "for policy `p`, unrecognized entity type `Gone`";

const ONE_AT_0: &str =
    "for policy `p`, this policy requires level 1, which exceeds the maximum allowed level (0)";

const TWO_AT_1: &str =
    "for policy `p`, this policy requires level 2, which exceeds the maximum allowed level (1)";

const IMPOSSIBLE: &str =
    "for policy `p`, policy is impossible: it evaluates to false for every valid request";

const NO_ACTION: &str =
    "for policy `p`, unable to find an applicable action given the policy scope constraints";

/// A policy.
#[derive(Clone, Copy, Debug)]
enum Written {
    /// `permit(principal, action, resource) when { action in Action::"view" };`
    InView,
    /// `permit(principal == Gone::"a", action, resource);`: its check fails, so it is not impossible.
    OfUnknown,
    /// `permit(principal, action, resource) when { false };`
    Never,
    /// `permit(principal, action, resource) when { principal.bool };`, with `principal.bool` in 64 conditionals
    /// `if true then .. else false`.
    Nested,
    /// `permit(principal, action, resource) when { principal has user };`, an extended `has`.
    HasUser,
    /// `permit(principal, action, resource) when { principal.user has user };`, an extended `has`.
    UserHasUser,
}

fn condition(alloc: Global, written: Written) -> Result<Expr, AllocError> {
    match written {
        Written::InView => {
            let view = Expr::val(Literal::EntityUID(uid(alloc, "Action", "view")?));
            Expr::is_in(alloc, Expr::var(Var::Action), view)
        }
        Written::OfUnknown => Ok(Expr::val(Literal::from(true))),
        Written::Never => Ok(Expr::val(Literal::from(false))),
        Written::Nested => nest(alloc),
        Written::HasUser => {
            let user = AttrChain::new(alloc, "user", &[])?;
            Expr::extended_has_attr(alloc, Expr::var(Var::Principal), user)
        }
        Written::UserHasUser => {
            let base = Expr::get_attr(alloc, Expr::var(Var::Principal), "user")?;
            Expr::extended_has_attr(alloc, base, AttrChain::new(alloc, "user", &[])?)
        }
    }
}

fn nest(alloc: Global) -> Result<Expr, AllocError> {
    let mut whole = Expr::get_attr(alloc, Expr::var(Var::Principal), "bool")?;
    for _ in 0..64 {
        let test = Expr::val(Literal::from(true));
        whole = Expr::ite(alloc, test, whole, Expr::val(Literal::from(false)))?;
    }
    Ok(whole)
}

fn policy(alloc: Global, written: Written) -> Result<Template, AllocError> {
    let principal = match written {
        Written::OfUnknown => PrincipalConstraint::is_eq(uid(alloc, "Gone", "a")?),
        _ => PrincipalConstraint::any(),
    };
    let condition = condition(alloc, written)?;
    permit(alloc, principal, ActionConstraint::any(), condition)
}

/// Whether this finding is there, and shown as this text.
fn is_shown<F: fmt::Display + Drop>(
    alloc: Global,
    found: Option<F>,
    text: &str,
) -> Result<bool, AllocError> {
    match found {
        Some(found) => Ok(found.to_string(alloc)?.as_str() == text),
        None => Ok(false),
    }
}

/// Whether these are all errors, and none comes after them.
fn are_errors(alloc: Global, mut errors: LevelErrors, texts: &[&str]) -> Result<bool, AllocError> {
    for text in texts {
        if !is_shown(alloc, errors.next(), text)? {
            return Ok(false);
        }
    }
    Ok(errors.next().is_none() && errors.next().is_none())
}

/// Whether these are all warnings, and none comes after them.
fn are_warnings(
    alloc: Global,
    mut warnings: LevelWarnings,
    texts: &[&str],
) -> Result<bool, AllocError> {
    for text in texts {
        if !is_shown(alloc, warnings.next(), text)? {
            return Ok(false);
        }
    }
    Ok(warnings.next().is_none() && warnings.next().is_none())
}

/// A policy, a mode and a maximum, with the errors and the warnings.
type Case = (
    Written,
    ValidationMode,
    u32,
    &'static [&'static str],
    &'static [&'static str],
);

const CASES: [Case; 18] = [
    (Written::InView, ValidationMode::Strict, 0, &[ONE_AT_0], &[]),
    (
        Written::InView,
        ValidationMode::Permissive,
        0,
        &[ONE_AT_0],
        &[],
    ),
    (
        Written::InView,
        ValidationMode::Partial,
        0,
        &[ONE_AT_0],
        &[],
    ),
    (Written::InView, ValidationMode::Strict, 1, &[], &[]),
    (Written::InView, ValidationMode::Permissive, 1, &[], &[]),
    (Written::InView, ValidationMode::Partial, 1, &[], &[]),
    (
        Written::OfUnknown,
        ValidationMode::Strict,
        0,
        &[UNKNOWN],
        &[NO_ACTION],
    ),
    (
        Written::OfUnknown,
        ValidationMode::Permissive,
        0,
        &[UNKNOWN],
        &[NO_ACTION],
    ),
    (
        Written::Never,
        ValidationMode::Strict,
        0,
        &[],
        &[IMPOSSIBLE],
    ),
    (
        Written::Never,
        ValidationMode::Permissive,
        0,
        &[],
        &[IMPOSSIBLE],
    ),
    (
        Written::Never,
        ValidationMode::Partial,
        0,
        &[],
        &[IMPOSSIBLE],
    ),
    (Written::Nested, ValidationMode::Strict, 0, &[ONE_AT_0], &[]),
    (Written::Nested, ValidationMode::Strict, 1, &[], &[]),
    (
        Written::HasUser,
        ValidationMode::Strict,
        0,
        &[ONE_AT_0],
        &[],
    ),
    (Written::HasUser, ValidationMode::Strict, 1, &[], &[]),
    (
        Written::UserHasUser,
        ValidationMode::Strict,
        0,
        &[ONE_AT_0],
        &[],
    ),
    (
        Written::UserHasUser,
        ValidationMode::Strict,
        1,
        &[TWO_AT_1],
        &[],
    ),
    (Written::UserHasUser, ValidationMode::Strict, 2, &[], &[]),
];

#[test]
fn both_iterators_end(rt: HostRuntime) -> Result<(), Fail> {
    let alloc = rt.alloc();
    let extensions = ExtensionSchemas::default(alloc);
    let validator = Validator::new(users_and_photos(alloc)?, &extensions);
    for (written, mode, maximum, all_errors, all_warnings) in &CASES {
        let policy = policy(alloc, *written)?;
        let (errors, warnings) = validator.validate_policy_with_level(
            alloc, &policy, *mode, *maximum,
        )?;
        assert!(rt;
            are_errors(alloc, errors, all_errors)?,
            "errors of {written:?}"
        );
        assert!(rt;
            are_warnings(alloc, warnings, all_warnings)?,
            "warnings of {written:?}"
        );
    }
    Ok(())
}

/// A policy, a mode, and the level that it requires.
const REQUIRED: [(Written, ValidationMode, u32); 9] = [
    (Written::InView, ValidationMode::Strict, 1),
    (Written::InView, ValidationMode::Permissive, 1),
    (Written::InView, ValidationMode::Partial, 1),
    (Written::OfUnknown, ValidationMode::Strict, 0),
    (Written::Never, ValidationMode::Strict, 0),
    (Written::Never, ValidationMode::Partial, 0),
    (Written::Nested, ValidationMode::Strict, 1),
    (Written::HasUser, ValidationMode::Strict, 1),
    (Written::UserHasUser, ValidationMode::Strict, 2),
];

#[test]
fn a_required_level_is_answered(rt: HostRuntime) -> Result<(), Fail> {
    let alloc = rt.alloc();
    let extensions = ExtensionSchemas::default(alloc);
    let validator = Validator::new(users_and_photos(alloc)?, &extensions);
    for (written, mode, level) in &REQUIRED {
        let policy = policy(alloc, *written)?;
        let required = validator.required_level(alloc, &policy, *mode)?;
        let wanted = Some(EntityDerefLevel::from(*level));
        assert_eq!(rt; required, wanted, "of {written:?}");
    }
    Ok(())
}

/// `permit(principal == ?principal, action, resource) when { ?principal has bool };`: no level allows to access a slot.
fn of_slot(alloc: Global) -> Result<Template, AllocError> {
    let slot = Expr::slot(SlotId::Principal);
    let condition = Expr::has_attr(alloc, slot, "bool")?;
    let principal = PrincipalConstraint::is_eq_slot();
    permit(alloc, principal, ActionConstraint::any(), condition)
}

#[test]
fn no_level_is_required_where_none_is_enough(rt: HostRuntime) -> Result<(), Fail> {
    let alloc = rt.alloc();
    let extensions = ExtensionSchemas::default(alloc);
    let validator = Validator::new(users_and_photos(alloc)?, &extensions);
    let policy = of_slot(alloc)?;
    let required = validator.required_level(alloc, &policy, ValidationMode::Strict)?;
    assert_eq!(rt; required, None);
    Ok(())
}
