// Kept reports: errors with their places, and reports without the policies; and the host's reports on a set.
use crate::embedding::policies::{by_its_contact, by_their_contact, permit_when, unguarded};
use crate::embedding::schemas::documents;
use crate::wanted::{add, alone};
use cedar_host::policy_sets::{WrittenPolicy, repeated_ids, validate_set};
use cedar_host::reports::{KeptReport, PolicyReport};
use cedar_host::safety::SoundMode;
use cedar_host::slices::{level_of, validate_for_slices};
use cedar_typechecker::rbac::Validator;
use cedar_types::base::{
    Effect, EntityDerefLevel, Expr, ExtensionSchemas, Loc, SchemaError, Template, ValidationError,
    Var,
};
use std::alloc::{AllocError, Global};
use std::process::Abort;
use std::test::Fail;

const UNGUARDED: &str = "access to optional attribute `vip` on `User` is not guarded";

/// `principal.vip`, at this place.
fn vip_at(alloc: Global, start: usize, end: usize) -> Result<Expr, AllocError> {
    let access = Expr::get_attr(alloc, Expr::var(Var::Principal), "vip")?;
    Ok(access.with_maybe_source_loc(Some(Loc { start, end })))
}

/// Two errors: in the order of texts, the place of the second comes first.
fn twice_unguarded(alloc: Global) -> Result<Template, AllocError> {
    let first = vip_at(alloc, 9, 22)?;
    let second = vip_at(alloc, 100, 113)?;
    permit_when(alloc, "", Expr::is_eq(alloc, second, first)?)
}

/// The report on this policy alone that is kept when the policy has gone.
fn keep(alloc: Global, policy: Template) -> Result<Vec<KeptReport>, SchemaError> {
    let policies = alone(alloc, policy, "")?;
    let extensions = ExtensionSchemas::default(alloc);
    let validator = Validator::new(documents(alloc)?, &extensions);
    let reports = validate_set(alloc, &validator, SoundMode::Strict, &policies)?;
    Ok(keep_all(alloc, reports)?)
}

fn keep_all(alloc: Global, reports: Vec<PolicyReport<'_>>) -> Result<Vec<KeptReport>, AllocError> {
    let mut kept = Vec::new(alloc);
    for report in reports {
        kept.push(report.keep()?)?;
    }
    Ok(kept)
}

#[test]
fn errors_are_typed_and_in_order_of_place(rt: HostRuntime) -> Result<(), Fail> {
    let alloc = rt.alloc();
    let kept = keep(alloc, twice_unguarded(alloc)?)?;
    assert_eq!(rt; kept.len(), 1);
    for report in &kept {
        is_twice_unguarded(&rt, report);
    }
    Ok(())
}

fn is_twice_unguarded(rt: &impl Abort, report: &KeptReport) {
    assert_eq!(rt; report.policy.text.as_str(), "policy0");
    assert_eq!(rt; report.effect, Effect::Permit);
    assert!(rt; !report.is_accepted);
    assert!(rt; !report.is_impossible);
    assert!(rt; report.warnings.is_empty());
    assert_eq!(rt; report.errors.len(), 2);
    let places = [(9, 22), (100, 113)];
    for (error, (start, end)) in report.errors.iter().zip(places) {
        assert_eq!(rt; error.place, Some(Loc { start, end }));
        assert_eq!(rt; error.message.as_str(), UNGUARDED);
        assert!(rt;
            matches!(
                &error.error,
                Some(ValidationError::UnsafeOptionalAttributeAccess(_))
            )
        );
        // one environment to view, and one to share
        assert_eq!(rt; error.environments.count, 2);
    }
}

/// Policies of these ids.
fn policies_with_ids(alloc: Global, ids: &[&str]) -> Result<Vec<WrittenPolicy>, AllocError> {
    let mut policies = Vec::new(alloc);
    for id in ids {
        add(alloc, &mut policies, id, unguarded(alloc)?, "")?;
    }
    Ok(policies)
}

/// Checks that these ids are shared in a set.
fn are_repeated(
    rt: &impl Abort,
    alloc: Global,
    ids: &[&str],
    wanted: &[&str],
) -> Result<(), AllocError> {
    let repeated = repeated_ids(alloc, &policies_with_ids(alloc, ids)?)?;
    assert_eq!(rt; repeated.len(), wanted.len());
    for (id, want) in repeated.iter().zip(wanted) {
        assert_eq!(rt; id.text.as_str(), *want);
    }
    Ok(())
}

#[test]
fn ids_that_are_shared_are_named(rt: HostRuntime) -> Result<(), Fail> {
    let alloc = rt.alloc();
    are_repeated(&rt, alloc, &["b", "a", "c"], &[])?;
    are_repeated(
        &rt,
        alloc,
        &["b", "a", "b", "a", "c", "b"],
        &["b", "a", "b"],
    )?;
    Ok(())
}

/// The level of a set whose policies have these templates.
fn level_of_set(
    alloc: Global,
    templates: Vec<Template>,
) -> Result<Option<EntityDerefLevel>, SchemaError> {
    let mut policies = Vec::new(alloc);
    for template in templates {
        add(alloc, &mut policies, "policy0", template, "")?;
    }
    let extensions = ExtensionSchemas::default(alloc);
    let validator = Validator::new(documents(alloc)?, &extensions);
    let reports = validate_for_slices(alloc, &validator, SoundMode::Strict, 0, &policies)?;
    Ok(level_of(&reports))
}

#[test]
fn a_set_has_the_greatest_level_of_its_policies(rt: HostRuntime) -> Result<(), Fail> {
    let alloc = rt.alloc();
    let none = level_of_set(alloc, Vec::new(alloc))?;
    assert_eq!(rt; none, Some(EntityDerefLevel { level: 0 }));
    let mut two = Vec::new(alloc);
    two.push(by_their_contact(alloc)?)?;
    two.push(by_its_contact(alloc)?)?;
    assert_eq!(rt;
        level_of_set(alloc, two)?,
        Some(EntityDerefLevel { level: 2 })
    );
    Ok(())
}
