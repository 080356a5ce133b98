// Environments in which a policy is safe.
use crate::embedding::policies::{
    approved_sharing, from_nowhere, from_range, of_either, unguarded,
};
use crate::embedding::schemas::documents;
use crate::extensions::cedar_functions;
use cedar_host::safety::{SoundMode, is_safe_in};
use cedar_typechecker::rbac::Validator;
use cedar_types::base::{ExtensionSchemas, SchemaError, Template, ValidationMode};
use std::alloc::{AllocError, Global};
use std::process::Abort;
use std::test::Fail;

/// The number of environments of the schema in which the policy is safe.
fn safe_environments(
    alloc: Global,
    validator: &Validator<'_>,
    mode: SoundMode,
    policy: &Template,
) -> Result<usize, AllocError> {
    let mut safe: usize = 0;
    for env in validator
        .schema()
        .unlinked_request_envs(ValidationMode::from(mode))
    {
        if is_safe_in(alloc, validator, mode, policy, &env)? {
            safe = safe.saturating_add(1);
        }
    }
    Ok(safe)
}

/// Checks the number of environments in which a policy is safe in Strict, and in Permissive, by the schema of documents.
fn is_safe_in_so_many(
    rt: &impl Abort,
    alloc: Global,
    extensions: &ExtensionSchemas,
    policy: &Template,
    wanted: [usize; 2],
) -> Result<(), SchemaError> {
    let validator = Validator::new(documents(alloc)?, extensions);
    let [in_strict, in_permissive] = wanted;
    let strict = safe_environments(alloc, &validator, SoundMode::Strict, policy)?;
    let permissive = safe_environments(alloc, &validator, SoundMode::Permissive, policy)?;
    assert_eq!(rt; strict, in_strict);
    assert_eq!(rt; permissive, in_permissive);
    Ok(())
}

/// Checks these numbers for a policy that calls no functions.
fn is_safe_without_calls(
    rt: &impl Abort,
    alloc: Global,
    policy: &Template,
    wanted: [usize; 2],
) -> Result<(), SchemaError> {
    let extensions = ExtensionSchemas::default(alloc);
    is_safe_in_so_many(rt, alloc, &extensions, policy, wanted)
}

#[test]
fn a_policy_is_safe_where_it_is_a_success(rt: HostRuntime) -> Result<(), Fail> {
    let alloc = rt.alloc();
    is_safe_without_calls(&rt, alloc, &approved_sharing(alloc)?, [1, 1])?;
    is_safe_without_calls(&rt, alloc, &unguarded(alloc)?, [0, 0])?;
    Ok(())
}

#[test]
fn types_unite_in_permissive_alone(rt: HostRuntime) -> Result<(), Fail> {
    let alloc = rt.alloc();
    Ok(is_safe_without_calls(&rt, alloc, &of_either(alloc)?, [0, 2])?)
}

/// Checks that a policy is safe if its check refuses nothing, and is not if the check refuses it.
fn calls_are_safe_in(
    rt: &impl Abort,
    alloc: Global,
    extensions: &ExtensionSchemas,
) -> Result<(), SchemaError> {
    is_safe_in_so_many(rt, alloc, extensions, &from_range(alloc)?, [2, 2])?;
    is_safe_in_so_many(rt, alloc, extensions, &from_nowhere(alloc)?, [0, 0])
}

#[test]
fn a_policy_that_calls_functions_is_safe(rt: HostRuntime) -> Result<(), Fail> {
    let alloc = rt.alloc();
    Ok(calls_are_safe_in(&rt, alloc, &cedar_functions(alloc)?)?)
}
