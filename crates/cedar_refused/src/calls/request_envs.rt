// Questions about environments.
use crate::calls::lines::{Probe, Trial};
use crate::outcomes::{Outcome, finish};
use crate::refusals::refuse;
use crate::samples::texts::policy;
use cedar_typechecker::survey::Environments;
use cedar_types::base::ValidationMode;
use cedar_types::types::request_env::RequestEnv;
use std::alloc::{AllocError, Global};

/// Questions about an environment.
#[derive(Clone, Copy)]
pub enum OfEnvironment {
    RequestType,
    LinkSlots,
    Principal,
    Action,
    Resource,
    Context,
    /// `Environments::add`, to none.
    Added,
}

/// The environment, and the question about it.
#[derive(Clone, Copy)]
pub enum Asked {
    /// The environment of a declared action.
    OfDeclared(OfEnvironment),
    /// The environment of undeclared actions.
    OfUndeclared(OfEnvironment),
}

/// A policy with both slots bound.
const BOUND: &str =
    r#"User::"a", Photo::"b" = permit(principal == ?principal, action, resource == ?resource);"#;

impl OfEnvironment {
    /// Asks the question about an environment.
    fn ask<'a>(
        self,
        alloc: Global,
        trial: Trial<'a>,
        env: RequestEnv<'a>,
    ) -> Result<Outcome, AllocError> {
        let schema = trial.validator.schema();
        let bound = policy(alloc, BOUND)?;
        let slots = &bound.values;
        refuse(alloc, trial.number);
        match self {
            OfEnvironment::RequestType => finish(alloc, env.to_request_type(alloc), &env),
            OfEnvironment::LinkSlots => finish(alloc, env.link_slot_env(alloc, slots), slots),
            OfEnvironment::Principal => finish(alloc, env.principal_type(alloc), &env),
            OfEnvironment::Action => finish(alloc, env.action_type(alloc, schema), &env),
            OfEnvironment::Resource => finish(alloc, env.resource_type(alloc), &env),
            OfEnvironment::Context => finish(alloc, env.context_type(alloc), &env),
            OfEnvironment::Added => finish(alloc, alone(alloc, &env), &env),
        }
    }
}

/// An environment alone, counted and listed.
fn alone(alloc: Global, env: &RequestEnv<'_>) -> Result<Environments, AllocError> {
    let mut environments = Environments::none(alloc);
    environments.add(alloc, env)?;
    Ok(environments)
}

impl Probe for Asked {
    fn run(self, alloc: Global, trial: Trial<'_>) -> Result<Outcome, AllocError> {
        let schema = trial.validator.schema();
        match self {
            Asked::OfUndeclared(asked) => asked.ask(alloc, trial, RequestEnv::UndeclaredAction),
            Asked::OfDeclared(asked) => {
                match schema.unlinked_request_envs(ValidationMode::Partial).next() {
                    Some(env) => asked.ask(alloc, trial, env),
                    None => Err(AllocError),
                }
            }
        }
    }
}

/// Questions about environments.
pub const ENVIRONMENTS: [(Asked, &str); 14] = [
    (
        Asked::OfDeclared(OfEnvironment::Principal),
        "RequestEnv::principal_type | User",
    ),
    (
        Asked::OfDeclared(OfEnvironment::Action),
        "- RequestEnv::action_type | Action",
    ),
    (
        Asked::OfDeclared(OfEnvironment::Resource),
        "RequestEnv::resource_type | Photo",
    ),
    (
        Asked::OfDeclared(OfEnvironment::RequestType),
        "- RequestEnv::to_request_type | Photo",
    ),
    (
        Asked::OfDeclared(OfEnvironment::LinkSlots),
        "- RequestEnv::link_slot_env | principal_slot: Some",
    ),
    (
        Asked::OfDeclared(OfEnvironment::Context),
        "- RequestEnv::context_type | is_public",
    ),
    (
        Asked::OfUndeclared(OfEnvironment::Context),
        "RequestEnv::context_type, undeclared | Open",
    ),
    (
        Asked::OfUndeclared(OfEnvironment::RequestType),
        "- RequestEnv::to_request_type, undeclared | None",
    ),
    (
        Asked::OfUndeclared(OfEnvironment::LinkSlots),
        "- RequestEnv::link_slot_env, undeclared | UndeclaredAction",
    ),
    (
        Asked::OfUndeclared(OfEnvironment::Principal),
        "- RequestEnv::principal_type, undeclared | AnyEntity",
    ),
    (
        Asked::OfUndeclared(OfEnvironment::Action),
        "- RequestEnv::action_type, undeclared | AnyEntity",
    ),
    (
        Asked::OfUndeclared(OfEnvironment::Resource),
        "- RequestEnv::resource_type, undeclared | AnyEntity",
    ),
    (
        Asked::OfDeclared(OfEnvironment::Added),
        "Environments::add | count: 1",
    ),
    (
        Asked::OfUndeclared(OfEnvironment::Added),
        "Environments::add, undeclared | request: None",
    ),
];
