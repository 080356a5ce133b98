// The environments in which the errors of a policy occur.
ghost use Rattle.std.specs.Prelude.{◌≡◌, List, [], ◌∷◌, ◌++◌, option_map, IfOk, OnOk, OnErr};
ghost use Rattle.std.specs.BTreeMap.{get};
ghost use Rattle.cedar_types.specs.Environments.RequestEnvs.{Env, env_of};
ghost use Rattle.cedar_types.specs.ErrorOrder.{error_cmp};
ghost use Rattle.cedar_types.specs.Errors.{finding_of};
ghost use Rattle.cedar_types.specs.Names.{type_of};
ghost use Rattle.cedar_typechecker.specs.Levels.Views.{findings};
ghost use Rattle.cedar_typechecker.specs.SurveyedErrors.{about, about_env, IsListing, AddsEnvironment};

use crate::survey::demands::insert_all;
use cedar_types::base::{EntityType, RequestType, ValidationError};
use cedar_types::types::request_env::RequestEnv;
use std::alloc::{AllocError, Global};
use std::collections::{BTreeMap, BTreeSet};

/// The most environments that are listed for each error: few, so that a survey does not grow with the environments, and a
/// reader sees them all.
pub const MAX_ENVIRONMENTS_LISTED: usize = 5;

/// An environment of a policy: its types, its action and the links of its slots.
#[derive(Debug, Drop)]
pub struct Environment {
    /// The types and the action of its requests; `None` in the environment of undeclared actions.
    pub request: Option<RequestType>,
    /// The type that `?principal` is linked to, if it is linked.
    pub principal_slot: Option<EntityType>,
    /// The type that `?resource` is linked to, if it is linked.
    pub resource_slot: Option<EntityType>,
}

/// The environments in which an error occurs: their number, and the first of them.
#[derive(Debug, Drop)]
pub struct Environments {
    /// Their number. The greatest number of 64 bits stands for itself and for all greater ones.
    pub count: u64,
    /// The first `MAX_ENVIRONMENTS_LISTED`, or all of fewer.
    pub listed: Vec<Environment>,
}

impl Environment {
    fn of(alloc: Global, env: &RequestEnv<'_>) -> Result<Environment, AllocError>
        ensures { IfOk result (λ e. about e ≡ about_env (env_of env.now)) }
    {
        let request = env.to_request_type(alloc)?;
        let principal_slot = copy(env.principal_slot())?;
        let resource_slot = copy(env.resource_slot())?;
        Ok(Environment {
            request,
            principal_slot,
            resource_slot,
        })
    }
}

/// A copy of a type, if there is one.
pub(crate) fn copy(ty: Option<&EntityType>) -> Result<Option<EntityType>, AllocError>
    ensures { IfOk result (λ c.
        option_map type_of c ≡ option_map (λ t. type_of t.now) ty.entry) }
{
    match ty {
        Some(ty) => Ok(Some(ty.clone()?)),
        None => Ok(None),
    }
}

impl Environments {
    /// No environment.
    pub fn none(alloc: Global) -> Environments
        ensures { IsListing [] result }
    {
        Environments {
            count: 0,
            listed: Vec::new(alloc),
        }
    }

    /// Adds an environment behind the others: it is counted, and it is listed if fewer than `MAX_ENVIRONMENTS_LISTED` are. An
    /// environment that is added twice counts twice.
    ///
    /// If memory is refused, the answer is an `AllocError`, and nothing is added (clause `kept`). If so many are listed already,
    /// the call takes no memory.
    pub fn add(&mut self, alloc: Global, env: &RequestEnv<'_>) -> Result<(), AllocError>
        ensures added { OnOk result ((own : List Env) → IsListing own self.old
            → IsListing (own ++ env_of env.now ∷ []) self.new) }
        ensures kept { OnErr result ((own : List Env) → IsListing own self.old
            → IsListing own self.new) }
    {
        if self.listed.len() < MAX_ENVIRONMENTS_LISTED {
            self.listed.push(Environment::of(alloc, env)?)?;
        }
        self.count = self.count.saturating_add(1);
        Ok(())
    }
}

/// Takes note that these errors occur in an environment.
pub(crate) fn add_errors(
    all: &mut BTreeMap<ValidationError, Environments>,
    alloc: Global,
    env: &RequestEnv<'_>,
    errors: Vec<ValidationError>,
) -> Result<(), AllocError>
    ensures { OnOk result ((x : ValidationError)
        → AddsEnvironment (env_of env.now) (findings errors.items) (finding_of x)
        (get error_cmp all.old x) (get error_cmp all.new x)) }
{
    let mut own = BTreeSet::new(alloc);
    insert_all(&mut own, errors)?;
    for error in own {
        add_error(all, alloc, env, error)?;
    }
    Ok(())
}

/// Takes note that this error occurs in one environment more.
fn add_error(
    all: &mut BTreeMap<ValidationError, Environments>,
    alloc: Global,
    env: &RequestEnv<'_>,
    error: ValidationError,
) -> Result<(), AllocError>
    ensures { OnOk result ((x : ValidationError)
        → AddsEnvironment (env_of env.now) (finding_of error ∷ []) (finding_of x)
        (get error_cmp all.old x) (get error_cmp all.new x)) }
{
    let found = all.remove(&error);
    let mut environments = found.unwrap_or(Environments::none(alloc));
    environments.add(alloc, env)?;
    all.insert(error, environments)?;
    Ok(())
}
