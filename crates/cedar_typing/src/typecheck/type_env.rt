// The type environment: the setting of a judgment without the extension functions.
ghost use Rattle.cedar_types.specs.Environments.RequestEnvs.{env_of};
ghost use Rattle.cedar_typing.specs.Setting.VariableTypes.{HasPrincipal, HasResource, HasContext};

use crate::typecheck::variable_types::VariableTypes;
use cedar_types::base::{Name, PolicyID, ValidationMode, ValidatorSchema};
use cedar_types::types::request_env::RequestEnv;
use std::alloc::Global;
use std::collections::BTreeSet;

/// The type environment in which an expression is typed. The tables of all forms but calls are its
/// methods, because only calls depend on the extension functions.
#[derive(Drop)]
pub(crate) struct TypeEnv<'s, 'r, 'e, 'p> {
    pub alloc: Global,
    pub schema: &'s ValidatorSchema,
    pub mode: ValidationMode,
    pub request_env: &'r RequestEnv<'e>,
    /// The types of `principal`, `resource` and `context` in this environment.
    pub variables: VariableTypes,
    pub overloaded_types: &'s BTreeSet<Name>,
    pub policy_id: &'p PolicyID,
    pub ghost principal: { HasPrincipal (env_of request_env.now) variables },
    pub ghost resource: { HasResource (env_of request_env.now) variables },
    pub ghost context: { HasContext (env_of request_env.now) variables },
}
