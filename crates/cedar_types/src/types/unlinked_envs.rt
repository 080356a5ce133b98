// The environments of a schema, before their slots are linked.
ghost use Rattle.std.specs.Prelude.{◌≡◌};
ghost use Rattle.std.specs.Iterator.{YieldsFirstBy, item_count};
ghost use Rattle.cedar_types.specs.Environments.{declared_env};
ghost use Rattle.cedar_types.specs.Schemas.Contents.{schema_of};
ghost use Rattle.cedar_types.specs.Environments.RequestEnvs.{env_of, unlinked, unlinked_envs, envs_left};

use crate::base::{UnlinkedRequestEnv, ValidationMode, ValidatorSchema};
use crate::types::request_env::RequestEnv;

impl UnlinkedRequestEnv {
    /// The environment, with no slot linked. It takes no memory.
    pub fn as_request_env(&self) -> RequestEnv<'_>
        ensures { env_of result ≡ unlinked (declared_env self.now) }
    {
        RequestEnv::DeclaredAction {
            principal: &self.principal,
            action: &self.action,
            resource: &self.resource,
            context: &self.context,
            principal_slot: None,
            resource_slot: None,
        }
    }
}

/// The environments of a schema, before their slots are linked.
#[derive(Drop)]
pub struct UnlinkedRequestEnvs<'a> {
    declared: &'a [UnlinkedRequestEnv],
    undeclared: bool,
}

impl<'a> Iterator for UnlinkedRequestEnvs<'a> {
    type Item = RequestEnv<'a>;

    ghost next_gives = { YieldsFirstBy env_of envs_left };

    ghost remaining = { item_count envs_left };

    #[tactic(auto, unfolding(crate::specs::Environments::RequestEnvs::envs_left))]
    fn next(&mut self) -> Option<RequestEnv<'a>> {
        if let Some((first, others)) = self.declared.split_first() {
            self.declared = others;
            return Some(first.as_request_env());
        }
        if self.undeclared {
            self.undeclared = false;
            return Some(RequestEnv::UndeclaredAction);
        }
        None
    }
}

impl ValidatorSchema {
    /// The environments of the schema: one for each declared action that is not external, each of
    /// its principal types and each of its resource types; in Partial the environment of undeclared
    /// actions too, once. The iterator takes no memory.
    pub fn unlinked_request_envs(&self, mode: ValidationMode) -> UnlinkedRequestEnvs<'_>
        ensures { envs_left result ≡ unlinked_envs (schema_of self.now) mode }
    {
        UnlinkedRequestEnvs {
            declared: &self.environments,
            undeclared: mode == ValidationMode::Partial,
        }
    }
}
