// The checker of one policy in one environment.
ghost use Rattle.std.specs.Prelude.{◌≡◌, IfOk};
ghost use Rattle.cedar_typing.specs.Views.ExpressionChecks.{setting_by};
ghost use Rattle.cedar_typing.specs.Views.Settings.{setting_at};

use crate::typecheck::type_env::TypeEnv;
use crate::typecheck::typechecker::Typechecker;
use crate::typecheck::variable_types::VariableTypes;
use cedar_types::base::{ArgumentCheck, ExtensionSchemas, PolicyID};
use cedar_types::types::request_env::RequestEnv;
use std::alloc::{AllocError, Global};

/// Types the expressions of one policy in one environment, parts before the whole.
#[derive(Drop)]
pub(crate) struct SingleEnvTypechecker<'s, 'r, 'e, 'p, C> {
    pub env: TypeEnv<'s, 'r, 'e, 'p>,
    pub extensions: &'s ExtensionSchemas<C>,
}

impl<'a, C: ArgumentCheck> Typechecker<'a, C> {
    /// The checker of the policy of this id in this environment.
    pub(crate) fn in_environment<'r, 'e, 'p>(
        &self,
        alloc: Global,
        policy_id: &'p PolicyID,
        request_env: &'r RequestEnv<'e>,
    ) -> Result<SingleEnvTypechecker<'a, 'r, 'e, 'p, C>, AllocError>
        ensures { IfOk result (λ c.
            setting_at C.refusal c
            ≡ setting_by C.refusal self.now policy_id.now request_env.now) }
    {
        let variables = VariableTypes::of_environment(alloc, self.schema, request_env)?;
        Ok(SingleEnvTypechecker {
            env: TypeEnv {
                alloc,
                schema: self.schema,
                mode: self.mode,
                request_env,
                variables,
                overloaded_types: self.extensions.overloaded_types(),
                policy_id,
            },
            extensions: self.extensions,
        })
    }
}
