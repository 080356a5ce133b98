//! Modes of a host, and the promise of a check in each.
ghost use Rattle.std.specs.Prelude.{◌≡◌, true, IfOk};
ghost use Rattle.cedar_types.specs.Environments.RequestEnvs.{env_of};
ghost use Rattle.cedar_types.specs.Templates.{template_of};
ghost use Rattle.cedar_typing.specs.Views.Checks.{basis_of};
ghost use Rattle.cedar_host.specs.Safety.{sound_basis, IsSafeToEvaluate, IsSuccessWhere};

use cedar_typechecker::rbac::Validator;
use cedar_types::base::{ArgumentCheck, Template, ValidationMode};
use cedar_types::types::request_env::RequestEnv;
use cedar_typing::typecheck::{PolicyCheck, Typechecker};
use std::alloc::{AllocError, Global};

/// A mode in which validation makes a promise about evaluation. Partial is left out, because it promises nothing.
#[derive(Clone, Copy, PartialEq, Eq, Debug)]
pub enum SoundMode {
    /// Types that meet, for example in the branches of an `if`, must agree.
    Strict,
    /// Entity types that meet unite, and records that meet keep the attributes that they share.
    Permissive,
}

impl From<SoundMode> for ValidationMode {
    ghost use Rattle.std.specs.Prelude.{◌≡◌};
    ghost use Rattle.cedar_host.specs.Safety.{validation_mode};

    ghost from_gives = { λ mode m. m ≡ validation_mode mode };

    fn from(mode: SoundMode) -> ValidationMode {
        match mode {
            SoundMode::Strict => ValidationMode::Strict,
            SoundMode::Permissive => ValidationMode::Permissive,
        }
    }
}

/// The typechecker by a validator's schema and functions, in this mode.
pub(crate) fn typechecker_in<'a, C: ArgumentCheck>(
    validator: &'a Validator<'_, C>,
    mode: SoundMode,
) -> Typechecker<'a, C>
    ensures { basis_of C.refusal result ≡ sound_basis mode C.refusal validator.now }
{
    let schema = validator.schema();
    let extensions = validator.extensions();
    Typechecker::new(schema, extensions, ValidationMode::from(mode))
}

/// Whether the check of a policy in this environment of the schema is a success (clause `exact`). If it is, evaluation on
/// conforming data does not go wrong (clause `safe`). If memory is refused, the answer is an `AllocError`.
pub fn is_safe_in<C: ArgumentCheck>(
    alloc: Global,
    validator: &Validator<'_, C>,
    mode: SoundMode,
    policy: &Template,
    env: &RequestEnv<'_>,
) -> Result<bool, AllocError>
    ensures safe { IfOk result (λ safe. safe ≡ true
        → IsSafeToEvaluate (sound_basis mode C.refusal validator.now)
        (template_of policy.now) (env_of env.now)) }
    ensures exact { IfOk result (IsSuccessWhere (sound_basis mode C.refusal validator.now)
        (template_of policy.now) (env_of env.now)) }
{
    let typechecker = typechecker_in(validator, mode);
    let check = typechecker.typecheck_by_single_request_env(alloc, policy, env)?;
    match check {
        PolicyCheck::Success(_typed) => Ok(true),
        PolicyCheck::Irrelevant(_errors, _typed) => Ok(false),
        PolicyCheck::Fail(_errors) => Ok(false),
    }
}
