// Bounds that Strict requires of two types.
ghost use Rattle.std.specs.Prelude.{◌≡◌, [], ◌∷◌, IfOk, option_map};
ghost use Rattle.cedar_types.specs.Types.{ty_of};
ghost use Rattle.cedar_types.specs.Types.Order.{in_order};
ghost use Rattle.cedar_types.specs.Types.Bounds.{is_strict, lub};
ghost use Rattle.cedar_types.specs.Errors.{finding_of, incompatible_types};
ghost use Rattle.cedar_typing.specs.TypeTests.Joins.{bound_errors, strict_errors};
ghost use Rattle.cedar_typing.specs.TypeEnv.{finding};
ghost use Rattle.cedar_typing.specs.Views.{env_at, findings};

use crate::typecheck::type_env::TypeEnv;
use cedar_types::base::{
    CedarType, Loc, LubContext, ValidationError, ValidationMode, types_in_order,
};
use std::alloc::AllocError;

impl TypeEnv<'_, '_, '_, '_> {
    /// The error at `loc` if Strict finds no bound of two types. A missing type adds none, because its
    /// expression has failed already.
    pub(crate) fn strict_errors(
        &self,
        loc: Option<Loc>,
        context: LubContext,
        one: Option<&CedarType>,
        other: Option<&CedarType>,
    ) -> Result<Vec<ValidationError>, AllocError>
        ensures { IfOk result (λ v.
            findings v.items
            ≡ strict_errors (env_at self.now) loc context
            (option_map (λ t. ty_of t.now) one.entry) (option_map (λ t. ty_of t.now) other.entry)) }
    {
        if !self.is_strict() {
            return Ok(Vec::new(self.alloc));
        }
        let Some(one) = one else {
            return Ok(Vec::new(self.alloc));
        };
        let Some(other) = other else {
            return Ok(Vec::new(self.alloc));
        };
        self.bound_errors(loc, context, one, other)
    }

    /// The error of two types that have no bound in the mode.
    fn bound_errors(
        &self,
        loc: Option<Loc>,
        context: LubContext,
        one: &CedarType,
        other: &CedarType,
    ) -> Result<Vec<ValidationError>, AllocError>
        ensures { IfOk result (λ v.
            findings v.items
            ≡ bound_errors (env_at self.now) loc context (ty_of one.now) (ty_of other.now)
            (lub (env_at self.now).mode (ty_of one.now) (ty_of other.now))) }
    {
        let mut errors = Vec::new(self.alloc);
        let bound = CedarType::least_upper_bound(self.alloc, one, other, self.mode)?;
        match bound {
            Some(ty) => {
                // only the existence of the bound counts, not the bound
                drop(ty);
                Ok(errors)
            }
            None => {
                errors.push(self.incompatible(loc, context, one, other)?)?;
                Ok(errors)
            }
        }
    }

    /// The error that two types have no bound. It names them in ascending order, and their context.
    pub(crate) fn incompatible(
        &self,
        loc: Option<Loc>,
        context: LubContext,
        one: &CedarType,
        other: &CedarType,
    ) -> Result<ValidationError, AllocError>
        ensures { IfOk result (λ e.
            finding_of e
            ≡ finding (env_at self.now) loc
            (incompatible_types (in_order (ty_of one.now ∷ ty_of other.now ∷ [])) context)) }
    {
        let policy_id = self.policy_id.clone()?;
        let mut types = Vec::new(self.alloc);
        types.push(CedarType::clone(one)?)?;
        types.push(CedarType::clone(other)?)?;
        let types = types_in_order(self.alloc, types)?;
        Ok(ValidationError::incompatible_types(loc, policy_id, types, context))
    }

    /// Whether the mode is Strict, in which types that meet must agree.
    pub(crate) fn is_strict(&self) -> bool
        ensures { result ≡ is_strict (env_at self.now).mode }
    {
        match self.mode {
            ValidationMode::Strict => true,
            ValidationMode::Permissive => false,
            ValidationMode::Partial => false,
        }
    }
}
