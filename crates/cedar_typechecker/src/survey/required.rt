// The required level of a policy: the least that is enough.
ghost use Rattle.std.specs.Prelude.{◌≡◌, option_map, IfOk};
ghost use Rattle.cedar_types.specs.Templates.{template_of};
ghost use Rattle.cedar_typechecker.specs.Levels.Required.{IsRequiredLevel};
ghost use Rattle.cedar_typechecker.specs.ValidatorViews.{basis_in};

use crate::rbac::Validator;
use cedar_types::base::{ArgumentCheck, EntityDerefLevel, Template, ValidationMode};
use std::alloc::{AllocError, Global};

impl<C: ArgumentCheck> Validator<'_, C> {
    /// The least level from 0 to 4294967295 at which a policy has no level error, in a mode: the number of entities that must be
    /// loaded one after another. `None` if no level is enough, for example because the policy dereferences an entity literal or a
    /// slot.
    ///
    /// If the answer is n, `validate_policy_with_level` finds no level error at n or above, and finds one below
    /// (`laws::required_levels`). Environments whose check fails are left out, because they have no typed condition: a policy that
    /// fails in each requires 0. If you ask more of a policy than this, survey it once (`survey`) and take all from the survey.
    /// Where memory is refused, the answer is an `AllocError`, and nothing has changed.
    pub fn required_level(
        &self,
        alloc: Global,
        p: &Template,
        mode: ValidationMode,
    ) -> Result<Option<EntityDerefLevel>, AllocError>
        ensures { IfOk result (λ r.
            IsRequiredLevel (basis_in C.refusal self.now mode) (template_of p.now)
            (option_map (λ l. l.level) r)) }
    {
        let survey = self.survey(alloc, p, mode)?;
        Ok(survey.required_level())
    }
}
