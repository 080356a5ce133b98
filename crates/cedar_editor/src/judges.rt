//! Judges of policies: reading alone, or a schema with settings.
ghost use Rattle.std.specs.Prelude.{◌≡◌};

use cedar_typechecker::rbac::Validator;
use cedar_types::base::{ArgumentCheck, ExtensionSchemas, ValidationMode};
use cedar_verdicts::settings::Settings;
use std::rc::Rc;

/// A schema that its documents share, with the mode and the level by which policies are judged.
#[derive(Drop)]
pub struct SharedSettings<'e, C> {
    pub validator: Rc<Validator<'e, C>>,
    pub mode: ValidationMode,
    pub level: Option<u32>,
}

impl<'e, C> SharedSettings<'e, C> {
    /// The settings for one verdict: this schema, mode and level.
    pub fn settings(&self) -> Settings<'_, C>
        ensures validator { result.validator.now ≡ self.now.validator.value }
        ensures mode { result.mode ≡ self.now.mode }
        ensures level { result.level ≡ self.now.level }
    {
        Settings {
            validator: &*self.validator,
            mode: self.mode,
            level: self.level,
            syntax: None,
        }
    }
}

/// The judge of policies: reading alone if there is no schema, else these settings.
#[derive(Drop)]
pub enum Judge<'e, C> {
    Reading(&'e ExtensionSchemas<C>),
    Settings(SharedSettings<'e, C>),
}

impl<'e, C> Judge<'e, C> {
    /// The settings of the judge, if it has some.
    pub fn settings(&self) -> Option<Settings<'_, C>> {
        match self {
            Judge::Reading(_) => None,
            Judge::Settings(shared) => Some(shared.settings()),
        }
    }
}

impl<C: ArgumentCheck> Judge<'_, C> {
    /// The extension functions that policies may call.
    pub fn functions(&self) -> &ExtensionSchemas<C> {
        match self {
            Judge::Reading(functions) => functions,
            Judge::Settings(shared) => shared.validator.extensions(),
        }
    }
}
