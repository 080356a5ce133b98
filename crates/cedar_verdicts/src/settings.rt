//! Settings by which policies are judged.
use cedar_findings::syntaxes::Syntax;
use cedar_typechecker::rbac::Validator;
use cedar_types::base::{ArgumentCheck, ValidationMode};

/// The schema and the extension functions by which policies are judged, the mode, and the level, if one is asked for.
#[derive(Drop)]
pub struct Settings<'a, C = Box<dyn ArgumentCheck>> {
    pub validator: &'a Validator<'a, C>,
    pub mode: ValidationMode,
    pub level: Option<u32>,
    /// The syntax of all texts; `None` if their first characters tell it.
    pub syntax: Option<Syntax>,
}
