// Decisions of the forms whose operands are all typed before a table decides.
ghost use Rattle.std.specs.Prelude.{◌≡◌, [], ◌∷◌, ◌++◌, IfOk, option_map};
ghost use Rattle.cedar_types.specs.Errors.{finding_of};
ghost use Rattle.cedar_types.specs.Types.{ty_of};
ghost use Rattle.cedar_typing.specs.Capabilities.{no_caps};
ghost use Rattle.cedar_typing.specs.Eager.{gives, refuses, gives_unless};
ghost use Rattle.cedar_typing.specs.Views.{decision_of, findings};

use crate::typecheck::capabilities::no_capabilities;
use cedar_types::base::{CedarType, ValidationError};
use cedar_types::types::capability::CapabilitySet;
use std::alloc::{AllocError, Global};

/// The decision of a form's table on the whole, by the types of its operands.
#[derive(Drop)]
pub(crate) enum Decision<'a> {
    /// The whole has this type, and produces these capabilities.
    Gives(CedarType, CapabilitySet<'a>),
    /// The whole fails: the type that it keeps, if any, and its errors.
    Refuses(Option<CedarType>, Vec<ValidationError>),
}

/// The decision that the whole has this type, without capabilities. It takes no memory.
pub(crate) fn gives<'a>(alloc: Global, ty: CedarType) -> Decision<'a>
    ensures { decision_of result ≡ gives (ty_of ty) no_caps }
{
    Decision::Gives(ty, no_capabilities(alloc))
}

/// The decision that the whole has this type, or fails with these errors if there are any. A
/// failure keeps the type.
pub(crate) fn gives_unless<'a>(
    alloc: Global,
    errors: Vec<ValidationError>,
    ty: CedarType,
) -> Decision<'a>
    ensures { decision_of result ≡ gives_unless (findings errors.items) (ty_of ty) }
{
    if errors.is_empty() {
        return gives(alloc, ty);
    }
    Decision::Refuses(Some(ty), errors)
}

/// The decision that the whole fails with this error, and keeps this type, if there is one.
pub(crate) fn refuses_with<'a>(
    alloc: Global,
    ty: Option<CedarType>,
    error: ValidationError,
) -> Result<Decision<'a>, AllocError>
    ensures { IfOk result (λ d.
        decision_of d ≡ refuses (option_map ty_of ty) (finding_of error ∷ [])) }
{
    let mut errors = Vec::new(alloc);
    errors.push(error)?;
    Ok(Decision::Refuses(ty, errors))
}

/// Adds these errors to those found so far.
pub(crate) fn add_errors(
    errors: &mut Vec<ValidationError>,
    more: Vec<ValidationError>,
) -> Result<(), AllocError>
    ensures { IfOk result (λ r.
        findings errors.new.items
        ≡ findings errors.old.items ++ findings more.items) }
{
    for error in more {
        errors.push(error)?;
    }
    Ok(())
}
