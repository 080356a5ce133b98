// Bounds of types that look at no part of a type, and tests of types and modes.
ghost use Rattle.std.specs.Prelude.{◌≡◌, IfOk, option_map};
ghost use Rattle.cedar_types.specs.Types.{ty_of, lub_of};
ghost use Rattle.cedar_types.specs.Types.Bounds.{ty_eq, is_never as is_never_type, is_strict as is_strict_mode, bool_lub, any_set_lub, entity_lub, any_entity_lub};

use crate::base::types::entity_sets::EntityLUB;
use crate::base::types::{BoolType, CedarType, EntityKind, ValidationMode};
use std::alloc::{AllocError, Global};

/// Whether two types are equal.
pub(crate) fn is_same(ty0: &CedarType, ty1: &CedarType) -> bool
    ensures { result ≡ ty_eq (ty_of ty0.now) (ty_of ty1.now) }
{
    *ty0 == *ty1
}

/// Whether a type is Never.
pub(crate) fn is_never(ty: &CedarType) -> bool
    ensures { result ≡ is_never_type (ty_of ty.now) }
{
    match ty {
        CedarType::Never => true,
        _ => false,
    }
}

/// Whether a mode is Strict.
pub(crate) fn is_strict(mode: ValidationMode) -> bool
    ensures { result ≡ is_strict_mode mode }
{
    match mode {
        ValidationMode::Strict => true,
        ValidationMode::Permissive | ValidationMode::Partial => false,
    }
}

/// The bound of a kind of Bool with a type that differs from it and is not Never.
pub(crate) fn bool_bound(ty: &CedarType) -> Option<CedarType>
    ensures { option_map ty_of result ≡ bool_lub (ty_of ty.now) }
{
    match ty {
        CedarType::Bool(_) => Some(CedarType::Bool(BoolType::AnyBool)),
        CedarType::Never | CedarType::Entity(_) => None,
        CedarType::Long | CedarType::String | CedarType::Extension(_) => None,
        CedarType::Set(_) | CedarType::AnySet | CedarType::Record { .. } => None,
    }
}

/// The bound of the set of anything with a type that differs from it and is not Never.
pub(crate) fn any_set_bound(ty: &CedarType) -> Option<CedarType>
    ensures { option_map ty_of result ≡ any_set_lub (ty_of ty.now) }
{
    match ty {
        CedarType::Set(_) => Some(CedarType::AnySet),
        CedarType::Never | CedarType::Bool(_) => None,
        CedarType::Long | CedarType::String | CedarType::Extension(_) => None,
        CedarType::AnySet | CedarType::Record { .. } | CedarType::Entity(_) => None,
    }
}

/// The bound of any entity with a type that differs from it and is not Never.
pub(crate) fn any_entity_bound(ty: &CedarType) -> Option<CedarType>
    ensures { option_map ty_of result ≡ any_entity_lub (ty_of ty.now) }
{
    match ty {
        CedarType::Entity(EntityKind::Entity(_)) => Some(CedarType::Entity(EntityKind::AnyEntity)),
        CedarType::Entity(EntityKind::AnyEntity) | CedarType::Never | CedarType::Bool(_) => None,
        CedarType::Long | CedarType::String | CedarType::Extension(_) => None,
        CedarType::Set(_) | CedarType::AnySet | CedarType::Record { .. } => None,
    }
}

/// The bound of some entity types with a type that differs from them and is not Never.
pub(crate) fn entity_bound(
    alloc: Global,
    xs: &EntityLUB,
    ty: &CedarType,
    mode: ValidationMode,
) -> Result<Option<CedarType>, AllocError>
    ensures { IfOk result (λ o.
        option_map ty_of o ≡ entity_lub mode (lub_of xs.now) (ty_of ty.now)) }
{
    match ty {
        CedarType::Entity(EntityKind::AnyEntity) => {
            Ok(Some(CedarType::Entity(EntityKind::AnyEntity)))
        }
        CedarType::Entity(EntityKind::Entity(ys)) => {
            if is_strict(mode) {
                return Ok(None);
            }
            let all = xs.least_upper_bound(alloc, ys)?;
            Ok(Some(CedarType::Entity(EntityKind::Entity(all))))
        }
        CedarType::Never | CedarType::Bool(_) => Ok(None),
        CedarType::Long | CedarType::String | CedarType::Extension(_) => Ok(None),
        CedarType::Set(_) | CedarType::AnySet | CedarType::Record { .. } => Ok(None),
    }
}
