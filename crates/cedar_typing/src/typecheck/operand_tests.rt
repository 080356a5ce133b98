// Tests of the types that operands may have.
ghost use Rattle.std.specs.Prelude.{◌≡◌};
ghost use Rattle.cedar_types.specs.Types.{ty_of};
ghost use Rattle.cedar_typing.specs.TypeTests.{accepts, bool_types, long_types, string_types, set_types, entity_types, ancestor_types, object_types};

use cedar_types::base::CedarType;

/// Whether an operand of this type is accepted where a Boolean is required.
pub(crate) fn is_bool_operand(ty: &CedarType) -> bool
    ensures { result ≡ accepts bool_types (ty_of ty.now) }
{
    match ty {
        CedarType::Never | CedarType::Bool(_) => true,
        CedarType::Long | CedarType::String | CedarType::Extension(_) => false,
        CedarType::Set(_) | CedarType::AnySet => false,
        CedarType::Record { .. } | CedarType::Entity(_) => false,
    }
}

/// Whether an operand of this type is accepted where a Long is required.
pub(crate) fn is_long_operand(ty: &CedarType) -> bool
    ensures { result ≡ accepts long_types (ty_of ty.now) }
{
    matches!(ty, CedarType::Never | CedarType::Long)
}

/// Whether an operand of this type is accepted where a text is required.
pub(crate) fn is_string_operand(ty: &CedarType) -> bool
    ensures { result ≡ accepts string_types (ty_of ty.now) }
{
    matches!(ty, CedarType::Never | CedarType::String)
}

/// Whether an operand of this type is accepted where a set is required.
pub(crate) fn is_set_operand(ty: &CedarType) -> bool
    ensures { result ≡ accepts set_types (ty_of ty.now) }
{
    match ty {
        CedarType::Never | CedarType::Set(_) | CedarType::AnySet => true,
        CedarType::Bool(_) | CedarType::Long | CedarType::String => false,
        CedarType::Record { .. } | CedarType::Entity(_) | CedarType::Extension(_) => false,
    }
}

/// Whether an operand of this type is accepted where an entity is required.
pub(crate) fn is_entity_operand(ty: &CedarType) -> bool
    ensures { result ≡ accepts entity_types (ty_of ty.now) }
{
    match ty {
        CedarType::Never | CedarType::Entity(_) => true,
        CedarType::Bool(_) | CedarType::Long | CedarType::String => false,
        CedarType::Set(_) | CedarType::AnySet => false,
        CedarType::Record { .. } | CedarType::Extension(_) => false,
    }
}

/// Whether an operand of this type is accepted where an entity or a set of entities is required.
pub(crate) fn is_ancestor_operand(ty: &CedarType) -> bool
    ensures { result ≡ accepts ancestor_types (ty_of ty.now) }
{
    match ty {
        CedarType::Set(element) => is_entity_operand(element),
        _ => is_entity_operand(ty),
    }
}

/// Whether an operand of this type is accepted where a record or an entity is required.
pub(crate) fn is_object_operand(ty: &CedarType) -> bool
    ensures { result ≡ accepts object_types (ty_of ty.now) }
{
    match ty {
        CedarType::Record { .. } => true,
        CedarType::Never | CedarType::Entity(_) => true,
        CedarType::Bool(_) | CedarType::Long | CedarType::String => false,
        CedarType::Set(_) | CedarType::AnySet | CedarType::Extension(_) => false,
    }
}
