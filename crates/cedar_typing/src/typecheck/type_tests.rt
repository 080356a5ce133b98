// Tests of types.
ghost use Rattle.std.specs.Prelude.{◌≡◌, Some, option_map};
ghost use Rattle.cedar_types.specs.Types.{ty_of, lub_of, TBool};
ghost use Rattle.cedar_types.specs.Types.Bounds.{is_never, ty_eq};
ghost use Rattle.cedar_types.specs.declared.base.types.BoolType.TheVariants.{AnyBool};
ghost use Rattle.cedar_typing.specs.Rules.Chains.{is_object};
ghost use Rattle.cedar_typing.specs.Rules.Membership.{types_of_entity};
ghost use Rattle.cedar_typing.specs.TypeTests.{is_false, is_true, is_any_bool, is_record, annotation_passes};
ghost use Rattle.cedar_typing.specs.TypedExpr.{typed_tree, annotation};

use cedar_types::base::{BoolType, CedarType, EntityKind, EntityLUB, Expr};

/// Whether two types are equal.
pub(crate) fn is_same_type(one: &CedarType, other: &CedarType) -> bool
    ensures { result ≡ ty_eq (ty_of one.now) (ty_of other.now) }
{
    *one == *other
}

/// The type of both truth values.
pub(crate) fn any_bool() -> CedarType
    ensures { ty_of result ≡ TBool AnyBool }
{
    CedarType::Bool(BoolType::AnyBool)
}

/// Whether the type is this type of truth values. The test makes no type to compare with, because
/// typing asks it at each level.
fn is_bool_type(ty: &CedarType, truth: BoolType) -> bool
    ensures { result ≡ ty_eq (ty_of ty.now) (TBool truth) }
{
    match ty {
        CedarType::Bool(own) => *own == truth,
        CedarType::Never | CedarType::Long | CedarType::String | CedarType::Set(_) => false,
        CedarType::AnySet | CedarType::Record { .. } => false,
        CedarType::Entity(_) | CedarType::Extension(_) => false,
    }
}

/// Whether the type is False.
pub(crate) fn is_false_type(ty: &CedarType) -> bool
    ensures { result ≡ is_false (ty_of ty.now) }
{
    is_bool_type(ty, BoolType::False)
}

/// Whether the type is True.
pub(crate) fn is_true_type(ty: &CedarType) -> bool
    ensures { result ≡ is_true (ty_of ty.now) }
{
    is_bool_type(ty, BoolType::True)
}

/// Whether the type is Bool, neither True nor False.
pub(crate) fn is_any_bool_type(ty: &CedarType) -> bool
    ensures { result ≡ is_any_bool (ty_of ty.now) }
{
    is_bool_type(ty, BoolType::AnyBool)
}

/// Whether the type is Never.
pub(crate) fn is_never_type(ty: &CedarType) -> bool
    ensures { result ≡ is_never (ty_of ty.now) }
{
    matches!(ty, CedarType::Never)
}

/// Whether the type is a record's.
pub(crate) fn is_record_type(ty: &CedarType) -> bool
    ensures { result ≡ is_record (ty_of ty.now) }
{
    match ty {
        CedarType::Record { .. } => true,
        CedarType::Never | CedarType::Bool(_) | CedarType::Long | CedarType::String => false,
        CedarType::Set(_) | CedarType::AnySet => false,
        CedarType::Entity(_) | CedarType::Extension(_) => false,
    }
}

/// Whether the typed expression has the type False at its root.
#[tactic(auto, using(crate::proofs::Views::Typed::annotation_is))]
pub(crate) fn is_typed_false(typed: &Expr<Option<CedarType>>) -> bool
    ensures { result ≡ annotation_passes is_false (annotation (typed_tree typed.now)) }
{
    match &typed.annotation {
        Some(ty) => is_false_type(ty),
        None => false,
    }
}

/// Whether the typed expression has the type True at its root.
#[tactic(auto, using(crate::proofs::Views::Typed::annotation_is))]
pub(crate) fn is_typed_true(typed: &Expr<Option<CedarType>>) -> bool
    ensures { result ≡ annotation_passes is_true (annotation (typed_tree typed.now)) }
{
    match &typed.annotation {
        Some(ty) => is_true_type(ty),
        None => false,
    }
}

/// Whether a type is a record's or an entity's. Never is neither.
pub(crate) fn is_object_type(ty: &CedarType) -> bool
    ensures { result ≡ is_object (ty_of ty.now) }
{
    match ty {
        CedarType::Record { .. } | CedarType::Entity(_) => true,
        CedarType::Never | CedarType::Bool(_) | CedarType::Long | CedarType::String => false,
        CedarType::Set(_) | CedarType::AnySet | CedarType::Extension(_) => false,
    }
}

/// The entity types that a type names; `None` for any entity and for a type that is no entity's.
pub(crate) fn named_types(ty: &CedarType) -> Option<&EntityLUB>
    ensures { option_map (λ s. lub_of s.now) result ≡ types_of_entity (Some (ty_of ty.now)) }
{
    match ty {
        CedarType::Entity(EntityKind::Entity(types)) => Some(types),
        CedarType::Entity(EntityKind::AnyEntity) | CedarType::Never => None,
        CedarType::Bool(_) | CedarType::Long | CedarType::String => None,
        CedarType::Set(_) | CedarType::AnySet => None,
        CedarType::Record { .. } | CedarType::Extension(_) => None,
    }
}
