// The bases of accesses, by their types.
ghost use Rattle.std.specs.Prelude.{◌≡◌};
ghost use Rattle.cedar_types.specs.Types.{ty_of};
ghost use Rattle.cedar_typing.specs.TypedExpr.{typed_tree, annotation};
ghost use Rattle.cedar_typechecker.specs.Levels.Chains.{base_of, base_of_type};
ghost use Rattle.cedar_typechecker.specs.Levels.Shared.{is_constant, is_constant_type};
ghost use Rattle.cedar_typechecker.specs.Levels.Views.{base_seen};

use cedar_types::base::{BoolType, CedarType, EntityKind, Expr};

/// The kind of an access's base, by the type that was found.
#[derive(Clone, Copy, Debug)]
pub(crate) enum Base {
    /// An entity whose types are known.
    Entity,
    /// A record.
    Record,
    /// Anything else, the type any entity included, because the schema does not tell its attributes.
    Other,
}

/// The kind of a base of this type.
pub(crate) fn base_of_type(ty: &CedarType) -> Base
    ensures { base_seen result ≡ base_of_type (ty_of ty.now) }
{
    match ty {
        CedarType::Record {
            attributes: _attributes,
            is_open: _open,
        } => Base::Record,
        CedarType::Entity(EntityKind::Entity(_)) => Base::Entity,
        CedarType::Entity(EntityKind::AnyEntity) => Base::Other,
        CedarType::Never => Base::Other,
        CedarType::Bool(_) => Base::Other,
        CedarType::Long => Base::Other,
        CedarType::String => Base::Other,
        CedarType::Set(_) => Base::Other,
        CedarType::AnySet => Base::Other,
        CedarType::Extension(_) => Base::Other,
    }
}

/// The kind of an expression as a base. Without a type it is neither an entity nor a record.
#[tactic(auto, using(crate::proofs::Levels::TypedViews::annotation_is))]
pub(crate) fn base_of(e: &Expr<Option<CedarType>>) -> Base
    ensures { base_seen result ≡ base_of (annotation (typed_tree e.now)) }
{
    match &e.annotation {
        Some(ty) => base_of_type(ty),
        None => Base::Other,
    }
}

/// Whether the type is True or False.
fn is_constant_type(ty: &CedarType) -> bool
    ensures { result ≡ is_constant_type (ty_of ty.now) }
{
    match ty {
        CedarType::Bool(BoolType::False) => true,
        CedarType::Bool(BoolType::True) => true,
        CedarType::Bool(BoolType::AnyBool) => false,
        CedarType::Never => false,
        CedarType::Long => false,
        CedarType::String => false,
        CedarType::Set(_) => false,
        CedarType::AnySet => false,
        CedarType::Record {
            attributes: _attributes,
            is_open: _open,
        } => false,
        CedarType::Entity(_) => false,
        CedarType::Extension(_) => false,
    }
}

/// Whether a test has the type True or False. Then both branches of its `if` are one shared tree.
#[tactic(auto, using(crate::proofs::Levels::TypedViews::annotation_is))]
pub(crate) fn is_constant(test: &Expr<Option<CedarType>>) -> bool
    ensures { result ≡ is_constant (annotation (typed_tree test.now)) }
{
    match &test.annotation {
        Some(ty) => is_constant_type(ty),
        None => false,
    }
}
