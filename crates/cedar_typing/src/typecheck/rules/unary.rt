// The rules of `!` and of `is`. Negation, `isEmpty` and `like` always have one type.
ghost use Rattle.std.specs.Prelude.{◌≡◌, option_map};
ghost use Rattle.cedar_types.specs.Names.{type_of};
ghost use Rattle.cedar_types.specs.Types.{ty_of, lub_of};
ghost use Rattle.cedar_typing.specs.Rules.Unary.{not_decides, not_type, is_type_of, is_decides};
ghost use Rattle.cedar_typing.specs.Views.{decision_of};

use crate::typecheck::capabilities::no_capabilities;
use crate::typecheck::rules::eager::{Decision, gives};
use crate::typecheck::type_tests::{any_bool, is_false_type, is_true_type};
use cedar_types::base::{BoolType, CedarType, EntityKind, EntityLUB, EntityType};
use std::alloc::Global;

/// The decision on `!` by the type of its operand. It produces no capabilities, because `!e` is
/// true where `e` is false.
pub(crate) fn decide_not<'a>(alloc: Global, found: &Option<CedarType>) -> Decision<'a>
    ensures { decision_of result ≡ not_decides (option_map ty_of found.now) }
{
    let ty = match found {
        Some(found) => not_type_of(found),
        None => any_bool(),
    };
    Decision::Gives(ty, no_capabilities(alloc))
}

fn not_type_of(found: &CedarType) -> CedarType
    ensures { ty_of result ≡ not_type (ty_of found.now) }
{
    if is_true_type(found) {
        return CedarType::Bool(BoolType::False);
    }
    if is_false_type(found) {
        return CedarType::Bool(BoolType::True);
    }
    CedarType::Bool(BoolType::AnyBool)
}

/// The decision on `is` by the type of its operand: False if the entity type is none of the
/// operand's, True if it is the only one, otherwise Bool. An operand of type Never makes it fail,
/// without an error, because the original takes it for an operand that has its error already.
pub(crate) fn decide_is<'a>(
    alloc: Global,
    entity_type: &EntityType,
    found: &Option<CedarType>,
) -> Decision<'a>
    ensures { decision_of result
        ≡ is_decides (type_of entity_type.now) (option_map ty_of found.now) }
{
    match found {
        Some(CedarType::Never) => Decision::Refuses(Some(any_bool()), Vec::new(alloc)),
        Some(CedarType::Entity(EntityKind::Entity(types))) => {
            gives(alloc, is_type_among(entity_type, types))
        }
        Some(CedarType::Entity(EntityKind::AnyEntity)) | None => gives(alloc, any_bool()),
        Some(CedarType::Bool(_) | CedarType::Long | CedarType::String) => gives(alloc, any_bool()),
        Some(CedarType::Set(_)) => gives(alloc, any_bool()),
        Some(CedarType::AnySet | CedarType::Record { .. }) => gives(alloc, any_bool()),
        Some(CedarType::Extension(_)) => gives(alloc, any_bool()),
    }
}

fn is_type_among(entity_type: &EntityType, types: &EntityLUB) -> CedarType
    ensures { ty_of result ≡ is_type_of (type_of entity_type.now) (lub_of types.now) }
{
    if !types.contains_entity_type(entity_type) {
        CedarType::Bool(BoolType::False)
    } else if types.get_single_entity().is_some() {
        CedarType::Bool(BoolType::True)
    } else {
        any_bool()
    }
}
