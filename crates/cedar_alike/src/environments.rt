// The types of variables and slots in two environments.
ghost use Rattle.std.specs.Prelude.{◌≡◌, ◌↔◌, IsTrue, true, option_map};
ghost use Rattle.cedar_types.specs.Environments.RequestEnvs.{env_of};
ghost use Rattle.cedar_types.specs.Names.{type_of, uid_of};
ghost use Rattle.cedar_types.specs.Types.{ty_of, attributes_of, TRecord, no_attrs};
ghost use Rattle.cedar_alike.specs.Flags.{context_in, context_or_any};
ghost use Rattle.cedar_alike.specs.Reads.{SameVariable, SameSlot};

use cedar_types::base::type_laws::equal_types;
use cedar_types::base::{Attributes, CedarType, EntityType, EntityUID, OpenTag, SlotId, Var};
use cedar_types::types::request_env::RequestEnv;

/// Whether the variable is the same in both environments.
pub(crate) fn same_variable(var: Var, one: &RequestEnv<'_>, other: &RequestEnv<'_>) -> bool
    ensures { IsTrue result ↔ SameVariable (env_of one.now) (env_of other.now) var }
{
    match var {
        Var::Principal => same_type(one.principal_entity_type(), other.principal_entity_type()),
        Var::Action => same_action(one.action_entity_uid(), other.action_entity_uid()),
        Var::Resource => same_type(one.resource_entity_type(), other.resource_entity_type()),
        Var::Context => same_context(declared_context(one), declared_context(other)),
    }
}

/// Whether the slot has one type in both environments.
pub(crate) fn same_slot(slot: SlotId, one: &RequestEnv<'_>, other: &RequestEnv<'_>) -> bool
    ensures { IsTrue result ↔ SameSlot (env_of one.now) (env_of other.now) slot }
{
    match slot {
        SlotId::Principal => same_type(one.principal_slot(), other.principal_slot()),
        SlotId::Resource => same_type(one.resource_slot(), other.resource_slot()),
    }
}

/// Whether both are one type, or none.
fn same_type(one: Option<&EntityType>, other: Option<&EntityType>) -> bool
    ensures { IsTrue result ↔
        (option_map (λ t. type_of t.now) one.entry ≡ option_map (λ t. type_of t.now) other.entry) }
{
    match (one, other) {
        (Some(one), Some(other)) => *one == *other,
        (None, None) => true,
        _ => false,
    }
}

/// Whether both are one action, or none.
fn same_action(one: Option<&EntityUID>, other: Option<&EntityUID>) -> bool
    ensures { IsTrue result ↔
        (option_map (λ u. uid_of u.now) one.entry ≡ option_map (λ u. uid_of u.now) other.entry) }
{
    match (one, other) {
        (Some(action), Some(other)) => *action == *other,
        (None, None) => true,
        _ => false,
    }
}

/// The type of the context, if the action is declared.
fn declared_context<'a>(env: &RequestEnv<'a>) -> Option<&'a CedarType>
    ensures { result ≡ context_in env.now }
{
    match env {
        RequestEnv::DeclaredAction { context, .. } => Some(context),
        RequestEnv::UndeclaredAction => None,
    }
}

/// Whether both are one type of a context. None is that of an undeclared action, any record.
fn same_context(one: Option<&CedarType>, other: Option<&CedarType>) -> bool
    ensures { IsTrue result ↔ (context_or_any one.entry ≡ context_or_any other.entry) }
{
    match (one, other) {
        (Some(one), Some(other)) => equal_types(one, other),
        (Some(one), None) => is_any_record(one),
        (None, Some(other)) => is_any_record(other),
        (None, None) => true,
    }
}

/// Whether the type is that of all records.
fn is_any_record(ty: &CedarType) -> bool
    ensures { IsTrue result ↔ (ty_of ty.now ≡ TRecord no_attrs true) }
{
    match ty {
        CedarType::Record {
            attributes,
            is_open: OpenTag::OpenAttributes,
        } => names_none(attributes),
        CedarType::Record {
            is_open: OpenTag::ClosedAttributes,
            ..
        } => false,
        CedarType::Never | CedarType::Bool(_) | CedarType::Long | CedarType::String => false,
        CedarType::Set(_) | CedarType::AnySet => false,
        CedarType::Entity(_) | CedarType::Extension(_) => false,
    }
}

/// Whether a record's type names no attribute.
fn names_none(attributes: &Attributes) -> bool
    ensures { IsTrue result ↔ (attributes_of attributes.now ≡ no_attrs) }
{
    attributes.attrs.is_empty()
}
