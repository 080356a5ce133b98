// Faults of types in a schema: unknown entity types, and types that say too little.
ghost use Rattle.std.specs.Prelude.{◌≡◌};
ghost use Rattle.cedar_types.specs.Types.{ty_of, attributes_of, kind_of};
ghost use Rattle.cedar_types.specs.Schemas.Tables.{types_in};
ghost use Rattle.cedar_types.specs.Schemas.{knows_type, names_pass, attr_names_pass, is_vague, are_vague, is_vague_bool, is_record};

use crate::base::schema::tables::EntityTypeTable;
use crate::base::types::{Attributes, BoolType, CedarType, EntityKind, OpenTag};

/// Whether each entity type that a type names, at any depth, is known.
#[cycle(names)]
pub(crate) fn type_names_known(types: &EntityTypeTable, t: &CedarType) -> bool
    ensures { result ≡ names_pass (knows_type (types_in types.now)) (ty_of t.now) }
{
    match t {
        CedarType::Never => true,
        CedarType::Bool(_) => true,
        CedarType::Long => true,
        CedarType::String => true,
        CedarType::Set(element) => type_names_known(types, element),
        CedarType::AnySet => true,
        CedarType::Record {
            attributes,
            is_open: _open,
        } => attribute_names_known(types, attributes),
        CedarType::Entity(kind) => kind_names_known(types, kind),
        CedarType::Extension(_) => true,
    }
}

/// Whether each entity type that a record's attributes name, at any depth, is known.
#[cycle(names)]
pub(crate) fn attribute_names_known(types: &EntityTypeTable, attributes: &Attributes) -> bool
    ensures { result
        ≡ attr_names_pass (knows_type (types_in types.now)) (attributes_of attributes.now) }
{
    for (_name, attribute) in attributes.attrs.iter() {
        if !type_names_known(types, &attribute.attr_type) {
            return false;
        }
    }
    true
}

fn kind_names_known(types: &EntityTypeTable, kind: &EntityKind) -> bool
    ensures { result ≡ names_pass (knows_type (types_in types.now)) (kind_of kind.now) }
{
    match kind {
        EntityKind::Entity(lub) => types.all_known(&lub.lub_elements),
        EntityKind::AnyEntity => true,
    }
}

/// Whether a type says too little, at any depth, for example an open record.
#[cycle(vague)]
pub(crate) fn type_is_vague(t: &CedarType) -> bool
    ensures { result ≡ is_vague (ty_of t.now) }
{
    match t {
        CedarType::Never => true,
        CedarType::Bool(kind) => bool_is_vague(*kind),
        CedarType::Long => false,
        CedarType::String => false,
        CedarType::Set(element) => type_is_vague(element),
        CedarType::AnySet => true,
        CedarType::Record {
            attributes,
            is_open: OpenTag::OpenAttributes,
        } => true,
        CedarType::Record {
            attributes,
            is_open: OpenTag::ClosedAttributes,
        } => has_vague_attribute(attributes),
        CedarType::Entity(kind) => kind_is_vague(kind),
        CedarType::Extension(_) => false,
    }
}

/// Whether an attribute's type says too little.
#[cycle(vague)]
pub(crate) fn has_vague_attribute(attributes: &Attributes) -> bool
    ensures { result ≡ are_vague (attributes_of attributes.now) }
{
    for (_name, attribute) in attributes.attrs.iter() {
        if type_is_vague(&attribute.attr_type) {
            return true;
        }
    }
    false
}

fn bool_is_vague(kind: BoolType) -> bool
    ensures { result ≡ is_vague_bool kind }
{
    match kind {
        BoolType::AnyBool => false,
        BoolType::True => true,
        BoolType::False => true,
    }
}

#[tactic(auto, unfolding(crate::specs::Types::lub_of))]
fn kind_is_vague(kind: &EntityKind) -> bool
    ensures { result ≡ is_vague (kind_of kind.now) }
{
    match kind {
        EntityKind::Entity(lub) => lub.lub_elements.len() > 1,
        EntityKind::AnyEntity => true,
    }
}

/// Whether a type is a record's.
pub(crate) fn is_record_type(t: &CedarType) -> bool
    ensures { result ≡ is_record (ty_of t.now) }
{
    match t {
        CedarType::Record { .. } => true,
        CedarType::Entity(kind) => is_record_kind(kind),
        CedarType::Never | CedarType::Bool(_) | CedarType::Long | CedarType::String => false,
        CedarType::Set(_) | CedarType::AnySet | CedarType::Extension(_) => false,
    }
}

fn is_record_kind(kind: &EntityKind) -> bool
    ensures { result ≡ is_record (kind_of kind.now) }
{
    match kind {
        EntityKind::Entity(_) => false,
        EntityKind::AnyEntity => false,
    }
}
