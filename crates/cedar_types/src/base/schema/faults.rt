// Faults of a schema's declarations, apart from names that are declared twice.
ghost use Rattle.std.specs.Prelude.{◌≡◌, not, option_map};
ghost use Rattle.std.specs.List.{list_all, list_any};
ghost use Rattle.cedar_types.specs.Names.{is_action_path, type_of};
ghost use Rattle.cedar_types.specs.Types.{ty_of};
ghost use Rattle.cedar_types.specs.Schemas.Declarations.{type_kind, applies, declared_type, uids_of};
ghost use Rattle.cedar_types.specs.Schemas.Tables.{types_in, actions_in, schema_in};
ghost use Rattle.cedar_types.specs.Schemas.{later_fault, knows_type, is_empty_enum, names_pass, tags_pass, kind_names_pass, type_is_known, application_is_known, declares_action, is_vague, kind_is_definite, application_is_definite};

use crate::base::schema::actions::ValidatorActionKind;
use crate::base::schema::closures::are_closed;
use crate::base::schema::entity_types::{ValidatorEntityType, ValidatorEntityTypeKind};
use crate::base::schema::errors::SchemaError;
use crate::base::schema::tables::{ActionTable, EntityTypeTable};
use crate::base::schema::type_faults::{
    attribute_names_known, has_vague_attribute, is_record_type, type_is_vague, type_names_known,
};
use crate::base::types::CedarType;

/// The first fault, apart from names that are declared twice.
pub(crate) fn find_fault(types: &EntityTypeTable, actions: &ActionTable) -> Option<SchemaError>
    ensures { result ≡ later_fault (schema_in types.now actions.now) }
{
    if has_action_type(types) {
        return Some(SchemaError::ActionTypeDeclared);
    }
    if !are_all_actions(actions) {
        return Some(SchemaError::NotAnActionType);
    }
    if has_empty_enum(types) {
        return Some(SchemaError::EmptyEnum);
    }
    if !(are_types_known(types) && are_applications_known(types, actions)) {
        return Some(SchemaError::UnknownType);
    }
    if !are_descendants_declared(actions) {
        return Some(SchemaError::UnknownActionDescendant);
    }
    if !(are_types_definite(types) && are_applications_definite(actions)) {
        return Some(SchemaError::VagueType);
    }
    if !(are_closed(types) && are_closed(actions)) {
        return Some(SchemaError::DescendantsNotClosed);
    }
    None
}

/// Whether a type has the name of an action's type.
fn has_action_type(types: &EntityTypeTable) -> bool
    ensures { result ≡ list_any (λ t. is_action_path (type_of t.name)) types.now.declared.items }
{
    types.declared.iter().any(|t| t.name.is_action())
}

/// Whether each action's id is of an action's type.
fn are_all_actions(actions: &ActionTable) -> bool
    ensures { result
        ≡ list_all (λ a. is_action_path (type_of a.name.entity_type)) actions.now.declared.items }
{
    actions
        .declared
        .iter()
        .all(|a| a.name.entity_type.is_action())
}

/// Whether an enumerated type has no members.
fn has_empty_enum(types: &EntityTypeTable) -> bool
    ensures { result ≡ list_any (λ t. is_empty_enum (type_kind t.kind)) types.now.declared.items }
{
    types.declared.iter().any(|t| has_no_members(&t.kind))
}

fn has_no_members(kind: &ValidatorEntityTypeKind) -> bool
    ensures { result ≡ is_empty_enum (type_kind kind.now) }
{
    match kind {
        ValidatorEntityTypeKind::Standard(_) => false,
        ValidatorEntityTypeKind::Enum(members) => members.listed.len() == 0,
        ValidatorEntityTypeKind::External => false,
    }
}

/// Whether each type that a type's declaration names is known.
fn are_types_known(types: &EntityTypeTable) -> bool
    ensures { result ≡ list_all (λ t. type_is_known (types_in types.now) (declared_type t))
        types.now.declared.items }
{
    types.declared.iter().all(|t| is_type_known(types, t))
}

fn is_type_known(types: &EntityTypeTable, t: &ValidatorEntityType) -> bool
    ensures { result ≡ type_is_known (types_in types.now) (declared_type t.now) }
{
    types.all_known(&t.descendants) && is_kind_known(types, &t.kind)
}

fn is_kind_known(types: &EntityTypeTable, kind: &ValidatorEntityTypeKind) -> bool
    ensures { result ≡ kind_names_pass (knows_type (types_in types.now)) (type_kind kind.now) }
{
    match kind {
        ValidatorEntityTypeKind::Standard(standard) => {
            attribute_names_known(types, &standard.attributes)
                && are_tags_known(types, &standard.tags)
        }
        ValidatorEntityTypeKind::Enum(_) => true,
        ValidatorEntityTypeKind::External => true,
    }
}

fn are_tags_known(types: &EntityTypeTable, tags: &Option<CedarType>) -> bool
    ensures { result
        ≡ tags_pass (names_pass (knows_type (types_in types.now))) (option_map ty_of tags.now) }
{
    match tags {
        Some(t) => type_names_known(types, t),
        None => true,
    }
}

/// Whether each type that an action's declaration names is known.
fn are_applications_known(types: &EntityTypeTable, actions: &ActionTable) -> bool
    ensures { result ≡ list_all (λ a. application_is_known (types_in types.now) (applies a.kind))
        actions.now.declared.items }
{
    actions
        .declared
        .iter()
        .all(|a| is_application_known(types, &a.kind))
}

fn is_application_known(types: &EntityTypeTable, kind: &ValidatorActionKind) -> bool
    ensures { result ≡ application_is_known (types_in types.now) (applies kind.now) }
{
    match kind {
        ValidatorActionKind::Defined(applies_to) => {
            types.all_known(&applies_to.principal_apply_spec)
                && types.all_known(&applies_to.resource_apply_spec)
                && type_names_known(types, &applies_to.context)
        }
        ValidatorActionKind::External => true,
    }
}

/// Whether each descendant of an action is declared.
fn are_descendants_declared(actions: &ActionTable) -> bool
    ensures { result ≡ list_all (λ a. list_all (declares_action (actions_in actions.now))
        (uids_of a.descendants)) actions.now.declared.items }
{
    actions
        .declared
        .iter()
        .all(|a| actions.all_declared(&a.descendants))
}

/// Whether no type's attributes and tags say too little.
fn are_types_definite(types: &EntityTypeTable) -> bool
    ensures { result
        ≡ list_all (λ t. kind_is_definite (type_kind t.kind)) types.now.declared.items }
{
    types.declared.iter().all(|t| is_kind_definite(&t.kind))
}

fn is_kind_definite(kind: &ValidatorEntityTypeKind) -> bool
    ensures { result ≡ kind_is_definite (type_kind kind.now) }
{
    match kind {
        ValidatorEntityTypeKind::Standard(standard) => {
            !has_vague_attribute(&standard.attributes) && are_tags_definite(&standard.tags)
        }
        ValidatorEntityTypeKind::Enum(_) => true,
        ValidatorEntityTypeKind::External => true,
    }
}

fn are_tags_definite(tags: &Option<CedarType>) -> bool
    ensures { result ≡ tags_pass (λ t. not (is_vague t)) (option_map ty_of tags.now) }
{
    match tags {
        Some(t) => !type_is_vague(t),
        None => true,
    }
}

/// Whether each action's context is a record that says enough.
fn are_applications_definite(actions: &ActionTable) -> bool
    ensures { result
        ≡ list_all (λ a. application_is_definite (applies a.kind)) actions.now.declared.items }
{
    actions
        .declared
        .iter()
        .all(|a| is_application_definite(&a.kind))
}

fn is_application_definite(kind: &ValidatorActionKind) -> bool
    ensures { result ≡ application_is_definite (applies kind.now) }
{
    match kind {
        ValidatorActionKind::Defined(applies_to) => {
            is_record_type(&applies_to.context) && !type_is_vague(&applies_to.context)
        }
        ValidatorActionKind::External => true,
    }
}
