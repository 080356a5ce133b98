// Well-formed types of every schema: walks that prove it, and do nothing else.
ghost use Rattle.std.specs.Prelude.{◌≡◌, true, map};
ghost use Rattle.std.specs.List.{list_all};
ghost use Rattle.cedar_types.specs.Schemas.Declarations.{type_kind, applies, declared_type, declared_action};
ghost use Rattle.cedar_types.specs.Schemas.Formed.{kind_is_formed, application_is_formed, has_formed_types};
ghost use Rattle.cedar_types.specs.Schemas.Tables.{schema_in};

use crate::base::schema::actions::{ValidatorActionId, ValidatorActionKind};
use crate::base::schema::entity_types::{ValidatorEntityType, ValidatorEntityTypeKind};
use crate::base::schema::tables::{ActionTable, EntityTypeTable};
use crate::base::type_laws::{attributes_are_well_formed, types_are_well_formed};

/// Each attribute, tag and context of a schema has a well-formed type.
pub(crate) fn schemas_are_formed(types: &EntityTypeTable, actions: &ActionTable)
    ensures { has_formed_types (schema_in types.now actions.now) ≡ true }
{
    types_are_formed(&types.declared);
    actions_are_formed(&actions.declared);
}

fn types_are_formed(types: &[ValidatorEntityType])
    ensures { list_all (λ t. kind_is_formed t.kind) (map declared_type types.now) ≡ true }
{
    for entity_type in types {
        kinds_are_formed(&entity_type.kind);
    }
}

fn kinds_are_formed(kind: &ValidatorEntityTypeKind)
    ensures { kind_is_formed (type_kind kind.now) ≡ true }
{
    match kind {
        ValidatorEntityTypeKind::Standard(standard) => {
            attributes_are_well_formed(&standard.attributes);
            match &standard.tags {
                Some(t) => types_are_well_formed(t),
                None => (),
            }
        }
        ValidatorEntityTypeKind::Enum(_) => (),
        ValidatorEntityTypeKind::External => (),
    }
}

fn actions_are_formed(actions: &[ValidatorActionId])
    ensures { list_all (λ a. application_is_formed a.applies_to) (map declared_action actions.now)
        ≡ true }
{
    for action in actions {
        applications_are_formed(&action.kind);
    }
}

fn applications_are_formed(kind: &ValidatorActionKind)
    ensures { application_is_formed (applies kind.now) ≡ true }
{
    match kind {
        ValidatorActionKind::Defined(applies_to) => types_are_well_formed(&applies_to.context),
        ValidatorActionKind::External => (),
    }
}
