// Schemas: declarations without faults.
ghost use Rattle.std.specs.Prelude.{◌≡◌, true, false, map};
ghost use Rattle.cedar_types.specs.Schemas.{has_fault};
ghost use Rattle.cedar_types.specs.Schemas.Formed.{has_formed_types};
ghost use Rattle.cedar_types.specs.Schemas.Tables.{schema_in, actions_in};
ghost use Rattle.cedar_types.specs.Environments.{declared_env, environments_of};

pub(crate) mod actions;
mod attributes;
pub(crate) mod choices;
mod closures;
mod declared;
pub(crate) mod entity_types;
mod environments;
pub(crate) mod errors;
mod faults;
mod forms;
mod lookups;
pub(crate) mod memberships;
mod queries;
mod references;
pub(crate) mod request_environments;
mod slot_links;
mod tables;
mod tag_types;
mod type_faults;
mod type_tables;

use crate::base::schema::actions::ValidatorActionId;
use crate::base::schema::entity_types::ValidatorEntityType;
use crate::base::schema::environments::declared_environments;
use crate::base::schema::errors::SchemaError;
use crate::base::schema::faults::find_fault;
use crate::base::schema::forms::schemas_are_formed;
use crate::base::schema::references::EntityReferences;
use crate::base::schema::request_environments::UnlinkedRequestEnv;
use crate::base::schema::tables::{ActionTable, EntityTypeTable};
use std::alloc::Global;

/// A schema without faults: its declarations, the environments of its actions, and for each of its
/// types the set of this type alone.
#[derive(Debug, Drop)]
pub struct ValidatorSchema {
    pub(crate) types: EntityTypeTable,
    pub(crate) actions: ActionTable,
    pub(crate) environments: Vec<UnlinkedRequestEnv>,
    pub(crate) references: EntityReferences,
    pub ghost faultless: { has_fault (schema_in types actions) ≡ false },
    pub ghost formed: { has_formed_types (schema_in types actions) ≡ true },
    pub ghost listed: { ∥ map declared_env environments.items
        ≡ environments_of (actions_in actions) ∥₁ },
}

#[tactic(auto, unfolding(crate::specs::Schemas::Contents::schema_of))]
impl ValidatorSchema {
    ghost use Rattle.std.specs.Prelude.{◌⊎◌, [], IfOk, IfErr, Some, None, alloc_error};
    ghost use Rattle.cedar_types.specs.Schemas.{first_fault};
    ghost use Rattle.cedar_types.specs.Schemas.Declarations.{declared};
    ghost use Rattle.cedar_types.specs.Schemas.Contents.{schema_of};

    /// The schema of these declarations, or the first of their faults. If memory is refused, the
    /// answer is `SchemaError::Memory`, whatever faults there are.
    pub fn new(
        alloc: Global,
        entity_types: Vec<ValidatorEntityType>,
        actions: Vec<ValidatorActionId>,
    ) -> Result<ValidatorSchema, SchemaError>
        ensures made { IfOk result (λ s. schema_of s ≡ declared entity_types.items actions.items) }
        ensures faultless { IfOk result (λ s.
            first_fault (declared entity_types.items actions.items) ≡ None) }
        ensures refused { IfErr result (λ e. (e ≡ SchemaError.Memory alloc_error)
            ⊎ (first_fault (declared entity_types.items actions.items) ≡ Some e)) }
    {
        let Some(types) = EntityTypeTable::new(alloc, entity_types)? else {
            return Err(SchemaError::DuplicateEntityType);
        };
        let Some(actions) = ActionTable::new(alloc, actions)? else {
            return Err(SchemaError::DuplicateAction);
        };
        if let Some(fault) = find_fault(&types, &actions) {
            return Err(fault);
        }
        schemas_are_formed(&types, &actions);
        let environments = declared_environments(alloc, &actions)?;
        let references = EntityReferences::new(alloc, &types.declared, &actions.declared)?;
        Ok(ValidatorSchema {
            types,
            actions,
            environments,
            references,
        })
    }
}
