// The types of the variables in one environment.
ghost use Rattle.std.specs.Prelude.{◌≡◌, IfOk, option_map};
ghost use Rattle.cedar_types.specs.Environments.RequestEnvs.{env_of};
ghost use Rattle.cedar_types.specs.Names.{type_of};
ghost use Rattle.cedar_types.specs.Types.{ty_of};
ghost use Rattle.cedar_typing.specs.Rules.Leaves.{linked_ty};
ghost use Rattle.cedar_typing.specs.Setting.VariableTypes.{HasPrincipal, HasResource, HasContext};

use cedar_types::base::{CedarType, EntityType, ValidatorSchema};
use cedar_types::types::request_env::RequestEnv;
use std::alloc::{AllocError, Global};

/// The types of three variables in one environment. They are made once, because each occurrence of a variable then gets a copy
/// that shares its content and takes no memory. The type of `action` is asked where the variable stands, because few policies
/// have it more than once, and a schema of many actions takes as long to find it as typing takes for a policy without a condition.
#[derive(Drop)]
pub(crate) struct VariableTypes {
    pub principal: CedarType,
    pub resource: CedarType,
    pub context: CedarType,
}

impl VariableTypes {
    /// The types of the variables in this request environment.
    #[tactic(auto, using(crate::proofs::TypeTests::VariableTypes::kept, crate::proofs::TypeTests::VariableTypes::kept_principal, crate::proofs::TypeTests::VariableTypes::kept_resource))]
    pub(crate) fn of_environment(
        alloc: Global,
        schema: &ValidatorSchema,
        request_env: &RequestEnv<'_>,
    ) -> Result<VariableTypes, AllocError>
        ensures principal { IfOk result (HasPrincipal (env_of request_env.now)) }
        ensures resource { IfOk result (HasResource (env_of request_env.now)) }
        ensures context { IfOk result (HasContext (env_of request_env.now)) }
    {
        Ok(VariableTypes {
            principal: type_of_entities(alloc, schema, request_env.principal_entity_type())?,
            resource: type_of_entities(alloc, schema, request_env.resource_entity_type())?,
            context: request_env.context_type(alloc)?,
        })
    }
}

/// The type of the entities of this entity type, or of any entity if none is known. If the schema declares the entity type,
/// the type is the schema's, and takes no memory.
pub(crate) fn type_of_entities(
    alloc: Global,
    schema: &ValidatorSchema,
    known: Option<&EntityType>,
) -> Result<CedarType, AllocError>
    ensures { IfOk result (λ t.
        ty_of t
        ≡ linked_ty (option_map (λ p. type_of p.now) known.entry)) }
{
    match known {
        Some(entity_type) => CedarType::entity_reference(alloc, entity_type, schema),
        None => Ok(CedarType::any_entity_reference()),
    }
}
