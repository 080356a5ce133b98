// Schemas: the check for external declarations.
ghost use Rattle.std.specs.Prelude.{◌≡◌, not, IfOk};
ghost use Rattle.std.specs.List.{list_any};
ghost use Rattle.std.specs.Option.{is_some};
ghost use Rattle.cedar_types.specs.Schemas.Contents.{schema_of};
ghost use Rattle.cedar_types.specs.Schemas.Declarations.{declared_type, declared_action};
ghost use Rattle.cedar_types.specs.Schemas.{DeclaredType, DeclaredAction, is_external_kind};
ghost use Rattle.cedar_typing.specs.Evaluation.Conformance.{has_external};

use cedar_types::base::{
    ValidatorActionId, ValidatorEntityType, ValidatorEntityTypeKind, ValidatorSchema,
};
use std::alloc::{AllocError, Global};

/// Returns whether a type or an action of the schema is external: it is declared elsewhere, so that
/// its other properties are unknown. If memory is refused, the answer is an `AllocError`.
pub fn has_external(alloc: Global, schema: &ValidatorSchema) -> Result<bool, AllocError>
    ensures { IfOk result (λ b. b ≡ has_external (schema_of schema.now)) }
{
    let has_type = has_external_type(alloc, schema)?;
    if has_type {
        return Ok(true);
    }
    has_external_action(alloc, schema)
}

fn has_external_type(alloc: Global, schema: &ValidatorSchema) -> Result<bool, AllocError>
    ensures { IfOk result (λ b. b ≡ list_any (λ (t : DeclaredType). is_external_kind t.kind)
        (schema_of schema.now).types) }
{
    let types = schema.entity_types(alloc)?;
    Ok(types.iter().any(|declared| is_external_type(declared)))
}

fn is_external_type(entity_type: &ValidatorEntityType) -> bool
    ensures { result ≡ is_external_kind (declared_type entity_type.now).kind }
{
    match &entity_type.kind {
        ValidatorEntityTypeKind::Standard(_) => false,
        ValidatorEntityTypeKind::Enum(_) => false,
        ValidatorEntityTypeKind::External => true,
    }
}

fn has_external_action(alloc: Global, schema: &ValidatorSchema) -> Result<bool, AllocError>
    ensures { IfOk result (λ b. b ≡ list_any (λ (a : DeclaredAction). not (is_some a.applies_to))
        (schema_of schema.now).actions) }
{
    let actions = schema.action_ids(alloc)?;
    Ok(actions.iter().any(|action| is_external_action(action)))
}

fn is_external_action(action: &ValidatorActionId) -> bool
    ensures { result ≡ not (is_some (declared_action action.now).applies_to) }
{
    match action.defined() {
        Some(_applies_to) => false,
        None => true,
    }
}
