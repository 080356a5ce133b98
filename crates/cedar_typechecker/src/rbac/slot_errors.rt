// The pass over the slots of a policy: entities of unknown types to which slots are bound.
ghost use Rattle.std.specs.Prelude.{◌≡◌, false, [], ◌∷◌, None, IfOk, IsPermutation, MatchOption};
ghost use Rattle.std.specs.BTreeMap.{values};
ghost use Rattle.cedar_types.specs.Errors.{finding_of, unrecognized_entity_type};
ghost use Rattle.cedar_types.specs.FallibleIterators.{YieldsOrEnds, calls_left};
ghost use Rattle.cedar_types.specs.Names.{text_of, type_of};
ghost use Rattle.cedar_types.specs.Schemas.Contents.{schema_of};
ghost use Rattle.cedar_typechecker.specs.SlotTypes.{unknown_slot_types, slot_errors_to_come, slot_errors_left, slot_errors_are_over};
ghost use Rattle.cedar_typechecker.specs.ValidatorViews.{schema_in};

use crate::rbac::validator::Validator;
use cedar_types::base::{
    ArgumentCheck, EntityUID, PolicyID, SlotEnv, SlotId, ValidationError, ValidatorSchema,
};
use std::alloc::{AllocError, Global};
use std::collections::btree_map::Values;

/// The errors of the pass over slots, as an iterator: one for each slot that is bound to an entity of an unknown type, in
/// any order. They have no place, because bindings have no text.
///
/// Where memory is refused, an item is an `AllocError`, and there is none after it.
#[derive(Drop)]
pub struct SlotTypeErrors<'b> {
    pub(crate) schema: &'b ValidatorSchema,
    pub(crate) policy_id: &'b PolicyID,
    pub(crate) values: Values<'b, SlotId, EntityUID>,
    pub(crate) ended: bool,
}

impl<C: ArgumentCheck> Validator<'_, C> {
    /// The pass that finds each slot that is bound to an entity whose type the schema does not know: an
    /// `UnrecognizedEntityType` without a place. The call takes no memory.
    #[tactic(auto, unfolding(crate::specs::ValidatorViews::schema_in, crate::specs::SlotTypes::slot_errors_left, crate::specs::SlotTypes::slot_errors_are_over))]
    pub fn validate_entity_types_in_slots<'b>(
        &'b self,
        _alloc: Global,
        policy_id: &'b PolicyID,
        slots: &'b SlotEnv,
    ) -> SlotTypeErrors<'b>
        ensures begun { slot_errors_are_over result ≡ false }
        ensures left { IsPermutation (slot_errors_left result)
            (unknown_slot_types (schema_of (schema_in self.now)) (text_of policy_id.now.text)
            (values slots.now)) }
    {
        SlotTypeErrors {
            schema: &self.schema,
            policy_id,
            values: slots.values(),
            ended: false,
        }
    }
}

impl<'b> Iterator for SlotTypeErrors<'b> {
    type Item = Result<ValidationError, AllocError>;

    ghost next_gives = { YieldsOrEnds slot_errors_left slot_errors_are_over finding_of };

    ghost remaining = { calls_left slot_errors_left slot_errors_are_over };

    #[tactic(auto, unfolding(crate::specs::SlotTypes::slot_errors_left, crate::specs::SlotTypes::slot_errors_are_over))]
    fn next(&mut self) -> Option<Result<ValidationError, AllocError>> {
        if self.ended {
            return None;
        }
        match self.next_error() {
            Ok(Some(error)) => Some(Ok(error)),
            Ok(None) => {
                self.ended = true;
                None
            }
            Err(refused) => {
                self.ended = true;
                Some(Err(refused))
            }
        }
    }
}

impl SlotTypeErrors<'_> {
    /// The next error; `None` after the last.
    fn next_error(&mut self) -> Result<Option<ValidationError>, AllocError>
        ensures next { IfOk result (λ o. MatchOption o
            (slot_errors_to_come self.old ≡ [])
            (λ e. slot_errors_to_come self.old ≡ finding_of e ∷ slot_errors_to_come self.new)) }
        ensures ended { self.new.ended ≡ self.old.ended }
    {
        while let Some(uid) = self.values.next() {
            if !self.schema.is_known_entity_type(&uid.entity_type) {
                let error = unknown_slot_type(self.policy_id, uid)?;
                return Ok(Some(error));
            }
        }
        Ok(None)
    }
}

fn unknown_slot_type(policy_id: &PolicyID, uid: &EntityUID) -> Result<ValidationError, AllocError>
    ensures { IfOk result (λ e. finding_of e ≡ record {
      place = None;
      policy = text_of policy_id.now.text;
      fault = unrecognized_entity_type (type_of uid.now.entity_type);
    }) }
{
    let policy_id = policy_id.clone()?;
    let entity_type = uid.entity_type.clone()?;
    Ok(ValidationError::unrecognized_entity_type(None, policy_id, entity_type))
}
