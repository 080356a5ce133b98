// The passes over the names in a template.
ghost use Rattle.std.specs.Prelude.{◌≡◌, false, [], ◌∷◌, IfOk, IsPermutation, MatchOption, option_map};
ghost use Rattle.std.specs.List.{filter_map};
ghost use Rattle.cedar_types.specs.Schemas.Declarations.{type_kind};
ghost use Rattle.cedar_types.specs.Errors.{finding_of};
ghost use Rattle.cedar_types.specs.FallibleIterators.{YieldsOrEnds, calls_left};
ghost use Rattle.cedar_types.specs.Templates.Findings.{unknown_types, unknown_actions, wrong_members, is_unknown_action, is_wrong_member, excludes};
ghost use Rattle.cedar_types.specs.Templates.Mentions.{template_mentions};
ghost use Rattle.cedar_types.specs.Templates.MentionViews.{mention_of};
ghost use Rattle.cedar_types.specs.Names.{text_of, uid_of, placed_type, placed_uid};
ghost use Rattle.cedar_types.specs.Schemas.Contents.{schema_of};
ghost use Rattle.cedar_types.specs.Templates.{template_of};
ghost use Rattle.cedar_typechecker.specs.Passes.{own_finding, type_finding, action_finding, member_finding, errors_to_come, errors_left, errors_are_over};

use crate::rbac::validator::Validator;
use cedar_types::base::{
    EntityType, EntityUID, Mention, Mentions, Template, ValidationError, ValidatorEntityTypeKind,
    ValidatorSchema,
};
use std::alloc::{AllocError, Global};

/// A pass over names, by the fault that it finds.
#[derive(Clone, Copy, Debug)]
pub(crate) enum LiteralPass {
    /// The name is a type that the schema does not know.
    EntityTypes,
    /// The name is the id of an action that is not declared.
    ActionIds,
    /// The name is an id that its enumerated type does not have.
    EnumEntities,
}

/// The errors of a pass over the names in a template, as an iterator: one for each occurrence of a name, in any order, at the
/// place of the type name or the id.
///
/// Where memory is refused, an item is an `AllocError`, and there is none after it.
#[derive(Drop)]
pub struct LiteralErrors<'a> {
    pub(crate) schema: &'a ValidatorSchema,
    pub(crate) template: &'a Template,
    pub(crate) pass: LiteralPass,
    pub(crate) mentions: Mentions<'a>,
    pub(crate) ended: bool,
}

/// The errors of the pass over ids of enumerated types.
pub type EnumEntityErrors<'a> = LiteralErrors<'a>;

/// The errors of the pass over entity types.
pub type EntityTypeErrors<'a> = LiteralErrors<'a>;

/// The errors of the pass over action ids.
pub type ActionIdErrors<'a> = LiteralErrors<'a>;

#[tactic(auto, unfolding(crate::specs::Passes::errors_left, crate::specs::Passes::errors_are_over))]
impl Validator<'_> {
    /// The pass that finds each id of an enumerated type that is none of the type's ids: an `InvalidEnumEntity` at the id.
    /// The call takes no memory.
    pub fn validate_enum_entity<'a>(
        alloc: Global,
        schema: &'a ValidatorSchema,
        template: &'a Template,
    ) -> EnumEntityErrors<'a>
        ensures begun { errors_are_over result ≡ false }
        ensures left { IsPermutation (errors_left result)
            (wrong_members (schema_of schema.now) (template_of template.now)) }
    {
        literal_errors(alloc, schema, template, LiteralPass::EnumEntities)
    }

    /// The pass that finds each entity type that the schema does not know, of an id and of an `is`: an
    /// `UnrecognizedEntityType` at the type's name. The call takes no memory.
    pub fn validate_entity_types<'a>(
        alloc: Global,
        schema: &'a ValidatorSchema,
        template: &'a Template,
    ) -> EntityTypeErrors<'a>
        ensures begun { errors_are_over result ≡ false }
        ensures left { IsPermutation (errors_left result)
            (unknown_types (schema_of schema.now) (template_of template.now)) }
    {
        literal_errors(alloc, schema, template, LiteralPass::EntityTypes)
    }

    /// The pass that finds each id of an action type that is not declared: an `UnrecognizedActionId` at the id. The call
    /// takes no memory.
    pub fn validate_action_ids<'a>(
        alloc: Global,
        schema: &'a ValidatorSchema,
        template: &'a Template,
    ) -> ActionIdErrors<'a>
        ensures begun { errors_are_over result ≡ false }
        ensures left { IsPermutation (errors_left result)
            (unknown_actions (schema_of schema.now) (template_of template.now)) }
    {
        literal_errors(alloc, schema, template, LiteralPass::ActionIds)
    }
}

#[tactic(auto, unfolding(crate::specs::Passes::errors_left, crate::specs::Passes::errors_are_over))]
fn literal_errors<'a>(
    alloc: Global,
    schema: &'a ValidatorSchema,
    template: &'a Template,
    pass: LiteralPass,
) -> LiteralErrors<'a>
    ensures begun { errors_are_over result ≡ false }
    ensures left { errors_left result
        ≡ filter_map (own_finding pass (schema_of schema.now) (template_of template.now).id)
        (template_mentions (template_of template.now)) }
{
    LiteralErrors {
        schema,
        template,
        pass,
        mentions: template.mentions(alloc),
        ended: false,
    }
}

impl<'a> Iterator for LiteralErrors<'a> {
    type Item = Result<ValidationError, AllocError>;

    ghost next_gives = { YieldsOrEnds errors_left errors_are_over finding_of };

    ghost remaining = { calls_left errors_left errors_are_over };

    #[tactic(auto, unfolding(crate::specs::Passes::errors_left, crate::specs::Passes::errors_are_over))]
    fn next(&mut self) -> Option<Result<ValidationError, AllocError>> {
        if self.ended {
            return None;
        }
        match self.next_error() {
            Ok(Some(error)) => Some(Ok(error)),
            Ok(None) => {
                self.ended = true;
                None
            }
            Err(refused) => {
                self.ended = true;
                Some(Err(refused))
            }
        }
    }
}

impl LiteralErrors<'_> {
    /// The next error; `None` after the last.
    fn next_error(&mut self) -> Result<Option<ValidationError>, AllocError>
        ensures next { IfOk result (λ o. MatchOption o
            (errors_to_come self.old ≡ [])
            (λ e. errors_to_come self.old ≡ finding_of e ∷ errors_to_come self.new)) }
        ensures ended { self.new.ended ≡ self.old.ended }
    {
        while let Some(mention) = self.mentions.next() {
            if let Some(error) = self.error_at(mention?)? {
                return Ok(Some(error));
            }
        }
        Ok(None)
    }

    /// The error of this pass on a name, if it has one.
    fn error_at(&self, mention: Mention<'_>) -> Result<Option<ValidationError>, AllocError>
        ensures { IfOk result (λ o.
            option_map finding_of o
            ≡ own_finding self.now.pass (schema_of self.now.schema.now)
            (text_of self.now.template.now.id.text) (mention_of mention.entry)) }
    {
        match (self.pass, mention.uid()) {
            (LiteralPass::EntityTypes, _) => self.type_error(mention.entity_type()),
            (LiteralPass::ActionIds, Some(uid)) => self.action_error(uid),
            (LiteralPass::EnumEntities, Some(uid)) => self.member_error(uid),
            // a type that an `is` tests for comes without an id
            (_, None) => Ok(None),
        }
    }

    fn type_error(&self, entity_type: &EntityType) -> Result<Option<ValidationError>, AllocError>
        ensures { IfOk result (λ o.
            option_map finding_of o
            ≡ type_finding (schema_of self.now.schema.now)
            (text_of self.now.template.now.id.text) (placed_type entity_type.now)) }
    {
        if self.schema.is_known_entity_type(entity_type) {
            return Ok(None);
        }
        let id = self.template.id.clone()?;
        Ok(Some(ValidationError::unrecognized_entity_type(
            entity_type.loc,
            id,
            entity_type.clone()?,
        )))
    }

    fn action_error(&self, uid: &EntityUID) -> Result<Option<ValidationError>, AllocError>
        ensures { IfOk result (λ o.
            option_map finding_of o
            ≡ action_finding (schema_of self.now.schema.now)
            (text_of self.now.template.now.id.text) (placed_uid uid.now)) }
    {
        if !is_unknown_action(self.schema, uid) {
            return Ok(None);
        }
        let id = self.template.id.clone()?;
        Ok(Some(ValidationError::unrecognized_action_id(uid.loc, id, uid.clone()?)))
    }

    fn member_error(&self, uid: &EntityUID) -> Result<Option<ValidationError>, AllocError>
        ensures { IfOk result (λ o.
            option_map finding_of o
            ≡ member_finding (schema_of self.now.schema.now)
            (text_of self.now.template.now.id.text) (placed_uid uid.now)) }
    {
        if !is_wrong_member(self.schema, uid) {
            return Ok(None);
        }
        let id = self.template.id.clone()?;
        Ok(Some(ValidationError::invalid_enum_entity(uid.loc, id, uid.clone()?)))
    }
}

/// Whether the id is of an action type and not declared.
fn is_unknown_action(schema: &ValidatorSchema, uid: &EntityUID) -> bool
    ensures { result ≡ is_unknown_action (schema_of schema.now) (uid_of uid.now) }
{
    uid.entity_type.is_action() && !schema.is_known_action_id(uid)
}

/// Whether the id is of an enumerated type and none of the type's ids.
fn is_wrong_member(schema: &ValidatorSchema, uid: &EntityUID) -> bool
    ensures { result ≡ is_wrong_member (schema_of schema.now) (uid_of uid.now) }
{
    match schema.get_entity_type(&uid.entity_type) {
        Some(declared) => excludes(&declared.kind, uid),
        None => false,
    }
}

fn excludes(kind: &ValidatorEntityTypeKind, uid: &EntityUID) -> bool
    ensures { result ≡ excludes (type_kind kind.now) (text_of uid.now.eid) }
{
    match kind {
        ValidatorEntityTypeKind::Enum(ids) => !ids.contains(&uid.eid),
        // the schema does not list the ids of other types
        ValidatorEntityTypeKind::Standard(_) => false,
        ValidatorEntityTypeKind::External => false,
    }
}
