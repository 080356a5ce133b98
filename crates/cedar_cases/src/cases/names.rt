// Findings of a validator on the names and the scope of a policy, as a column shows them.
ghost use Rattle.std.specs.Iterator.{IsFinite};

use crate::cases::columns::Question;
use crate::shown::{Source, application, findings};
use cedar_typechecker::rbac::Validator;
use cedar_types::base::{Policy, ValidationError};
use std::alloc::{AllocError, Global};

/// The findings of a pass, or whether an action applies to a principal and a resource that the scope admits.
pub fn about_names(
    alloc: Global,
    validator: &Validator<'_>,
    policy: &Policy,
    source: Source<'_>,
    question: Question,
) -> Result<String, AllocError> {
    let (schema, template) = (validator.schema(), &*policy.template);
    match question {
        Question::EntityTypes => {
            show_findings(
                alloc,
                Validator::validate_entity_types(alloc, schema, template),
                source,
            )
        }
        Question::ActionIds => {
            show_findings(
                alloc,
                Validator::validate_action_ids(alloc, schema, template),
                source,
            )
        }
        Question::EnumEntities => {
            show_findings(
                alloc,
                Validator::validate_enum_entity(alloc, schema, template),
                source,
            )
        }
        Question::SlotTypes => {
            let slots = &policy.values;
            let errors = validator.validate_entity_types_in_slots(alloc, &template.id, slots);
            show_findings(alloc, errors, source)
        }
        Question::Application => {
            let answer = validator.validate_template_action_application(alloc, template)?;
            application(alloc, &answer, source)
        }
        Question::LinkedApplication => {
            let answer = validator.validate_linked_action_application(alloc, policy)?;
            application(alloc, &answer, source)
        }
    }
}

/// The findings of a pass.
fn show_findings<I: Iterator<Item = Result<ValidationError, AllocError>> + Drop>(
    alloc: Global,
    pass: I,
    source: Source<'_>,
) -> Result<String, AllocError>
    requires can { I.can_next pass }
    requires ends { IsFinite (I.remaining pass) }
{
    let mut errors = Vec::new(alloc);
    for error in pass {
        errors.push(error?)?;
    }
    findings(alloc, &errors, source)
}
