// A validator's findings on names and scopes, and the reasons for which tables and schemas are
// refused.
ghost use Rattle.std.specs.Iterator.{IsFinite};

use crate::rows::answers::{Answer, Asked};
use cedar_fixtures::faulty_functions::functions_in;
use cedar_fixtures::findings::{push_error, push_warning};
use cedar_fixtures::questions::Subject;
use cedar_reading::{ReadError, SchemaReadError, schema_as_given};
use cedar_typechecker::rbac::Validator;
use cedar_types::base::{ExtensionSchemas, ValidationError, ValidationWarning};
use std::alloc::{AllocError, Global};
use std::collections::BTreeSet;

impl Asked<'_> {
    /// The answer to the question, unless it is about a check.
    pub fn about_names(self, subject: Subject) -> Result<Answer, AllocError> {
        let (alloc, validator, policy) = (self.alloc, self.validator, self.policy);
        let (schema, template) = (validator.schema(), &*policy.template);
        match subject {
            Subject::EntityTypes => {
                self.show_findings(Validator::validate_entity_types(alloc, schema, template))
            }
            Subject::ActionIds => {
                self.show_findings(Validator::validate_action_ids(alloc, schema, template))
            }
            Subject::EnumeratedIds => {
                self.show_findings(Validator::validate_enum_entity(alloc, schema, template))
            }
            Subject::SlotTypes => {
                let (id, slots) = (&template.id, &policy.values);
                self.show_findings(validator.validate_entity_types_in_slots(alloc, id, slots))
            }
            Subject::Application => {
                self.show_application(&validator.validate_template_action_application(
                    alloc, template,
                )?)
            }
            Subject::LinkedApplication => {
                self.show_application(&validator.validate_linked_action_application(alloc, policy)?)
            }
            _ => self.principal_types(),
        }
    }

    /// The findings of a pass.
    fn show_findings<I: Iterator<Item = Result<ValidationError, AllocError>> + Drop>(
        self,
        pass: I,
    ) -> Result<Answer, AllocError>
        requires can { I.can_next pass }
        requires ends { IsFinite (I.remaining pass) }
    {
        let mut answer = Answer::new(self.alloc, String::new(self.alloc));
        let mut count: usize = 0;
        for error in pass {
            push_error(&mut answer.findings, self.text, &error?)?;
            count = count.saturating_add(1);
        }
        write!(answer.outcome, "errors={count}")?;
        Ok(answer)
    }

    /// Whether an action applies to a principal and a resource that the scope admits.
    fn show_application(
        self,
        applied: &Result<(), ValidationWarning>,
    ) -> Result<Answer, AllocError> {
        let mut answer = Answer::new(self.alloc, String::new(self.alloc));
        match applied {
            Ok(()) => answer.outcome.push_str("applies")?,
            Err(warning) => {
                push_flags(&mut answer.outcome, warning)?;
                push_warning(&mut answer.findings, self.text, warning)?;
            }
        }
        Ok(answer)
    }

    /// The names of the principal types that the scope admits, sorted by bytes.
    fn principal_types(self) -> Result<Answer, AllocError> {
        let (alloc, constraint) = (self.alloc, &self.policy.template.principal_constraint);
        let types = self
            .validator
            .get_principals_satisfying_constraint(alloc, constraint)?;
        let mut names = Vec::new(alloc);
        for named in types {
            names.push(named.to_string(alloc)?)?;
        }
        names.sort()?;
        Ok(Answer::new(alloc, names.as_slice().join(alloc, ",")?))
    }
}

fn push_flags(shown: &mut String, warning: &ValidationWarning) -> Result<(), AllocError> {
    match warning {
        ValidationWarning::InvalidActionApplication(warning) => {
            let principal = warning.would_in_fix_principal;
            let resource = warning.would_in_fix_resource;
            write!(shown, "warning principal={principal} resource={resource}")
        }
        other => write!(shown, "{other}"),
    }
}

/// The reason for which a table of these functions is refused.
pub fn refusal(alloc: Global, functions: &str) -> Result<Answer, AllocError> {
    let outcome = match ExtensionSchemas::new(
        functions_in(alloc, functions)?,
        BTreeSet::new(alloc),
    ) {
        Ok(_table) => String::from_str(alloc, "a table")?,
        Err(refusal) => refusal.to_string(alloc)?,
    };
    Ok(Answer::new(alloc, outcome))
}

/// The reason for which a schema of these declarations, which are as given, is refused.
pub fn schema_refusal(alloc: Global, declarations: &str) -> Result<Answer, ReadError> {
    let outcome = match schema_as_given(alloc, declarations) {
        Ok(_schema) => String::from_str(alloc, "a schema")?,
        Err(SchemaReadError::Refused(refusal)) => refusal.to_string(alloc)?,
        Err(SchemaReadError::Read(error)) => return Err(error),
    };
    Ok(Answer::new(alloc, outcome))
}
