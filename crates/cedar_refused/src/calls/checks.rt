// Checks of policies, and questions to a validator.
use crate::calls::lines::{Probe, Trial};
use crate::calls::surveys::{level_errors_at_0, survey};
use crate::outcomes::{Outcome, finish, finish_shown};
use crate::pictures::picture;
use crate::refusals::{refuse, was_refused};
use crate::samples::texts::policy;
use cedar_typechecker::level_validate::{LevelErrors, LevelWarnings};
use cedar_types::base::ValidationMode;
use cedar_types::types::request_env::RequestEnv;
use cedar_typing::typecheck::Typechecker;
use std::alloc::{AllocError, Global};

/// The environment in which a policy is checked.
#[derive(Clone, Copy)]
pub enum InEnvironment {
    /// The first of the schema, in a mode.
    First(ValidationMode),
    /// The environment of undeclared actions.
    Undeclared,
}

impl Probe for InEnvironment {
    fn run(self, alloc: Global, trial: Trial<'_>) -> Result<Outcome, AllocError> {
        let schema = trial.validator.schema();
        let (mode, env) = match self {
            InEnvironment::First(mode) => (mode, schema.unlinked_request_envs(mode).next()),
            InEnvironment::Undeclared => {
                (ValidationMode::Partial, Some(RequestEnv::UndeclaredAction))
            }
        };
        let Some(env) = env else {
            return Err(AllocError);
        };
        let policy = policy(alloc, trial.text)?;
        let checker = Typechecker::new(schema, trial.validator.extensions(), mode);
        refuse(alloc, trial.number);
        let check = checker.typecheck_by_single_request_env(alloc, &policy.template, &env);
        finish(alloc, check, &policy)
    }
}

/// Questions to a validator.
#[derive(Clone, Copy)]
pub enum OfValidator {
    /// A question whose answer is shown as it is.
    Shown(Question),
    Level,
    Survey,
    SurveyedLevel,
}

/// Questions about a policy, each with an answer that is shown as it is.
#[derive(Clone, Copy)]
pub enum Question {
    Principals,
    Resources,
    Application,
    LinkedApplication,
    Policy,
    RequiredLevel,
}

/// Asks the question about the policy of the text, in Strict.
fn ask(alloc: Global, trial: Trial<'_>, asked: Question) -> Result<Outcome, AllocError> {
    let validator = trial.validator;
    let (mode, policy) = (ValidationMode::Strict, policy(alloc, trial.text)?);
    let template = &*policy.template;
    refuse(alloc, trial.number);
    match asked {
        Question::Principals => {
            let constraint = &template.principal_constraint;
            let types = validator.get_principals_satisfying_constraint(alloc, constraint);
            finish(alloc, types, &policy)
        }
        Question::Resources => {
            let constraint = &template.resource_constraint;
            let types = validator.get_resources_satisfying_constraint(alloc, constraint);
            finish(alloc, types, &policy)
        }
        Question::Application => {
            let applies = validator.validate_template_action_application(alloc, template);
            finish(alloc, applies, &policy)
        }
        Question::LinkedApplication => {
            let applies = validator.validate_linked_action_application(alloc, &policy);
            finish(alloc, applies, &policy)
        }
        Question::Policy => {
            let found = validator.validate_policy(alloc, template, mode);
            finish(alloc, found, &policy)
        }
        Question::RequiredLevel => {
            finish(
                alloc,
                validator.required_level(alloc, template, mode),
                &policy,
            )
        }
    }
}

/// Validates the policy of the text in Strict, with no dereference allowed.
fn at_level_0(alloc: Global, trial: Trial<'_>) -> Result<Outcome, AllocError> {
    let validator = trial.validator;
    let (mode, policy) = (ValidationMode::Strict, policy(alloc, trial.text)?);
    refuse(alloc, trial.number);
    let found = validator.validate_policy_with_level(alloc, &policy.template, mode, 0);
    let was_refused = was_refused(alloc);
    let answer = match found {
        Ok((errors, warnings)) => Some(find_all(alloc, errors, warnings)?),
        Err(_) => None,
    };
    finish_shown(alloc, answer, &policy, was_refused)
}

/// All errors and warnings, sorted by bytes.
fn find_all(
    alloc: Global,
    errors: LevelErrors,
    warnings: LevelWarnings,
) -> Result<String, AllocError> {
    let mut lines = Vec::new(alloc);
    for error in errors {
        lines.push(picture(alloc, &error)?)?;
    }
    for warning in warnings {
        lines.push(picture(alloc, &warning)?)?;
    }
    lines.sort()?;
    picture(alloc, &lines)
}

impl Probe for OfValidator {
    fn run(self, alloc: Global, trial: Trial<'_>) -> Result<Outcome, AllocError> {
        match self {
            OfValidator::Shown(asked) => ask(alloc, trial, asked),
            OfValidator::Level => at_level_0(alloc, trial),
            OfValidator::Survey => survey(alloc, trial),
            OfValidator::SurveyedLevel => level_errors_at_0(alloc, trial),
        }
    }
}
