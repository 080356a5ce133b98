// Surveys of policies.
use crate::calls::lines::Trial;
use crate::outcomes::{Outcome, finish, finish_shown};
use crate::pictures::picture;
use crate::refusals::{refuse, was_refused};
use crate::samples::texts::policy;
use cedar_typechecker::survey::Survey;
use cedar_types::base::ValidationMode;
use std::alloc::{AllocError, Global};

/// Surveys the policy of the text in Strict.
pub fn survey(alloc: Global, trial: Trial<'_>) -> Result<Outcome, AllocError> {
    let (mode, policy) = (ValidationMode::Strict, policy(alloc, trial.text)?);
    refuse(alloc, trial.number);
    let survey = trial.validator.survey(alloc, &policy.template, mode);
    let was_refused = was_refused(alloc);
    let answer = match survey {
        Ok(survey) => Some(survey_shown(alloc, &survey)?),
        Err(_) => None,
    };
    finish_shown(alloc, answer, &policy, was_refused)
}

fn survey_shown(alloc: Global, survey: &Survey) -> Result<String, AllocError> {
    let answers = (
        survey.passes(),
        survey.is_impossible(),
        survey.fails_without_error(),
    );
    let numbers = (survey.applicable_environments(), survey.required_level());
    picture(alloc, &(answers, numbers, survey.errors()))
}

/// The level errors of the policy of the text, with no dereference allowed. The policy is surveyed before memory is refused.
pub fn level_errors_at_0(alloc: Global, trial: Trial<'_>) -> Result<Outcome, AllocError> {
    let (mode, policy) = (ValidationMode::Strict, policy(alloc, trial.text)?);
    let survey = trial.validator.survey(alloc, &policy.template, mode)?;
    refuse(alloc, trial.number);
    let errors = survey.level_errors(alloc, 0);
    finish(alloc, errors, &policy)
}
