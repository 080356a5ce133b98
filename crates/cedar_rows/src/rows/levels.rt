// A policy at a level, and the level that it requires.
use crate::rows::answers::{Answer, Asked};
use cedar_fixtures::findings::{push_error, push_warning};
use cedar_typechecker::level_validate::{LevelErrors, LevelWarnings};
use cedar_types::base::ValidationMode;
use std::alloc::AllocError;

/// The text that is printed if no level is enough.
const NO_LEVEL: &str = "none";

impl Asked<'_> {
    /// The findings of the policy's validation if this is the greatest level.
    pub fn at_level(self, mode: ValidationMode, level: u32) -> Result<Answer, AllocError> {
        let (alloc, policy) = (self.alloc, &*self.policy.template);
        let (errors, warnings) = self
            .validator
            .validate_policy_with_level(alloc, policy, mode, level)?;
        let mut answer = Answer::new(alloc, String::new(alloc));
        let found = push_errors(&mut answer.findings, self.text, errors)?;
        let warned = push_warnings(&mut answer.findings, self.text, warnings)?;
        write!(answer.outcome, "errors={found} warnings={warned}")?;
        Ok(answer)
    }

    /// The least level that is enough for the policy, or `none`.
    pub fn required_level(self, mode: ValidationMode) -> Result<Answer, AllocError> {
        let (alloc, policy) = (self.alloc, &*self.policy.template);
        let outcome = match self.validator.required_level(alloc, policy, mode)? {
            Some(level) => level.to_string(alloc)?,
            None => String::from_str(alloc, NO_LEVEL)?,
        };
        Ok(Answer::new(alloc, outcome))
    }
}

/// Adds each error, and counts them.
fn push_errors(shown: &mut String, text: &str, errors: LevelErrors) -> Result<usize, AllocError> {
    let mut count: usize = 0;
    for error in errors {
        push_error(shown, text, &error)?;
        count = count.saturating_add(1);
    }
    Ok(count)
}

/// Adds each warning, and counts them.
fn push_warnings(
    shown: &mut String,
    text: &str,
    warnings: LevelWarnings,
) -> Result<usize, AllocError> {
    let mut count: usize = 0;
    for warning in warnings {
        push_warning(shown, text, &warning)?;
        count = count.saturating_add(1);
    }
    Ok(count)
}
