// The checks of a policy.
use crate::rows::answers::{Answer, Asked, BETWEEN_OUTCOMES, in_order};
use cedar_fixtures::findings::{push_environment, push_error, push_warning};
use cedar_types::base::{ValidationError, ValidationMode, ValidationWarning};
use cedar_types::types::request_env::RequestEnv;
use cedar_typing::typecheck::{PolicyCheck, Typechecker};
use std::alloc::AllocError;
use std::collections::HashSet;

impl<'a> Asked<'a> {
    fn checker(self, mode: ValidationMode) -> Typechecker<'a> {
        Typechecker::new(self.validator.schema(), self.validator.extensions(), mode)
    }

    /// The check in the first environment of the schema.
    pub fn in_first_environment(self, mode: ValidationMode) -> Result<Answer, AllocError> {
        let (alloc, policy) = (self.alloc, &*self.policy.template);
        let mut answer = Answer::new(alloc, String::new(alloc));
        match self.validator.schema().unlinked_request_envs(mode).next() {
            None => answer.outcome.push_str("no environment")?,
            Some(env) => {
                let checker = self.checker(mode);
                let check = checker.typecheck_by_single_request_env(alloc, policy, &env)?;
                self.add_check(&mut answer, &check)?;
            }
        }
        Ok(answer)
    }

    /// Adds the outcome of a check, and its errors.
    fn add_check(self, answer: &mut Answer, check: &PolicyCheck) -> Result<(), AllocError> {
        push_outcome(&mut answer.outcome, check)?;
        for error in errors_of(check) {
            push_error(&mut answer.findings, self.text, error)?;
        }
        Ok(())
    }

    /// The check in each environment. The outcomes are sorted by bytes.
    pub fn in_environments(self, mode: ValidationMode) -> Result<Answer, AllocError> {
        let (alloc, policy) = (self.alloc, &*self.policy.template);
        let checker = self.checker(mode);
        let mut answer = Answer::new(alloc, String::new(alloc));
        for item in checker.typecheck_by_request_env(alloc, policy)? {
            self.add_environment(&mut answer, &item?)?;
        }
        let outcomes = in_order(alloc, answer.outcome.as_str(), BETWEEN_OUTCOMES)?;
        answer.outcome = outcomes;
        Ok(answer)
    }

    /// Adds the outcome of a check, behind the outcomes before it, its environment and its errors.
    fn add_environment(
        self,
        answer: &mut Answer,
        (env, check): &(RequestEnv<'_>, PolicyCheck),
    ) -> Result<(), AllocError> {
        push_environment(&mut answer.findings, env)?;
        push_outcome(&mut answer.findings, check)?;
        if !answer.outcome.is_empty() {
            answer.outcome.push_str(BETWEEN_OUTCOMES)?;
        }
        self.add_check(answer, check)
    }

    /// The findings that the check in all environments adds to empty sets.
    pub fn in_all(self, mode: ValidationMode) -> Result<Answer, AllocError> {
        let (alloc, policy) = (self.alloc, &*self.policy.template);
        let mut errors = HashSet::new(alloc);
        let mut warnings = HashSet::new(alloc);
        let checker = self.checker(mode);
        let passes = checker.typecheck_policy(alloc, policy, &mut errors, &mut warnings)?;
        self.answer_check(passes, &errors, &warnings)
    }

    fn answer_check(
        self,
        passes: bool,
        errors: &HashSet<ValidationError>,
        warnings: &HashSet<ValidationWarning>,
    ) -> Result<Answer, AllocError> {
        let (alloc, found, warned) = (self.alloc, errors.len(), warnings.len());
        let outcome = format!(in alloc; "{passes} errors={found} warnings={warned}")?;
        let mut answer = Answer::new(alloc, outcome);
        self.add_warnings(&mut answer, warnings)?;
        for error in errors {
            push_error(&mut answer.findings, self.text, error)?;
        }
        Ok(answer)
    }

    fn add_warnings(
        self,
        answer: &mut Answer,
        warnings: &HashSet<ValidationWarning>,
    ) -> Result<(), AllocError> {
        for warning in warnings {
            push_warning(&mut answer.findings, self.text, warning)?;
        }
        Ok(())
    }
}

/// Adds the outcome of a check, and the number of errors if it may have some.
fn push_outcome(shown: &mut String, check: &PolicyCheck) -> Result<(), AllocError> {
    let count = errors_of(check).len();
    match check {
        PolicyCheck::Success(_) => shown.push_str("Success"),
        PolicyCheck::Irrelevant(_, _) => write!(shown, "Irrelevant errors={count}"),
        PolicyCheck::Fail(_) => write!(shown, "Fail errors={count}"),
    }
}

fn errors_of(check: &PolicyCheck) -> &[ValidationError] {
    match check {
        PolicyCheck::Success(_) => &[],
        PolicyCheck::Irrelevant(errors, _) => errors,
        PolicyCheck::Fail(errors) => errors,
    }
}
