// Answers of a policy's checks, as a column shows them.
use crate::cases::columns::{Subject, Wanted};
use crate::cases::names::about_names;
use crate::shown::{Source, environment, level_outcome, outcome, policy_outcome, typed_condition};
use cedar_typechecker::rbac::Validator;
use cedar_types::base::{Policy, ValidationMode};
use cedar_typing::typecheck::{PolicyCheck, Typechecker};
use std::alloc::{AllocError, Global};
use std::collections::HashSet;

/// The text between the environments of a field.
const BETWEEN: &str = " | ";

/// A policy that is asked about, and the text of its places.
#[derive(Clone, Copy)]
pub struct Asked<'a> {
    pub alloc: Global,
    pub validator: &'a Validator<'a>,
    pub policy: &'a Policy,
    pub source: Source<'a>,
}

impl Asked<'_> {
    /// The answer about the policy: on its names and its scope, on its validation with levels, on the level that it requires,
    /// on all of its checks, or on the check in each environment, with ` | ` between environments, sorted by bytes.
    pub fn about(self, wanted: Wanted) -> Result<String, AllocError> {
        match wanted {
            Wanted::Names(question) => {
                about_names(
                    self.alloc,
                    self.validator,
                    self.policy,
                    self.source,
                    question,
                )
            }
            Wanted::Checks(mode, subject) => self.about_checks(mode, subject),
            Wanted::Levels(mode, maximum) => self.at_level(mode, maximum),
            Wanted::RequiredLevel(mode) => self.required_level(mode),
        }
    }

    /// The level that the policy requires, or `none`.
    fn required_level(self, mode: ValidationMode) -> Result<String, AllocError> {
        let (alloc, policy) = (self.alloc, &*self.policy.template);
        match self.validator.required_level(alloc, policy, mode)? {
            Some(level) => level.to_string(alloc),
            None => String::from_str(alloc, "none"),
        }
    }

    /// The answer of the policy's validation with levels for this maximum.
    fn at_level(self, mode: ValidationMode, maximum: u32) -> Result<String, AllocError> {
        let (alloc, policy) = (self.alloc, &*self.policy.template);
        let (errors, warnings) = self
            .validator
            .validate_policy_with_level(alloc, policy, mode, maximum)?;
        level_outcome(alloc, errors, warnings, self.source)
    }

    fn about_checks(self, mode: ValidationMode, subject: Subject) -> Result<String, AllocError> {
        let schema = self.validator.schema();
        let typechecker = Typechecker::new(schema, self.validator.extensions(), mode);
        match subject {
            Subject::Policy => self.in_all(&typechecker),
            Subject::Environments => self.in_environments(&typechecker),
            Subject::Outcome | Subject::Typed => {
                let (alloc, policy) = (self.alloc, &*self.policy.template);
                let mut shown = Vec::new(alloc);
                for env in schema.unlinked_request_envs(mode) {
                    let check = typechecker.typecheck_by_single_request_env(alloc, policy, &env)?;
                    shown.push(self.show(&check, subject)?)?;
                }
                shown.sort()?;
                shown.as_slice().join(alloc, BETWEEN)
            }
        }
    }

    /// The check in an environment of the schema, whose slots are not linked.
    fn show(self, check: &PolicyCheck, subject: Subject) -> Result<String, AllocError> {
        match subject {
            Subject::Typed => typed_condition(self.alloc, check, self.source),
            _ => outcome(self.alloc, check, self.source),
        }
    }

    /// The outcome in each environment in which the policy is checked.
    fn in_environments(self, typechecker: &Typechecker<'_>) -> Result<String, AllocError> {
        let alloc = self.alloc;
        let mut shown = Vec::new(alloc);
        for item in typechecker.typecheck_by_request_env(alloc, &self.policy.template)? {
            let (env, check) = item?;
            let env = environment(alloc, &env)?;
            let outcome = outcome(alloc, &check, self.source)?;
            shown.push(format!(in alloc; "{env}: {outcome}")?)?;
        }
        shown.sort()?;
        shown.as_slice().join(alloc, BETWEEN)
    }

    /// Whether the policy passes, and the findings that its check adds to empty sets.
    fn in_all(self, typechecker: &Typechecker<'_>) -> Result<String, AllocError> {
        let (alloc, policy) = (self.alloc, &*self.policy.template);
        let mut errors = HashSet::new(alloc);
        let mut warnings = HashSet::new(alloc);
        let passes = typechecker.typecheck_policy(alloc, policy, &mut errors, &mut warnings)?;
        policy_outcome(alloc, passes, &errors, &warnings, self.source)
    }
}

/// The wanted environments, sorted by bytes, because their order is open.
pub fn in_order(alloc: Global, wanted: &str) -> Result<String, AllocError> {
    let mut parts: Vec<&str> = wanted.split(BETWEEN).collect(alloc)?;
    parts.sort()?;
    parts.as_slice().join(alloc, BETWEEN)
}
