// Checks whose answer has a typed tree if there is one: of an expression at its place, and of a condition.
use crate::calls::lines::{Probe, Trial};
use crate::outcomes::{Outcome, finish};
use crate::refusals::refuse;
use crate::samples::texts::policy;
use cedar_types::base::ValidationMode;
use cedar_types::types::capability::CapabilitySet;
use cedar_typing::typecheck::Typechecker;
use std::alloc::{AllocError, Global};

/// Checks of a policy in the first environment of the schema, in Strict.
#[derive(Clone, Copy)]
pub enum OfPolicy {
    /// The policy's condition.
    Condition,
    /// The part of the condition beside the scope, without prior capabilities.
    Rest,
}

impl Probe for OfPolicy {
    fn run(self, alloc: Global, trial: Trial<'_>) -> Result<Outcome, AllocError> {
        let (mode, schema) = (ValidationMode::Strict, trial.validator.schema());
        let policy = policy(alloc, trial.text)?;
        let template = &*policy.template;
        let checker = Typechecker::new(schema, trial.validator.extensions(), mode);
        let mut envs = schema.unlinked_request_envs(mode);
        let (Some(env), Some(rest)) = (envs.next(), &template.non_scope_constraints) else {
            return Err(AllocError);
        };
        let nothing = CapabilitySet::new(alloc);
        refuse(alloc, trial.number);
        match self {
            OfPolicy::Condition => {
                let check = checker.typecheck_condition(alloc, template, &env);
                finish(alloc, check, template)
            }
            OfPolicy::Rest => {
                let check = checker.typecheck_expr(alloc, &template.id, &env, &nothing, rest);
                finish(alloc, check, template)
            }
        }
    }
}

/// Checks of conditions and of expressions, by the texts that they show.
pub const TREES: [(OfPolicy, &str); 2] = [
    (
        OfPolicy::Condition,
        r#"
Typechecker::typecheck_condition | Success | KNOWN
Typechecker::typecheck_condition, that fails | UnsafeOptionalAttributeAccess | principal.nick == "a"
"#,
    ),
    (
        OfPolicy::Rest,
        r#"
Typechecker::typecheck_expr | TypecheckSuccess | principal has nick && principal.nick == "a"
Typechecker::typecheck_expr, that fails | UnsafeOptionalAttributeAccess | principal.nick == "a"
"#,
    ),
];
