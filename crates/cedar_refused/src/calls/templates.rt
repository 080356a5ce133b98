// Questions about a policy without a schema.
use crate::calls::lines::{Probe, Trial};
use crate::outcomes::{Outcome, finish};
use crate::refusals::refuse;
use crate::samples::texts::policy;
use cedar_types::base::SlotId;
use std::alloc::{AllocError, Global};

/// Questions about a template, or about its condition.
#[derive(Clone, Copy)]
pub enum OfTemplate {
    Condition,
    ScopeCondition,
    Uids,
    TypeNames,
    Slot,
    SlotOfCondition,
    Subexpressions,
    Parts,
}

impl Probe for OfTemplate {
    fn run(self, alloc: Global, trial: Trial<'_>) -> Result<Outcome, AllocError> {
        let policy = policy(alloc, trial.text)?;
        let template = &*policy.template;
        let whole = template.condition(alloc)?;
        refuse(alloc, trial.number);
        match self {
            OfTemplate::Condition => finish(alloc, template.condition(alloc), template),
            OfTemplate::ScopeCondition => finish(alloc, template.scope_condition(alloc), template),
            OfTemplate::Uids => finish(alloc, template.policy_entity_uids(alloc), template),
            OfTemplate::TypeNames => {
                finish(alloc, template.policy_entity_type_names(alloc), template)
            }
            OfTemplate::Slot => {
                finish(
                    alloc,
                    template.mentions_slot(alloc, SlotId::Principal),
                    template,
                )
            }
            OfTemplate::SlotOfCondition => {
                finish(alloc, whole.mentions_slot(alloc, SlotId::Principal), &whole)
            }
            OfTemplate::Subexpressions => {
                let walk = whole.subexpressions(alloc);
                finish(alloc, walk.map(|_| ()), &whole)
            }
            OfTemplate::Parts => finish(alloc, whole.parts(alloc), &whole),
        }
    }
}

/// Questions about a template.
pub const TEMPLATES: [(OfTemplate, &str); 8] = [
    (
        OfTemplate::Condition,
        r#"
Template::condition | IsEmpty | NAMED
Template::condition, with slots | Slot | UNKNOWN
"#,
    ),
    (
        OfTemplate::ScopeCondition,
        "Template::scope_condition | Gone | NAMED",
    ),
    (
        OfTemplate::Uids,
        "Template::policy_entity_uids | red | NAMED",
    ),
    (
        OfTemplate::TypeNames,
        "Template::policy_entity_type_names | Gone | NAMED",
    ),
    (OfTemplate::Slot, "Template::mentions_slot | false | NAMED"),
    (
        OfTemplate::SlotOfCondition,
        "Expr::mentions_slot | false | NAMED",
    ),
    (
        OfTemplate::Subexpressions,
        "Expr::subexpressions | () | NAMED",
    ),
    (OfTemplate::Parts, "Expr::parts | IsEmpty | NAMED"),
];
