// Reports that the host should give on policies, and comparisons with those that it gives.
use crate::embedding::policies::permit_when;
use cedar_host::policy_sets::WrittenPolicy;
use cedar_host::reports::PolicyReport;
use cedar_types::base::{Effect, Expr, Name, PolicyID, Template};
use std::alloc::{AllocError, Global};
use std::process::Abort;
use std::rc::RcStr;

/// Adds this policy, with this id and this text.
pub fn add(
    alloc: Global,
    policies: &mut Vec<WrittenPolicy>,
    id: &str,
    template: Template,
    text: &str,
) -> Result<(), AllocError> {
    let mut template = template;
    template.id = PolicyID::from_string(alloc, id)?;
    let text = RcStr::from_str(alloc, text)?;
    policies.push(WrittenPolicy {
        effect: Effect::Permit,
        template,
        text,
    })?;
    Ok(())
}

/// These policies with their texts, whose ids are `policy0`, `policy1` and so on.
pub fn number_policies(
    alloc: Global,
    listed: Vec<(Template, &str)>,
) -> Result<Vec<WrittenPolicy>, AllocError> {
    let mut policies = Vec::new(alloc);
    for (template, text) in listed {
        let id = format!(in alloc; "policy{}", policies.len())?;
        add(alloc, &mut policies, id.as_str(), template, text)?;
    }
    Ok(policies)
}

/// A set of only this policy, with its text.
pub fn alone(
    alloc: Global,
    template: Template,
    text: &str,
) -> Result<Vec<WrittenPolicy>, AllocError> {
    number_policies(alloc, vec![in alloc; (template, text)]?)
}

/// The policy whose condition is an unknown, without a text.
pub fn of_an_unknown(alloc: Global) -> Result<Template, AllocError> {
    let later = Name::unqualified_name(alloc, "later")?;
    permit_when(alloc, "", Expr::unknown(later))
}

/// The report that the host should give on a policy.
#[derive(Clone, Copy)]
pub struct Want {
    pub is_accepted: bool,
    pub is_impossible: bool,
    pub errors: &'static [&'static str],
    pub warnings: &'static [&'static str],
}

pub const ACCEPTED: Want = Want {
    is_accepted: true,
    is_impossible: false,
    errors: &[],
    warnings: &[],
};

/// The report of a refusal without findings.
pub const REFUSED: Want = Want {
    is_accepted: false,
    ..ACCEPTED
};

pub const IMPOSSIBLE: Want = Want {
    is_impossible: true,
    ..ACCEPTED
};

/// Checks that these are the reports on policies.
pub fn are_said(rt: &impl Abort, reports: &[PolicyReport<'_>], wanted: &[Want]) {
    assert_eq!(rt; reports.len(), wanted.len());
    for (report, want) in reports.iter().zip(wanted) {
        is_said(rt, report, want);
    }
}

/// Checks that this is the report on a policy.
pub fn is_said(rt: &impl Abort, report: &PolicyReport<'_>, want: &Want) {
    assert_eq!(rt; report.is_accepted, want.is_accepted);
    assert_eq!(rt; report.is_impossible, want.is_impossible);
    assert_eq!(rt; report.errors.len(), want.errors.len());
    for (error, want) in report.errors.iter().zip(want.errors) {
        assert_eq!(rt; error.line.as_str(), *want);
    }
    assert_eq!(rt; report.warnings.len(), want.warnings.len());
    for (warning, want) in report.warnings.iter().zip(want.warnings) {
        assert_eq!(rt; warning.line.as_str(), *want);
    }
}
