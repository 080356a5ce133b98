// Answers of calls, as texts of JSON.
use crate::answered::Answered;
use crate::faults::CallFault;
use crate::writer::Answer;
use cedar_findings::codes::Code;
use cedar_findings::data_findings::DataVerdict;
use cedar_findings::findings::{Finding, Requirement, Severity, Verdict};
use cedar_types::base::Loc;
use std::alloc::{AllocError, Global};

/// A detailed error, as Cedar calls it.
#[derive(Clone, Copy)]
struct Detailed<'t, 'h> {
    text: &'t str,
    /// A hint that may help; empty if none is known.
    hint: &'h str,
    code: Code,
    severity: Severity,
    /// None if the error has no place in a text.
    place: Option<Loc>,
}

impl Answer {
    /// Adds a member of this key, a list of texts.
    fn texts_at(&mut self, key: &str, texts: &Vec<String>) -> Result<(), AllocError> {
        self.begin_list_at(key)?;
        for text in texts {
            self.text(text.as_str())?;
        }
        self.end_list()
    }

    /// Adds the members of a detailed error, whose object was begun.
    fn add_detailed(&mut self, error: Detailed<'_, '_>) -> Result<(), AllocError> {
        self.text_at("message", error.text)?;
        if error.hint.is_empty() {
            self.null_at("help")?;
        } else {
            self.text_at("help", error.hint)?;
        }
        self.text_at("code", error.code.text())?;
        self.null_at("url")?;
        self.text_at("severity", error.severity.text())?;
        self.begin_list_at("sourceLocations")?;
        if let Some(place) = error.place {
            self.add_place(place)?;
        }
        self.end_list()?;
        self.begin_list_at("related")?;
        self.end_list()
    }

    fn add_place(&mut self, place: Loc) -> Result<(), AllocError> {
        self.begin_object()?;
        self.null_at("label")?;
        self.number_at("start", place.start)?;
        self.number_at("end", place.end)?;
        self.end_object()
    }

    /// Adds a finding of a policy.
    fn add_finding(
        &mut self,
        id: &str,
        severity: Severity,
        finding: &Finding,
        has_details: bool,
    ) -> Result<(), AllocError> {
        let place = Loc {
            start: finding.start,
            end: finding.end,
        };
        self.begin_object()?;
        self.text_at("policyId", id)?;
        self.begin_object_at("error")?;
        self.add_detailed(Detailed {
            text: finding.text.as_str(),
            hint: finding.hint.as_str(),
            code: finding.code,
            severity,
            place: Some(place),
        })?;
        self.end_object()?;
        if has_details {
            self.texts_at("also", &finding.also)?;
            self.texts_at("environments", &finding.environments)?;
        }
        self.end_object()
    }

    /// Adds the members of a fault, as a detailed error whose object was begun.
    fn add_fault(&mut self, it: &CallFault) -> Result<(), AllocError> {
        self.add_detailed(Detailed {
            text: it.fault.text.as_str(),
            hint: "",
            code: Code::Fault,
            severity: Severity::Error,
            place: Some(it.fault.place),
        })
    }

    /// Adds the error of a policy that is refused alone.
    fn add_refused(&mut self, it: &CallFault, has_details: bool) -> Result<(), AllocError> {
        self.begin_object()?;
        self.text_at("policyId", id_of(it))?;
        self.begin_object_at("error")?;
        self.add_fault(it)?;
        self.end_object()?;
        if has_details {
            self.begin_list_at("also")?;
            self.end_list()?;
            self.begin_list_at("environments")?;
            self.end_list()?;
        }
        self.end_object()
    }

    /// Adds that a policy is refused, whose level is not known.
    fn add_refusal(&mut self, it: &CallFault) -> Result<(), AllocError> {
        self.begin_object()?;
        self.text_at("policyId", id_of(it))?;
        self.boolean_at("accepted", false)?;
        self.number_at("moreFindings", 0)?;
        self.end_object()
    }

    /// Adds the number of a policy's findings that are not listed.
    fn add_rest(&mut self, id: &str, severity: Severity, others: usize) -> Result<(), AllocError> {
        let alloc = self.alloc;
        let text = format!(in alloc; "{others} more findings")?;
        self.begin_object()?;
        self.text_at("policyId", id)?;
        self.begin_object_at("error")?;
        self.add_detailed(Detailed {
            text: text.as_str(),
            hint: "",
            code: Code::Rest,
            severity,
            place: None,
        })?;
        self.end_object()?;
        self.end_object()
    }

    /// Adds all errors of a policy, or all warnings. A finding that is not listed may be the reason
    /// that the policy is refused.
    pub fn add_findings(
        &mut self,
        answered: &Answered<'_>,
        severity: Severity,
        has_details: bool,
    ) -> Result<(), AllocError> {
        let id = answered.given.policy.id.text.as_str();
        let verdict = &answered.verdict;
        let findings = match severity {
            Severity::Error => &verdict.errors,
            Severity::Warning => &verdict.warnings,
        };
        for finding in findings {
            self.add_finding(id, severity, finding, has_details)?;
        }
        if verdict.others > 0 && severity_of_rest(verdict) == severity {
            self.add_rest(id, severity, verdict.others)?;
        }
        Ok(())
    }

    /// Adds whether a policy is accepted, and at which level.
    fn add_verdict(&mut self, answered: &Answered<'_>) -> Result<(), AllocError> {
        let verdict = &answered.verdict;
        self.begin_object()?;
        self.text_at("policyId", answered.given.policy.id.text.as_str())?;
        self.boolean_at("accepted", verdict.is_accepted)?;
        match verdict.requirement {
            Requirement::Unsaid => {}
            Requirement::NoLevel => self.null_at("level")?,
            Requirement::Level(level) => self.number_at("level", level.level as usize)?,
        }
        self.number_at("moreFindings", verdict.others)?;
        self.end_object()
    }

    /// Adds a member of this key, the verdict on data.
    pub fn add_data(&mut self, key: &str, verdict: &DataVerdict) -> Result<(), AllocError> {
        self.begin_object_at(key)?;
        self.boolean_at("conforms", verdict.is_accepted)?;
        self.number_at("count", verdict.entities)?;
        self.begin_list_at("errors")?;
        for finding in &verdict.findings {
            self.begin_object()?;
            self.add_detailed(Detailed {
                text: finding.text.as_str(),
                hint: finding.hint.as_str(),
                code: finding.code,
                severity: Severity::Error,
                place: Some(finding.place),
            })?;
            self.end_object()?;
        }
        self.end_list()?;
        self.end_object()
    }
}

/// The severity of the findings of a policy that are not listed: errors may be among them if the
/// policy is refused.
fn severity_of_rest(verdict: &Verdict) -> Severity {
    if verdict.is_accepted {
        Severity::Warning
    } else {
        Severity::Error
    }
}

/// The id of the policy that has a fault; empty if no policy alone has it.
fn id_of(it: &CallFault) -> &str {
    match &it.policy {
        Some(id) => id.as_str(),
        None => "",
    }
}

/// The answer of a call whose policies were judged, but those that are refused alone.
pub fn success(
    alloc: Global,
    all: &[Answered<'_>],
    refused: &Vec<CallFault>,
    has_details: bool,
) -> Result<String, AllocError> {
    let mut answer = Answer::begin(alloc, "success")?;
    answer.begin_list_at("validationErrors")?;
    for it in refused {
        answer.add_refused(it, has_details)?;
    }
    for it in all {
        answer.add_findings(it, Severity::Error, has_details)?;
    }
    answer.end_list()?;
    answer.begin_list_at("validationWarnings")?;
    for it in all {
        answer.add_findings(it, Severity::Warning, has_details)?;
    }
    answer.end_list()?;
    answer.begin_list_at("otherWarnings")?;
    answer.end_list()?;
    if has_details {
        answer.begin_list_at("policies")?;
        for it in refused {
            answer.add_refusal(it)?;
        }
        for it in all {
            answer.add_verdict(it)?;
        }
        answer.end_list()?;
    }
    answer.finish()
}

/// The answer of a call that cannot be answered, because of these faults.
pub fn failure(alloc: Global, faults: &Vec<CallFault>) -> Result<String, AllocError> {
    let mut answer = Answer::begin(alloc, "failure")?;
    answer.begin_list_at("errors")?;
    for fault in faults {
        answer.begin_object()?;
        answer.add_fault(fault)?;
        answer.text_at("of", fault.origin.word())?;
        if let Some(id) = &fault.policy {
            answer.text_at("policyId", id.as_str())?;
        }
        answer.end_object()?;
    }
    answer.end_list()?;
    answer.begin_list_at("warnings")?;
    answer.end_list()?;
    answer.finish()
}
