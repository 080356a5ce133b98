//! Faults of calls: each says the text of the call that it is of, and the policy, if it is of one.
use cedar_findings::faults::{TextFault, Written};
use cedar_findings::json_faults::form_fault;
use cedar_json::FormError;
use cedar_types::base::Loc;
use std::alloc::{AllocError, Global};
use std::rc::RcStr;

/// The text of a call that a fault is of, which has the fault's place.
#[derive(Clone, Copy, PartialEq, Eq, Debug)]
pub enum Origin {
    /// The call itself, as a text of JSON.
    Call,
    Schema,
    /// The text of all policies, or of one.
    Policies,
}

impl Origin {
    /// The word for this text in an answer.
    pub fn word(self) -> &'static str {
        match self {
            Origin::Call => "call",
            Origin::Schema => "schema",
            Origin::Policies => "policies",
        }
    }
}

/// A fault of a call.
#[derive(Drop)]
pub struct CallFault {
    pub origin: Origin,
    /// The id of the policy that has the fault; none if no policy alone has it.
    pub policy: Option<RcStr>,
    pub fault: TextFault,
}

impl CallFault {
    /// The fault of a text as a whole.
    pub(crate) fn of_text(origin: Origin, fault: TextFault) -> CallFault {
        CallFault {
            origin,
            policy: None,
            fault,
        }
    }

    /// The fault of the policy of this id.
    pub(crate) fn of_policy(
        alloc: Global,
        id: &str,
        fault: TextFault,
    ) -> Result<CallFault, AllocError> {
        Ok(CallFault {
            origin: Origin::Policies,
            policy: Some(RcStr::from_str(alloc, id)?),
            fault,
        })
    }
}

/// The only fault of a text that is no call. It fails if the error is refused memory.
pub(crate) fn only_fault(
    alloc: Global,
    call: &str,
    error: FormError,
) -> Result<Vec<CallFault>, AllocError> {
    let fault = form_fault(alloc, Written::Policies, call, error)?;
    let mut faults = Vec::new(alloc);
    faults.push(CallFault::of_text(Origin::Call, fault))?;
    Ok(faults)
}

/// Faults of the schema, as faults of its call.
pub(crate) fn schema_faults(
    alloc: Global,
    found: Vec<TextFault>,
) -> Result<Vec<CallFault>, AllocError> {
    let mut faults = Vec::new(alloc);
    for fault in found {
        faults.push(CallFault::of_text(Origin::Schema, fault))?;
    }
    Ok(faults)
}

/// A fault of the policy of this id, at a place of the policy's own text.
pub(crate) fn policy_fault(
    alloc: Global,
    id: &str,
    place: Loc,
    why: &str,
) -> Result<CallFault, AllocError> {
    let text = format!(in alloc; "policy `{id}`: {why}")?;
    CallFault::of_policy(alloc, id, TextFault { place, text })
}

/// Adds faults behind others.
pub(crate) fn add_all(faults: &mut Vec<CallFault>, more: Vec<CallFault>) -> Result<(), AllocError> {
    for fault in more {
        faults.push(fault)?;
    }
    Ok(())
}
