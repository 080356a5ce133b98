//! The policies of a call, as they were read.
use crate::faults::{CallFault, policy_fault};
use cedar_types::base::{Loc, Template};
use std::alloc::{AllocError, Global};
use std::collections::{BTreeMap, BTreeSet};
use std::rc::RcStr;

const SAME_ID: &str = "another policy has this id";

/// The place of an element that has none in the text of a policy.
pub(crate) const NOWHERE: Loc = Loc { start: 0, end: 0 };

/// A policy of a call. Its places are in its own text or, if it is JSON, in its own object.
#[derive(Drop)]
pub struct Given {
    pub policy: Template,
    /// The text that hints take their examples from; empty if the policy is JSON.
    pub examples: RcStr,
}

/// The policies of a call that were read so far.
#[derive(Drop)]
pub struct GivenPolicies {
    pub policies: Vec<Given>,
    /// The faults of the policies that cannot be read. The call is not answered for them.
    pub faults: Vec<CallFault>,
    /// A fault for each policy that is too deep to be judged. It is refused alone.
    pub refused: Vec<CallFault>,
    pub(crate) ids: BTreeSet<RcStr>,
    /// The index in `policies` of each template.
    pub(crate) templates: BTreeMap<RcStr, usize>,
    /// The ids of the policies that are refused alone.
    pub(crate) refused_ids: BTreeSet<RcStr>,
}

impl GivenPolicies {
    pub(crate) fn new(alloc: Global) -> GivenPolicies {
        GivenPolicies {
            policies: Vec::new(alloc),
            faults: Vec::new(alloc),
            refused: Vec::new(alloc),
            ids: BTreeSet::new(alloc),
            templates: BTreeMap::new(alloc),
            refused_ids: BTreeSet::new(alloc),
        }
    }

    /// The template of this id, if it could be read.
    pub(crate) fn template(&self, id: &RcStr) -> Option<&Given> {
        let at = self.templates.get(id)?;
        self.policies.get(*at)
    }

    /// Adds a fault: the reason that the policy of this id cannot be judged.
    pub(crate) fn refuse(
        &mut self,
        alloc: Global,
        id: &str,
        policy: &Template,
        why: &str,
    ) -> Result<(), AllocError> {
        let place = policy.loc.unwrap_or(NOWHERE);
        self.faults.push(policy_fault(alloc, id, place, why)?)?;
        Ok(())
    }

    /// Refuses the policy of this id alone, because it is too deep.
    pub(crate) fn refuse_alone(
        &mut self,
        alloc: Global,
        id: &str,
        place: Loc,
        why: &str,
    ) -> Result<(), AllocError> {
        self.refused.push(policy_fault(alloc, id, place, why)?)?;
        let name = RcStr::from_str(alloc, id)?;
        self.refused_ids.insert(name)?;
        Ok(())
    }

    /// Notes the id of a policy. It is false, and a fault is added, if another policy has this id.
    pub(crate) fn note_id(
        &mut self,
        alloc: Global,
        id: &str,
        place: Loc,
    ) -> Result<bool, AllocError> {
        let name = RcStr::from_str(alloc, id)?;
        if self.ids.insert(name)? {
            return Ok(true);
        }
        self.faults.push(policy_fault(alloc, id, place, SAME_ID)?)?;
        Ok(false)
    }
}
