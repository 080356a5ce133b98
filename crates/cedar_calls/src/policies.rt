// Reads the policies of a call: a text of all, a list, an object by ids, or a policy set with
// static policies, templates and links.
use crate::depths::is_within;
use crate::faults::{CallFault, Origin, policy_fault};
use crate::given::{Given, GivenPolicies, NOWHERE};
use crate::nesting::{has_too_many_conditions, is_too_nested, is_value_too_nested};
use crate::schemas::text_at;
use cedar_findings::faults::TextFault;
use cedar_json::{FormError, Key, Object, Value, ValueKind, expected};
use cedar_types::base::{ExtensionSchemas, PolicyID, SlotId, Template};
use cedar_verdicts::policies::{Policies, Read};
use std::alloc::{AllocError, Global};
use std::rc::RcStr;

const NOT_ONE: &str = "one policy is expected";

const STATIC_SLOT: &str = "a policy with a slot has to stand among the templates";

const NO_SLOT: &str = "a template has a slot";

const TOO_DEEP: &str = "its condition is deeper than the `depth` of the call";

const TOO_NESTED: &str =
    "nested too deep for the `depth` of the call: too many brackets and operators inside each other";

/// The part of a policy set that a policy is of.
#[derive(Clone, Copy, PartialEq, Eq)]
pub enum Part {
    /// A static policy, or a link: it has no slot.
    Policy,
    /// A template: it has a slot.
    Template,
    /// A static policy, a link or a template.
    Any,
}

/// What was read of one policy.
#[derive(Drop)]
enum Reading {
    Policy(Given),
    Fault(TextFault),
    /// The policy nests too deep to be read.
    TooNested,
}

/// Reads the policies of a call.
#[derive(Clone, Copy)]
pub struct PolicyReader<'c, 'f> {
    pub alloc: Global,
    /// The text of the call.
    pub call: &'c str,
    pub functions: &'f ExtensionSchemas,
    /// The depth that a condition may have.
    pub depth: u32,
}

impl PolicyReader<'_, '_> {
    /// Reads the policies of a value, or gives the fault of its form. An element that is no policy
    /// is among the faults of the answer.
    pub fn read_all(&self, value: &Value) -> Result<GivenPolicies, FormError> {
        let mut given = GivenPolicies::new(self.alloc);
        let ValueKind::Object(_) = &value.kind else {
            self.add_static(&mut given, value)?;
            return Ok(given);
        };
        let set = Object::of(value)?;
        set.allow(&["staticPolicies", "templates", "templateLinks"])?;
        if let Some(policies) = set.given("staticPolicies") {
            self.add_static(&mut given, policies)?;
        }
        if let Some(templates) = set.given("templates") {
            let templates = Object::of(templates)?;
            self.add_named(&mut given, templates.entries, Part::Template)?;
        }
        if let Some(links) = set.given("templateLinks") {
            self.add_links(&mut given, links)?;
        }
        Ok(given)
    }

    /// The one policy of a value, under this id, or its fault. It may be a template.
    pub fn read_one(
        &self,
        id: &str,
        value: &Value,
    ) -> Result<Result<Given, Vec<CallFault>>, FormError> {
        let mut given = GivenPolicies::new(self.alloc);
        self.add_one(&mut given, id, value, Part::Any)?;
        match given.policies.pop() {
            Some(policy) => Ok(Ok(policy)),
            None if given.faults.is_empty() => Ok(Err(given.refused)),
            None => Ok(Err(given.faults)),
        }
    }

    /// Adds static policies: all of one text, or those of a list or an object.
    fn add_static(&self, given: &mut GivenPolicies, value: &Value) -> Result<(), FormError> {
        match &value.kind {
            ValueKind::Text(text) => Ok(self.add_text(given, text)?),
            ValueKind::Array(items) => self.add_listed(given, items.as_slice()),
            ValueKind::Object(entries) => {
                self.add_named(given, entries.as_slice(), Part::Policy)
            }
            _ => Err(expected(value, "a text, a list or an object of policies")),
        }
    }

    /// Adds policies by their ids.
    fn add_named(
        &self,
        given: &mut GivenPolicies,
        entries: &[(Key, Value)],
        part: Part,
    ) -> Result<(), FormError> {
        for (key, value) in entries {
            self.add_one(given, key.name.as_str(), value, part)?;
        }
        Ok(())
    }

    /// Adds the policies of a list, each with its number as its id.
    fn add_listed(&self, given: &mut GivenPolicies, items: &[Value]) -> Result<(), FormError> {
        for (number, item) in items.iter().enumerate() {
            let alloc = self.alloc;
            let id = format!(in alloc; "policy{number}")?;
            self.add_one(given, id.as_str(), item, Part::Policy)?;
        }
        Ok(())
    }

    /// Adds the policies of one text in Cedar's own syntax, each with its number as its id.
    fn add_text(&self, given: &mut GivenPolicies, text: &RcStr) -> Result<(), AllocError> {
        if is_too_nested(self.alloc, text.as_str(), self.depth)? {
            let fault = self.fault(TOO_NESTED)?;
            given
                .faults
                .push(CallFault::of_text(Origin::Policies, fault))?;
            return Ok(());
        }
        let mut read = match Policies::of_text(self.alloc, self.functions, text.as_str())? {
            Ok(read) => read,
            Err(fault) => {
                given
                    .faults
                    .push(CallFault::of_text(Origin::Policies, fault))?;
                return Ok(());
            }
        };
        for number in 0..read.most() {
            let Some(next) = read.give(self.alloc, self.functions)? else {
                break;
            };
            self.add_numbered(given, number, next, text)?;
        }
        Ok(())
    }

    fn add_numbered(
        &self,
        given: &mut GivenPolicies,
        number: usize,
        read: Read,
        text: &RcStr,
    ) -> Result<(), AllocError> {
        let alloc = self.alloc;
        let id = format!(in alloc; "policy{number}")?;
        match read {
            Read::Fault(fault) => {
                given
                    .faults
                    .push(CallFault::of_policy(alloc, id.as_str(), fault)?)?;
                Ok(())
            }
            Read::Policy(policy, _marks) => {
                let examples = text.clone()?;
                self.add(given, id.as_str(), Given { policy, examples }, Part::Policy)
            }
        }
    }

    /// Adds the one policy that a value is.
    fn add_one(
        &self,
        given: &mut GivenPolicies,
        id: &str,
        value: &Value,
        part: Part,
    ) -> Result<(), FormError> {
        let read = match &value.kind {
            ValueKind::Text(text) => self.only_of_text(text)?,
            _ => self.only_of_json(value)?,
        };
        match read {
            Reading::Policy(policy) => self.add(given, id, policy, part)?,
            Reading::Fault(TextFault { place, text }) => {
                let fault = policy_fault(self.alloc, id, place, text.as_str())?;
                given.faults.push(fault)?;
            }
            Reading::TooNested => {
                if given.note_id(self.alloc, id, NOWHERE)? {
                    given.refuse_alone(self.alloc, id, NOWHERE, TOO_NESTED)?;
                }
            }
        }
        Ok(())
    }

    fn only_of_text(&self, text: &RcStr) -> Result<Reading, AllocError> {
        if is_too_nested(self.alloc, text.as_str(), self.depth)? {
            return Ok(Reading::TooNested);
        }
        match Policies::of_text(self.alloc, self.functions, text.as_str())? {
            Ok(policies) => self.only_of(policies, text.clone()?),
            Err(fault) => Ok(Reading::Fault(fault)),
        }
    }

    fn only_of_json(&self, value: &Value) -> Result<Reading, FormError> {
        let object = Object::of(value)?;
        object.need("effect")?;
        if has_too_many_conditions(object, self.depth)
            || is_value_too_nested(self.alloc, value, self.depth)?
        {
            return Ok(Reading::TooNested);
        }
        let text = text_at(self.call, value.place);
        match Policies::of_json(self.alloc, self.functions, text)? {
            Ok(policies) => {
                let examples = RcStr::from_str(self.alloc, "")?;
                Ok(self.only_of(policies, examples)?)
            }
            Err(fault) => Ok(Reading::Fault(fault)),
        }
    }

    /// The only policy of these, or a fault if there is none, if there is more than one, or if the
    /// first cannot be read.
    fn only_of(&self, mut policies: Policies<'_>, examples: RcStr) -> Result<Reading, AllocError> {
        let policy = match policies.give(self.alloc, self.functions)? {
            Some(Read::Policy(policy, _marks)) => policy,
            Some(Read::Fault(fault)) => return Ok(Reading::Fault(fault)),
            None => return Ok(Reading::Fault(self.fault(NOT_ONE)?)),
        };
        match policies.give(self.alloc, self.functions)? {
            None => Ok(Reading::Policy(Given { policy, examples })),
            Some(_other) => Ok(Reading::Fault(self.fault(NOT_ONE)?)),
        }
    }

    /// A fault without a place.
    fn fault(&self, why: &str) -> Result<TextFault, AllocError> {
        Ok(TextFault {
            place: NOWHERE,
            text: String::from_str(self.alloc, why)?,
        })
    }

    /// Adds a policy of this part under this id, or the reason that it cannot be judged. A policy
    /// that is too deep is refused alone.
    pub fn add(
        &self,
        given: &mut GivenPolicies,
        id: &str,
        mut added: Given,
        part: Part,
    ) -> Result<(), AllocError> {
        let place = added.policy.loc.unwrap_or(NOWHERE);
        if !given.note_id(self.alloc, id, place)? {
            return Ok(());
        }
        if !is_within(self.alloc, &added.policy, self.depth)? {
            return given.refuse_alone(self.alloc, id, place, TOO_DEEP);
        }
        if let Some(why) = self.why_refused(&added.policy, part)? {
            return given.refuse(self.alloc, id, &added.policy, why);
        }
        added.policy.id = PolicyID::from_string(self.alloc, id)?;
        if part == Part::Template {
            let name = RcStr::from_str(self.alloc, id)?;
            let at = given.policies.len();
            given.templates.insert(name, at)?;
        }
        given.policies.push(added)?;
        Ok(())
    }

    /// The reason that a policy cannot be judged as one of this part, if there is one.
    fn why_refused(
        &self,
        policy: &Template,
        part: Part,
    ) -> Result<Option<&'static str>, AllocError> {
        let has_slot = has_slot(self.alloc, policy)?;
        match part {
            Part::Policy if has_slot => Ok(Some(STATIC_SLOT)),
            Part::Template if !has_slot => Ok(Some(NO_SLOT)),
            _ => Ok(None),
        }
    }
}

/// Whether a policy has a slot.
fn has_slot(alloc: Global, policy: &Template) -> Result<bool, AllocError> {
    if policy.mentions_slot(alloc, SlotId::Principal)? {
        return Ok(true);
    }
    policy.mentions_slot(alloc, SlotId::Resource)
}
