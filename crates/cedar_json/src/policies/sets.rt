// Policies of a text, read one after another.
use crate::cursor::Cursor;
use crate::forms::{FormError, FormFault, Object, annotation_of, expected, items_of, text_of};
use crate::parts::value_at;
use crate::policies::entities::Slots;
use crate::policies::outline::{ENTRY_DEPTH, INNER_DEPTH, Outline, Places};
use crate::policies::templates::{ReadPolicy, policy};
use crate::values::{Key, MAX_DEPTH, Value};
use crate::whole::value_alone;
use cedar_types::base::{Loc, PolicyID};
use std::alloc::{AllocError, Global};
use std::collections::BTreeMap;
use std::rc::RcStr;

/// The policies of a text: one policy, a list of policies, an object of policies by their ids, or a
/// policy set with `staticPolicies`, `templates` and `templateLinks`. The reader reads each policy
/// when it is asked for, and then drops its tree.
#[derive(Drop)]
pub struct Policies<'a> {
    alloc: Global,
    text: &'a str,
    /// The byte at which the value of the text begins.
    start: usize,
    kind: Kind,
    outline: Outline,
    /// The number of the entry of `templates` for each key.
    templates: BTreeMap<RcStr, usize>,
    /// The number of policies that were read.
    count: usize,
}

/// The form of the policies of a text.
#[derive(Clone, Copy, PartialEq, Eq, Debug)]
enum Kind {
    One,
    List,
    ById,
    Set,
}

impl<'a> Policies<'a> {
    /// Begins to read the policies of a text. Fails if the text is not JSON, or has none of the
    /// forms. A policy that is nested too deep is a fault of `next_policy`.
    pub fn new(alloc: Global, text: &'a str) -> Result<Policies<'a>, FormError> {
        let mut cursor = Cursor::new(alloc, text)?;
        cursor.pass_blanks();
        let start = cursor.at;
        if !matches!(cursor.peek(), Some(b'[') | Some(b'{')) {
            return Err(expected(&value_alone(alloc, text)?, "an object"));
        }
        let outline = Outline::read(&mut cursor)?;
        let kind = kind_of(text, start, &outline);
        let templates = numbers_of(alloc, &outline.templates)?;
        let policies = Policies {
            alloc,
            text,
            start,
            kind,
            outline,
            templates,
            count: 0,
        };
        if kind == Kind::Set {
            policies.check_set()?;
        }
        Ok(policies)
    }

    /// Fails if a part of a set has another form.
    fn check_set(&self) -> Result<(), FormError> {
        for (key, _) in &self.outline.entries {
            if !PARTS.iter().any(|part| *part == key.name.as_str()) {
                return Err(FormError::At(key.place.start, FormFault::UnknownKey));
            }
        }
        for key in ["templates", "staticPolicies"] {
            if let Some(part) = self.part_of_other_form(key, b'{')? {
                Object::of(&part)?;
            }
        }
        if let Some(part) = self.part_of_other_form("templateLinks", b'[')? {
            items_of(&part)?;
        }
        Ok(())
    }

    /// Returns the part of a set at this key, if it is there and does not begin with this bracket.
    fn part_of_other_form(&self, key: &str, bracket: u8) -> Result<Option<Value>, FormError> {
        for (own, start) in &self.outline.entries {
            if own.name.as_str() == key && byte_at(self.text, *start) != Some(bracket) {
                return Ok(Some(self.read_at(*start, ENTRY_DEPTH)?));
            }
        }
        Ok(None)
    }

    /// Reads the next policy, or its first fault; `None` after the last policy. The place of a
    /// policy is its own part of the text; the place of a link is that of the link. A link is read
    /// as its template with its slots bound.
    ///
    /// The id of a policy is its key, and the id of a link is its `newId`. Any other policy has the
    /// text of its annotation `id`, or else `policy` and the number of policies before it.
    pub fn next_policy(&mut self) -> Option<Result<ReadPolicy, FormError>> {
        let number = self.count;
        self.count = number.saturating_add(1);
        match self.policy_at(number) {
            Ok(Some(read)) => Some(Ok(read)),
            Ok(None) => None,
            Err(error) => Some(Err(error)),
        }
    }

    /// Reads the policy of this number, if there is one.
    fn policy_at(&self, number: usize) -> Result<Option<ReadPolicy>, FormError> {
        match self.kind {
            Kind::One if number == 0 => {
                let body = self.read_at(self.start, MAX_DEPTH)?;
                Ok(Some(self.unnamed(&body, number)?))
            }
            Kind::One => Ok(None),
            Kind::List => self.listed_at(number),
            Kind::ById => self.named_at(self.outline.entries.as_slice(), number, ENTRY_DEPTH),
            Kind::Set => self.policy_of_set(number),
        }
    }

    /// Reads the policy of this number of a list.
    fn listed_at(&self, number: usize) -> Result<Option<ReadPolicy>, FormError> {
        let Some(start) = self.outline.items.get(number) else {
            return Ok(None);
        };
        let body = self.read_at(*start, ENTRY_DEPTH)?;
        Ok(Some(self.unnamed(&body, number)?))
    }

    /// Reads the policy of this number of a set: static policies first, then templates, then links.
    fn policy_of_set(&self, number: usize) -> Result<Option<ReadPolicy>, FormError> {
        let fixed = self.outline.fixed.as_slice();
        let Some(behind_fixed) = number.checked_sub(fixed.len()) else {
            return self.named_at(fixed, number, INNER_DEPTH);
        };
        let templates = self.outline.templates.as_slice();
        let Some(behind_templates) = behind_fixed.checked_sub(templates.len()) else {
            return self.named_at(templates, behind_fixed, INNER_DEPTH);
        };
        let Some(start) = self.outline.links.get(behind_templates) else {
            return Ok(None);
        };
        let link = self.read_at(*start, INNER_DEPTH)?;
        Ok(Some(self.link(&link)?))
    }

    /// Reads the policy of an entry, whose key is its id.
    fn named_at(
        &self,
        entries: &[(Key, usize)],
        at: usize,
        left: usize,
    ) -> Result<Option<ReadPolicy>, FormError> {
        let Some((key, start)) = entries.get(at) else {
            return Ok(None);
        };
        let body = self.read_at(*start, left)?;
        let id = PolicyID::from_string(self.alloc, key.name.as_str())?;
        let place = Loc {
            start: key.place.start,
            end: body.place.end,
        };
        Ok(Some(policy(self.alloc, &Slots::Open, id, &body, place)?))
    }

    /// Reads a policy without a key.
    fn unnamed(&self, body: &Value, number: usize) -> Result<ReadPolicy, FormError> {
        let id = policy_id(self.alloc, annotated_id(body)?, number)?;
        policy(self.alloc, &Slots::Open, id, body, body.place)
    }

    /// Reads a link: the template that it names, with its slots bound.
    fn link(&self, link: &Value) -> Result<ReadPolicy, FormError> {
        let object = Object::of(link)?;
        object.allow(&["templateId", "newId", "values"])?;
        let of = object.need("templateId")?;
        let id = text_of(object.need("newId")?)?;
        let slots = Slots::of_link(self.alloc, object.need("values")?)?;
        let name = RcStr::from_str(self.alloc, text_of(of)?)?;
        let at = self.templates.get(&name).copied();
        let Some((_, start)) = at.and_then(|at| self.outline.templates.get(at)) else {
            return Err(FormError::At(of.place.start, FormFault::Undeclared));
        };
        let body = self.read_at(*start, INNER_DEPTH)?;
        let id = PolicyID::from_string(self.alloc, id)?;
        policy(self.alloc, &slots, id, &body, link.place)
    }

    /// Reads the value that begins at `start`, in which at most `left` objects and arrays may stand
    /// inside each other.
    fn read_at(&self, start: usize, left: usize) -> Result<Value, FormError> {
        Ok(value_at(self.alloc, self.text, start, left)?)
    }
}

/// The keys of a policy set.
const PARTS: [&str; 3] = ["staticPolicies", "templates", "templateLinks"];

/// Returns the form of the policies of a text, whose value begins at `start`.
fn kind_of(text: &str, start: usize, outline: &Outline) -> Kind {
    if byte_at(text, start) == Some(b'[') {
        Kind::List
    } else if PARTS.iter().any(|part| has_key(outline, part)) {
        Kind::Set
    } else if has_key(outline, "effect") {
        Kind::One
    } else {
        Kind::ById
    }
}

/// Returns the number of the entry for each key.
fn numbers_of(alloc: Global, entries: &Places) -> Result<BTreeMap<RcStr, usize>, AllocError> {
    let mut numbers = BTreeMap::new(alloc);
    for (at, (key, _)) in entries.iter().enumerate() {
        drop(numbers.insert(key.name.clone()?, at)?);
    }
    Ok(numbers)
}

fn byte_at(text: &str, at: usize) -> Option<u8> {
    text.as_bytes().get(at).copied()
}

/// Returns whether the text has an entry of this key.
fn has_key(outline: &Outline, key: &str) -> bool {
    outline
        .entries
        .iter()
        .any(|(own, _)| own.name.as_str() == key)
}

/// Returns the annotation `id` of a policy, if it is there.
fn annotated_id(body: &Value) -> Result<Option<&str>, FormError> {
    let Some(annotations) = Object::of(body)?.given("annotations") else {
        return Ok(None);
    };
    match Object::of(annotations)?.get("id") {
        Some(id) => Ok(Some(annotation_of(id)?)),
        None => Ok(None),
    }
}

fn policy_id(alloc: Global, given: Option<&str>, number: usize) -> Result<PolicyID, AllocError> {
    match given {
        Some(given) => PolicyID::from_string(alloc, given),
        None => {
            let id = format!(in alloc; "policy{number}")?;
            PolicyID::from_string(alloc, id.as_str())
        }
    }
}
