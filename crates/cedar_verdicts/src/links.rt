//! Links of templates in a file of their own: a list of objects with `template_id`, `link_id` and `args`.
ghost use Rattle.std.specs.Prelude.{false, IfOk};
ghost use Rattle.cedar_types.specs.Templates.{template_of};
ghost use Rattle.cedar_verdicts.specs.Verdicts.{basis_of, IsRightVerdict, IsWholeVerdict};

use crate::link_faults::LinkFaults;
use crate::settings::Settings;
use crate::slots::{Bound, has_slots, without_place};
use crate::verdicts::judge_in_set;
use cedar_findings::faults::Written;
use cedar_findings::findings::Verdict;
use cedar_findings::json_faults::form_fault;
use cedar_findings::marks::marked_parts;
use cedar_findings::search_room::SearchRoom;
use cedar_findings::syntaxes::Syntax;
use cedar_json::{FormError, Items, Object, Value, expected, items_of, text_of, value_alone};
use cedar_reading::{ReadError, uid_alone};
use cedar_types::base::{ArgumentCheck, EntityUID, Loc, Template};
use std::alloc::{AllocError, Global};
use std::collections::BTreeMap;
use std::rc::RcStr;

/// The expected form of a slot's value.
const ID: &str = "a text such as `User::\"alice\"`";

/// The state of a link so far.
#[derive(Clone, Copy, PartialEq, Eq)]
enum State {
    /// No policy has the id of the link's template.
    Waiting,
    Linked,
    /// The policy with the id of the link's template has no slots.
    NoTemplate,
    /// The link's template lacks a slot that the link binds, or has one that it does not bind.
    Unfit,
    /// A policy or an earlier link has the id of the link.
    Taken,
}

/// A text of the file, with its place.
#[derive(Drop)]
struct Word {
    text: RcStr,
    place: Loc,
}

/// A link: its own id, the id of its template, and the entities that its slots are bound to.
#[derive(Drop)]
struct Link {
    id: Word,
    template: Word,
    bound: Bound,
    state: State,
}

/// The links of a text, in its order, and the faults of its items that are no links.
#[derive(Drop)]
pub struct Links {
    links: Vec<Link>,
    /// The number of the first link of each id.
    by_id: BTreeMap<RcStr, usize>,
    /// The numbers of the links of each template that was not met yet.
    by_template: BTreeMap<RcStr, Vec<usize>>,
    faults: LinkFaults,
}

impl Links {
    /// No links.
    pub fn none(alloc: Global) -> Links {
        Links {
            links: Vec::new(alloc),
            by_id: BTreeMap::new(alloc),
            by_template: BTreeMap::new(alloc),
            faults: LinkFaults::none(alloc),
        }
    }

    /// The links of a text. An item that is no link is a fault, and costs itself alone. If the text is no JSON, the links before
    /// the fault are kept. If memory is refused, the answer is an `AllocError`.
    pub fn read(alloc: Global, text: String) -> Result<Links, AllocError> {
        let mut links = Links::none(alloc);
        if let Err(error) = links.add_items(alloc, text.as_str()) {
            let fault = form_fault(alloc, Written::Policies, text.as_str(), error)?;
            links.faults.add(fault)?;
        }
        links.faults.text = text;
        Ok(links)
    }

    /// Adds the items of a list, up to the first fault of the text.
    fn add_items(&mut self, alloc: Global, text: &str) -> Result<(), FormError> {
        let Some(mut items) = Items::new(alloc, text)? else {
            items_of(&value_alone(alloc, text)?)?;
            return Ok(());
        };
        for _ in 0..text.len() {
            let Some(item) = items.next_item()? else {
                break;
            };
            self.add_item(alloc, text, &item)?;
        }
        Ok(())
    }

    /// Adds a link, or the fault of an item that is none.
    fn add_item(&mut self, alloc: Global, text: &str, item: &Value) -> Result<(), AllocError> {
        match read_link(alloc, item) {
            Ok(link) => self.add(alloc, link),
            Err(error) => {
                let fault = form_fault(alloc, Written::Policies, text, error)?;
                self.faults.add(fault)
            }
        }
    }

    fn add(&mut self, alloc: Global, mut link: Link) -> Result<(), AllocError> {
        let number = self.links.len();
        if self.by_id.get(&link.id.text).is_some() {
            link.state = State::Taken;
        } else {
            self.by_id.insert(link.id.text.clone()?, number)?;
        }
        match self.by_template.get_mut(&link.template.text) {
            Some(numbers) => numbers.push(number)?,
            None => {
                let numbers = vec![in alloc; number]?;
                self.by_template
                    .insert(link.template.text.clone()?, numbers)?;
            }
        }
        self.links.push(link)?;
        Ok(())
    }

    /// The numbers of the links that name this policy as their template, for the first policy of an id. Takes note of the id,
    /// because no link may have it.
    pub fn numbers_of(&mut self, alloc: Global, policy: &Template) -> Vec<usize> {
        let id = &policy.id.text;
        if let Some(number) = self.by_id.get(id) {
            if let Some(link) = self.links.get_mut(*number) {
                link.state = State::Taken;
            }
        }
        self.by_template.remove(id).unwrap_or(Vec::new(alloc))
    }

    /// The policy that the link of this number makes of its template, under its own id and at the template's place. It is
    /// `None` if the link makes no policy, and `into_faults` tells why.
    pub fn link(
        &mut self,
        alloc: Global,
        number: usize,
        template: &Template,
    ) -> Result<Option<Template>, AllocError> {
        let Some(link) = self.links.get_mut(number) else {
            return Ok(None);
        };
        if link.state != State::Waiting {
            return Ok(None);
        }
        if !has_slots(template) {
            link.state = State::NoTemplate;
            return Ok(None);
        }
        let made = link.bound.link(alloc, link.id.text.as_str(), template)?;
        link.state = if made.is_some() {
            State::Linked
        } else {
            State::Unfit
        };
        Ok(made)
    }

    /// The faults of the links after all policies are met: those of items that are no links, and one for each link that made no
    /// policy, or whose id a policy or an earlier link has.
    pub fn into_faults(self, alloc: Global) -> Result<LinkFaults, AllocError> {
        let Links {
            links,
            mut faults,
            ..
        } = self;
        let mut unmade = Vec::new(alloc);
        for link in &links {
            if let Some((word, why)) = link.fault() {
                unmade.push((word.place, why))?;
            }
        }
        faults.join(alloc, unmade.as_slice())?;
        Ok(faults)
    }
}

impl Link {
    /// The text of a link at which it has a fault, and the fault, if it has one.
    fn fault(&self) -> Option<(&Word, &'static str)> {
        match self.state {
            State::Linked => None,
            State::Waiting => Some((&self.template, "no policy has this id")),
            State::NoTemplate => {
                Some((
                    &self.template,
                    "the policy of this id has no slots, so it is no template",
                ))
            }
            State::Unfit => { Some((&self.id, "the link does not bind the slots of its template")) }
            State::Taken => Some((&self.id, "a policy or another link has this id")),
        }
    }
}

/// The verdict on a policy that links a template of this text, as `judge` gives it. Hints take their examples from the text,
/// unless the text is JSON, and search for near names in this room.
pub fn judge_link<C: ArgumentCheck>(
    alloc: Global,
    settings: &Settings<'_, C>,
    text: &str,
    policy: &Template,
    room: &mut SearchRoom,
) -> Result<Verdict, AllocError>
    ensures right { IfOk result (IsRightVerdict (basis_of C.refusal settings.now)
        settings.now.level (template_of policy.now)) }
    ensures whole { IfOk result (IsWholeVerdict (basis_of C.refusal settings.now)
        settings.now.level (template_of policy.now) false) }
{
    let examples = match settings.syntax.unwrap_or(Syntax::of(text)) {
        Syntax::Cedar => text,
        Syntax::Json => "",
    };
    let marks = marked_parts(alloc, policy)?;
    let marks = marks.as_slice();
    let verdict = judge_in_set(alloc, settings, examples, policy, marks, None, room)?;
    Ok(verdict)
}

fn read_link(alloc: Global, item: &Value) -> Result<Link, FormError> {
    let object = Object::of(item)?;
    object.allow(&["template_id", "link_id", "args"])?;
    let template = read_word(alloc, object.need("template_id")?)?;
    let id = read_word(alloc, object.need("link_id")?)?;
    let slots = Object::of(object.need("args")?)?;
    slots.allow(&["?principal", "?resource"])?;
    let bound = Bound {
        principal: read_uid(alloc, slots.get("?principal"))?,
        resource: read_uid(alloc, slots.get("?resource"))?,
    };
    Ok(Link {
        id,
        template,
        bound,
        state: State::Waiting,
    })
}

fn read_word(alloc: Global, value: &Value) -> Result<Word, FormError> {
    let text = RcStr::from_str(alloc, text_of(value)?)?;
    let place = value.place;
    Ok(Word { text, place })
}

/// The id that a text names, without a place, because its place is not one in the policies' file.
fn read_uid(alloc: Global, value: Option<&Value>) -> Result<Option<EntityUID>, FormError> {
    let Some(value) = value else {
        return Ok(None);
    };
    match uid_alone(alloc, text_of(value)?) {
        Ok(read) => Ok(Some(without_place(alloc, &read)?)),
        Err(ReadError::Memory(error)) => Err(FormError::Memory(error)),
        Err(ReadError::At(_, _)) => Err(expected(value, ID)),
    }
}
