// Links of a call: each binds slots of its template to entities.
use crate::faults::policy_fault;
use crate::given::{Given, GivenPolicies, NOWHERE};
use crate::policies::{Part, PolicyReader};
use cedar_json::{FormError, Object, Value, entity_uid, items_of, text_of};
use cedar_types::base::EntityUID;
use cedar_verdicts::slots::{Bound, without_place};
use std::alloc::{AllocError, Global};
use std::rc::RcStr;

const NO_TEMPLATE: &str = "there is no template of its `templateId`";

const REFUSED_TEMPLATE: &str = "its template is refused";

const UNFIT: &str = "the link does not bind the slots of its template";

/// Reads an object that binds the keys `?principal` and `?resource`. It fails at another key, and
/// at a value that is no id.
fn read_bound(alloc: Global, values: &Value) -> Result<Bound, FormError> {
    let object = Object::of(values)?;
    object.allow(&["?principal", "?resource"])?;
    let principal = object.given("?principal");
    let resource = object.given("?resource");
    Ok(Bound {
        principal: read_uid(alloc, principal)?,
        resource: read_uid(alloc, resource)?,
    })
}

/// The id of a value, without its place, because the place is not in the text of the template.
fn read_uid(alloc: Global, value: Option<&Value>) -> Result<Option<EntityUID>, FormError> {
    let Some(value) = value else {
        return Ok(None);
    };
    let read = entity_uid(alloc, value)?;
    Ok(Some(without_place(alloc, &read)?))
}

impl PolicyReader<'_, '_> {
    /// Adds the policies that links make of templates.
    pub fn add_links(&self, given: &mut GivenPolicies, links: &Value) -> Result<(), FormError> {
        for link in items_of(links)? {
            self.add_link(given, link)?;
        }
        Ok(())
    }

    fn add_link(&self, given: &mut GivenPolicies, link: &Value) -> Result<(), FormError> {
        let object = Object::of(link)?;
        object.allow(&["templateId", "newId", "values"])?;
        let template = text_of(object.need("templateId")?)?;
        let id = text_of(object.need("newId")?)?;
        let values = object.need("values")?;
        let bound = read_bound(self.alloc, values)?;
        let name = RcStr::from_str(self.alloc, template)?;
        if given.refused_ids.contains(&name) {
            if given.note_id(self.alloc, id, NOWHERE)? {
                given.refuse_alone(self.alloc, id, NOWHERE, REFUSED_TEMPLATE)?;
            }
            return Ok(());
        }
        match self.link(given, &name, id, &bound)? {
            Ok(policy) => self.add(given, id, policy, Part::Policy)?,
            Err(why) => {
                let fault = policy_fault(self.alloc, id, NOWHERE, why)?;
                given.faults.push(fault)?;
            }
        }
        Ok(())
    }

    /// The policy that the link of an id makes of a template, which the link names by the
    /// template's id, or the reason that it makes none.
    fn link(
        &self,
        given: &GivenPolicies,
        template: &RcStr,
        id: &str,
        bound: &Bound,
    ) -> Result<Result<Given, &'static str>, AllocError> {
        let Some(template) = given.template(template) else {
            return Ok(Err(NO_TEMPLATE));
        };
        let examples = template.examples.clone()?;
        match bound.link(self.alloc, id, &template.policy)? {
            Some(policy) => Ok(Ok(Given { policy, examples })),
            None => Ok(Err(UNFIT)),
        }
    }
}
