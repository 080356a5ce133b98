// Admission of policies, requests and entities.
use crate::embedding::policies::{by_its_contact, of_one_user, unguarded};
use crate::embedding::schemas::documents;
use cedar_conformance::entities::{Entities, Entity};
use cedar_conformance::policies::PolicyFault;
use cedar_conformance::premises::PremiseFault;
use cedar_conformance::requests::{Request, RequestFault};
use cedar_conformance::schemas::has_external;
use cedar_conformance::values::{Record, Value};
use cedar_host::accepted::AcceptedPolicies;
use cedar_host::admission::{AdmissionFault, LinkedTemplate, admit, validate_and_admit};
use cedar_host::checked::CheckedStore;
use cedar_host::safety::SoundMode;
use cedar_typechecker::rbac::Validator;
use cedar_types::base::{
    ArgumentCheck, EntityType, EntityUID, ExtensionSchemas, Name, SchemaError, SlotEnv, SlotId,
    Template,
};
use std::alloc::{AllocError, Global};
use std::collections::BTreeMap;
use std::process::Abort;
use std::rc::RcStr;
use std::test::Fail;

fn id(alloc: Global, type_name: &str, eid: &str) -> Result<EntityUID, AllocError> {
    let entity_type = EntityType::from(Name::unqualified_name(alloc, type_name)?);
    EntityUID::from_components(alloc, entity_type, eid, None)
}

/// The record that has alice as its contact.
fn of_alice(alloc: Global) -> Result<Record, AllocError> {
    let mut attributes = BTreeMap::new(alloc);
    let alice = Value::EntityUID(id(alloc, "User", "alice")?);
    attributes.insert(RcStr::from_str(alloc, "contact")?, alice)?;
    Ok(attributes)
}

/// Alice, a plan, and the actions.
fn entities(alloc: Global) -> Result<Entities, AllocError> {
    let mut all = Entities::new(alloc);
    let mut alice = Entity::bare(alloc);
    alice.attributes = of_alice(alloc)?;
    let address = Value::extension(alloc, Name::unqualified_name(alloc, "ipaddr")?, "10.0.0.1")?;
    alice
        .attributes
        .insert(RcStr::from_str(alloc, "address")?, address)?;
    all.add(id(alloc, "User", "alice")?, alice)?;
    let mut plan = Entity::bare(alloc);
    plan.attributes = of_alice(alloc)?;
    all.add(id(alloc, "Document", "plan")?, plan)?;
    all.add(id(alloc, "Action", "view")?, Entity::bare(alloc))?;
    all.add(id(alloc, "Action", "share")?, Entity::bare(alloc))?;
    Ok(all)
}

/// A request to view the plan.
fn view_by(alloc: Global, principal: EntityUID) -> Result<Request, AllocError> {
    Ok(Request {
        principal,
        action: id(alloc, "Action", "view")?,
        resource: id(alloc, "Document", "plan")?,
        context: BTreeMap::new(alloc),
    })
}

/// The answer on one policy that is accepted for slices of one step, in a view by this principal.
fn admitted<'a, C: ArgumentCheck>(
    alloc: Global,
    validator: &'a Validator<'a, C>,
    policy: LinkedTemplate<'a>,
    principal: EntityUID,
) -> Result<Result<(), PremiseFault>, AllocError> {
    let mut policies = AcceptedPolicies::new(alloc, validator, SoundMode::Strict, 1);
    let _added = policies.add(alloc, policy)?;
    let request = view_by(alloc, principal)?;
    let entities = entities(alloc)?;
    let answer = admit(alloc, &policies, &request, &entities)?;
    Ok(answer)
}

/// The answer on the policy of documents by their contact, in a view by this principal.
fn by_contact_admitted(
    alloc: Global,
    principal: EntityUID,
) -> Result<Result<(), PremiseFault>, SchemaError> {
    let template = by_its_contact(alloc)?;
    let extensions = ExtensionSchemas::default(alloc);
    let validator = Validator::new(documents(alloc)?, &extensions);
    let values: SlotEnv = BTreeMap::new(alloc);
    let policy = LinkedTemplate {
        template: &template,
        values: &values,
    };
    let answer = admitted(alloc, &validator, policy, principal)?;
    Ok(answer)
}

/// The fault of a request whose principals are of a type to which its action does not apply.
fn of_a_document(alloc: Global) -> Result<RequestFault, AllocError> {
    let found = EntityType::from(Name::unqualified_name(alloc, "Document")?);
    Ok(RequestFault::PrincipalType(found))
}

#[test]
fn what_conforms_is_let_in(rt: HostRuntime) -> Result<(), Fail> {
    let alloc = rt.alloc();
    let alice = id(alloc, "User", "alice")?;
    let answer = by_contact_admitted(alloc, alice)?;
    assert_eq!(rt; answer, Ok(()));
    Ok(())
}

#[test]
fn a_request_that_does_not_conform_is_not_let_in(rt: HostRuntime) -> Result<(), Fail> {
    let alloc = rt.alloc();
    let plan = id(alloc, "Document", "plan")?;
    let answer = by_contact_admitted(alloc, plan)?;
    assert_eq!(rt; answer, Err(PremiseFault::Request(of_a_document(alloc)?)));
    Ok(())
}

/// Adds the template with these links to no other policies, and checks the answer and the number of policies then.
fn adds<'a, C: ArgumentCheck>(
    rt: &impl Abort,
    alloc: Global,
    validator: &'a Validator<'a, C>,
    policy: LinkedTemplate<'a>,
    wanted: Result<(), AdmissionFault>,
) -> Result<(), AllocError> {
    let mut policies = AcceptedPolicies::new(alloc, validator, SoundMode::Strict, 1);
    let length = if wanted.is_ok() { 1 } else { 0 };
    assert_eq!(rt; policies.add(alloc, policy)?, wanted);
    assert_eq!(rt; policies.policies().len(), length);
    assert_eq!(rt; has_external(alloc, policies.schema())?, false);
    Ok(())
}

#[test]
fn only_accepted_policies_are_added(rt: HostRuntime) -> Result<(), Fail> {
    let alloc = rt.alloc();
    let (by_contact, refused) = (by_its_contact(alloc)?, unguarded(alloc)?);
    let extensions = ExtensionSchemas::default(alloc);
    let validator = Validator::new(documents(alloc)?, &extensions);
    let values: SlotEnv = BTreeMap::new(alloc);
    let policy = LinkedTemplate {
        template: &by_contact,
        values: &values,
    };
    adds(&rt, alloc, &validator, policy, Ok(()))?;
    let refusal = Err(AdmissionFault::NotAccepted(refused.id.clone()?));
    let policy = LinkedTemplate {
        template: &refused,
        values: &values,
    };
    adds(&rt, alloc, &validator, policy, refusal)?;
    Ok(())
}

/// Links that bind the principal's slot to alice.
fn to_alice(alloc: Global) -> Result<SlotEnv, AllocError> {
    let mut values = BTreeMap::new(alloc);
    values.insert(SlotId::Principal, id(alloc, "User", "alice")?)?;
    Ok(values)
}

#[test]
fn a_template_is_added_with_its_links_alone(rt: HostRuntime) -> Result<(), Fail> {
    let alloc = rt.alloc();
    let template = of_one_user(alloc)?;
    let extensions = ExtensionSchemas::default(alloc);
    let validator = Validator::new(documents(alloc)?, &extensions);
    let no_links: SlotEnv = BTreeMap::new(alloc);
    let links = to_alice(alloc)?;
    let fault = PolicyFault::UnboundSlot(SlotId::Principal);
    let refusal = Err(AdmissionFault::Policy(template.id.clone()?, fault));
    let policy = LinkedTemplate {
        template: &template,
        values: &no_links,
    };
    adds(&rt, alloc, &validator, policy, refusal)?;
    let policy = LinkedTemplate {
        template: &template,
        values: &links,
    };
    adds(&rt, alloc, &validator, policy, Ok(()))?;
    Ok(())
}

/// The answers on a view over the store by each of two principals.
fn views_are_let_in<C: ArgumentCheck>(
    rt: &impl Abort,
    alloc: Global,
    store: &CheckedStore<'_, '_, '_, C>,
) -> Result<(), AllocError> {
    let request = view_by(alloc, id(alloc, "User", "alice")?)?;
    assert_eq!(rt; store.admit(alloc, &request)?, Ok(()));
    let request = view_by(alloc, id(alloc, "Document", "plan")?)?;
    assert_eq!(rt; store.admit(alloc, &request)?, Err(of_a_document(alloc)?));
    Ok(())
}

/// The number of faults of these entities, if they have any; if they have none, views over them are let in.
fn faults_or_views<C: ArgumentCheck>(
    rt: &impl Abort,
    alloc: Global,
    policies: &AcceptedPolicies<'_, C>,
    entities: &Entities,
) -> Result<Option<usize>, AllocError> {
    match CheckedStore::check(alloc, policies, entities)? {
        Ok(store) => {
            views_are_let_in(rt, alloc, &store)?;
            Ok(None)
        }
        Err(PremiseFault::Entities(faults)) => Ok(Some(faults.len())),
        Err(_other) => Ok(Some(0)),
    }
}

fn let_in_over<'a, C: ArgumentCheck>(
    rt: &impl Abort,
    alloc: Global,
    validator: &'a Validator<'a, C>,
    entities: &Entities,
) -> Result<Option<usize>, AllocError> {
    let policies = AcceptedPolicies::new(alloc, validator, SoundMode::Strict, 1);
    let found = faults_or_views(rt, alloc, &policies, entities)?;
    Ok(found)
}

#[test]
fn requests_are_let_in_over_a_store_that_was_checked(rt: HostRuntime) -> Result<(), Fail> {
    let alloc = rt.alloc();
    let extensions = ExtensionSchemas::default(alloc);
    let validator = Validator::new(documents(alloc)?, &extensions);
    let entities = entities(alloc)?;
    assert_eq!(rt; let_in_over(&rt, alloc, &validator, &entities)?, None);
    // the two actions are missing
    let none = Entities::new(alloc);
    assert_eq!(rt; let_in_over(&rt, alloc, &validator, &none)?, Some(2));
    Ok(())
}

/// The answer on a policy that is validated at once, for slices of `steps` steps, in a view by alice.
fn validated(
    alloc: Global,
    template: &Template,
    steps: u32,
) -> Result<Result<(), AdmissionFault>, SchemaError> {
    let extensions = ExtensionSchemas::default(alloc);
    let validator = Validator::new(documents(alloc)?, &extensions);
    let values: SlotEnv = BTreeMap::new(alloc);
    let policy = LinkedTemplate {
        template,
        values: &values,
    };
    let request = view_by(alloc, id(alloc, "User", "alice")?)?;
    let entities = entities(alloc)?;
    let mode = SoundMode::Strict;
    Ok(validate_and_admit(alloc, &validator, mode, steps, &policy, &request, &entities)?)
}

/// Checks that a policy is refused by its validation.
fn is_refused(
    rt: &impl Abort,
    alloc: Global,
    template: &Template,
    steps: u32,
) -> Result<(), SchemaError> {
    let answer = validated(alloc, template, steps)?;
    let id = template.id.clone()?;
    assert_eq!(rt; answer, Err(AdmissionFault::NotAccepted(id)));
    Ok(())
}

#[test]
fn a_policy_is_let_in_where_it_is_accepted(rt: HostRuntime) -> Result<(), Fail> {
    let alloc = rt.alloc();
    let by_contact = by_its_contact(alloc)?;
    assert_eq!(rt; validated(alloc, &by_contact, 1)?, Ok(()));
    is_refused(&rt, alloc, &by_contact, 0)?;
    is_refused(&rt, alloc, &unguarded(alloc)?, 1)?;
    Ok(())
}
