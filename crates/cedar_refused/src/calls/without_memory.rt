// Calls that take no memory, made while each growth is refused.
use crate::calls::answers::{long, success};
use crate::calls::capabilities::having;
use crate::refusals::{refuse_all, was_refused};
use crate::samples::texts::{KNOWN, entities, entity_type, expression, policy, uid};
use crate::sweep::TAKES_NONE;
use cedar_typechecker::level_validate::{LevelErrors, LevelWarnings, attr_chain_cost_from_root};
use cedar_typechecker::rbac::Validator;
use cedar_types::base::{
    CedarType, EntityDerefLevel, Expr, ExtensionFunctionType, ExtensionSchemas, Literal, Name,
    Policy, ValidationMode, ValidatorSchema, Var,
};
use cedar_types::types::capability::{Capability, CapabilitySet};
use cedar_types::types::request_env::RequestEnv;
use cedar_typing::typecheck::Typechecker;
use cedar_typing::typecheck::answer::TypecheckAnswer;
use std::alloc::{AllocError, Global};
use std::collections::BTreeSet;
use std::rc::RcStr;

/// The outcome of calls: whether they answered as they should, and whether they asked for memory.
fn outcome(is_as_ever: bool, was_refused: bool) -> &'static str {
    match (is_as_ever, was_refused) {
        (true, false) => TAKES_NONE,
        (false, false) => "an answer is another",
        (true, true) => "memory was asked for",
        (false, true) => "memory was asked for, and an answer is another",
    }
}

/// The walk over a schema's environments, the links of their slots, and the parts of an environment.
pub fn environments(alloc: Global, schema: &ValidatorSchema) -> Result<&'static str, AllocError> {
    let user = entity_type(alloc, "User")?;
    let link = entity_type(alloc, "User")?;
    let photo = entity_type(alloc, "Photo")?;
    refuse_all(alloc);
    let mut envs = schema.unlinked_request_envs(ValidationMode::Partial);
    let mut is_as_ever = true;
    if let Some(env) = envs.next() {
        let linked = env.link(Some(link), None);
        is_as_ever = linked.principal_entity_type() == Some(&user)
            && linked.resource_entity_type() == Some(&photo)
            && linked.action_entity_uid().is_some()
            && linked.principal_slot() == Some(&user)
            && linked.resource_slot().is_none();
    }
    let second = envs.next();
    let third = envs.next();
    let is_last = envs.next().is_none();
    let was_refused = was_refused(alloc);
    let is_in_order = matches!(second, Some(RequestEnv::DeclaredAction { .. }))
        && matches!(third, Some(RequestEnv::UndeclaredAction))
        && is_last;
    Ok(outcome(is_as_ever && is_in_order, was_refused))
}

/// A schema's look-ups, the checker, and the schema that declares nothing.
pub fn look_ups(alloc: Global, schema: &ValidatorSchema) -> Result<&'static str, AllocError> {
    let user = entity_type(alloc, "User")?;
    let action = entity_type(alloc, "Action")?;
    let nobody = entity_type(alloc, "Nobody")?;
    let (view, gone) = (
        uid(alloc, r#"Action::"view""#)?,
        uid(alloc, r#"Action::"gone""#)?,
    );
    let (users, photos) = (entities(alloc, "User")?, entities(alloc, "Photo")?);
    let extensions = ExtensionSchemas::default(alloc);
    refuse_all(alloc);
    let _checker = Typechecker::new(schema, &extensions, ValidationMode::Strict);
    let empty = ValidatorSchema::empty(alloc);
    let is_as_ever = schema.is_known_entity_type(&user)
        && schema.is_known_entity_type(&action)
        && action.is_action()
        && schema.get_entity_type(&user).is_some()
        && schema.get_entity_type(&nobody).is_none()
        && schema.get_entity_type(&action).is_none()
        && schema.is_known_action_id(&view)
        && schema.get_action_id(&view).is_some()
        && schema.get_action_id(&gone).is_none()
        && schema.any_descendent_of(&users, &users)
        && !schema.any_descendent_of(&users, &photos)
        && empty.get_entity_type(&user).is_none();
    let was_refused = was_refused(alloc);
    Ok(outcome(is_as_ever, was_refused))
}

/// A function of this name, from a Long to a Long.
fn function(alloc: Global, name: &str) -> Result<ExtensionFunctionType, AllocError> {
    Ok(ExtensionFunctionType {
        name: Name::unqualified_name(alloc, name)?,
        argument_types: vec![in alloc; CedarType::primitive_long()]?,
        is_variadic: false,
        return_type: CedarType::primitive_long(),
        check_arguments: None,
    })
}

/// The making of a table of functions, which owns its lists, and of a table without functions.
pub fn tables(alloc: Global) -> Result<&'static str, AllocError> {
    let functions = vec![in alloc; function(alloc, "g")?, function(alloc, "f")?]?;
    let equal = vec![in alloc; function(alloc, "f")?, function(alloc, "f")?]?;
    let ordered = BTreeSet::new(alloc);
    refuse_all(alloc);
    let table = ExtensionSchemas::new(functions, ordered);
    let refused = ExtensionSchemas::new(equal, BTreeSet::new(alloc));
    let _none = ExtensionSchemas::default(alloc);
    let was_refused = was_refused(alloc);
    Ok(outcome(table.is_ok() && refused.is_err(), was_refused))
}

/// The making of a validator and of its passes, before their first steps.
pub fn passes<'x>(
    alloc: Global,
    validator: &'x Validator<'x>,
    policy: &'x Policy,
) -> Result<&'static str, AllocError> {
    let template = &*policy.template;
    let extensions = ExtensionSchemas::default(alloc);
    let empty = ValidatorSchema::empty(alloc);
    let user = entity_type(alloc, "User")?;
    refuse_all(alloc);
    let schema = validator.schema();
    let other = Validator::new(empty, &extensions);
    let is_as_ever = schema.is_known_entity_type(&user)
        && !other.schema().is_known_entity_type(&user);
    let _mentions = template.mentions(alloc);
    let _types = Validator::validate_entity_types(alloc, schema, template);
    let _actions = Validator::validate_action_ids(alloc, schema, template);
    let _members = Validator::validate_enum_entity(alloc, schema, template);
    let _slots = validator.validate_entity_types_in_slots(alloc, &template.id, &policy.values);
    let was_refused = was_refused(alloc);
    Ok(outcome(is_as_ever, was_refused))
}

/// The cost of a chain of attributes whose entities are of one type each.
pub fn chain_cost(alloc: Global, schema: &ValidatorSchema) -> Result<&'static str, AllocError> {
    let photo = CedarType::named_entity_reference(alloc, entity_type(alloc, "Photo")?)?;
    let owner = RcStr::from_str(alloc, "owner")?;
    let vip = RcStr::from_str(alloc, "vip")?;
    let chain = vec![in alloc; owner, vip]?;
    refuse_all(alloc);
    let cost = attr_chain_cost_from_root(alloc, schema, &photo, chain.as_slice());
    let was_refused = was_refused(alloc);
    let is_as_ever = match cost {
        Ok(cost) => cost == 2,
        Err(_) => false,
    };
    Ok(outcome(is_as_ever, was_refused))
}

/// Whether the borrowed capability of an owner's attribute equals the owned one.
fn is_one_attribute(owner: &Expr, own: Expr, names: (RcStr, RcStr)) -> bool {
    Capability::new_attribute(owner, names.0) == Capability::new_attribute_owned(own, names.1)
}

/// Whether the capability of an owner's tag with a borrowed name equals the one with an owned name.
fn is_one_tag<'a>(owner: &'a Expr, name: &'a Expr, own: Expr) -> bool {
    Capability::new_borrowed_tag(owner, name) == Capability::new_owned_tag(owner, own)
}

/// Whether the set has the capability of the owner's attribute.
fn is_known(set: &CapabilitySet<'_>, owner: Expr, name: RcStr) -> bool {
    set.contains(&Capability::new_attribute_owned(owner, name))
}

/// Whether a set with this owner's attribute has the capability of the tag too.
fn is_taken_for_a_tag(
    alloc: Global,
    owner: &Expr,
    name: Expr,
    attr: RcStr,
) -> Result<bool, AllocError> {
    let set = CapabilitySet::singleton(alloc, Capability::new_attribute(owner, attr))?;
    refuse_all(alloc);
    Ok(set.contains(&Capability::new_owned_tag(owner, name)))
}

/// The makers of capabilities, and questions about a set of them.
pub fn capabilities(alloc: Global) -> Result<&'static str, AllocError> {
    let (owner, name) = (
        Expr::var(Var::Principal),
        Expr::val(Literal::from_string(alloc, "t")?),
    );
    let (own_name, tag_name) = (name.try_clone(alloc)?, name.try_clone(alloc)?);
    let own_owner = expression(alloc, "principal")?;
    let (known_owner, other_owner) = (owner.try_clone(alloc)?, owner.try_clone(alloc)?);
    let vip = RcStr::from_str(alloc, "vip")?;
    let vips = (vip.clone()?, vip.clone()?);
    let (known_vip, other_vip) = (vip.clone()?, vip.clone()?);
    let known = having(alloc, "vip", "nick")?;
    let is_taken = is_taken_for_a_tag(alloc, &owner, tag_name, vip)?;
    let is_one = is_one_attribute(&owner, own_owner, vips) && is_one_tag(&owner, &name, own_name);
    let is_known_there = is_known(&known, known_owner, known_vip);
    let is_known_nowhere = is_known(&CapabilitySet::new(alloc), other_owner, other_vip);
    let is_as_ever = is_one && is_known_there && !is_known_nowhere && !is_taken;
    let was_refused = was_refused(alloc);
    Ok(outcome(is_as_ever, was_refused))
}

/// The makers of answers, and questions about them.
pub fn answers(alloc: Global) -> Result<&'static str, AllocError> {
    let (first, second) = (success(alloc)?, success(alloc)?);
    let known = having(alloc, "vip", "nick")?;
    let typed = (long(alloc, 1)?, long(alloc, 2)?, long(alloc, 3)?);
    refuse_all(alloc);
    let none = TypecheckAnswer::success(alloc, typed.0);
    let some = TypecheckAnswer::success_with_capability(typed.1, known);
    let failure = TypecheckAnswer::fail(typed.2);
    let is_as_ever = none.typechecked()
        && some.typechecked()
        && !failure.typechecked()
        && first.contains_type(&CedarType::Long)
        && !failure.contains_type(&CedarType::String)
        && !second.into_fail().typechecked()
        && first.into_typed_expr().is_some();
    let was_refused = was_refused(alloc);
    Ok(outcome(is_as_ever, was_refused))
}

/// The walks over the findings of a validation with levels, and levels themselves.
pub fn levels(alloc: Global, validator: &Validator<'_>) -> Result<&'static str, AllocError> {
    let (strict, known) = (ValidationMode::Strict, policy(alloc, KNOWN)?);
    let found = validator.validate_policy_with_level(alloc, &known.template, strict, 0)?;
    refuse_all(alloc);
    let count = how_many_errors(found.0).saturating_add(how_many_warnings(found.1));
    let is_as_ever = count == 2 && EntityDerefLevel::from(1) > EntityDerefLevel::default();
    let was_refused = was_refused(alloc);
    Ok(outcome(is_as_ever, was_refused))
}

fn how_many_errors(errors: LevelErrors) -> usize {
    let mut count: usize = 0;
    for _error in errors {
        count = count.saturating_add(1);
    }
    count
}

fn how_many_warnings(warnings: LevelWarnings) -> usize {
    let mut count: usize = 0;
    for _warning in warnings {
        count = count.saturating_add(1);
    }
    count
}
