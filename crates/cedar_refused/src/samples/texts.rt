// Values on which the calls are made, read from texts.
use cedar_reading::{ReadError, condition, schema, type_alone, uid_alone, whole_policy};
use cedar_types::base::{
    CedarType, EntityLUB, EntityType, EntityUID, Expr, Name, Policy, SlotEnv, SlotId, Template,
    ValidatorSchema,
};
use std::alloc::{AllocError, Global};
use std::collections::BTreeSet;
use std::rc::Rc;

/// Users, each of whom may be in others, photos, which they view and edit, groups of photos, and colors.
pub const SCHEMA: &str = r#"
entity User in [User] {
    vip: Bool, nick?: String, age: Long, names: Set<String>, boss: User, ip: ipaddr,
    info: { size: Long, note?: String },
} tags User;
entity Group tags Set<String>;
entity Photo in [Group] { owner: User };
entity Color enum ["red"];
action view, edit appliesTo {
    principal: User, resource: Photo, context: { is_public: Bool, since?: Long },
};
action all;
action some in [all];
"#;

/// A policy with each form of constraint, and with names that the schema does not declare.
pub const NAMED: &str = r#"permit(principal in N::User::"a",
    action in [Action::"view", N::Action::"a"], resource is N::Gone in Photo::"a")
    when { [N::User::"a", N::Action::"a", Color::"blue", Color::"red", Color::"blue"].isEmpty()
    || principal is N::Gone };"#;

/// A policy with its slot bound to a user. Each of its two actions is linked in two ways, because users may be in users.
pub const KNOWN: &str =
    r#"User::"a" = permit(principal in ?principal, action, resource) when { principal.vip };"#;

/// A policy with both slots bound to entities of undeclared types.
pub const UNKNOWN: &str =
    r#"N::User::"a", N::Photo::"a" = permit(principal in ?principal, action, resource in ?resource);"#;

/// A policy with one finding, which never applies.
pub const ONE: &str = r#"permit(principal, action, resource) when { (1 + "a") == 2 && false };"#;

/// A policy with a finding for each sum, which never applies.
pub const MANY: &str = r#"permit(principal, action, resource) when { [
    1 + "a", 1 + "b", 1 + "c", 1 + "d", 1 + "e", 1 + "f", 1 + "g", 1 + "h", 1 + "i"
    ].isEmpty() && false };"#;

/// The number of findings of `MANY`: more than a set of eight has room for.
pub const SUMS: usize = 9;

/// Users, whom photos own, and photos, which users own: so the owner of either type is of both.
pub const OWNERS: &str = "entity User { owner: Photo }; entity Photo { owner: User };";

/// The value that was read. A text that cannot be read ends the run, as refused memory does.
fn read<T>(answer: Result<T, ReadError>) -> Result<T, AllocError> {
    match answer {
        Ok(read) => Ok(read),
        Err(_) => Err(AllocError),
    }
}

pub fn expression(alloc: Global, text: &str) -> Result<Expr, AllocError> {
    read(condition(alloc, text))
}

pub fn template(alloc: Global, text: &str) -> Result<Template, AllocError> {
    read(whole_policy(alloc, text))
}

pub fn uid(alloc: Global, text: &str) -> Result<EntityUID, AllocError> {
    read(uid_alone(alloc, text))
}

pub fn cedar_type(alloc: Global, text: &str) -> Result<CedarType, AllocError> {
    read(type_alone(alloc, text))
}

/// The types of a text, with ` & ` between them.
pub fn two_types(alloc: Global, text: &str) -> Result<(CedarType, CedarType), AllocError> {
    let (left, right) = text.split_once(" & ").unwrap_or((text, text));
    Ok((cedar_type(alloc, left)?, cedar_type(alloc, right)?))
}

pub fn entity_type(alloc: Global, name: &str) -> Result<EntityType, AllocError> {
    Ok(EntityType::from(Name::unqualified_name(alloc, name)?))
}

/// The set of this one type.
pub fn only(alloc: Global, name: &str) -> Result<BTreeSet<EntityType>, AllocError> {
    let mut types = BTreeSet::new(alloc);
    types.insert(entity_type(alloc, name)?)?;
    Ok(types)
}

pub fn entities(alloc: Global, name: &str) -> Result<EntityLUB, AllocError> {
    EntityLUB::single_entity(alloc, entity_type(alloc, name)?)
}

pub fn schema_of(alloc: Global, text: &str) -> Result<ValidatorSchema, AllocError> {
    match schema(alloc, text) {
        Ok(schema) => Ok(schema),
        Err(_) => Err(AllocError),
    }
}

/// The text that a word names, or the word itself.
fn text_of(word: &str) -> &str {
    match word {
        "NAMED" => NAMED,
        "KNOWN" => KNOWN,
        "UNKNOWN" => UNKNOWN,
        "ONE" => ONE,
        "MANY" => MANY,
        text => text,
    }
}

/// The policy of a text. The entities that its slots are bound to may stand before it: `User::"a", Photo::"b" = permit(..);`.
/// The text may be only a condition.
pub fn policy(alloc: Global, text: &str) -> Result<Policy, AllocError> {
    let text = text_of(text);
    let (bound, text) = text.split_once(" = ").unwrap_or(("", text));
    let mut values = SlotEnv::new(alloc);
    let (principal, resource) = bound.split_once(", ").unwrap_or((bound, ""));
    bind(alloc, &mut values, SlotId::Principal, principal)?;
    bind(alloc, &mut values, SlotId::Resource, resource)?;
    Ok(Policy {
        template: Rc::new(alloc, template_when(alloc, text)?)?,
        values,
    })
}

fn template_when(alloc: Global, text: &str) -> Result<Template, AllocError> {
    if text.starts_with("permit") {
        return template(alloc, text);
    }
    let text = format!(in alloc; "permit(principal, action, resource) when {{ {text} }};")?;
    template(alloc, text.as_str())
}

/// Binds a slot to the entity of this text, if the text is not empty.
fn bind(alloc: Global, values: &mut SlotEnv, slot: SlotId, text: &str) -> Result<(), AllocError> {
    if !text.is_empty() {
        drop(values.insert(slot, uid(alloc, text)?)?);
    }
    Ok(())
}
