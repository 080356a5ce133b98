// Types: their texts and their order, and questions about two.
use crate::parts::{add, alone, assert_text, entity, lub, types};
use cedar_types::base::type_laws::{compare_types, equal_types, types_are_well_formed};
use cedar_types::base::{
    AttributeType, Attributes, CedarType, EntityLUB, Name, OpenTag, types_in_order,
};
use std::alloc::{AllocError, Global};
use std::cmp::Ordering;
use std::test::Fail;

/// An open or a closed record of one attribute, `a`.
fn field(alloc: Global, a: AttributeType, is_open: OpenTag) -> Result<CedarType, AllocError> {
    let attributes = Attributes::from_list(alloc, alone(alloc, ("a", a))?)?;
    Ok(CedarType::record_with_attributes(attributes, is_open))
}

fn add_records(alloc: Global, types: &mut Vec<CedarType>) -> Result<(), AllocError> {
    let string = AttributeType::optional_attribute(CedarType::String);
    add(types, field(alloc, string, OpenTag::OpenAttributes)?)?;
    let required = AttributeType::required_attribute(CedarType::Long);
    add(types, field(alloc, required, OpenTag::OpenAttributes)?)?;
    let optional = AttributeType::optional_attribute(CedarType::Long);
    add(types, field(alloc, optional, OpenTag::ClosedAttributes)?)?;
    let optional = AttributeType::optional_attribute(CedarType::Long);
    add(types, field(alloc, optional, OpenTag::OpenAttributes)?)?;
    add(types, CedarType::any_record(alloc)?)
}

fn add_entities(alloc: Global, types: &mut Vec<CedarType>) -> Result<(), AllocError> {
    let ip = Name::new(alloc, "ip", &["ext"])?;
    add(types, CedarType::extension(alloc, ip)?)?;
    add(types, CedarType::any_entity_reference())?;
    add(types, entity(alloc, &["b"])?)?;
    add(types, entity(alloc, &["a", "b"])?)?;
    add(types, entity(alloc, &["a"])?)
}

fn add_sets(alloc: Global, types: &mut Vec<CedarType>) -> Result<(), AllocError> {
    add(types, CedarType::any_set())?;
    add(types, CedarType::set(alloc, CedarType::any_set())?)?;
    add(types, CedarType::set(alloc, CedarType::primitive_string())?)?;
    add(types, CedarType::set(alloc, CedarType::Never)?)
}

fn add_flat_types(types: &mut Vec<CedarType>) -> Result<(), AllocError> {
    add(types, CedarType::primitive_string())?;
    add(types, CedarType::primitive_long())?;
    add(types, CedarType::primitive_long())?;
    add(types, CedarType::singleton_boolean(false))?;
    add(types, CedarType::singleton_boolean(true))?;
    add(types, CedarType::primitive_boolean())?;
    add(types, CedarType::Never)
}

/// Types of each kind, the last ones first, and one twice.
fn of_each_kind(alloc: Global) -> Result<Vec<CedarType>, AllocError> {
    let mut types = Vec::new(alloc);
    add_entities(alloc, &mut types)?;
    add_records(alloc, &mut types)?;
    add_sets(alloc, &mut types)?;
    add_flat_types(&mut types)?;
    Ok(types)
}

const IN_ORDER: &str =
    "Never, Bool, True, False, Long, String, Set<Never>, Set<String>, Set<Set>, Set, \
    {..}, {a?: Long, ..}, {a?: Long}, {a: Long, ..}, {a?: String, ..}, a, a|b, b, entity, ext::ip, ";

/// The texts of the types of each kind, in their order.
fn show_in_order(alloc: Global) -> Result<String, AllocError> {
    let types = types_in_order(alloc, of_each_kind(alloc)?)?;
    let mut shown = String::new(alloc);
    for ty in types.iter() {
        write!(shown, "{ty}, ")?;
        types_are_well_formed(ty);
    }
    Ok(shown)
}

/// Whether the first type equals itself and comes before the second.
fn equals_itself_and_is_below(first: &CedarType, second: &CedarType) -> bool {
    equal_types(first, first) && compare_types(first, second) == Ordering::Less
}

#[test]
fn types_are_shown_in_their_order(rt: HostRuntime) -> Result<(), Fail> {
    let shown = show_in_order(rt.alloc())?;
    assert_text(&rt, shown.as_str(), IN_ORDER);
    assert!(rt; equals_itself_and_is_below(&CedarType::Long, &CedarType::AnySet));
    Ok(())
}

/// The set of the entity types of these names.
fn set_of(alloc: Global, names: &[&str]) -> Result<Option<EntityLUB>, AllocError> {
    EntityLUB::from_types(alloc, types(alloc, names)?)
}

#[test]
fn a_set_of_entity_types_is_not_empty(rt: HostRuntime) -> Result<(), Fail> {
    assert!(rt; set_of(rt.alloc(), &[])?.is_none());
    Ok(())
}

/// Whether these two sets of entity types have no type in common.
fn are_disjoint(alloc: Global, names: &[&str], others: &[&str]) -> Result<bool, AllocError> {
    let set = lub(alloc, names)?;
    Ok(set.is_disjoint(&lub(alloc, others)?))
}

#[test]
fn sets_without_a_common_entity_type_are_disjoint(rt: HostRuntime) -> Result<(), Fail> {
    assert!(rt; are_disjoint(rt.alloc(), &["a", "b"], &["c"])?);
    assert!(rt; !are_disjoint(rt.alloc(), &["a", "b"], &["a", "b"])?);
    Ok(())
}
