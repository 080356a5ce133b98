// Typed values: the search for the first place at which a value does not have its type.
ghost use Rattle.std.specs.Prelude.{◌≡◌, false, not, ◌&&◌, IfOk, option_map};
ghost use Rattle.std.specs.List.{list_any};
ghost use Rattle.cedar_types.specs.Types.{ty_of, kind_of, attributes_of, attr_names, is_open_tag};
ghost use Rattle.cedar_types.specs.Names.{text_of, path_of, text_eq, path_eq};
ghost use Rattle.cedar_conformance.specs.Values.{value_of, record_of, values_of};
ghost use Rattle.cedar_conformance.specs.Tests.{has_type, has_kind, has_attr, passes, all_values, have_attrs, keys_among, is_closed_by, bool_in, extension_in};
ghost use Rattle.cedar_conformance.specs.Answers.{FindsNoneWhere};

use crate::answers::Found;
use crate::faults::{Mismatch, Step, ValueFault, ValueKind};
use crate::sets::value_at;
use crate::values::{Record, Value};
use cedar_types::base::{
    AttributeType, Attributes, BoolType, CedarType, EntityKind, Name, OpenTag,
};
use std::alloc::Global;
use std::rc::RcStr;

/// Returns the first place at which the value lacks the type; `None` if it has the type. The
/// recursion goes as deep as the type, for any value.
#[cycle(typed)]
pub(crate) fn find_fault(alloc: Global, ty: &CedarType, value: &Value) -> Found<ValueFault>
    ensures { FindsNoneWhere result (has_type (ty_of ty.now) (value_of value.now)) }
{
    match ty {
        CedarType::Never => wrong_type(alloc, ty, value),
        CedarType::Bool(kind) => fault_unless(alloc, bool_fits(*kind, value), ty, value),
        CedarType::Long => fault_unless(alloc, value.is_long(), ty, value),
        CedarType::String => fault_unless(alloc, value.is_string(), ty, value),
        CedarType::Set(element) => match value.as_set() {
            Some(members) => find_in_members(alloc, element, members),
            None => wrong_type(alloc, ty, value),
        },
        CedarType::AnySet => fault_unless(alloc, value.as_set().is_some(), ty, value),
        CedarType::Record {
            attributes,
            is_open,
        } => match value.as_record() {
            Some(entries) => find_in_record(alloc, attributes, *is_open, entries),
            None => wrong_type(alloc, ty, value),
        },
        CedarType::Entity(kind) => fault_unless(alloc, entity_fits(kind, value), ty, value),
        CedarType::Extension(name) => fault_unless(alloc, extension_fits(name, value), ty, value),
    }
}

/// Returns the fault of the first member that lacks the type.
#[cycle(typed)]
fn find_in_members(alloc: Global, element: &CedarType, members: &Vec<Value>) -> Found<ValueFault>
    ensures { FindsNoneWhere result
        (all_values (has_type (ty_of element.now)) (values_of members.now.items)) }
{
    for (index, member) in members.iter().enumerate() {
        if let Some(fault) = find_fault(alloc, element, member)? {
            return Ok(Some(fault.below(Step::Element(index))?));
        }
    }
    Ok(None)
}

/// Returns the first attribute that does not fit the record's type: declared ones come first, then
/// undeclared ones.
#[cycle(typed)]
pub(crate) fn find_in_record(
    alloc: Global,
    attributes: &Attributes,
    is_open: OpenTag,
    entries: &Record,
) -> Found<ValueFault>
    ensures { FindsNoneWhere result
        (have_attrs (attributes_of attributes.now) (record_of entries.now)
        && is_closed_by (is_open_tag is_open) (attr_names (attributes_of attributes.now))
        (record_of entries.now)) }
{
    if let Some(fault) = find_in_declared(alloc, attributes, entries)? {
        return Ok(Some(fault));
    }
    match is_open {
        OpenTag::OpenAttributes => Ok(None),
        OpenTag::ClosedAttributes => find_undeclared(alloc, attributes, entries),
    }
}

/// Returns the first declared attribute that lacks its type, or that is required and missing.
#[cycle(typed)]
fn find_in_declared(alloc: Global, attributes: &Attributes, entries: &Record) -> Found<ValueFault>
    ensures { FindsNoneWhere result
        (have_attrs (attributes_of attributes.now) (record_of entries.now)) }
{
    for (name, attribute) in attributes.attrs.iter() {
        if let Some(fault) = find_in_attribute(alloc, attribute, value_at(entries, name))? {
            return Ok(Some(fault.below(Step::Attribute(name.clone()?))?));
        }
    }
    Ok(None)
}

/// Returns the fault of an attribute that lacks its type, or that is required and missing.
#[cycle(typed)]
fn find_in_attribute(
    alloc: Global,
    attribute: &AttributeType,
    value: Option<&Value>,
) -> Found<ValueFault>
    ensures { FindsNoneWhere result
        (has_attr attribute.now.is_required (has_type (ty_of attribute.now.attr_type))
        (option_map (λ v. value_of v.now) value.entry)) }
{
    match value {
        Some(value) => find_fault(alloc, &attribute.attr_type, value),
        None => find_missing(alloc, attribute),
    }
}

fn find_missing(alloc: Global, attribute: &AttributeType) -> Found<ValueFault>
    ensures { FindsNoneWhere result (not attribute.now.is_required) }
{
    if !attribute.is_required {
        return Ok(None);
    }
    let expected = attribute.attr_type.clone()?;
    Ok(Some(ValueFault::here(alloc, Mismatch::MissingAttribute { expected })))
}

/// Returns the first attribute that is not declared.
fn find_undeclared(alloc: Global, attributes: &Attributes, entries: &Record) -> Found<ValueFault>
    ensures { FindsNoneWhere result
        (keys_among (attr_names (attributes_of attributes.now)) (record_of entries.now)) }
{
    for (name, _value) in entries.iter() {
        if !is_declared(attributes, name) {
            let fault = ValueFault::here(alloc, Mismatch::UndeclaredAttribute);
            return Ok(Some(fault.below(Step::Attribute(name.clone()?))?));
        }
    }
    Ok(None)
}

fn is_declared(attributes: &Attributes, name: &RcStr) -> bool
    ensures { result
        ≡ list_any (text_eq (text_of name.now)) (attr_names (attributes_of attributes.now)) }
{
    attributes.get_attr(name).is_some()
}

/// Returns no fault if the value fits, and otherwise the fault of another type.
fn fault_unless(alloc: Global, fits: bool, ty: &CedarType, value: &Value) -> Found<ValueFault>
    ensures { FindsNoneWhere result fits }
{
    if fits {
        return Ok(None);
    }
    wrong_type(alloc, ty, value)
}

/// Returns the fault of a value that is of another type than `ty`.
fn wrong_type(alloc: Global, ty: &CedarType, value: &Value) -> Found<ValueFault>
    ensures { FindsNoneWhere result false }
{
    let expected = ty.clone()?;
    let found = ValueKind::of_value(value)?;
    Ok(Some(ValueFault::here(alloc, Mismatch::WrongType { expected, found })))
}

fn bool_fits(kind: BoolType, value: &Value) -> bool
    ensures { result ≡ passes (has_kind kind) (bool_in (value_of value.now)) }
{
    match value.as_bool() {
        Some(b) => match kind {
            BoolType::AnyBool => true,
            BoolType::True => b,
            BoolType::False => !b,
        },
        None => false,
    }
}

fn entity_fits(kind: &EntityKind, value: &Value) -> bool
    ensures { result ≡ has_type (kind_of kind.now) (value_of value.now) }
{
    match value.as_entity_uid() {
        Some(uid) => match kind {
            EntityKind::Entity(types) => types.contains_entity_type(&uid.entity_type),
            EntityKind::AnyEntity => true,
        },
        None => false,
    }
}

fn extension_fits(name: &Name, value: &Value) -> bool
    ensures { result
        ≡ passes (λ m. path_eq m (path_of name.now)) (extension_in (value_of value.now)) }
{
    match value.extension_type() {
        Some(own) => own == name,
        None => false,
    }
}
