// Mismatches: all places at which a value does not fit its type.
use crate::collected::Faults;
use crate::faults::{Owner, Problem};
use cedar_conformance::faults::{Mismatch, Step, ValueKind};
use cedar_conformance::values::{Record, Value};
use cedar_json::Object;
use cedar_types::base::{Attributes, BoolType, CedarType, EntityKind, EntityUID, Loc, OpenTag};
use std::alloc::{AllocError, Global};
use std::collections::BTreeMap;
use std::rc::RcStr;

/// The mistakes of the values of an owner, and the steps to the current value.
#[derive(Drop)]
pub(crate) struct Mismatches<'a> {
    alloc: Global,
    faults: &'a mut Faults,
    /// The entity that owns the values; without one, they are those of a context.
    entity: Option<&'a EntityUID>,
    steps: Vec<Step>,
}

impl<'a> Mismatches<'a> {
    /// Starts at the owner itself.
    pub(crate) fn new(
        alloc: Global,
        faults: &'a mut Faults,
        entity: Option<&'a EntityUID>,
    ) -> Mismatches<'a> {
        Mismatches {
            alloc,
            faults,
            entity,
            steps: Vec::new(alloc),
        }
    }

    /// Enters a part of the value.
    fn enter(&mut self, step: Step) -> Result<(), AllocError> {
        self.steps.push(step)?;
        Ok(())
    }

    /// Leaves the part.
    fn leave(&mut self) {
        drop(self.steps.pop());
    }

    /// Lists a mistake of the current value.
    fn add(&mut self, place: Loc, mismatch: Mismatch) -> Result<(), AllocError> {
        let owner = match self.entity {
            Some(id) => Owner::Entity(id.clone()?),
            None => Owner::Context,
        };
        let mut steps = Vec::new(self.alloc);
        for step in &self.steps {
            steps.push(copy_step(step)?)?;
        }
        self.faults
            .add(place, Problem::Value(owner, steps, mismatch))
    }

    /// Lists a mistake of a part.
    fn add_at(&mut self, step: Step, place: Loc, mismatch: Mismatch) -> Result<(), AllocError> {
        self.enter(step)?;
        self.add(place, mismatch)?;
        self.leave();
        Ok(())
    }

    /// Lists the mistakes of the value that stands at this place in the text.
    #[cycle(mismatches)]
    pub(crate) fn add_in_value(
        &mut self,
        ty: &CedarType,
        value: &Value,
        text: &cedar_json::Value,
    ) -> Result<(), AllocError> {
        match (ty, value, &text.kind) {
            (CedarType::Set(element), Value::Set(members), cedar_json::ValueKind::Array(items)) =>
                self.add_in_members(element, members, items),
            (
                CedarType::Record {
                    attributes,
                    is_open,
                },
                Value::Record(fields),
                cedar_json::ValueKind::Object(entries),
            ) => {
                let entries = entries.as_slice();
                let place = text.place;
                self.add_in_record(attributes, *is_open, fields, Object { entries, place })
            }
            _ if is_of_flat_type(ty, value) => Ok(()),
            _ => {
                let expected = ty.clone()?;
                let found = ValueKind::of_value(value)?;
                self.add(text.place, Mismatch::WrongType { expected, found })
            }
        }
    }

    #[cycle(mismatches)]
    fn add_in_members(
        &mut self,
        element: &CedarType,
        members: &Vec<Value>,
        items: &Vec<cedar_json::Value>,
    ) -> Result<(), AllocError> {
        for (index, member) in members.iter().enumerate() {
            if let Some(item) = items.get(index) {
                self.enter(Step::Element(index))?;
                self.add_in_value(element, member, item)?;
                self.leave();
            }
        }
        Ok(())
    }

    /// Lists the mistakes of the attributes of a record. An attribute that stands in the text but
    /// not among the values is skipped, because the reader listed it already.
    #[cycle(mismatches)]
    pub(crate) fn add_in_record(
        &mut self,
        attributes: &Attributes,
        is_open: OpenTag,
        fields: &Record,
        object: Object<'_>,
    ) -> Result<(), AllocError> {
        let texts = by_key(self.alloc, object)?;
        for (name, attribute) in attributes.attrs.iter() {
            match (fields.get(name), texts.get(name)) {
                (Some(value), Some(text)) => {
                    self.enter(Step::Attribute(name.clone()?))?;
                    self.add_in_value(&attribute.attr_type, value, *text)?;
                    self.leave();
                }
                (None, None) if attribute.is_required => {
                    self.add_missing(name, &attribute.attr_type, object)?;
                }
                _ => {}
            }
        }
        match is_open {
            OpenTag::OpenAttributes => Ok(()),
            OpenTag::ClosedAttributes => self.add_undeclared(attributes, object),
        }
    }

    /// Lists a missing attribute of this name and type.
    fn add_missing(
        &mut self,
        name: &RcStr,
        attr_type: &CedarType,
        object: Object<'_>,
    ) -> Result<(), AllocError> {
        let expected = attr_type.clone()?;
        let step = Step::Attribute(name.clone()?);
        self.add_at(step, object.place, Mismatch::MissingAttribute { expected })
    }

    /// Lists the attributes that are not declared.
    fn add_undeclared(
        &mut self,
        attributes: &Attributes,
        object: Object<'_>,
    ) -> Result<(), AllocError> {
        for (key, _) in object.entries {
            if attributes.get_attr(&key.name).is_none() {
                let step = Step::Attribute(key.name.clone()?);
                self.add_at(step, key.place, Mismatch::UndeclaredAttribute)?;
            }
        }
        Ok(())
    }

    /// Lists the mistakes of tags of this type.
    pub(crate) fn add_in_tags(
        &mut self,
        ty: &CedarType,
        tags: &Record,
        object: Object<'_>,
    ) -> Result<(), AllocError> {
        for (key, text) in object.entries {
            if let Some(value) = tags.get(&key.name) {
                self.enter(Step::Tag(key.name.clone()?))?;
                self.add_in_value(ty, value, text)?;
                self.leave();
            }
        }
        Ok(())
    }
}

/// Returns the values of an object by their keys, so that finding an attribute does not scan the
/// others.
fn by_key<'a>(
    alloc: Global,
    object: Object<'a>,
) -> Result<BTreeMap<RcStr, &'a cedar_json::Value>, AllocError> {
    let mut texts = BTreeMap::new(alloc);
    for (key, text) in object.entries {
        texts.insert(key.name.clone()?, text)?;
    }
    Ok(texts)
}

fn copy_step(step: &Step) -> Result<Step, AllocError> {
    match step {
        Step::Attribute(name) => Ok(Step::Attribute(name.clone()?)),
        Step::Element(index) => Ok(Step::Element(*index)),
        Step::Tag(name) => Ok(Step::Tag(name.clone()?)),
    }
}

/// Returns whether a value has a type. For a record type, or a set type with a type of its members,
/// the answer is false.
fn is_of_flat_type(ty: &CedarType, value: &Value) -> bool {
    match (ty, value) {
        (CedarType::Bool(kind), Value::Bool(truth)) => match kind {
            BoolType::AnyBool => true,
            BoolType::True => *truth,
            BoolType::False => !*truth,
        },
        (CedarType::Long, Value::Long(_)) => true,
        (CedarType::String, Value::String(_)) => true,
        (CedarType::AnySet, Value::Set(_)) => true,
        (CedarType::Entity(EntityKind::AnyEntity), Value::EntityUID(_)) => true,
        (CedarType::Entity(EntityKind::Entity(types)), Value::EntityUID(id)) => {
            types.contains_entity_type(&id.entity_type)
        }
        (
            CedarType::Extension(name),
            Value::Extension {
                type_name,
                text: _text,
            },
        ) => is_named(type_name, name),
        _ => false,
    }
}

fn is_named(own: &cedar_types::base::Name, name: &cedar_types::base::Name) -> bool {
    own == name
}
