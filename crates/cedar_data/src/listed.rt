// Listed entities: the entities of a text, as they are read.
ghost use Rattle.std.specs.Prelude.{length, IfErr};
ghost use Rattle.cedar_json.specs.Cursors.{IsFaultWithin};

use crate::collected::Collected;
use crate::faults::{DataError, Problem};
use crate::values::{Types, read_record};
use cedar_conformance::entities::Entity;
use cedar_conformance::ids::Ids;
use cedar_conformance::values::Record;
use cedar_json::{
    FormFault, Items, MAX_DEPTH, Object, Value, entity_uid, items_of, value_alone, value_at,
};
use cedar_types::base::{EntityUID, Loc, ValidatorEntityTypeKind, ValidatorSchema};
use std::alloc::{AllocError, Global};
use std::collections::BTreeMap;

/// The keys of an entity.
const KEYS: [&str; 4] = ["uid", "attrs", "parents", "tags"];

/// A part of a text that is a value.
#[derive(Clone, Copy)]
pub(crate) struct Part<'a> {
    pub(crate) text: &'a str,
    /// The byte at which the part begins.
    pub(crate) start: usize,
}

impl Part<'_> {
    /// Reads the value, which was read before; `None` if it cannot be read.
    pub(crate) fn read_again(self, alloc: Global) -> Result<Option<Value>, AllocError> {
        match value_at(alloc, self.text, self.start, MAX_DEPTH) {
            Ok(value) => Ok(Some(value)),
            Err(DataError::Memory(error)) => Err(error),
            Err(DataError::At(_, _)) => Ok(None),
        }
    }
}

/// A parent of an entity, and the place of its name.
#[derive(Drop)]
pub(crate) struct Parent {
    pub(crate) id: EntityUID,
    pub(crate) place: Loc,
}

/// An entity of a list. Its stored data has no ancestors yet.
#[derive(Drop)]
pub(crate) struct Listed<'a> {
    pub(crate) id: EntityUID,
    /// The place of its id.
    pub(crate) place: Loc,
    /// The whole text of the entity. It is read again for mistakes, so that entities without any
    /// keep no tree of their text.
    pub(crate) part: Part<'a>,
    pub(crate) entity: Entity,
    pub(crate) parents: Vec<Parent>,
}

/// The entities of a list, each id once.
#[derive(Drop)]
pub(crate) struct List<'a> {
    pub(crate) entries: Vec<Listed<'a>>,
    /// The number of the entry for each id.
    pub(crate) places: BTreeMap<EntityUID, usize>,
}

impl<'a> List<'a> {
    /// Reads the entities of a list, and lists values of another form than expected. It drops the
    /// tree of one entity before it reads the next.
    pub(crate) fn read(collected: &mut Collected<'_>, text: &'a str) -> Result<List<'a>, DataError>
        ensures { IfErr result (λ e. IsFaultWithin (length text.now) e) }
    {
        let mut list = List {
            entries: Vec::new(collected.alloc),
            places: BTreeMap::new(collected.alloc),
        };
        let Some(mut items) = Items::new(collected.alloc, text)? else {
            add_no_list(collected, text)?;
            return Ok(list);
        };
        for _ in 0..text.len() {
            let Some(item) = items.next_item()? else {
                return Ok(list);
            };
            list.read_item(collected, text, &item)?;
        }
        Ok(list)
    }

    /// Adds the entity of an item of the text.
    fn read_item(
        &mut self,
        collected: &mut Collected<'_>,
        text: &'a str,
        item: &Value,
    ) -> Result<(), AllocError> {
        match read_listed(collected, text, item)? {
            Some(listed) => self.add(collected, listed),
            None => Ok(()),
        }
    }

    /// Adds an entity, unless the list has one of its id.
    fn add(&mut self, collected: &mut Collected<'_>, listed: Listed<'a>) -> Result<(), AllocError> {
        if let Some(first) = self.get(&listed.id) {
            let problem = Problem::SameId(listed.id.clone()?, first.place);
            return collected.faults.add(listed.place, problem);
        }
        self.places.insert(listed.id.clone()?, self.entries.len())?;
        self.entries.push(listed)?;
        Ok(())
    }

    /// Returns the entity of this id.
    pub(crate) fn get(&self, id: &EntityUID) -> Option<&Listed<'a>> {
        self.entries.get(*self.places.get(id)?)
    }
}

/// Lists that a text, which does not begin with an array, is no list.
fn add_no_list(collected: &mut Collected<'_>, text: &str) -> Result<(), DataError>
    ensures { IfErr result (λ e. IsFaultWithin (length text.now) e) }
{
    let value = value_alone(collected.alloc, text)?;
    let items = items_of(&value);
    drop(collected.keep(items)?);
    Ok(())
}

/// Reads an entity whose parents are all entities that it is in. Without an id the answer is
/// `None`.
pub(crate) fn read_stored<'a>(
    collected: &mut Collected<'_>,
    text: &'a str,
    item: &Value,
) -> Result<Option<Listed<'a>>, AllocError> {
    let Some(mut listed) = read_listed(collected, text, item)? else {
        return Ok(None);
    };
    let stored = &mut listed;
    for parent in &stored.parents {
        stored.entity.ancestors.insert(parent.id.clone()?)?;
    }
    Ok(Some(listed))
}

/// Reads an entity of a text. Without an id the answer is `None`.
fn read_listed<'a>(
    collected: &mut Collected<'_>,
    text: &'a str,
    item: &Value,
) -> Result<Option<Listed<'a>>, AllocError> {
    let object = Object::of(item);
    let Some(object) = collected.keep(object)? else {
        return Ok(None);
    };
    check_keys(collected, object)?;
    let uid = object.need("uid");
    let Some(uid) = collected.keep(uid)? else {
        return Ok(None);
    };
    let id = entity_uid(collected.alloc, uid);
    let Some(id) = collected.keep(id)? else {
        return Ok(None);
    };
    collected.check_id(uid.place, &id)?;
    let entity = Entity {
        attributes: read_attributes(collected, &id, object)?,
        ancestors: Ids::new(collected.alloc),
        tags: read_tags(collected, &id, object)?,
    };
    let parents = read_parents(collected, object)?;
    Ok(Some(Listed {
        id,
        place: uid.place,
        part: Part {
            text,
            start: item.place.start,
        },
        entity,
        parents,
    }))
}

/// Lists the keys that an entity may not have.
fn check_keys(collected: &mut Collected<'_>, object: Object<'_>) -> Result<(), AllocError> {
    for (key, _) in object.entries {
        if !KEYS.iter().any(|own| *own == key.name.as_str()) {
            let problem = Problem::Form(FormFault::UnknownKey);
            collected.faults.add(key.place, problem)?;
        }
    }
    Ok(())
}

fn read_attributes(
    collected: &mut Collected<'_>,
    id: &EntityUID,
    object: Object<'_>,
) -> Result<Record, AllocError> {
    let types = attribute_types(collected.schema, id);
    let attributes = object.need("attrs");
    let Some(attributes) = collected.keep(attributes)? else {
        return Ok(BTreeMap::new(collected.alloc));
    };
    read_part(collected, attributes, types)
}

fn read_tags(
    collected: &mut Collected<'_>,
    id: &EntityUID,
    object: Object<'_>,
) -> Result<Record, AllocError> {
    match object.get("tags") {
        Some(tags) => {
            let types = tag_types(collected.schema, id);
            read_part(collected, tags, types)
        }
        None => Ok(BTreeMap::new(collected.alloc)),
    }
}

/// Reads an object of values.
fn read_part(
    collected: &mut Collected<'_>,
    value: &Value,
    types: Types<'_>,
) -> Result<Record, AllocError> {
    let object = Object::of(value);
    match collected.keep(object)? {
        Some(object) => read_record(collected, object, types),
        None => Ok(BTreeMap::new(collected.alloc)),
    }
}

fn read_parents(
    collected: &mut Collected<'_>,
    object: Object<'_>,
) -> Result<Vec<Parent>, AllocError> {
    let mut parents = Vec::new(collected.alloc);
    let listed = object.need("parents");
    let Some(listed) = collected.keep(listed)? else {
        return Ok(parents);
    };
    let items = items_of(listed);
    let Some(items) = collected.keep(items)? else {
        return Ok(parents);
    };
    for item in items {
        let id = entity_uid(collected.alloc, item);
        if let Some(id) = collected.keep(id)? {
            collected.check_id(item.place, &id)?;
            let place = item.place;
            parents.push(Parent { id, place })?;
        }
    }
    Ok(parents)
}

/// Returns the types of the attributes of an entity, if its type declares them.
pub(crate) fn attribute_types<'a>(schema: &'a ValidatorSchema, id: &EntityUID) -> Types<'a> {
    let Some(declared) = schema.get_entity_type(&id.entity_type) else {
        return Types::Unknown;
    };
    match &declared.kind {
        ValidatorEntityTypeKind::Standard(standard) => Types::Attributes(&standard.attributes),
        ValidatorEntityTypeKind::Enum(_) => Types::Unknown,
        ValidatorEntityTypeKind::External => Types::Unknown,
    }
}

/// Returns the type of the tags of an entity, if its type declares one.
pub(crate) fn tag_types<'a>(schema: &'a ValidatorSchema, id: &EntityUID) -> Types<'a> {
    let Some(declared) = schema.get_entity_type(&id.entity_type) else {
        return Types::Unknown;
    };
    match &declared.kind {
        ValidatorEntityTypeKind::Standard(standard) => match &standard.tags {
            Some(ty) => Types::Tags(ty),
            None => Types::Unknown,
        },
        ValidatorEntityTypeKind::Enum(_) => Types::Unknown,
        ValidatorEntityTypeKind::External => Types::Unknown,
    }
}
