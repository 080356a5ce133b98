// Lists of entities, read and checked by a schema.
ghost use Rattle.std.specs.Prelude.{◌≡◌, false, length, IfErr, IfOk, IfSome, OnOk, is_some};
ghost use Rattle.cedar_types.specs.Schemas.Contents.{schema_of};
ghost use Rattle.cedar_types.specs.Values.Stores.{ConformingStore};
ghost use Rattle.cedar_conformance.specs.Answers.{lists_none};
ghost use Rattle.cedar_conformance.specs.Entities.{store_of};
ghost use Rattle.cedar_json.specs.Cursors.{IsFaultWithin};
ghost use Rattle.cedar_data.specs.Faults.{has_none};

use crate::closures::add_ancestors;
use crate::collected::{Collected, ExtensionText, Faults};
use crate::faults::{DataError, Problem};
use crate::listed::{List, Listed};
use crate::reached::Ancestors;
use crate::unfit::add_unfit;
use cedar_conformance::entities::{Entities, Entity};
use cedar_conformance::entity_faults::EntityFault;
use cedar_conformance::ids::Ids;
use cedar_conformance::stores::check_entities;
use cedar_types::base::{Loc, ValidatorSchema};
use std::alloc::{AllocError, Global};
use std::collections::BTreeMap;
use std::rc::Rc;

/// The result of reading a text of entities.
#[derive(Debug, Drop)]
pub struct CheckedEntities {
    /// The entities of the text, and the declared actions that it does not list, if there is no
    /// mistake: all fit the schema.
    pub conforming: Option<Entities>,
    /// The number of entities that could be read.
    pub count: usize,
    /// The mistakes: there are none exactly if there are conforming entities.
    pub faults: Faults,
    /// The texts that go to constructors of extension values. The check does not ask whether the
    /// constructors can read them.
    pub texts: Vec<ExtensionText>,
}

/// Reads a list of entities in Cedar's JSON form, and checks them by a schema. The `parents` of an
/// entity are those that it is in directly; its ancestors are all entities that the parents reach.
/// The answer is an error if the text is not JSON that the reader accepts, or if memory is refused.
pub fn check_entities_text(
    alloc: Global,
    schema: &ValidatorSchema,
    text: &str,
) -> Result<CheckedEntities, DataError>
    ensures conforms { IfOk result (λ c. IfSome c.conforming (λ e.
        ConformingStore (schema_of schema.now) (store_of e))) }
    ensures agrees { IfOk result (λ c. is_some c.conforming ≡ has_none c.faults) }
    ensures err { IfErr result (λ e. IsFaultWithin (length text.now) e) }
{
    let mut collected = Collected::new(alloc, schema);
    let mut list = List::read(&mut collected, text)?;
    let declared = declared_ancestors(alloc, schema)?;
    add_ancestors(&mut collected, &mut list, &declared)?;
    add_unfit(&mut collected, &list)?;
    let Collected {
        mut faults,
        texts,
        ..
    } = collected;
    let count = list.entries.len();
    let entities = stored(alloc, list, declared)?;
    let conforming = keep_conforming(alloc, schema, entities, &mut faults)?;
    faults.sort()?;
    Ok(CheckedEntities {
        conforming,
        count,
        faults,
        texts,
    })
}

/// Returns the entities if they fit the schema and have no other mistake. If they do not fit, it
/// lists a mistake.
fn keep_conforming(
    alloc: Global,
    schema: &ValidatorSchema,
    entities: Entities,
    faults: &mut Faults,
) -> Result<Option<Entities>, AllocError>
    ensures conforms { IfOk result (λ o. IfSome o (λ e.
        ConformingStore (schema_of schema.now) (store_of e))) }
    ensures agrees { IfOk result (λ o. is_some o ≡ has_none faults.new) }
{
    match check_entities(alloc, schema, &entities)? {
        Ok(()) if faults.is_empty() => Ok(Some(entities)),
        Ok(()) => Ok(None),
        Err(found) => {
            add_unseen(faults, found)?;
            Ok(None)
        }
    }
}

/// Returns the ids that each declared action is in, at any distance.
fn declared_ancestors(alloc: Global, schema: &ValidatorSchema) -> Result<Ancestors, AllocError> {
    let mut declared = BTreeMap::new(alloc);
    let actions = schema.action_ids(alloc)?;
    for action in &actions {
        drop(declared.insert(action.name.clone()?, Ids::new(alloc))?);
    }
    for action in &actions {
        let shared = Rc::new(alloc, action.name.clone()?)?;
        for below in action.descendants.iter() {
            if let Some(ancestors) = declared.get_mut(below) {
                ancestors.share(shared.clone()?)?;
            }
        }
    }
    Ok(declared)
}

/// Returns the entities of a list, and the declared actions that it lacks.
fn stored(alloc: Global, list: List<'_>, declared: Ancestors) -> Result<Entities, AllocError> {
    let mut entities = Entities::new(alloc);
    let List { entries, places: _ } = list;
    for listed in entries {
        let Listed { id, entity, .. } = listed;
        entities.add(id, entity)?;
    }
    for (id, ancestors) in declared {
        let action = Entity {
            attributes: BTreeMap::new(alloc),
            ancestors,
            tags: BTreeMap::new(alloc),
        };
        entities.add(id, action)?;
    }
    Ok(entities)
}

/// Lists the faults of the entities as a whole, if no mistake was found before.
fn add_unseen(faults: &mut Faults, found: Vec<EntityFault>) -> Result<(), AllocError>
    requires { lists_none found.items ≡ false }
    ensures { OnOk result (has_none faults.new ≡ false) }
{
    if !faults.is_empty() {
        return Ok(());
    }
    let place = Loc { start: 0, end: 0 };
    for fault in found {
        faults.add(place, Problem::Entity(fault))?;
    }
    Ok(())
}
