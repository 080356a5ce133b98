// Single entities, read and checked by a schema one at a time: the form for a store that does not
// fit into one text.
ghost use Rattle.std.specs.Prelude.{◌≡◌, length, IfErr, IfOk, IfSome, is_some};
ghost use Rattle.cedar_types.specs.Names.{uid_of};
ghost use Rattle.cedar_types.specs.Schemas.Contents.{schema_of};
ghost use Rattle.cedar_types.specs.Schemas.{type_named};
ghost use Rattle.cedar_types.specs.Values.Stores.{FitsDeclaration};
ghost use Rattle.cedar_conformance.specs.Entities.{entity_of};
ghost use Rattle.cedar_json.specs.Cursors.{IsFaultWithin};
ghost use Rattle.cedar_data.specs.Faults.{has_none};

use crate::collected::{Collected, ExtensionText, Faults};
use crate::faults::{DataError, Problem};
use crate::listed::{Listed, read_stored};
use crate::unfit::add_unfit_one;
use cedar_conformance::entities::Entity;
use cedar_conformance::entity_faults::EntityFault;
use cedar_conformance::stored::check_entity;
use cedar_json::{FormFault, value_alone};
use cedar_types::base::{EntityUID, Loc, ValidatorSchema};
use std::alloc::{AllocError, Global};

/// The result of reading a text of one entity.
#[derive(Debug, Drop)]
pub struct CheckedEntry {
    /// The entity with its id, if there is no mistake: it fits the schema.
    pub conforming: Option<(EntityUID, Entity)>,
    /// The mistakes: there are none exactly if there is an entity.
    pub faults: Faults,
    /// The texts that go to constructors of extension values. The check does not ask whether the
    /// constructors can read them.
    pub texts: Vec<ExtensionText>,
}

/// Reads an entity in Cedar's JSON form, and checks it by a schema. Unlike in a list, its `parents`
/// are all entities that it is in, at any distance. The answer is an error if the text is not JSON
/// that the reader accepts, or if memory is refused.
pub fn check_entry_text(
    alloc: Global,
    schema: &ValidatorSchema,
    text: &str,
) -> Result<CheckedEntry, DataError>
    ensures fits { IfOk result (λ c. IfSome c.conforming (λ e.
        FitsDeclaration (schema_of schema.now) (uid_of e.0)
        (type_named (schema_of schema.now).types (uid_of e.0).entity_type) (entity_of e.1))) }
    ensures agrees { IfOk result (λ c. is_some c.conforming ≡ has_none c.faults) }
    ensures err { IfErr result (λ e. IsFaultWithin (length text.now) e) }
{
    let value = value_alone(alloc, text)?;
    let mut collected = Collected::new(alloc, schema);
    let listed = read_stored(&mut collected, text, &value)?;
    if let Some(listed) = &listed {
        add_unfit_one(&mut collected, listed)?;
    }
    let Collected {
        mut faults,
        texts,
        ..
    } = collected;
    let conforming = keep_conforming(alloc, schema, listed, &mut faults)?;
    faults.sort()?;
    Ok(CheckedEntry {
        conforming,
        faults,
        texts,
    })
}

/// Returns the entity if it fits the schema and there is no mistake. If it does not fit, a mistake
/// is listed.
fn keep_conforming(
    alloc: Global,
    schema: &ValidatorSchema,
    listed: Option<Listed<'_>>,
    faults: &mut Faults,
) -> Result<Option<(EntityUID, Entity)>, AllocError>
    ensures fits { IfOk result (λ o. IfSome o (λ e. FitsDeclaration (schema_of schema.now)
        (uid_of e.0) (type_named (schema_of schema.now).types (uid_of e.0).entity_type)
        (entity_of e.1))) }
    ensures agrees { IfOk result (λ o. is_some o ≡ has_none faults.new) }
{
    match listed {
        Some(listed) => {
            let Listed {
                id,
                entity,
                place,
                ..
            } = listed;
            keep_fitting(alloc, schema, (id, entity), place, faults)
        }
        None => {
            let place = Loc { start: 0, end: 0 };
            let problem = Problem::Form(FormFault::Expected("an entity"));
            faults.add_if_none(place, problem)?;
            Ok(None)
        }
    }
}

fn keep_fitting(
    alloc: Global,
    schema: &ValidatorSchema,
    entry: (EntityUID, Entity),
    place: Loc,
    faults: &mut Faults,
) -> Result<Option<(EntityUID, Entity)>, AllocError>
    ensures fits { IfOk result (λ o. IfSome o (λ e. FitsDeclaration (schema_of schema.now)
        (uid_of e.0) (type_named (schema_of schema.now).types (uid_of e.0).entity_type)
        (entity_of e.1))) }
    ensures agrees { IfOk result (λ o. is_some o ≡ has_none faults.new) }
{
    let (id, entity) = entry;
    match check_entity(alloc, schema, &id, &entity)? {
        Ok(()) if faults.is_empty() => Ok(Some((id, entity))),
        Ok(()) => Ok(None),
        Err(problem) => {
            faults.add_if_none(place, Problem::Entity(EntityFault { id, problem }))?;
            Ok(None)
        }
    }
}
