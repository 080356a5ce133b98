// A host whose entities are files, one for each: it loads the part of them that a request needs, in rounds.
ghost use Rattle.std.specs.Prelude.{IfOk};
ghost use Rattle.cedar_host.specs.Loaders.{HoldsSliceOf};

use cedar_conformance::entities::Entity;
use cedar_conformance::requests::Request;
use cedar_data::{
    CheckedEntry, CheckedRequest, DataError, Faults, check_entry_text, check_request_text,
};
use cedar_host::loaders::{Loaded, Loader};
use cedar_reading::{SchemaReadError, schema};
use cedar_types::base::{EntityUID, ValidatorSchema};
use std::alloc::AllocError;
use std::{fs, io};
use thiserror::Error;

/// The number of steps of the slices for which the policies were validated.
const STEPS: u32 = 3;

/// The reason why nothing is loaded.
#[derive(Debug, Drop, Error)]
pub enum LoadError {
    #[error(transparent)]
    Memory(#[from(alloc)] AllocError),
    #[error(transparent)]
    Io(#[from] io::Error),
    #[error("the schema is refused: {0}")]
    Schema(#[from] SchemaReadError),
    #[error(transparent)]
    Data(#[from] DataError),
    #[error("rounds/request.json: {0}")]
    UnfitRequest(Faults),
    #[error("{0}: {1}")]
    UnfitEntity(String, Faults),
    #[error("{0} is about {1}")]
    OtherEntity(String, EntityUID),
}

/// The entities of the files that a request needs. They have the slice of three steps of each store that agrees with the files
/// on the ids that were asked for, and has no entity for an id without a file.
fn load(rt: &HostRuntime, schema: &ValidatorSchema, request: &Request) -> Result<Loaded, LoadError>
    ensures { IfOk result (λ loaded. HoldsSliceOf request.now 3 loaded) }
{
    let mut loader = Loader::begin(rt.alloc(), request, STEPS)?;
    for round in 0..STEPS {
        let entries = read_round(rt, schema, round, loader.wanted())?;
        loader = loader.hand_in(rt.alloc(), entries)?;
    }
    Ok(loader.finish())
}

/// The entries of the entities that a round wants, in their order.
fn read_round(
    rt: &HostRuntime,
    schema: &ValidatorSchema,
    round: u32,
    wanted: &[EntityUID],
) -> Result<Vec<Option<Entity>>, LoadError> {
    let mut entries = Vec::new(rt.alloc());
    for id in wanted {
        let entry = read_entry(rt, schema, id)?;
        let found = if entry.is_some() { "read" } else { "no file" };
        println!(rt; "round {round}: {id}, {found}")?;
        entries.push(entry)?;
    }
    Ok(entries)
}

/// The entry of an entity, if it has a file: that of `User::"ann"` is `rounds/User.ann.json`.
fn read_entry(
    rt: &HostRuntime,
    schema: &ValidatorSchema,
    id: &EntityUID,
) -> Result<Option<Entity>, LoadError> {
    let name = format!(in rt.alloc(); "rounds/{}.{}.json", id.entity_type, id.eid)?;
    let text = match fs::read_to_string(rt, &name) {
        Err(error) if error.kind() == io::ErrorKind::NotFound => return Ok(None),
        read => read?,
    };
    let CheckedEntry {
        conforming,
        faults,
        texts: _texts,
    } = check_entry_text(rt.alloc(), schema, &text)?;
    let Some((own, entity)) = conforming else {
        return Err(LoadError::UnfitEntity(name, faults));
    };
    if own != *id {
        return Err(LoadError::OtherEntity(name, own));
    }
    Ok(Some(entity))
}

/// Prints the files that each round reads, and the entities that are loaded.
pub fn run(rt: &HostRuntime) -> Result<(), LoadError> {
    let text = fs::read_to_string(rt, "rounds/documents.cedarschema")?;
    let schema = schema(rt.alloc(), &text)?;
    let text = fs::read_to_string(rt, "rounds/request.json")?;
    let CheckedRequest {
        conforming,
        faults,
        texts: _texts,
    } = check_request_text(rt.alloc(), &schema, &text)?;
    let Some(request) = conforming else {
        return Err(LoadError::UnfitRequest(faults));
    };
    let loaded = load(rt, &schema, &request)?;
    let (count, asked) = (loaded.entities.len(), loaded.ids.len());
    println!(rt; "{count} of {asked} entities have a file")?;
    for id in &loaded.ids {
        if let Some(entity) = loaded.entities.get(id) {
            println!(rt; "{id}: {} attributes", entity.attributes.len())?;
        }
    }
    Ok(())
}
