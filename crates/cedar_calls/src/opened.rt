//! Schemas that are read once, for several calls.
use crate::answers::failure;
use crate::copies::copy_schema;
use crate::faults::{CallFault, only_fault, schema_faults};
use crate::schemas::schema_of;
use cedar_json::{FormError, Object, value_alone};
use cedar_types::base::ValidatorSchema;
use std::alloc::{AllocError, Global};

/// A schema that was read, for calls which name none.
#[derive(Drop)]
pub struct Opened {
    pub(crate) schema: ValidatorSchema,
}

impl Opened {
    /// The schema, for a validator that takes it.
    pub(crate) fn copy(&self, alloc: Global) -> Result<ValidatorSchema, AllocError> {
        copy_schema(alloc, &self.schema)
    }
}

/// Opens the schema of a call, an object of `schema` alone. If the text is no such call, or if the
/// schema cannot be read, it gives the answer, a `failure`. It fails if memory is refused.
pub fn open_call(alloc: Global, call: &str) -> Result<Result<Opened, String>, AllocError> {
    let read = match read_call(alloc, call) {
        Ok(read) => read,
        Err(error) => Err(only_fault(alloc, call, error)?),
    };
    match read {
        Ok(schema) => Ok(Ok(Opened { schema })),
        Err(faults) => Ok(Err(failure(alloc, &faults)?)),
    }
}

fn read_call(
    alloc: Global,
    text: &str,
) -> Result<Result<ValidatorSchema, Vec<CallFault>>, FormError> {
    let root = value_alone(alloc, text)?;
    let object = Object::of(&root)?;
    object.allow(&["schema"])?;
    match schema_of(alloc, text, object.need("schema")?)? {
        Ok(schema) => Ok(Ok(schema)),
        Err(faults) => Ok(Err(schema_faults(alloc, faults)?)),
    }
}
