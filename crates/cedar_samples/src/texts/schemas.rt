// Schema of a text.
use crate::texts::faults::HostError;
use cedar_reading::{ReadSchema, RefusedName, schema_with_hiding};
use cedar_types::base::ValidatorSchema;
use std::alloc::Global;

/// The schema that a text declares. The answer is an error if the text cannot be read, if the schema has a fault, if a name in
/// it hides another, which Cedar refuses too, or if memory is refused.
pub fn whole_schema(alloc: Global, text: &str) -> Result<ValidatorSchema, HostError> {
    let ReadSchema { schema, hiding } = schema_with_hiding(alloc, text)?;
    match hiding {
        None => Ok(schema),
        Some(RefusedName { name, start: _ }) => Err(HostError::HidingName(name)),
    }
}
