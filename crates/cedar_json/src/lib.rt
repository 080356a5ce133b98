//! JSON texts as trees of values, each with its place, or the first fault of a text and its byte;
//! and Cedar's JSON forms: schemas as texts in Cedar's own syntax, and policies as trees.
#![tactic(auto)]

mod cursor;
mod escapes;
mod examples;
mod faults;
mod forms;
mod literals;
mod names;
mod numbers;
mod objects;
mod parts;
mod policies;
mod schemas;
mod steps;
mod texts;
mod translations;
mod values;
mod whole;

pub use examples::{examples_of_texts, items_make_the_array};
pub use faults::{Fault, ReadError};
pub use forms::{FormError, FormFault, Object, PlacedFault, expected, items_of, text_of};
pub use parts::{Items, value_at};
pub use policies::{Policies, ReadPolicy, entity_uid};
pub use schemas::{FaultySchema, schema_text, schema_text_or_faults};
pub use steps::MAX_LENGTH;
pub use translations::Translation;
pub use values::{Key, MAX_DEPTH, Value, ValueKind};
pub use whole::value_alone;
