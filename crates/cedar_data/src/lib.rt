//! Entities and requests in Cedar's JSON forms, read as values that a schema checks. Each mistake
//! has its part of the text.
#![tactic(auto)]

mod checked_entities;
mod checked_entries;
mod checked_requests;
mod closures;
mod collected;
mod faults;
mod listed;
mod mismatches;
mod numbers;
mod reached;
mod times;
mod unfit;
mod values;
mod walks;

pub use checked_entities::{CheckedEntities, check_entities_text};
pub use checked_entries::{CheckedEntry, check_entry_text};
pub use checked_requests::{CheckedRequest, check_request_text};
pub use collected::{ExtensionText, Faults, MAX_FAULTS};
pub use faults::{DataError, DataFault, Owner, Problem};
pub use reached::MAX_ANCESTORS;
