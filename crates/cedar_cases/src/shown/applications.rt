// Answers on whether an action applies to a principal and a resource that a scope admits.
use crate::shown::places::{Source, push_place};
use cedar_types::base::ValidationWarning;
use std::alloc::{AllocError, Global};

/// `applies`, or `warning` and its two flags, with its place if that is not the policy's.
pub fn application(
    alloc: Global,
    answer: &Result<(), ValidationWarning>,
    source: Source<'_>,
) -> Result<String, AllocError> {
    let warning = match answer {
        Ok(()) => return String::from_str(alloc, "applies"),
        Err(warning) => warning,
    };
    let mut shown = match warning {
        ValidationWarning::InvalidActionApplication(found) => {
            let principal = found.would_in_fix_principal;
            let resource = found.would_in_fix_resource;
            format!(in alloc; "warning principal={principal} resource={resource}")?
        }
        other => other.to_string(alloc)?,
    };
    let place = warning.source_loc();
    if place != source.policy {
        push_place(&mut shown, place, source)?;
    }
    Ok(shown)
}
