//! Environments in which a policy may apply by one of two schemas alone.
use crate::lines::push_indented;
use std::alloc::AllocError;

/// The environments in which a policy may apply by one schema and not by the other, as texts. Of many environments a list has
/// the first ones, and the number of the others.
#[derive(Drop)]
pub struct EnvironmentChanges {
    /// The environments of the newer schema alone.
    pub gained: Vec<String>,
    /// The environments of the older schema alone.
    pub lost: Vec<String>,
}

impl EnvironmentChanges {
    /// Whether the policy may apply in the same environments by both schemas.
    pub fn is_empty(&self) -> bool {
        self.gained.is_empty() && self.lost.is_empty()
    }
}

/// Adds a line for each environment that a policy gained or lost.
pub(crate) fn push_environments(
    out: &mut String,
    environments: &EnvironmentChanges,
) -> Result<(), AllocError> {
    for gained in &environments.gained {
        push_indented(out, "newly for ", gained.as_str())?;
    }
    for lost in &environments.lost {
        push_indented(out, "no longer for ", lost.as_str())?;
    }
    Ok(())
}
