// Environments: their types and action, and the links of their slots.
use cedar_types::types::request_env::RequestEnv;
use std::alloc::{AllocError, Global};

/// The principal's type, the eid of the action and the resource's type, and behind them each slot that is linked.
pub fn environment(alloc: Global, env: &RequestEnv<'_>) -> Result<String, AllocError> {
    let RequestEnv::DeclaredAction {
        principal,
        action,
        resource,
        principal_slot,
        resource_slot,
        ..
    } = env
    else {
        return String::from_str(alloc, "undeclared");
    };
    let mut shown = format!(in alloc; "{principal} {} {resource}", action.eid)?;
    for (name, slot) in [("?principal", principal_slot), ("?resource", resource_slot)] {
        if let Some(linked) = slot {
            write!(shown, " {name}={linked}")?;
        }
    }
    Ok(shown)
}
