// Environments of an error, as a finding shows them.
use cedar_findings::lengths::cut_name;
use cedar_typechecker::survey::{Environment, Environments, MAX_ENVIRONMENTS_LISTED};
use cedar_types::base::{EntityType, EntityUID};
use std::alloc::{AllocError, Global};

/// The words for the environment of an action that the schema does not declare.
pub const UNDECLARED: &str = "an action that is not declared";

/// Environments of a finding that does not hold in all applicable ones: the first few, at most as many as a survey lists for an
/// error, and the number of the others.
#[derive(Drop)]
pub struct ShownEnvironments {
    count: u64,
    shown: Vec<String>,
}

impl ShownEnvironments {
    /// No environments.
    pub fn new(alloc: Global) -> ShownEnvironments {
        ShownEnvironments {
            count: 0,
            shown: Vec::new(alloc),
        }
    }

    /// Adds the environments of an error.
    pub fn add(&mut self, alloc: Global, environments: &Environments) -> Result<(), AllocError> {
        self.count = self.count.saturating_add(environments.count);
        for environment in &environments.listed {
            if self.shown.len() < MAX_ENVIRONMENTS_LISTED {
                self.shown.push(environment_shown(alloc, environment)?)?;
            }
        }
        Ok(())
    }

    /// The texts of the environments: none if they are all that the policy may apply in, because then they tell the reader no
    /// more than the finding.
    pub fn finish(self, alloc: Global, applicable: u64) -> Result<Vec<String>, AllocError> {
        let ShownEnvironments { count, mut shown } = self;
        if count >= applicable {
            return Ok(Vec::new(alloc));
        }
        let mut others = count;
        for _ in &shown {
            others = others.saturating_sub(1);
        }
        if others > 0 {
            shown.push(format!(in alloc; "{others} more")?)?;
        }
        Ok(shown)
    }
}

/// An environment's action with the types of the principal and of the resource, and the types that slots are linked to.
fn environment_shown(alloc: Global, environment: &Environment) -> Result<String, AllocError> {
    let Some(request) = &environment.request else {
        return String::from_str(alloc, UNDECLARED);
    };
    let mut shown = request_shown(
        alloc,
        &request.action,
        &request.principal,
        &request.resource,
    )?;
    push_slot(alloc, &mut shown, "?principal", &environment.principal_slot)?;
    push_slot(alloc, &mut shown, "?resource", &environment.resource_slot)?;
    Ok(shown)
}

/// An action with the types of its principal and its resource.
pub fn request_shown(
    alloc: Global,
    action: &EntityUID,
    principal: &EntityType,
    resource: &EntityType,
) -> Result<String, AllocError> {
    let action = cut_name(alloc, action.to_string(alloc)?)?;
    let principal = cut_name(alloc, principal.to_string(alloc)?)?;
    let resource = cut_name(alloc, resource.to_string(alloc)?)?;
    format!(in alloc; "{action} by {principal} on {resource}")
}

fn push_slot(
    alloc: Global,
    shown: &mut String,
    name: &str,
    linked: &Option<EntityType>,
) -> Result<(), AllocError> {
    match linked {
        None => Ok(()),
        Some(linked) => {
            let linked = cut_name(alloc, linked.to_string(alloc)?)?;
            write!(shown, " with {name} of {linked}")
        }
    }
}
