// Environments in which a policy may apply by one of two schemas alone.
use crate::environments::{UNDECLARED, request_shown};
use crate::settings::Settings;
use cedar_findings::environment_changes::EnvironmentChanges;
use cedar_typechecker::typecheck::{PolicyCheck, Typechecker};
use cedar_types::base::{ActionConstraint, ArgumentCheck, EntityType, EntityUID, Template};
use cedar_types::types::request_env::RequestEnv;
use std::alloc::{AllocError, Global};
use std::collections::BTreeSet;

/// The number of environments that are listed of those that a policy gained, and of those that it lost.
const MAX_LISTED: usize = 10;

/// An action with the types of its principal and its resource, whatever slots are linked to.
#[derive(Clone, Copy, PartialEq, Eq, PartialOrd, Ord)]
struct Request<'a> {
    action: &'a EntityUID,
    principal: &'a EntityType,
    resource: &'a EntityType,
}

/// The environments in which a policy may apply, each once, in the order of the schema.
#[derive(PartialEq, Eq, Drop)]
struct Applied<'a> {
    requests: Vec<Request<'a>>,
    /// Whether the policy may apply to actions that the schema does not declare, which is asked in Partial alone.
    has_undeclared: bool,
}

/// The environments in which a policy may apply by the newer settings and not by the older ones, and the reverse. A policy may
/// apply in an environment if its check there is not irrelevant, or has an error.
pub fn environment_changes<'a, C: ArgumentCheck>(
    alloc: Global,
    old: &'a Settings<'a, C>,
    new: &'a Settings<'a, C>,
    policy: &'a Template,
) -> Result<EnvironmentChanges, AllocError> {
    let was = environments_of(alloc, old, policy)?;
    let is = environments_of(alloc, new, policy)?;
    // mostly nothing has changed, and then no set is needed
    if was == is {
        return Ok(EnvironmentChanges {
            gained: Vec::new(alloc),
            lost: Vec::new(alloc),
        });
    }
    Ok(EnvironmentChanges {
        gained: listed_without(alloc, &is, &was)?,
        lost: listed_without(alloc, &was, &is)?,
    })
}

/// The environments in which a policy may apply.
fn environments_of<'a, C: ArgumentCheck>(
    alloc: Global,
    settings: &'a Settings<'a, C>,
    policy: &'a Template,
) -> Result<Applied<'a>, AllocError> {
    let schema = settings.validator.schema();
    let typechecker = Typechecker::new(schema, settings.validator.extensions(), settings.mode);
    let checks = typechecker.typecheck_by_request_env(alloc, policy)?;
    let mut requests = Vec::new(alloc);
    let mut has_undeclared = false;
    for env in schema.linked_request_envs(alloc, settings.mode, policy)? {
        let env = env?;
        match request_of(&env) {
            None => has_undeclared = may_apply(&checks.check(&env)?),
            Some(request) => {
                if is_open(&request, &policy.action_constraint, requests.last())
                    && may_apply(&checks.check(&env)?)
                {
                    requests.push(request)?;
                }
            }
        }
    }
    Ok(Applied {
        requests,
        has_undeclared,
    })
}

/// The request of an environment; `None` if its action is not declared.
fn request_of<'a>(env: &RequestEnv<'a>) -> Option<Request<'a>> {
    match env {
        RequestEnv::UndeclaredAction => None,
        RequestEnv::DeclaredAction {
            principal,
            action,
            resource,
            ..
        } => Some(Request {
            action,
            principal,
            resource,
        }),
    }
}

/// Whether a check has to tell if a policy applies to a request: its scope does not name another action, and the request is not
/// the last one that was found. (All links of slots to types come in succession for a request.)
fn is_open<'a>(
    request: &Request<'a>,
    constraint: &ActionConstraint,
    last: Option<&Request<'a>>,
) -> bool {
    match constraint {
        ActionConstraint::Eq(action) if !is_same(action, request.action) => false,
        _ => last != Some(request),
    }
}

/// Whether two ids are the same. Their last parts mostly tell.
fn is_same(one: &EntityUID, other: &EntityUID) -> bool {
    one.eid == other.eid && one == other
}

/// Whether a policy may apply in the environment of a check.
fn may_apply(check: &PolicyCheck) -> bool {
    match check {
        PolicyCheck::Irrelevant(errors, _) => !errors.is_empty(),
        PolicyCheck::Success(_) | PolicyCheck::Fail(_) => true,
    }
}

/// The first environments that the others lack, in order, and how many there are more.
fn listed_without<'a>(
    alloc: Global,
    one: &Applied<'a>,
    other: &Applied<'a>,
) -> Result<Vec<String>, AllocError> {
    let mut known = BTreeSet::new(alloc);
    for request in &other.requests {
        known.insert(*request)?;
    }
    let mut listed = Vec::new(alloc);
    let mut more = 0u64;
    if one.has_undeclared && !other.has_undeclared {
        listed.push(String::from_str(alloc, UNDECLARED)?)?;
    }
    for request in &one.requests {
        if known.contains(request) {
            continue;
        }
        if listed.len() < MAX_LISTED {
            let Request {
                action,
                principal,
                resource,
            } = request;
            listed.push(request_shown(alloc, action, principal, resource)?)?;
        } else {
            more = more.saturating_add(1);
        }
    }
    if more > 0 {
        listed.push(format!(in alloc; "{more} more")?)?;
    }
    Ok(listed)
}
