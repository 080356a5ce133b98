// Faults of entities under a schema.
ghost use Rattle.std.specs.Prelude.{◌≡◌, Bool, true, OnOk};
ghost use Rattle.cedar_types.specs.Names.{Uid, uid_of};
ghost use Rattle.cedar_conformance.specs.Answers.{finds_none, passes_if_any, AddsNoneWhere};
ghost use Rattle.cedar_conformance.specs.EntityFaults.{faults_pass};
ghost use Rattle.cedar_conformance.specs.declared.entity_faults.EntityProblem.{EntityProblem};

use crate::faults::ValueFault;
use cedar_types::base::EntityUID;
use std::alloc::AllocError;
use std::fmt;

/// The problem of an entity under the declaration of its type, or of the action.
#[derive(Debug, PartialEq, Eq, Drop)]
pub enum EntityProblem {
    /// Neither the type of the entity nor an action of its id is declared.
    Undeclared,
    /// An attribute does not fit the type.
    Attribute(ValueFault),
    /// A tag does not fit the type.
    Tag(ValueFault),
    /// The entity has tags, but its type declares none.
    UndeclaredTags,
    /// The entity may not be in an entity of the type of this one.
    Ancestor(EntityUID),
    /// The entity is an action or of an enumerated type, but has attributes.
    HasAttributes,
    /// The entity is an action or of an enumerated type, but has tags.
    HasTags,
    /// The entity is of an enumerated type, but is in others.
    HasAncestors,
    /// The entity is an action, but no declaration puts it in this one.
    UndeclaredAncestor(EntityUID),
    /// The entity is an action that is declared to be in this one, but is not.
    MissingAncestor(EntityUID),
    /// The entity is a declared action, but is not among the entities.
    MissingAction,
}

/// A fault: the id of an entity, and its problem under the schema.
#[derive(Debug, PartialEq, Eq, Drop)]
pub struct EntityFault {
    pub id: EntityUID,
    pub problem: EntityProblem,
}

impl fmt::Display for EntityFault {
    fn fmt<W: fmt::Write>(&self, f: &mut fmt::Formatter<W>) -> fmt::Result {
        write!(f, "{}", self.id)?;
        match &self.problem {
            EntityProblem::Undeclared => write!(f, ": it is not declared"),
            EntityProblem::Attribute(fault) => write!(f, "{fault}"),
            EntityProblem::Tag(fault) => write!(f, "{fault}"),
            EntityProblem::UndeclaredTags => write!(f, ": its type has no tags"),
            EntityProblem::Ancestor(ancestor) => write!(f, ": it may not be in {ancestor}"),
            EntityProblem::HasAttributes => write!(f, ": it may have no attributes"),
            EntityProblem::HasTags => write!(f, ": it may have no tags"),
            EntityProblem::HasAncestors => write!(f, ": it may be in no other"),
            EntityProblem::UndeclaredAncestor(ancestor) => {
                write!(f, ": it is not declared to be in {ancestor}")
            }
            EntityProblem::MissingAncestor(ancestor) => {
                write!(f, ": it is declared to be in {ancestor}, and is not")
            }
            EntityProblem::MissingAction => {
                write!(f, ": it is a declared action, and is not there")
            }
        }
    }
}

/// Adds the problem of an entity, if a check found one. If memory is refused, it adds nothing.
pub(crate) fn add_found(
    faults: &mut Vec<EntityFault>,
    id: &EntityUID,
    found: Option<EntityProblem>,
) -> Result<(), AllocError>
    ensures none { OnOk result
        (AddsNoneWhere (finds_none found) faults.old.items faults.new.items) }
    ensures there { (p : Uid → EntityProblem → Bool) → OnOk result
        (faults_pass p faults.old.items ≡ true → passes_if_any (p (uid_of id.now)) found ≡ true
        → faults_pass p faults.new.items ≡ true) }
{
    if let Some(problem) = found {
        let id = id.clone()?;
        faults.push(EntityFault { id, problem })?;
    }
    Ok(())
}
