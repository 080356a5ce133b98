// Meanings of the names of a schema's text. No meaning has a place, because places are those of a
// policy's text.
use crate::schemas::declarations::Declared;
use crate::schemas::written::Alias;
use cedar_types::base::{EntityType, EntityUID, Name};
use std::alloc::{AllocError, Global};
use std::rc::RcStr;

/// The names that are in force at a place: the namespace and the declarations.
#[derive(Clone, Copy)]
pub struct Names<'a> {
    pub alloc: Global,
    /// The parts of the namespace's name; none outside of namespaces.
    pub namespace: &'a [RcStr],
    /// The declarations of the text.
    pub declared: &'a Declared,
    /// Whether every named entity type has to be declared, or be a type of actions.
    pub have_to_be_known: bool,
}

/// The name that a declaration of `basename` in this namespace declares. It shares the parts of the
/// namespace's name with all others.
pub fn own_name(alloc: Global, namespace: &[RcStr], basename: &str) -> Result<Name, AllocError> {
    let mut path = Vec::new(alloc);
    for part in namespace {
        path.push(part.clone()?)?;
    }
    Ok(Name {
        path,
        basename: RcStr::from_str(alloc, basename)?,
    })
}

/// The entity type that a declaration of `basename` in this namespace declares.
pub fn own_type(
    alloc: Global,
    namespace: &[RcStr],
    basename: &str,
) -> Result<EntityType, AllocError> {
    Ok(EntityType::new(own_name(alloc, namespace, basename)?, None))
}

/// The action that a declaration of `eid` in this namespace declares.
pub fn own_action(alloc: Global, namespace: &[RcStr], eid: &str) -> Result<EntityUID, AllocError> {
    let action_type = own_type(alloc, namespace, "Action")?;
    EntityUID::from_components(alloc, action_type, eid, None)
}

impl<'a> Names<'a> {
    /// The alias that a name means, if it means one. A name without a path means an alias of the
    /// namespace, unless the namespace declares an entity type of that name; else it means the
    /// alias of this very name.
    pub fn alias(&self, name: &Name) -> Result<Option<&'a Alias>, AllocError> {
        if self.declared.aliases.is_empty() {
            return Ok(None);
        }
        if self.is_of_namespace(name) {
            let own = own_type(self.alloc, self.namespace, name.basename.as_str())?;
            if let Some(alias) = self.declared.alias(&own.name) {
                return Ok(Some(alias));
            }
            if self.declared.has_type(&own) {
                return Ok(None);
            }
        }
        Ok(self.declared.alias(name))
    }

    /// Whether a name may mean one of the namespace: if it has no path and stands inside a
    /// namespace.
    fn is_of_namespace(&self, name: &Name) -> bool {
        name.path.is_empty() && !self.namespace.is_empty()
    }

    /// Whether this entity type is a fault, because it has to be known and is not.
    pub fn is_unknown(&self, named: &EntityType) -> bool {
        self.have_to_be_known && !named.is_action() && !self.declared.may_have_type(named)
    }

    /// The entity type that a name means: a name without a path means one of the namespace, if that
    /// declares it; else the one of this very name.
    pub fn entity_type(&self, name: &Name) -> Result<EntityType, AllocError> {
        if self.is_of_namespace(name) {
            let own = own_type(self.alloc, self.namespace, name.basename.as_str())?;
            if self.declared.has_type(&own) {
                return Ok(own);
            }
        }
        Ok(EntityType::new(name.clone()?, None))
    }

    /// The action that an id means: if the name of the id's type has no path, one of the namespace
    /// that declares it, as for an entity type.
    pub fn action(&self, type_name: &Name, eid: &str) -> Result<EntityUID, AllocError> {
        if self.is_of_namespace(type_name) {
            let own_type = own_type(self.alloc, self.namespace, type_name.basename.as_str())?;
            let own = EntityUID::from_components(self.alloc, own_type, eid, None)?;
            if self.declared.has_action(&own) {
                return Ok(own);
            }
        }
        let meant = EntityType::new(type_name.clone()?, None);
        EntityUID::from_components(self.alloc, meant, eid, None)
    }
}
