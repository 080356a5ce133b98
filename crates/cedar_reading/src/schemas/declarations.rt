// Declarations that were read of a schema's text, and their names.
use crate::faults::{Fault, ReadError};
use crate::schemas::descendants::start_of;
use crate::schemas::expansions::MAX_REPEATED;
use crate::schemas::language::primitive_of;
use crate::schemas::unsure::UnsureNames;
use crate::schemas::written::{Alias, Item, Placed, Space, WrittenActions, WrittenTypes};
use cedar_types::base::{
    EntityType, EntityUID, Name, ValidatorActionKind, ValidatorEntityTypeKind,
};
use std::alloc::{AllocError, Global};
use std::collections::{BTreeMap, BTreeSet};

/// A declaration of entity types or actions.
#[derive(Drop)]
pub struct Declaration<N, K> {
    pub names: Vec<Placed<N>>,
    /// The direct parents of each of the names, as the declaration says.
    pub parents: Vec<Placed<N>>,
    pub kind: K,
}

/// Declarations of entity types.
pub type TypeDeclaration = Declaration<EntityType, ValidatorEntityTypeKind>;

/// Declarations of actions.
pub type ActionDeclaration = Declaration<EntityUID, ValidatorActionKind>;

/// The names that a text declares.
#[derive(Drop)]
pub struct Declared {
    /// The aliases by name; of aliases with one name, the first.
    pub aliases: BTreeMap<Name, Alias>,
    type_names: BTreeSet<EntityType>,
    action_names: BTreeSet<EntityUID>,
    /// Whether an entity type has the word of a primitive type as the last part of its name.
    pub has_primitive_word: bool,
    /// The tokens of declarations of several names, each counted once for each name but the first.
    repeated: usize,
    /// The names that declarations with a fault may declare.
    pub unsure: UnsureNames,
}

impl Declared {
    /// No names so far.
    pub fn new(alloc: Global) -> Declared {
        Declared {
            aliases: BTreeMap::new(alloc),
            type_names: BTreeSet::new(alloc),
            action_names: BTreeSet::new(alloc),
            has_primitive_word: false,
            repeated: 0,
            unsure: UnsureNames::new(alloc),
        }
    }

    /// Adds an alias; it replaces an alias with this name.
    pub fn add_alias(&mut self, alias: Alias) -> Result<(), AllocError> {
        let name = alias.name.clone()?;
        self.aliases.insert(name, alias)?;
        Ok(())
    }

    /// Adds the names of entity types. It fails if names repeat too many tokens.
    pub fn add_types(&mut self, declaration: &WrittenTypes) -> Result<(), ReadError> {
        self.repeat(declaration.names.as_slice(), declaration.tokens)?;
        for own in &declaration.names {
            let is_primitive = primitive_of(own.name.name.basename.as_str()).is_some();
            self.has_primitive_word = self.has_primitive_word || is_primitive;
        }
        add_names(declaration.names.as_slice(), &mut self.type_names)?;
        Ok(())
    }

    /// Adds the names of actions. It fails if names repeat too many tokens.
    pub fn add_actions(&mut self, declaration: &WrittenActions) -> Result<(), ReadError> {
        self.repeat(declaration.names.as_slice(), declaration.tokens)?;
        add_names(declaration.names.as_slice(), &mut self.action_names)?;
        Ok(())
    }

    /// Counts the tokens of a declaration once for each of its names but the first, because each
    /// name has its own copy. It fails if that is too many.
    fn repeat<N>(&mut self, names: &[Placed<N>], tokens: usize) -> Result<(), ReadError> {
        let more = tokens.saturating_mul(names.len().saturating_sub(1));
        self.repeated = self.repeated.saturating_add(more);
        if self.repeated > MAX_REPEATED {
            return Err(ReadError::At(start_of(names.first()), Fault::Repeated));
        }
        Ok(())
    }

    /// The alias of this name, if it is declared.
    pub fn alias(&self, name: &Name) -> Option<&Alias> {
        self.aliases.get(name)
    }

    /// Whether this entity type is declared.
    pub fn has_type(&self, name: &EntityType) -> bool {
        self.type_names.contains(name)
    }

    /// Whether this entity type is declared or may be declared by a declaration with a fault.
    pub fn may_have_type(&self, name: &EntityType) -> bool {
        self.has_type(name) || self.unsure.has(&name.name.basename)
    }

    /// Whether this action is declared.
    pub fn has_action(&self, name: &EntityUID) -> bool {
        self.action_names.contains(name)
    }
}

/// The declarations of a text, in its order, and the names that they declare.
#[derive(Drop)]
pub struct Written {
    pub declared: Declared,
    pub spaces: Vec<Space>,
}

impl Written {
    /// Adds a declaration with a fault outside of namespaces, if there is one.
    pub fn add_faulty(&mut self, faulty: Option<Item>) -> Result<(), AllocError> {
        match faulty {
            Some(item) => self.add_outside(item),
            None => Ok(()),
        }
    }

    /// Adds a declaration outside of namespaces, behind the others.
    pub fn add_outside(&mut self, item: Item) -> Result<(), AllocError> {
        let alloc = *self.spaces.allocator();
        if let Some(space) = self.spaces.last_mut() {
            if space.namespace.is_empty() {
                space.items.push(item)?;
                return Ok(());
            }
        }
        let items = vec![in alloc; item]?;
        self.spaces.push(Space {
            namespace: Vec::new(alloc),
            items,
        })?;
        Ok(())
    }
}

/// The declarations of a text, in its order, with the meanings of the names in them.
#[derive(Drop)]
pub struct Declarations {
    pub declared: Declared,
    pub entity_types: Vec<TypeDeclaration>,
    pub actions: Vec<ActionDeclaration>,
}

impl Declarations {
    /// The bytes of the parents that are not declared and that no declaration with a fault may
    /// declare.
    pub fn unknown_parents(&self, alloc: Global) -> Result<Vec<usize>, AllocError> {
        let declared = &self.declared;
        let mut starts = Vec::new(alloc);
        for parent in self.entity_types.iter().flat_map(|d| d.parents.iter()) {
            if !declared.may_have_type(&parent.name) {
                starts.push(parent.start)?;
            }
        }
        for parent in self.actions.iter().flat_map(|d| d.parents.iter()) {
            if !declared.has_action(&parent.name) && !declared.unsure.has(&parent.name.eid) {
                starts.push(parent.start)?;
            }
        }
        Ok(starts)
    }

    /// Fails if a parent is not declared, with the place of the first one.
    pub fn check_parents(&self) -> Result<(), ReadError> {
        let declared = &self.declared;
        let missing_type = undeclared_parent(self.entity_types.as_slice(), &declared.type_names);
        let actions = self.actions.as_slice();
        match missing_type.or(undeclared_parent(actions, &declared.action_names)) {
            Some(start) => Err(ReadError::At(start, Fault::Undeclared)),
            None => Ok(()),
        }
    }
}

/// Adds names to the known names.
fn add_names<N: Ord + Clone + Drop>(
    names: &[Placed<N>],
    known: &mut BTreeSet<N>,
) -> Result<(), AllocError> {
    for own in names {
        known.insert(own.name.clone()?)?;
    }
    Ok(())
}

/// The byte of the first parent that is not declared.
fn undeclared_parent<N: Ord, K>(
    declared: &[Declaration<N, K>],
    names: &BTreeSet<N>,
) -> Option<usize> {
    for declaration in declared {
        for parent in &declaration.parents {
            if !names.contains(&parent.name) {
                return Some(parent.start);
            }
        }
    }
    None
}
