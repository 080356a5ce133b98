// Declarations with the meanings of the names in them.
use crate::cursor::MAX_GRAMMAR_STEPS;
use crate::faults::ReadError;
use crate::notes::Met;
use crate::schemas::actions::meant_actions;
use crate::schemas::applications::check_mention;
use crate::schemas::declarations::{
    ActionDeclaration, Declarations, Declared, TypeDeclaration, Written,
};
use crate::schemas::entity_types::meant_entity_types;
use crate::schemas::expansions::Expansions;
use crate::schemas::meanings::Names;
use crate::schemas::meant_types::meant_type;
use crate::schemas::written::{Alias, Item, Mention, Space, WrittenActions, WrittenTypes};
use std::alloc::{AllocError, Global};

/// Whether a named entity type has to be declared.
#[derive(Clone, Copy, PartialEq, Eq, Debug)]
pub enum Named {
    /// A named type may be any, except in an alias.
    Any,
    /// A named type has to be declared, or be a type of actions. The context of an action has to be
    /// a record then.
    Declared,
}

/// The meaning of a declaration.
#[derive(Drop)]
enum Meant {
    /// No meaning: an alias, or a declaration with a fault.
    Nothing,
    Types(TypeDeclaration),
    Actions(ActionDeclaration),
}

/// The declarations found, by kind.
#[derive(Drop)]
struct Found {
    entity_types: Vec<TypeDeclaration>,
    actions: Vec<ActionDeclaration>,
}

impl Found {
    /// Adds the meaning of a declaration.
    fn add(&mut self, meant: Meant) -> Result<(), AllocError> {
        match meant {
            Meant::Nothing => {}
            Meant::Types(declaration) => self.entity_types.push(declaration)?,
            Meant::Actions(declaration) => self.actions.push(declaration)?,
        }
        Ok(())
    }

    /// Adds the meanings of the declarations of a namespace.
    fn add_space(
        &mut self,
        space: Space,
        declared: &Declared,
        named: Named,
        expansions: &mut Expansions,
    ) -> Result<(), ReadError> {
        let Space { namespace, items } = space;
        let names = Names {
            alloc: *items.allocator(),
            namespace: namespace.as_slice(),
            declared,
            have_to_be_known: named == Named::Declared,
        };
        for item in items {
            let meant = meant_or_noted(item, &names, expansions)?;
            self.add(meant)?;
        }
        Ok(())
    }
}

/// The declarations, with the meanings of the names in them. If faults are noted, it leaves out
/// those with a fault.
pub fn with_meanings(
    alloc: Global,
    written: Written,
    named: Named,
    expansions: &mut Expansions,
) -> Result<Declarations, ReadError> {
    let Written { declared, spaces } = written;
    let mut found = Found {
        entity_types: Vec::new(alloc),
        actions: Vec::new(alloc),
    };
    for space in spaces {
        found.add_space(space, &declared, named, expansions)?;
    }
    let Found {
        entity_types,
        actions,
    } = found;
    Ok(Declarations {
        declared,
        entity_types,
        actions,
    })
}

/// The meaning of a declaration. If faults are noted, a declaration with a fault means nothing.
fn meant_or_noted(
    item: Item,
    names: &Names<'_>,
    expansions: &mut Expansions,
) -> Result<Meant, ReadError> {
    let meant = match item {
        Item::Types(written) => types_meant(written, names, expansions),
        Item::Actions(written) => actions_meant(written, names, expansions),
        Item::Faulty(mentions) => check_mentions(&mentions, names, expansions),
        Item::RepeatedAlias(alias) => check_alias(&alias, names, expansions),
        Item::Alias(name) => match names.declared.alias(&name) {
            Some(alias) => check_alias(alias, names, expansions),
            None => Ok(Meant::Nothing),
        },
    };
    match meant {
        Err(ReadError::At(start, fault)) => {
            expansions.notes.meet(start, Met::Fault(fault))?;
            Ok(Meant::Nothing)
        }
        other => other,
    }
}

fn types_meant(
    written: WrittenTypes,
    names: &Names<'_>,
    expansions: &mut Expansions,
) -> Result<Meant, ReadError> {
    Ok(Meant::Types(meant_entity_types(written, names, expansions)?))
}

fn actions_meant(
    written: WrittenActions,
    names: &Names<'_>,
    expansions: &mut Expansions,
) -> Result<Meant, ReadError> {
    Ok(Meant::Actions(meant_actions(written, names, expansions)?))
}

fn check_mentions(
    mentions: &Vec<Mention>,
    names: &Names<'_>,
    expansions: &mut Expansions,
) -> Result<Meant, ReadError> {
    for mention in mentions {
        check_mention(mention, names, expansions)?;
    }
    Ok(Meant::Nothing)
}

/// Fails, or notes faults, for the names in the type of an alias. They have to be declared, because
/// nothing may use the alias, and then no type of the schema would show an unknown name.
fn check_alias(
    alias: &Alias,
    names: &Names<'_>,
    expansions: &mut Expansions,
) -> Result<Meant, ReadError> {
    let own = Names {
        have_to_be_known: true,
        ..*names
    };
    expansions.notes.read_alias(Some(alias.own_start));
    let read = meant_type(&alias.written, &own, MAX_GRAMMAR_STEPS, expansions);
    expansions.notes.read_alias(None);
    read?;
    Ok(Meant::Nothing)
}
