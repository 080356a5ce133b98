// Blocks: the whole text of a schema, and its namespaces.
use crate::annotations::pass_annotations;
use crate::cursor::{Cursor, MAX_GRAMMAR_STEPS};
use crate::faults::{Expected, Fault, ReadError};
use crate::notes::Met;
use crate::schemas::actions::action_declaration;
use crate::schemas::declarations::{Declared, Written};
use crate::schemas::entity_types::entity_declaration;
use crate::schemas::meanings::own_name;
use crate::schemas::recovery::{go_on_behind, go_on_inside};
use crate::schemas::reserved::{free_alias, free_word};
use crate::schemas::types::written_type;
use crate::schemas::written::{Alias, Item, Space};
use std::alloc::AllocError;
use std::rc::RcStr;

/// The largest number of parts of a namespace's name. Each declared name holds them all.
const MAX_NAMESPACE_PARTS: usize = 64;

/// Reads the declarations from here on. If faults are noted, it leaves out those with a fault.
pub fn written_declarations(cursor: &mut Cursor<'_>) -> Result<Written, ReadError> {
    let mut read = Written {
        declared: Declared::new(cursor.alloc),
        spaces: Vec::new(cursor.alloc),
    };
    for _ in 0..cursor.most_left() {
        if cursor.is_at_end() {
            break;
        }
        let start = cursor.start();
        let block = block(cursor, &mut read);
        let faulty = go_on_behind(cursor, start, block, &mut read.declared.unsure)?;
        read.add_faulty(faulty)?;
    }
    Ok(read)
}

/// Reads a namespace, or a declaration outside of namespaces.
fn block(cursor: &mut Cursor<'_>, read: &mut Written) -> Result<(), ReadError> {
    pass_annotations(cursor)?;
    if cursor.takes("namespace") {
        return namespace(cursor, read);
    }
    let item = declaration(cursor, &[], &mut read.declared)?;
    read.add_outside(item)?;
    Ok(())
}

/// Reads a namespace behind its first word.
fn namespace(cursor: &mut Cursor<'_>, read: &mut Written) -> Result<(), ReadError> {
    let namespace = match head(cursor) {
        Ok(path) => path,
        Err(error) => {
            if !go_on_inside(cursor, error, &mut read.declared.unsure)? {
                return Ok(());
            }
            Vec::new(cursor.alloc)
        }
    };
    let mut items = Vec::new(cursor.alloc);
    for _ in 0..cursor.most_left() {
        if cursor.takes("}") {
            break;
        }
        let is_last = cursor.is_at_end();
        let start = cursor.start();
        let read_item = add_declaration(
            cursor,
            namespace.as_slice(),
            &mut read.declared,
            &mut items,
        );
        let faulty = go_on_behind(cursor, start, read_item, &mut read.declared.unsure)?;
        add_faulty(faulty, &mut items)?;
        if is_last {
            break;
        }
    }
    cursor.takes(";");
    read.spaces.push(Space { namespace, items })?;
    Ok(())
}

/// Adds a declaration with a fault, if there is one.
fn add_faulty(faulty: Option<Item>, items: &mut Vec<Item>) -> Result<(), AllocError> {
    if let Some(item) = faulty {
        items.push(item)?;
    }
    Ok(())
}

/// Reads a declaration of a namespace, and adds it.
fn add_declaration(
    cursor: &mut Cursor<'_>,
    namespace: &[RcStr],
    declared: &mut Declared,
    items: &mut Vec<Item>,
) -> Result<(), ReadError> {
    let item = declaration(cursor, namespace, declared)?;
    items.push(item)?;
    Ok(())
}

/// Reads the name of a namespace, and the brace behind it.
fn head(cursor: &mut Cursor<'_>) -> Result<Vec<RcStr>, ReadError> {
    let path = path(cursor)?;
    cursor.expect("{")?;
    Ok(path)
}

/// Reads words with `::` between them, at most `MAX_NAMESPACE_PARTS`.
fn path(cursor: &mut Cursor<'_>) -> Result<Vec<RcStr>, ReadError> {
    let mut words = Vec::new(cursor.alloc);
    for _ in 0..cursor.most_left() {
        if words.len() >= MAX_NAMESPACE_PARTS {
            return Err(cursor.fault(Fault::LongNamespace));
        }
        let word = free_word(cursor)?;
        words.push(RcStr::from_str(cursor.alloc, word)?)?;
        if !cursor.takes("::") {
            break;
        }
    }
    Ok(words)
}

/// Reads a declaration in the namespace of this name, and adds the names that it declares.
fn declaration(
    cursor: &mut Cursor<'_>,
    namespace: &[RcStr],
    declared: &mut Declared,
) -> Result<Item, ReadError> {
    pass_annotations(cursor)?;
    if cursor.takes("entity") {
        let types = entity_declaration(cursor, namespace)?;
        declared.add_types(&types)?;
        Ok(Item::Types(types))
    } else if cursor.takes("action") {
        let actions = action_declaration(cursor, namespace)?;
        declared.add_actions(&actions)?;
        Ok(Item::Actions(actions))
    } else if cursor.takes("type") {
        alias_declaration(cursor, namespace, declared)
    } else {
        Err(cursor.fault(Fault::Expected(Expected::Declaration)))
    }
}

/// Reads an alias declaration behind its first word, and adds it.
fn alias_declaration(
    cursor: &mut Cursor<'_>,
    namespace: &[RcStr],
    declared: &mut Declared,
) -> Result<Item, ReadError> {
    let own_start = cursor.start();
    let word = free_alias(cursor)?;
    let name = own_name(cursor.alloc, namespace, word)?;
    let is_there = declared.alias(&name).is_some();
    if is_there {
        cursor.notes.meet(own_start, Met::Fault(Fault::SameName))?;
    }
    cursor.expect("=")?;
    let tokens_before = cursor.tokens();
    let written = written_type(cursor, MAX_GRAMMAR_STEPS)?;
    let tokens = cursor.tokens();
    cursor.expect(";")?;
    let alias = Alias {
        name,
        own_start,
        written,
        tokens_before,
        tokens,
    };
    if is_there {
        return Ok(Item::RepeatedAlias(alias));
    }
    let name = alias.name.clone()?;
    declared.add_alias(alias)?;
    Ok(Item::Alias(name))
}
