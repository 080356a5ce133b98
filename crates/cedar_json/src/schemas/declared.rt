// Declared names of a schema.
use crate::forms::{FormError, FormFault, Object};
use crate::names::{is_name, is_word};
use crate::translations::Translation;
use crate::values::{Key, Value};
use std::alloc::{AllocError, Global};
use std::collections::{BTreeMap, BTreeSet};

/// The completeness of the names that were read from a schema.
#[derive(Clone, Copy, PartialEq, Eq, Debug)]
pub enum Names {
    All,
    /// Some names may be missing, because a fault stands at their declaration.
    Some,
}

/// The names of all namespaces, each with its namespace before it.
#[derive(Drop)]
pub struct Declared<'a> {
    pub alloc: Global,
    pub names: Names,
    pub common_types: BTreeMap<String, &'a Value>,
    pub entity_types: BTreeSet<String>,
}

impl<'a> Declared<'a> {
    /// Reads the names that the namespaces declare, and notes their faults. Requires that no fault
    /// was noted before.
    pub fn of(
        alloc: Global,
        out: &mut Translation,
        namespaces: Object<'a>,
    ) -> Result<Declared<'a>, AllocError> {
        let mut declared = Declared {
            alloc,
            names: Names::All,
            common_types: BTreeMap::new(alloc),
            entity_types: BTreeSet::new(alloc),
        };
        for (name, body) in namespaces.entries {
            out.noted(check_namespace(name))?;
            if let Some(body) = out.noted(Object::of(body))? {
                declared.add(out, name.name.as_str(), body)?;
            }
        }
        if out.has_faults() {
            declared.names = Names::Some;
        }
        Ok(declared)
    }

    /// Adds the names that a namespace declares.
    fn add(
        &mut self,
        out: &mut Translation,
        namespace: &str,
        body: Object<'a>,
    ) -> Result<(), AllocError> {
        out.allow(
            body,
            &["commonTypes", "entityTypes", "actions", "annotations"],
        )?;
        out.noted(body.need("entityTypes"))?;
        out.noted(body.need("actions"))?;
        for (key, value) in out.entries_at(body, "commonTypes")? {
            if let Some(name) = out.noted(declared_name(self.alloc, namespace, key))? {
                self.common_types.insert(name, value)?;
            }
        }
        for (key, _) in out.entries_at(body, "entityTypes")? {
            if let Some(name) = out.noted(declared_name(self.alloc, namespace, key))? {
                self.entity_types.insert(name)?;
            }
        }
        out.entries_at(body, "actions")?;
        Ok(())
    }
}

/// Fails if the key of a namespace is not a name. The empty key stands for declarations outside of
/// namespaces.
fn check_namespace(key: &Key) -> Result<(), FormError> {
    let name = key.name.as_str();
    if name.is_empty() || is_name(name) {
        return Ok(());
    }
    Err(FormError::At(key.place.start, FormFault::Name))
}

/// Returns the whole name of a declaration, whose key has to be a word.
fn declared_name(alloc: Global, namespace: &str, key: &Key) -> Result<String, FormError> {
    let word = key.name.as_str();
    if !is_word(word) {
        return Err(FormError::At(key.place.start, FormFault::Name));
    }
    Ok(qualify(alloc, namespace, word)?)
}

/// Returns the name of a word in a namespace. The empty namespace stands for declarations outside
/// of namespaces.
pub fn qualify(alloc: Global, namespace: &str, word: &str) -> Result<String, AllocError> {
    if namespace.is_empty() {
        return String::from_str(alloc, word);
    }
    format!(in alloc; "{namespace}::{word}")
}
