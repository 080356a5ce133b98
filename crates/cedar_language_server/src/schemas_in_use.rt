// The schemas by which policies are checked: each is read again where it may have changed, and its documents are judged again.
use crate::homes::Home;
use crate::schema_files::{schema_syntax, text_of_file};
use crate::workspaces::{Schema, Workspace};
use cedar_editor::judges::{Judge, SharedSettings};
use cedar_editor::schemas::{SchemaDocument, SchemaSource};
use cedar_findings::syntaxes::Syntax;
use cedar_types::base::ArgumentCheck;
use std::alloc::{AllocError, Global};
use std::collections::{BTreeMap, BTreeSet};
use std::rc::Rc;
use std::rt::Files;

/// The texts of the files of a schema, as they are now.
#[derive(Drop)]
struct Texts {
    texts: Vec<String>,
    is_unread: bool,
}

impl<'e, C: ArgumentCheck> Workspace<'e, C> {
    /// Finds and reads the schema of each open document again. Policies whose schema or options have changed are judged again,
    /// and a schema of no open document counts no longer.
    pub fn refresh<R: Files + AllocGlobal + Clone + Drop>(
        &mut self,
        rt: &R,
    ) -> Result<(), AllocError> {
        let mut read = BTreeSet::new(self.alloc);
        for path in keys_of(self.alloc, &self.open_schemas)? {
            self.refresh_schema(rt, path.as_str(), &mut read)?;
        }
        for uri in keys_of(self.alloc, &self.documents)? {
            self.refresh_document(rt, uri.as_str(), &mut read)?;
        }
        for key in keys_of(self.alloc, &self.schemas)? {
            if !read.contains(key.as_str()) {
                match self.schemas.remove(key.as_str()) {
                    Some(old) => drop(old),
                    None => {}
                }
            }
        }
        Ok(())
    }

    /// Finds and reads the schema of an open schema file again, unless this refresh has read it.
    fn refresh_schema<R: Files + AllocGlobal + Clone + Drop>(
        &mut self,
        rt: &R,
        path: &str,
        read: &mut BTreeSet<String>,
    ) -> Result<(), AllocError> {
        let home = self.home_of_schema(rt, path)?;
        let Some(key) = self.load_once(rt, Some(home), read)? else {
            return Ok(());
        };
        if let Some(open) = self.open_schemas.get_mut(path) {
            if open.schema.as_str() != key.as_str() {
                open.schema = key;
                open.is_shown = false;
            }
        }
        Ok(())
    }

    /// Finds and reads the schema of a document again, unless this refresh has read it, and judges the policies again if their
    /// judge is another one now.
    fn refresh_document<R: Files + AllocGlobal + Clone + Drop>(
        &mut self,
        rt: &R,
        uri: &str,
        read: &mut BTreeSet<String>,
    ) -> Result<(), AllocError> {
        let path = match self.documents.get(uri) {
            Some(document) => clone_of(document.path.as_ref())?,
            None => return Ok(()),
        };
        let home = self.home_of(rt, path.as_ref())?;
        let schema = self.load_once(rt, home, read)?;
        let judge = self.judge_by(schema.as_ref())?;
        let Some(document) = self.documents.get_mut(uri) else {
            return Ok(());
        };
        if !are_alike(document.policies.judge(), &judge) {
            document.policies.judge_all(self.alloc, judge)?;
            document.is_shown = false;
        }
        if document.schema != schema {
            document.schema = schema;
            document.is_shown = false;
        }
        Ok(())
    }

    /// Reads a schema, unless this refresh has read it. The answer is its key.
    fn load_once<R: Files + AllocGlobal + Clone + Drop>(
        &mut self,
        rt: &R,
        home: Option<Home>,
        read: &mut BTreeSet<String>,
    ) -> Result<Option<String>, AllocError> {
        if let Some(home) = &home {
            if read.contains(home.key.as_str()) {
                return Ok(Some(home.key.clone()?));
            }
            read.insert(home.key.clone()?)?;
        }
        self.load(rt, home)
    }

    /// Reads a schema, unless its texts are those that it has. The answer is its key.
    fn load<R: Files + AllocGlobal + Clone + Drop>(
        &mut self,
        rt: &R,
        home: Option<Home>,
    ) -> Result<Option<String>, AllocError> {
        let Some(Home { key, paths }) = home else {
            return Ok(None);
        };
        let texts = self.texts_of(rt, &paths)?;
        if let Some(schema) = self.schemas.get(key.as_str()) {
            if is_as_read(schema, &paths, &texts) {
                return Ok(Some(key));
            }
        }
        self.put_schema(key.as_str(), paths, &texts)?;
        for document in self.documents.values_mut() {
            if document.schema.as_ref() == Some(&key) {
                document.is_shown = false;
            }
        }
        for open in self.open_schemas.values_mut() {
            if open.schema == key {
                open.is_shown = false;
            }
        }
        Ok(Some(key))
    }

    /// Puts the texts of a schema in place of those that it had. If they have a fault, the validator by the last ones without
    /// one stays, unless a file could not be read.
    fn put_schema(
        &mut self,
        key: &str,
        paths: Vec<String>,
        read: &Texts,
    ) -> Result<(), AllocError> {
        let mut sources = Vec::with_capacity(self.alloc, paths.len())?;
        for (path, text) in paths.iter().zip(read.texts.iter()) {
            let text = text.as_str();
            let syntax = schema_syntax(path.as_str()).unwrap_or(Syntax::of(text));
            sources.push(SchemaSource { syntax, text })?;
        }
        let was_read = match self.schemas.get(key) {
            Some(schema) => !schema.is_unread,
            None => false,
        };
        if was_read && !read.is_unread {
            if let Some(schema) = self.schemas.get_mut(key) {
                schema
                    .document
                    .replace(self.alloc, self.extensions, sources.as_slice())?;
                schema.paths = paths;
                return Ok(());
            }
        }
        let document = SchemaDocument::of_texts(self.alloc, self.extensions, sources.as_slice())?;
        let schema = Schema {
            paths,
            is_unread: read.is_unread,
            document,
        };
        match self
            .schemas
            .insert(String::from_str(self.alloc, key)?, schema)?
        {
            Some(old) => drop(old),
            None => {}
        }
        Ok(())
    }

    /// The texts of the files at these paths: of the editor where a file is open, else of the disk.
    fn texts_of<R: Files + AllocGlobal + Clone + Drop>(
        &self,
        rt: &R,
        paths: &Vec<String>,
    ) -> Result<Texts, AllocError> {
        let mut texts = Vec::with_capacity(self.alloc, paths.len())?;
        let mut is_unread = false;
        for path in paths {
            let text = self.text_at(rt, path.as_str())?;
            is_unread = is_unread || text.is_none();
            texts.push(text.unwrap_or(String::new(self.alloc)))?;
        }
        Ok(Texts { texts, is_unread })
    }

    /// The text of the schema file at a path, if it is open or can be read.
    pub fn text_at<R: Files + AllocGlobal + Clone + Drop>(
        &self,
        rt: &R,
        path: &str,
    ) -> Result<Option<String>, AllocError> {
        match self.open_schemas.get(path) {
            Some(open) => Ok(Some(open.text.clone()?)),
            None => text_of_file(rt, path),
        }
    }

    /// The judge by the schema with this key and by the options; of reading alone if there is no schema without a fault.
    fn judge_by(&self, key: Option<&String>) -> Result<Judge<'e, C>, AllocError> {
        let validator = match self.schema_at(key) {
            Some(schema) if !schema.is_unread => schema.document.validator(),
            _ => None,
        };
        match validator {
            Some(validator) => Ok(Judge::Settings(SharedSettings {
                validator: validator.clone()?,
                mode: self.options.mode,
                level: self.options.level,
            })),
            None => Ok(Judge::Reading(self.extensions)),
        }
    }
}

/// Whether a schema has these files, with these texts.
fn is_as_read<C: ArgumentCheck>(schema: &Schema<'_, C>, paths: &Vec<String>, read: &Texts) -> bool {
    if schema.is_unread != read.is_unread || schema.paths != *paths {
        return false;
    }
    for (own, text) in schema.document.texts().iter().zip(read.texts.iter()) {
        if own.text.as_str() != text.as_str() {
            return false;
        }
    }
    true
}

/// Whether two judges say the same, because they have one validator and the same options.
fn are_alike<'e, C>(one: &Judge<'e, C>, two: &Judge<'e, C>) -> bool {
    match (one, two) {
        (Judge::Reading(_), Judge::Reading(_)) => true,
        (Judge::Settings(one), Judge::Settings(two)) => {
            one.mode == two.mode
                && one.level == two.level
                && Rc::ptr_eq(&one.validator, &two.validator)
        }
        _ => false,
    }
}

/// The keys of a map.
fn keys_of<V>(alloc: Global, map: &BTreeMap<String, V>) -> Result<Vec<String>, AllocError> {
    let mut keys = Vec::with_capacity(alloc, map.len())?;
    for key in map.keys() {
        keys.push(key.clone()?)?;
    }
    Ok(keys)
}

fn clone_of(text: Option<&String>) -> Result<Option<String>, AllocError> {
    match text {
        Some(text) => Ok(Some(text.clone()?)),
        None => Ok(None),
    }
}
