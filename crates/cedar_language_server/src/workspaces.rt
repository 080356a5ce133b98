// The open documents, and the schemas by which policies are checked.
use crate::options::Options;
use crate::uris::{path_of, uri_of};
use crate::waiting::WaitingEdit;
use cedar_editor::documents::PolicyDocument;
use cedar_editor::edits::{Edit, edited};
use cedar_editor::judges::Judge;
use cedar_editor::schemas::{SchemaDocument, SchemaText};
use cedar_types::base::{ArgumentCheck, ExtensionSchemas};
use std::alloc::{AllocError, Global};
use std::collections::BTreeMap;

/// A document of policies that is open in the editor. Its judge is that of its schema.
#[derive(Drop)]
pub struct Document<'e, C: ArgumentCheck> {
    pub version: Option<u64>,
    pub policies: PolicyDocument<'e, C>,
    /// The edits of each change that the policies do not have yet.
    pub waiting: Vec<Vec<WaitingEdit>>,
    pub path: Option<String>,
    /// The key of the schema by which the document is checked.
    pub schema: Option<String>,
    /// The editor was told the diagnostics as they are now.
    pub is_shown: bool,
}

/// A schema file that is open in the editor.
#[derive(Drop)]
pub struct OpenSchema {
    pub uri: String,
    pub version: Option<u64>,
    pub text: String,
    /// The key of the schema of which the file is a part.
    pub schema: String,
    /// The editor was told the diagnostics as they are now.
    pub is_shown: bool,
}

/// A schema that policies are checked by, or that is open: its files, and their texts in the same order.
#[derive(Drop)]
pub struct Schema<'e, C> {
    pub paths: Vec<String>,
    /// A file of the schema cannot be read, so that nothing is checked by it.
    pub is_unread: bool,
    pub document: SchemaDocument<'e, C>,
}

/// The open documents, and the schemas by which they are checked.
#[derive(Drop)]
pub struct Workspace<'e, C: ArgumentCheck> {
    pub alloc: Global,
    pub extensions: &'e ExtensionSchemas<C>,
    /// The options that the editor gave at the beginning.
    pub first_options: Options,
    pub options: Options,
    /// The folder that the editor has open.
    pub root: Option<String>,
    /// The editor watches files for the server.
    pub watches: bool,
    /// Messages to the editor that wait.
    pub waiting: Vec<String>,
    /// A schema, its place or an option may have changed since the schemas were read.
    pub is_stale: bool,
    /// The documents by their URIs.
    pub documents: BTreeMap<String, Document<'e, C>>,
    /// The open schema files by their paths.
    pub open_schemas: BTreeMap<String, OpenSchema>,
    /// The schemas by their keys.
    pub schemas: BTreeMap<String, Schema<'e, C>>,
}

impl<'e, C: ArgumentCheck> Workspace<'e, C> {
    /// A workspace in which nothing is open.
    pub fn new(alloc: Global, extensions: &'e ExtensionSchemas<C>) -> Workspace<'e, C> {
        Workspace {
            alloc,
            extensions,
            first_options: Options::new(alloc),
            options: Options::new(alloc),
            root: None,
            watches: false,
            waiting: Vec::new(alloc),
            is_stale: false,
            documents: BTreeMap::new(alloc),
            open_schemas: BTreeMap::new(alloc),
            schemas: BTreeMap::new(alloc),
        }
    }

    /// The document of policies with this URI, if it is open.
    pub fn document(&self, uri: &str) -> Option<&Document<'e, C>> {
        self.documents.get(uri)
    }

    /// The schema by which a document is checked.
    pub fn schema_of(&self, document: &Document<'e, C>) -> Option<&Schema<'e, C>> {
        self.schema_at(document.schema.as_ref())
    }

    /// The schema with this key, if there is a key.
    pub fn schema_at(&self, key: Option<&String>) -> Option<&Schema<'e, C>> {
        self.schemas.get(key?.as_str())
    }

    /// The URI of the schema file at a path: the editor's own if it is open there.
    pub fn uri_of_schema(&self, path: &str) -> Result<String, AllocError> {
        match self.open_schemas.get(path) {
            Some(open) => open.uri.clone(),
            None => uri_of(self.alloc, path),
        }
    }

    /// The text of the open schema file at a path, as its schema has it.
    pub fn text_in_schema(&self, path: &str, open: &OpenSchema) -> Option<&SchemaText> {
        let schema = self.schemas.get(open.schema.as_str())?;
        for (own, text) in schema.paths.iter().zip(schema.document.texts()) {
            if own.as_str() == path {
                return Some(text);
            }
        }
        None
    }

    /// Opens a document of policies, which takes its text later.
    pub fn open(&mut self, uri: &str, text: &str, version: Option<u64>) -> Result<(), AllocError> {
        self.is_stale = true;
        let mut document = Document {
            version,
            policies: PolicyDocument::new(self.alloc, Judge::Reading(self.extensions), "")?,
            waiting: Vec::new(self.alloc),
            path: path_of(self.alloc, uri)?,
            schema: None,
            is_shown: false,
        };
        document.keep(self.alloc, &[Edit { range: None, text }], version)?;
        match self
            .documents
            .insert(String::from_str(self.alloc, uri)?, document)?
        {
            Some(old) => drop(old),
            None => {}
        }
        Ok(())
    }

    /// Keeps edits of a document of policies, which it takes later.
    pub fn edit(
        &mut self,
        uri: &str,
        edits: &[Edit<'_>],
        version: Option<u64>,
    ) -> Result<(), AllocError> {
        match self.documents.get_mut(uri) {
            Some(document) => document.keep(self.alloc, edits, version),
            None => Ok(()),
        }
    }

    /// Opens a schema file, whose text counts from now on as the editor has it.
    pub fn open_schema(
        &mut self,
        uri: &str,
        text: &str,
        version: Option<u64>,
    ) -> Result<(), AllocError> {
        self.is_stale = true;
        let open = OpenSchema {
            uri: String::from_str(self.alloc, uri)?,
            version,
            text: String::from_str(self.alloc, text)?,
            schema: String::new(self.alloc),
            is_shown: false,
        };
        self.open_schemas.insert(key_of(self.alloc, uri)?, open)?;
        Ok(())
    }

    /// Takes edits of an open schema file.
    pub fn edit_schema(
        &mut self,
        uri: &str,
        edits: &[Edit<'_>],
        version: Option<u64>,
    ) -> Result<(), AllocError> {
        let key = key_of(self.alloc, uri)?;
        let Some(open) = self.open_schemas.get_mut(key.as_str()) else {
            return Ok(());
        };
        open.text = edited(self.alloc, open.text.as_str(), edits)?;
        open.version = version;
        open.is_shown = false;
        self.is_stale = true;
        Ok(())
    }

    /// Closes a schema file: from now on it counts as it is on disk, and not at all if it is not there.
    pub fn close_schema(&mut self, uri: &str) -> Result<(), AllocError> {
        self.is_stale = true;
        let key = key_of(self.alloc, uri)?;
        self.open_schemas.remove(key.as_str());
        Ok(())
    }

    /// Closes a document of policies, if it is open.
    pub fn close(&mut self, uri: &str) {
        self.is_stale = true;
        match self.documents.remove(uri) {
            Some(old) => drop(old),
            None => {}
        }
    }
}

/// The path that a URI means, or the URI itself.
pub fn key_of(alloc: Global, uri: &str) -> Result<String, AllocError> {
    match path_of(alloc, uri)? {
        Some(path) => Ok(path),
        None => String::from_str(alloc, uri),
    }
}
