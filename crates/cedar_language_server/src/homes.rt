// Homes of schemas: the files that are read as one schema.
use crate::schema_files::{add_schemas_in, is_folder, schema_syntax};
use crate::workspaces::Workspace;
use cedar_findings::syntaxes::Syntax;
use cedar_types::base::ArgumentCheck;
use std::alloc::{AllocError, Global};
use std::collections::BTreeSet;
use std::rt::Files;

/// The files that are read as one schema, and the key by which the workspace keeps the schema.
#[derive(Drop)]
pub struct Home {
    pub key: String,
    pub paths: Vec<String>,
}

impl Home {
    /// Whether the file at a path is one of these.
    fn has(&self, path: &str) -> bool {
        for own in &self.paths {
            if own.as_str() == path {
                return true;
            }
        }
        false
    }
}

impl<C: ArgumentCheck> Workspace<'_, C> {
    /// The home of the schema of a file: the one that the settings name, else the nearest one.
    pub fn home_of<R: Files + AllocGlobal + Clone + Drop>(
        &self,
        rt: &R,
        file: Option<&String>,
    ) -> Result<Option<Home>, AllocError> {
        if let Some(named) = self.named_home(rt)? {
            return Ok(Some(named));
        }
        match file {
            Some(path) => self.nearest_home(rt, path.as_str()),
            None => Ok(None),
        }
    }

    /// The home of an open schema: the one that the settings name if the schema is part of it, else the one in its folder. A
    /// schema in JSON is alone.
    pub fn home_of_schema<R: Files + AllocGlobal + Clone + Drop>(
        &self,
        rt: &R,
        path: &str,
    ) -> Result<Home, AllocError> {
        if let Some(named) = self.named_home(rt)? {
            if named.has(path) {
                return Ok(named);
            }
        }
        let folder = match path.rsplit_once('/') {
            Some((folder, _)) if path.starts_with('/') => Some(folder),
            _ => None,
        };
        if let (Some(folder), Some(Syntax::Cedar)) = (folder, schema_syntax(path)) {
            if let Some(home) = self.home_in(rt, folder)? {
                return Ok(home);
            }
        }
        alone(self.alloc, path)
    }

    /// The home of the schema that the settings name, if they name one.
    pub fn named_home<R: Files + AllocGlobal + Clone + Drop>(
        &self,
        rt: &R,
    ) -> Result<Option<Home>, AllocError> {
        if self.options.schema.is_empty() {
            return Ok(None);
        }
        let mut paths = Vec::new(self.alloc);
        for path in &self.options.schema {
            let found = if is_folder(rt, path.as_str()) {
                self.home_in(rt, path.as_str().trim_end_matches('/'))?
            } else {
                None
            };
            match found {
                Some(home) => {
                    for path in home.paths {
                        paths.push(path)?;
                    }
                }
                None => paths.push(path.clone()?)?,
            }
        }
        // no other key has an end of a line
        let mut key = String::new(self.alloc);
        for path in &paths {
            writeln!(key, "{path}")?;
        }
        Ok(Some(Home { key, paths }))
    }

    /// The home that is nearest to a file: in its folder, or in the next folder above that has one.
    fn nearest_home<R: Files + AllocGlobal + Clone + Drop>(
        &self,
        rt: &R,
        path: &str,
    ) -> Result<Option<Home>, AllocError> {
        let mut folder = path;
        for _ in 0..path.len() {
            let Some((above, _)) = folder.rsplit_once('/') else {
                break;
            };
            folder = above;
            if let Some(home) = self.home_in(rt, folder)? {
                return Ok(Some(home));
            }
        }
        Ok(None)
    }

    /// The home in a folder: all its schemas in Cedar's own syntax, on disk or open, by name; without one the first schema in
    /// JSON.
    fn home_in<R: Files + AllocGlobal + Clone + Drop>(
        &self,
        rt: &R,
        folder: &str,
    ) -> Result<Option<Home>, AllocError> {
        let mut names = BTreeSet::new(self.alloc);
        add_schemas_in(rt, folder, &mut names)?;
        for path in self.open_schemas.keys() {
            if let Some((above, name)) = path.as_str().rsplit_once('/') {
                if above == folder {
                    names.insert(String::from_str(self.alloc, name)?)?;
                }
            }
        }
        let mut paths = Vec::new(self.alloc);
        for name in names.iter() {
            if schema_syntax(name.as_str()) == Some(Syntax::Cedar) {
                paths.push(format!(in self.alloc; "{folder}/{name}")?)?;
            }
        }
        if !paths.is_empty() {
            let key = format!(in self.alloc; "{folder}/")?;
            return Ok(Some(Home { key, paths }));
        }
        match names.first() {
            Some(name) => {
                let path = format!(in self.alloc; "{folder}/{name}")?;
                Ok(Some(alone(self.alloc, path.as_str())?))
            }
            None => Ok(None),
        }
    }
}

/// The home of one file.
fn alone(alloc: Global, path: &str) -> Result<Home, AllocError> {
    let mut paths = Vec::new(alloc);
    paths.push(String::from_str(alloc, path)?)?;
    let key = String::from_str(alloc, path)?;
    Ok(Home { key, paths })
}
