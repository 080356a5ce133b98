// Options of an editor: the schema of all policies, the mode and the level.
use crate::uris::path_of;
use cedar_types::base::ValidationMode;
use serde_json::Value;
use std::alloc::{AllocError, Global};

const NO_OBJECT: &str = "the settings must be an object";

const NO_MODE: &str = "the setting `mode` must be \"strict\" or \"permissive\"";

const NO_LEVEL: &str = "the setting `level` must be a whole number from 0 to 4294967295";

const NO_PATHS: &str = "the setting `schema` must be a path, a `file:` URI, or a list of these";

/// The options by which policies are checked.
#[derive(Drop)]
pub struct Options {
    pub mode: ValidationMode,
    pub level: Option<u32>,
    /// The paths of the files and folders of the schema of all policies. If there is none, the nearest schema counts.
    pub schema: Vec<String>,
}

impl Options {
    /// The options of an editor that says none.
    pub fn new(alloc: Global) -> Options {
        Options {
            mode: ValidationMode::Strict,
            level: None,
            schema: Vec::new(alloc),
        }
    }

    /// A copy of these options.
    pub fn copy(&self, alloc: Global) -> Result<Options, AllocError> {
        let mut schema = Vec::new(alloc);
        for path in &self.schema {
            schema.push(path.clone()?)?;
        }
        Ok(Options {
            mode: self.mode,
            level: self.level,
            schema,
        })
    }

    /// Takes the options that a value says. An option that it does not say, or that cannot be read, stays as it is. The answer
    /// has a message for each option that cannot be read. A path may begin at the root.
    pub fn take(
        &mut self,
        alloc: Global,
        root: Option<&String>,
        said: &Value,
    ) -> Result<Vec<&'static str>, AllocError> {
        let mut messages = Vec::new(alloc);
        if said.is_null() {
            return Ok(messages);
        }
        if !said.is_object() {
            messages.push(NO_OBJECT)?;
        }
        match said.get("mode").map(mode_in) {
            Some(Some(mode)) => self.mode = mode,
            Some(None) => messages.push(NO_MODE)?,
            None => {}
        }
        match said.get("level").map(level_in) {
            Some(Some(level)) => self.level = level,
            Some(None) => messages.push(NO_LEVEL)?,
            None => {}
        }
        if let Some(schema) = said.get("schema") {
            match paths_in(alloc, root, schema)? {
                Some(paths) => self.schema = paths,
                None => messages.push(NO_PATHS)?,
            }
        }
        Ok(messages)
    }
}

/// The mode that a value says, if it says one. `null` is the mode of an editor that says none.
fn mode_in(said: &Value) -> Option<ValidationMode> {
    if said.is_null() {
        return Some(ValidationMode::Strict);
    }
    match said.as_str()? {
        "strict" => Some(ValidationMode::Strict),
        "permissive" => Some(ValidationMode::Permissive),
        _ => None,
    }
}

/// The level that a value says, or none at `null`; `None` if the value says no level.
fn level_in(said: &Value) -> Option<Option<u32>> {
    if said.is_null() {
        return Some(None);
    }
    Some(Some(u32::try_from(said.as_u64()?).ok()?))
}

/// The paths that a value says; `None` if it is no path and no list of paths.
fn paths_in(
    alloc: Global,
    root: Option<&String>,
    said: &Value,
) -> Result<Option<Vec<String>>, AllocError> {
    let mut paths = Vec::new(alloc);
    if said.is_null() || said.as_str() == Some("") {
        return Ok(Some(paths));
    }
    if let Some(name) = said.as_str() {
        return match absolute(alloc, root, name)? {
            Some(path) => {
                paths.push(path)?;
                Ok(Some(paths))
            }
            None => Ok(None),
        };
    }
    let Some(names) = said.as_array() else {
        return Ok(None);
    };
    for name in names {
        match absolute(alloc, root, name.as_str().unwrap_or(""))? {
            Some(path) => paths.push(path)?,
            None => return Ok(None),
        }
    }
    Ok(Some(paths))
}

/// The absolute path that a name means: a `file:` URI, an absolute path, or one that begins at the root.
fn absolute(
    alloc: Global,
    root: Option<&String>,
    name: &str,
) -> Result<Option<String>, AllocError> {
    if let Some(path) = path_of(alloc, name)? {
        return Ok(Some(path));
    }
    if name.starts_with('/') {
        return Ok(Some(String::from_str(alloc, name)?));
    }
    match root {
        Some(root) if !name.is_empty() && !name.contains("://") => {
            Ok(Some(format!(in alloc; "{root}/{name}")?))
        }
        _ => Ok(None),
    }
}
