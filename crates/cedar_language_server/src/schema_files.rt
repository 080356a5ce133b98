// Schema files: which files are schemas, and their texts.
use cedar_findings::sources::{Content, content_of};
use cedar_findings::syntaxes::Syntax;
use std::alloc::AllocError;
use std::collections::BTreeSet;
use std::io::Read;
use std::rt::Files;
use std::{fs, io};

/// The endings of schema files, in Cedar's own syntax and in JSON.
const ENDING: &str = ".cedarschema";

const JSON_ENDING: &str = ".cedarschema.json";

/// The beginning of the name of a lock, which Emacs puts beside a file with changes.
const LOCK: &str = ".#";

/// The most bytes that a schema file may have.
const MOST: u64 = 1 << 26;

/// The syntax of the schema in a file of this name or path; `None` if the name is not one of a schema.
pub fn schema_syntax(path: &str) -> Option<Syntax> {
    let name = match path.rsplit_once('/') {
        Some((_, name)) => name,
        None => path,
    };
    if name.starts_with(LOCK) {
        None
    } else if name.ends_with(ENDING) {
        Some(Syntax::Cedar)
    } else if name.ends_with(JSON_ENDING) {
        Some(Syntax::Json)
    } else {
        None
    }
}

/// Whether a path is that of a folder.
pub fn is_folder<R: Files>(rt: &R, path: &str) -> bool {
    match fs::metadata(rt, path) {
        Ok(it) => it.is_dir(),
        Err(_) => false,
    }
}

/// Whether a path is that of a file of at most 64 MiB, and no device, pipe or folder, each of which may never end.
fn is_small_file<R: Files>(rt: &R, path: &str) -> bool {
    match fs::metadata(rt, path) {
        Ok(it) => it.is_file() && it.len() <= MOST,
        Err(_) => false,
    }
}

/// Adds the names of the schema files in a folder; none if the folder cannot be read.
pub fn add_schemas_in<R: Files + AllocGlobal + Clone + Drop>(
    rt: &R,
    folder: &str,
    names: &mut BTreeSet<String>,
) -> Result<(), AllocError> {
    let alloc = rt.alloc();
    let asked = if folder.is_empty() { "/" } else { folder };
    let entries = match fs::read_dir(rt, asked) {
        Ok(entries) => entries,
        Err(_) => return Ok(()),
    };
    for entry in entries {
        let Ok(entry) = entry else {
            break;
        };
        let name = entry.file_name();
        if schema_syntax(name).is_none() {
            continue;
        }
        let path = format!(in alloc; "{folder}/{name}")?;
        if is_small_file(rt, path.as_str()) {
            names.insert(String::from_str(alloc, name)?)?;
        }
    }
    Ok(())
}

/// The text of a schema file; `None` if there is no such file, or if it has no text in UTF-8. If memory is refused, the answer is
/// an `AllocError`.
pub fn text_of_file<R: Files + AllocGlobal>(
    rt: &R,
    path: &str,
) -> Result<Option<String>, AllocError> {
    if !is_small_file(rt, path) {
        return Ok(None);
    }
    let bytes = match bytes_of_file(rt, path) {
        Ok(bytes) => bytes,
        Err(error) if error.kind() == io::ErrorKind::OutOfMemory => return Err(AllocError),
        Err(_) => return Ok(None),
    };
    match content_of(rt.alloc(), bytes.as_slice())? {
        Content::Text(text) => Ok(Some(text)),
        Content::Broken(_, _) => Ok(None),
    }
}

/// The bytes of a file, and of a file that grows at most one more than a schema may have.
fn bytes_of_file<R: Files + AllocGlobal>(rt: &R, path: &str) -> io::Result<Vec<u8>> {
    let mut bytes = Vec::new(rt.alloc());
    fs::open(rt, path)?
        .take(MOST.saturating_add(1))
        .read_to_end(&mut bytes)?;
    Ok(bytes)
}
