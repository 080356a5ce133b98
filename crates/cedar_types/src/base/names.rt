// Names: a path and a last part.
ghost use Rattle.std.specs.Prelude.{◌≡◌, [], IfOk, map};
ghost use Rattle.cedar_types.specs.Names.{text_of, path_of};

pub(crate) mod entities;
pub(crate) mod policy_ids;
pub(crate) mod slots;

use std::alloc::{AllocError, Global};
use std::fmt;
use std::rc::RcStr;

/// A name: the parts of its path and its last part, any texts. `Display` writes `::` between the
/// parts.
#[derive(PartialEq, Eq, PartialOrd, Ord, Hash, Debug, Drop)]
pub struct Name {
    pub path: Vec<RcStr>,
    pub basename: RcStr,
}

impl Name {
    /// The name with this last part and without a path.
    pub fn unqualified_name(alloc: Global, basename: &str) -> Result<Name, AllocError>
        ensures { IfOk result (λ n. path_of n ≡ record { path = []; basename = basename.now }) }
    {
        Ok(Name {
            path: Vec::new(alloc),
            basename: RcStr::from_str(alloc, basename)?,
        })
    }

    /// The name with these parts of a path and this last part.
    pub fn new(alloc: Global, basename: &str, path: &[&str]) -> Result<Name, AllocError>
        ensures { IfOk result (λ n. path_of n ≡ record {
          path = map (λ s. s.now) path.now;
          basename = basename.now;
        }) }
    {
        let path = texts_from(alloc, path)?;
        let basename = RcStr::from_str(alloc, basename)?;
        Ok(Name { path, basename })
    }
}

impl Clone for Name {
    ghost is_clone = { λ n m. path_of m ≡ path_of n };

    fn clone(&self) -> Result<Name, AllocError> {
        let path = copy_texts(&self.path)?;
        let basename = self.basename.clone()?;
        Ok(Name { path, basename })
    }
}

impl fmt::Display for Name {
    fn fmt<W: fmt::Write>(&self, f: &mut fmt::Formatter<W>) -> fmt::Result {
        for part in &self.path {
            write!(f, "{part}::")?;
        }
        write!(f, "{}", self.basename)
    }
}

/// A copy of these texts, which the list's own allocator makes.
pub(crate) fn copy_texts(texts: &Vec<RcStr>) -> Result<Vec<RcStr>, AllocError>
    ensures { IfOk result (λ v. map text_of v.items ≡ map text_of texts.now.items) }
{
    let mut copies = Vec::with_capacity(*texts.allocator(), texts.len())?;
    for text in texts {
        copies.push(text.clone()?)?;
    }
    Ok(copies)
}

/// Owned copies of these texts.
pub(crate) fn texts_from(alloc: Global, texts: &[&str]) -> Result<Vec<RcStr>, AllocError>
    ensures { IfOk result (λ v. map text_of v.items ≡ map (λ s. s.now) texts.now) }
{
    let mut owned = Vec::with_capacity(alloc, texts.len())?;
    for text in texts {
        owned.push(RcStr::from_str(alloc, text)?)?;
    }
    Ok(owned)
}
