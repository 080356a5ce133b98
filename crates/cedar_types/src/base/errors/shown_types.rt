// Types as the texts of errors show them.
use crate::base::types::CedarType;
use std::collections::BTreeSet;
use std::fmt;

/// Some types in ascending order, each in backquotes, with a text between them.
#[derive(Drop)]
pub(crate) struct QuotedTypes<'a> {
    pub(crate) types: &'a BTreeSet<CedarType>,
    pub(crate) between: &'static str,
}

impl fmt::Display for QuotedTypes<'_> {
    fn fmt<W: fmt::Write>(&self, f: &mut fmt::Formatter<W>) -> fmt::Result {
        let mut is_first = true;
        for shown in self.types.iter() {
            if !is_first {
                f.write_str(self.between)?;
            }
            is_first = false;
            write!(f, "`{shown}`")?;
        }
        Ok(())
    }
}

/// A type or a set of types; `Display` writes `entity` for `None`.
#[derive(Drop)]
pub(crate) struct OrAnyEntity<'a, T>(pub(crate) &'a Option<T>);

impl<T: fmt::Display> fmt::Display for OrAnyEntity<'_, T> {
    fn fmt<W: fmt::Write>(&self, f: &mut fmt::Formatter<W>) -> fmt::Result {
        match self.0 {
            Some(shown) => write!(f, "{shown}"),
            None => f.write_str("entity"),
        }
    }
}
