// Unsure names, which declarations with a fault may declare.
use crate::cursor::Cursor;
use crate::faults::ReadError;
use crate::texts::text;
use crate::tokens::TokenKind;
use std::alloc::{AllocError, Global};
use std::collections::BTreeSet;
use std::rc::RcStr;

/// Names that may be declared or not, because a declaration could not be read.
#[derive(Drop)]
pub struct UnsureNames {
    /// Whether all names are unsure, because the reader does not know where a namespace begins or
    /// ends.
    are_all: bool,
    /// The last parts of names, and ids.
    names: BTreeSet<RcStr>,
}

impl UnsureNames {
    /// No unsure names so far.
    pub fn new(alloc: Global) -> UnsureNames {
        UnsureNames {
            are_all: false,
            names: BTreeSet::new(alloc),
        }
    }

    /// Makes every name unsure from here on.
    pub fn add_all(&mut self) {
        self.are_all = true;
    }

    /// Adds the next token if it is a word or a text in quotes; the cursor stays.
    pub fn add_next(&mut self, cursor: &Cursor<'_>) -> Result<(), AllocError> {
        let token = cursor.peek();
        match token.kind {
            TokenKind::Word => self.add(cursor.alloc, token.text),
            TokenKind::Text => match text(&mut cursor.at(token.place.start)) {
                Ok(name) => self.add(cursor.alloc, name.as_str()),
                Err(ReadError::Memory(error)) => Err(error),
                Err(ReadError::At(_, _)) => Ok(()),
            },
            _ => Ok(()),
        }
    }

    fn add(&mut self, alloc: Global, name: &str) -> Result<(), AllocError> {
        let name = RcStr::from_str(alloc, name)?;
        self.names.insert(name)?;
        Ok(())
    }

    /// Whether no name is sure.
    pub fn are_all(&self) -> bool {
        self.are_all
    }

    /// Whether a name with this last part, or an action with this id, may be declared.
    pub fn has(&self, name: &RcStr) -> bool {
        self.are_all || self.names.contains(name)
    }
}
