// Lists in expressions, with commas between the members: the elements of a set, the arguments of a
// call, the entries of a record.
use crate::cursor::Cursor;
use crate::faults::{Fault, ReadError};
use crate::members::{attribute, call, method_call};
use crate::parts::{Part, part_since};
use cedar_types::base::{Expr, Name};
use std::collections::BTreeMap;
use std::rc::RcStr;

/// The construct to which the members of a list belong.
#[derive(Drop)]
pub enum ListOf {
    Set,
    /// The arguments of the function of this name.
    Function(Name),
    /// The arguments of a method: its base, its name, and the byte at which the name begins.
    Method(Part, RcStr, usize),
}

/// A list with commas between its members, to which more members may be added.
#[derive(Drop)]
pub struct List {
    /// Byte at which the whole list began.
    start: usize,
    of: ListOf,
    members: Vec<Expr>,
    /// Depth of the deepest member; for a method at least the depth of its base.
    depth: usize,
}

impl List {
    /// A list without members so far.
    pub fn new(cursor: &Cursor<'_>, start: usize, of: ListOf) -> List {
        let depth = match &of {
            ListOf::Method(base, _, _) => base.depth,
            _ => 0,
        };
        let members = Vec::new(cursor.alloc);
        List {
            start,
            of,
            members,
            depth,
        }
    }

    /// The mark that closes this list.
    pub fn closing(&self) -> &'static str {
        match self.of {
            ListOf::Set => "]",
            _ => ")",
        }
    }

    /// This list with one more member.
    pub fn with(mut self, member: Part) -> Result<List, ReadError> {
        self.depth = self.depth.max(member.depth);
        self.members.push(member.expr)?;
        Ok(self)
    }

    /// The set or the call of all members; you must have read the closing mark.
    pub fn finish(self, cursor: &Cursor<'_>) -> Result<Part, ReadError> {
        let List {
            start,
            of,
            members,
            depth,
        } = self;
        let whole = match of {
            ListOf::Set => Expr::set(members),
            ListOf::Function(name) => call(cursor.alloc, start, name, members)?,
            ListOf::Method(base, name, at) => {
                method_call(cursor.alloc, at, name.as_str(), base.expr, members)?
            }
        };
        part_since(cursor, start, depth, whole)
    }
}

/// The entries of a record, of which more may follow.
#[derive(Drop)]
pub struct Fields {
    /// Byte at which the record began.
    start: usize,
    entries: BTreeMap<RcStr, Expr>,
    /// Depth of the deepest value.
    depth: usize,
}

/// A key and the byte at which it stands; its value follows.
#[derive(Drop)]
pub struct Key {
    name: RcStr,
    start: usize,
}

impl Key {
    /// Reads a key and the `:` behind it.
    pub fn read(cursor: &mut Cursor<'_>) -> Result<Key, ReadError> {
        let start = cursor.start();
        let name = attribute(cursor)?;
        cursor.expect(":")?;
        Ok(Key { name, start })
    }
}

impl Fields {
    /// A record without entries so far.
    pub fn new(cursor: &Cursor<'_>, start: usize) -> Fields {
        let entries = BTreeMap::new(cursor.alloc);
        Fields {
            start,
            entries,
            depth: 0,
        }
    }

    /// This record with one more entry. It fails with `Fault::SameKey` if the record has the key
    /// already.
    pub fn with(mut self, key: Key, value: Part) -> Result<Fields, ReadError> {
        self.depth = self.depth.max(value.depth);
        if self.entries.insert(key.name, value.expr)?.is_some() {
            return Err(ReadError::At(key.start, Fault::SameKey));
        }
        Ok(self)
    }

    /// The record of all entries; you must have read the closing brace.
    pub fn finish(self, cursor: &Cursor<'_>) -> Result<Part, ReadError> {
        part_since(cursor, self.start, self.depth, Expr::record(self.entries))
    }
}
