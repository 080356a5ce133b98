// Notes of the reading of a schema: faults behind which reading goes on, and names.
use crate::faults::{Expected, Fault, ReadError};
use crate::schemas::written::{Mention, Role, WrittenName};
use std::alloc::{AllocError, Global};
use std::mem;

/// A fault that reading met.
#[derive(Clone, Copy, PartialEq, Eq, Debug)]
pub enum Met {
    /// A fault of the text, or of a name in it.
    Fault(Fault),
    /// A type that is named and not declared.
    UnknownType,
    /// The context of an action, if it is no record.
    VagueContext,
}

impl Met {
    /// The error of this fault at the byte `start`.
    fn at(self, start: usize) -> ReadError {
        let fault = match self {
            Met::Fault(fault) => fault,
            Met::UnknownType => Fault::UnknownType,
            Met::VagueContext => Fault::Expected(Expected::Record),
        };
        ReadError::At(start, fault)
    }
}

/// An alias that is used in the type of another alias.
#[derive(Clone, Copy)]
pub struct AliasUse {
    /// Byte at which the used alias stands.
    pub start: usize,
    /// Byte of the declared name of the alias whose type is read.
    pub user: usize,
    /// Byte of the declared name of the used alias.
    pub used: usize,
}

/// Notes that reading takes while it reads a schema.
#[derive(Drop)]
pub struct Notes {
    /// Whether reading goes on behind a fault.
    are_taken: bool,
    met: Vec<(usize, Met)>,
    /// Byte of the declared name of the alias whose type is read.
    alias: Option<usize>,
    uses: Vec<AliasUse>,
    /// The names read so far of the current declaration.
    mentions: Vec<Mention>,
}

impl Notes {
    /// Notes without entries so far.
    pub fn new(alloc: Global, are_taken: bool) -> Notes {
        Notes {
            are_taken,
            met: Vec::new(alloc),
            alias: None,
            uses: Vec::new(alloc),
            mentions: Vec::new(alloc),
        }
    }

    /// Whether reading goes on behind a fault.
    pub fn are_taken(&self) -> bool {
        self.are_taken
    }

    /// The faults met so far, and the byte of each.
    pub fn met(&self) -> &[(usize, Met)] {
        self.met.as_slice()
    }

    /// The uses of aliases in the types of aliases, in the order of the text.
    pub fn uses(&self) -> &[AliasUse] {
        self.uses.as_slice()
    }

    /// Notes a fault if reading goes on behind faults; else fails with it.
    pub fn meet(&mut self, start: usize, met: Met) -> Result<(), ReadError> {
        if !self.are_taken {
            return Err(met.at(start));
        }
        self.met.push((start, met))?;
        Ok(())
    }

    /// Sets the alias whose type is read from here on, by the byte of its declared name; `None` for
    /// no alias.
    pub fn read_alias(&mut self, own_start: Option<usize>) {
        self.alias = own_start;
    }

    /// Notes that an alias, declared at the byte `used`, is used at the byte `start`.
    pub fn use_alias(&mut self, start: usize, used: usize) -> Result<(), AllocError> {
        if let (true, Some(user)) = (self.are_taken, self.alias) {
            self.uses.push(AliasUse { start, user, used })?;
        }
        Ok(())
    }

    /// Notes a name that was read, if reading goes on behind faults.
    pub fn mention(&mut self, name: &WrittenName, role: Role) -> Result<(), AllocError> {
        if self.are_taken {
            let name = name.copy()?;
            self.mentions.push(Mention { name, role })?;
        }
        Ok(())
    }

    /// Takes the names that were read since the last call.
    pub fn take_mentions(&mut self) -> Vec<Mention> {
        let alloc = *self.mentions.allocator();
        mem::replace(&mut self.mentions, Vec::new(alloc))
    }
}
