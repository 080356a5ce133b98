// Expansions of aliases. Each alias is expanded once. Beside its type the table keeps the number of
// grammar steps and of tokens that the type takes, so an alias that would be too deep or too large
// is found before it is expanded again.
ghost use Rattle.std.specs.Prelude.{◌≡◌, ◌+◌, IfOk};

use crate::faults::{Fault, ReadError};
use crate::notes::Notes;
use crate::schemas::language::unsure_type;
use crate::schemas::types::deeper;
use crate::schemas::written::{Alias, WrittenName};
use cedar_types::base::CedarType;
use std::alloc::{AllocError, Global};
use std::collections::BTreeMap;
use std::mem;

/// The largest number of tokens of aliases that may be read more than once.
pub const MAX_REPEATED: usize = 1 << 20;

/// The type that an alias stands for.
#[derive(Drop)]
struct Expansion {
    meant: CedarType,
    /// The number of grammar steps and the number of tokens that reading the type takes.
    steps: usize,
    tokens: usize,
}

/// The number of tokens read up to a place, those of aliases included.
#[derive(Clone, Copy)]
struct Count {
    /// The number of tokens read before the type in which we count began, and the number of tokens
    /// of the text before that type.
    before: usize,
    in_text: usize,
    /// The number of tokens of aliases read since.
    repeated: usize,
}

impl Count {
    /// The number of tokens read at the place before which the text has `tokens` tokens.
    fn at(self, tokens: usize) -> usize {
        let own = tokens.saturating_sub(self.in_text);
        self.before
            .saturating_add(own)
            .saturating_add(self.repeated)
    }
}

/// The state around an alias that is expanded, kept until the expansion ends.
#[derive(Drop)]
pub struct Outside {
    count: Count,
    least: usize,
    notes: Notes,
}

/// Knowledge of the aliases of a text, and the faults that were noted.
#[derive(Drop)]
pub struct Expansions {
    alloc: Global,
    /// The largest number of tokens that may be read.
    most: usize,
    /// The expanded aliases, by the byte of the declared name of each.
    found: BTreeMap<usize, Expansion>,
    /// The number of grammar steps left at which an alias could not be expanded, by the byte of its
    /// declared name.
    failed: BTreeMap<usize, usize>,
    count: Count,
    /// The smallest number of grammar steps left so far.
    least: usize,
    pub notes: Notes,
    /// Whether faults are noted, outside of expansions.
    are_noted: bool,
}

impl Expansions {
    /// No expansions so far, of a text of `length` bytes, with these notes.
    pub fn new(alloc: Global, length: usize, notes: Notes) -> Expansions {
        Expansions {
            alloc,
            most: length.saturating_add(MAX_REPEATED),
            found: BTreeMap::new(alloc),
            failed: BTreeMap::new(alloc),
            count: Count {
                before: 0,
                in_text: 0,
                repeated: 0,
            },
            least: usize::MAX,
            are_noted: notes.are_taken(),
            notes,
        }
    }

    /// The steps left after one step deeper into the grammar; it fails at the byte `start` if none
    /// is left.
    pub fn deeper(&mut self, left: usize, start: usize) -> Result<usize, ReadError>
        ensures { IfOk result (λ inner. inner + 1 ≡ left) }
    {
        let inner = deeper(left, start)?;
        self.least = self.least.min(inner);
        Ok(inner)
    }

    /// Whether an alias is not expanded at this name, because faults of its type are noted at its
    /// declaration: if it is a record, which may stand anywhere, or if too many tokens were read.
    pub fn is_passed(&self, alias: &Alias, name: &WrittenName) -> bool {
        let is_enough = alias.written.is_record() || self.count.at(name.tokens) > self.most;
        self.notes.are_taken() && is_enough
    }

    /// The type of an alias that was expanded before, if it fits here; its tokens are counted then.
    /// It fails if the alias failed before; if faults are noted, a type stands in its place
    /// instead.
    pub fn known(
        &mut self,
        alias: &Alias,
        name: &WrittenName,
        left: usize,
    ) -> Result<Option<CedarType>, ReadError> {
        if self.has_failed(alias, left) {
            let failed = self.fail(ReadError::At(name.start, Fault::TooDeep))?;
            return Ok(Some(failed));
        }
        let Some(kept) = self.found.get(&alias.own_start) else {
            return Ok(None);
        };
        let whole = self.count.at(name.tokens).saturating_add(kept.tokens);
        if left < kept.steps || whole > self.most {
            return Ok(None);
        }
        let meant = kept.meant.clone()?;
        let (steps, tokens) = (kept.steps, kept.tokens);
        self.count.repeated = self.count.repeated.saturating_add(tokens);
        self.least = self.least.min(left.saturating_sub(steps));
        Ok(Some(meant))
    }

    /// Whether the alias could not be expanded with at least `left` steps left. If faults are
    /// noted, it is not tried again with more, because a long chain of aliases would be followed
    /// from each of them.
    fn has_failed(&self, alias: &Alias, left: usize) -> bool {
        match self.failed.get(&alias.own_start) {
            Some(most) => self.are_noted || left <= *most,
            None => false,
        }
    }

    /// Begins to expand an alias at this name. Until the end of the expansion it fails at the first
    /// fault; if faults are noted, at the alias itself too, so that no circle is followed.
    pub fn begin(&mut self, alias: &Alias, name: &WrittenName) -> Result<Outside, AllocError> {
        if self.are_noted {
            self.failed.insert(alias.own_start, 0)?;
        }
        let (count, least) = (self.count, self.least);
        let none = Notes::new(self.alloc, false);
        let notes = mem::replace(&mut self.notes, none);
        self.count = Count {
            before: count.at(name.tokens),
            in_text: alias.tokens_before,
            repeated: 0,
        };
        self.least = usize::MAX;
        Ok(Outside {
            count,
            least,
            notes,
        })
    }

    /// Ends the expansion of an alias at this name, with `left` steps left. It fails if the
    /// expansion failed, or if too many tokens were read; if faults are noted, it passes further
    /// aliases in that case.
    pub fn end(
        &mut self,
        outside: Outside,
        alias: &Alias,
        name: &WrittenName,
        left: usize,
        read: Result<CedarType, ReadError>,
    ) -> Result<CedarType, ReadError> {
        let whole = self.count.at(alias.tokens);
        let steps = left.saturating_sub(self.least);
        let Outside {
            count,
            least,
            notes,
        } = outside;
        self.count = count;
        self.least = self.least.min(least);
        self.notes = notes;
        let meant = match read {
            Ok(meant) => meant,
            Err(error) => return self.keep_failed(alias, left, error),
        };
        if whole > self.most && !self.notes.are_taken() {
            return self.keep_failed(alias, left, ReadError::At(name.behind, Fault::TooLarge));
        }
        let tokens = whole.saturating_sub(count.at(name.tokens));
        self.count.repeated = count.repeated.saturating_add(tokens);
        self.failed.remove(&alias.own_start);
        let kept = Expansion {
            meant: meant.clone()?,
            steps,
            tokens,
        };
        self.found.insert(alias.own_start, kept)?;
        Ok(meant)
    }

    /// Records that an alias failed with `left` steps left, and answers as `fail` does.
    fn keep_failed(
        &mut self,
        alias: &Alias,
        left: usize,
        error: ReadError,
    ) -> Result<CedarType, ReadError> {
        self.failed.insert(alias.own_start, left)?;
        self.fail(error)
    }

    /// Fails; or, if faults are noted, gives a type in the place of an alias with a fault.
    fn fail(&self, error: ReadError) -> Result<CedarType, ReadError> {
        match error {
            ReadError::At(_, _) if self.notes.are_taken() => Ok(unsure_type(self.alloc)?),
            other => Err(other),
        }
    }
}
