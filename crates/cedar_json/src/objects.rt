// Entries of an object, read one by one.
ghost use Rattle.std.specs.Prelude.{◌≡◌, ℕ, ◌≤◌, ◌∷◌, [], ◌++◌, true, false, length, OnOk, IfOk, IfErr};
ghost use Rattle.cedar_json.specs.Cursors.{GoesOn, IsFaultWithin};
ghost use Rattle.cedar_json.specs.Keys.{is_among, KeepsAll};
ghost use Rattle.cedar_json.specs.Says.{Blanks, KeyReads};
ghost use Rattle.cedar_json.specs.Texts.{Quotes};
ghost use Rattle.cedar_types.specs.Names.{text_of};

use crate::cursor::Cursor;
use crate::faults::{Fault, ReadError};
use crate::texts::text;
use crate::values::{Key, Value};
use std::alloc::{AllocError, Global};
use std::collections::BTreeSet;
use std::rc::RcStr;

/// The entries of an object that were read so far; more may follow.
#[derive(Drop)]
pub struct Entries {
    entries: Vec<(Key, Value)>,
    keys: BTreeSet<RcStr>,
}

impl Entries {
    /// Makes the list without entries.
    pub fn new(alloc: Global) -> Entries
        ensures { result.entries.items ≡ [] }
    {
        Entries {
            entries: Vec::new(alloc),
            keys: BTreeSet::new(alloc),
        }
    }

    /// Reads a key and the `:` behind it. A key that the object already has is a fault.
    pub fn key(&mut self, cursor: &mut Cursor<'_>) -> Result<Key, ReadError>
        ensures fresh { IfOk result (λ k. is_among self.old.keys (text_of k.name) ≡ false) }
        ensures known { IfOk result (λ k. is_among self.new.keys (text_of k.name) ≡ true) }
        ensures more { OnOk result (KeepsAll self.old.keys self.new.keys) }
        ensures stands { IfOk result (λ k. KeyReads cursor.old.text.now cursor.old.at cursor.new.at
            k.place.start k.place.«end» (text_of k.name)) }
        ensures same { OnOk result (self.new.entries.items ≡ self.old.entries.items) }
        ensures on { OnOk result (GoesOn cursor.old cursor.new) }
        ensures ok { IfOk result (λ k. (cursor.old.at ≤ k.place.start)
            × (k.place.start ≤ k.place.«end») × (k.place.«end» ≤ cursor.new.at)) }
        ensures err { IfErr result (λ e. IsFaultWithin (length cursor.old.text.now) e) }
    {
        let key = key_in_quotes(cursor)?;
        self.note(&key)?;
        cursor.pass_blanks();
        cursor.expect(b':', Fault::Colon)?;
        Ok(key)
    }

    /// Records a key. A key that was recorded before is a fault.
    fn note(&mut self, key: &Key) -> Result<(), ReadError>
        ensures fresh { OnOk result (is_among self.old.keys (text_of key.now.name) ≡ false) }
        ensures known { OnOk result (is_among self.new.keys (text_of key.now.name) ≡ true) }
        ensures more { OnOk result (KeepsAll self.old.keys self.new.keys) }
        ensures same { self.new.entries.items ≡ self.old.entries.items }
        ensures err { (size : ℕ) → key.now.place.start ≤ size
            → IfErr result (λ e. IsFaultWithin size e) }
    {
        let kept = key.name.clone()?;
        let is_new = self.keys.insert(kept)?;
        if is_new {
            Ok(())
        } else {
            Err(ReadError::At(key.place.start, Fault::SameKey))
        }
    }

    /// Adds the entry of a key and its value.
    pub fn push(&mut self, key: Key, value: Value) -> Result<(), AllocError>
        ensures added { OnOk result (self.new.entries.items
            ≡ self.old.entries.items ++ (key, value) ∷ []) }
        ensures keys { OnOk result (self.new.keys ≡ self.old.keys) }
    {
        self.entries.push((key, value))?;
        Ok(())
    }

    /// Returns all entries, in order.
    pub fn finish(self) -> Vec<(Key, Value)>
        ensures { result.items ≡ self.entries.items }
    {
        let Entries { entries, keys: _ } = self;
        entries
    }
}

/// Reads the blanks before a key, and the key in its quotes.
fn key_in_quotes(cursor: &mut Cursor<'_>) -> Result<Key, ReadError>
    ensures on { OnOk result (GoesOn cursor.old cursor.new) }
    ensures blanks { IfOk result (λ k. Blanks cursor.old.text.now cursor.old.at k.place.start) }
    ensures quotes { IfOk result (λ k. Quotes cursor.old.text.now
        k.place.start k.place.«end» (text_of k.name)) }
    ensures place { IfOk result (λ k. (k.place.start ≤ k.place.«end»)
        × (k.place.«end» ≡ cursor.new.at)) }
    ensures err { IfErr result (λ e. IsFaultWithin (length cursor.old.text.now) e) }
{
    cursor.pass_blanks();
    let Some(b'"') = cursor.peek() else {
        return Err(cursor.fault(Fault::Key));
    };
    let start = cursor.at;
    let name = text(cursor)?;
    let place = cursor.since(start);
    Ok(Key { name, place })
}
