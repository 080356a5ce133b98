// Parts of a text that are read one by one, so that the caller can drop each before it reads the
// next.
ghost use Rattle.std.specs.Prelude.{◌≡◌, ◌≤◌, ℕ, true, false, length, IfOk, IfErr, IfSome, IfNone, OnOk};
ghost use Rattle.cedar_json.specs.Cursors.{GoesOn, IsFaultWithin};
ghost use Rattle.cedar_json.specs.Fits.{FitsIn};
ghost use Rattle.cedar_json.specs.ReadItems.{BeginsArray, ItemReads, Opens};
ghost use Rattle.cedar_json.specs.Says.{Blanks, Stands};
ghost use Rattle.cedar_json.specs.View.{tree_of};

use crate::cursor::Cursor;
use crate::faults::{Fault, ReadError};
use crate::values::{MAX_DEPTH, Value};
use crate::whole::{begins_empty, ends, value};
use std::alloc::Global;

/// The number of objects and arrays that may stand inside each other in an item.
const ITEM_DEPTH: usize = MAX_DEPTH - 1;

/// Reads the items of a text that is one array, one after another.
#[derive(Drop)]
pub struct Items<'a> {
    cursor: Cursor<'a>,
    /// Whether the bracket behind the last item was read.
    is_ended: bool,
}

impl<'a> Items<'a> {
    /// Begins to read the items of a text. Returns `None` if the text begins with anything else
    /// than an array.
    pub fn new(alloc: Global, text: &'a str) -> Result<Option<Items<'a>>, ReadError>
        ensures ok { IfOk result (λ o. IfSome o (λ i. i.cursor.text.now ≡ text.now)) }
        ensures opens { IfOk result (λ o. IfSome o (λ i. Opens text.now i.cursor.at i.is_ended)) }
        ensures none { IfOk result (λ o. IfNone o (BeginsArray text.now → ⊥)) }
        ensures err { IfErr result (λ e. IsFaultWithin (length text.now) e) }
    {
        let mut cursor = Cursor::new(alloc, text)?;
        cursor.pass_blanks();
        if cursor.peek() != Some(b'[') {
            return Ok(None);
        }
        let is_ended = begins_empty(&mut cursor, b']');
        Ok(Some(Items { cursor, is_ended }))
    }

    /// Reads the next item; `None` behind the last one, at the end of the text. The faults are
    /// those of the whole text, in order.
    pub fn next_item(&mut self) -> Result<Option<Value>, ReadError>
        ensures on { OnOk result (GoesOn self.old.cursor self.new.cursor) }
        ensures ok { IfOk result (λ o. IfSome o (λ v.
            FitsIn ITEM_DEPTH self.old.cursor.at self.new.cursor.at (tree_of v))) }
        ensures reads { IfOk result (λ o. IfSome o (λ v. (self.old.is_ended ≡ false)
            × ItemReads self.old.cursor.text.now self.old.cursor.at self.new.cursor.at
            self.new.is_ended (tree_of v))) }
        ensures last { IfOk result (λ o. IfNone o ((self.old.is_ended ≡ true)
            × Blanks self.old.cursor.text.now self.old.cursor.at
            (length self.old.cursor.text.now))) }
        ensures err { IfErr result (λ e. IsFaultWithin (length self.old.cursor.text.now) e) }
    {
        if self.is_ended {
            end(&mut self.cursor)?;
            return Ok(None);
        }
        let item = value(&mut self.cursor, ITEM_DEPTH)?;
        self.is_ended = ends(&mut self.cursor, b']', Fault::InArray)?;
        Ok(Some(item))
    }
}

/// Reads blanks up to the end of a text. Any other byte is a fault.
pub fn end(cursor: &mut Cursor<'_>) -> Result<(), ReadError>
    ensures on { OnOk result (GoesOn cursor.old cursor.new) }
    ensures blanks { OnOk result
        (Blanks cursor.old.text.now cursor.old.at (length cursor.old.text.now)) }
    ensures err { IfErr result (λ e. IsFaultWithin (length cursor.old.text.now) e) }
{
    cursor.pass_blanks();
    if cursor.peek().is_some() {
        return Err(cursor.fault(Fault::Trailing));
    }
    Ok(())
}

/// Reads the value that begins at `start`, in which at most `left` objects and arrays may stand
/// inside each other. The reader ignores the text before and behind the value.
pub fn value_at(alloc: Global, text: &str, start: usize, left: usize) -> Result<Value, ReadError>
    ensures ok { IfOk result (λ v. FitsIn left 0 (length text.now) (tree_of v)) }
    ensures says { start ≤ length text.now
        → IfOk result (λ v. (stop : ℕ) × Stands text.now start stop (tree_of v)) }
    ensures err { IfErr result (λ e. IsFaultWithin (length text.now) e) }
{
    let at = start.min(text.len());
    let mut cursor = Cursor { alloc, text, at };
    value(&mut cursor, left)
}
