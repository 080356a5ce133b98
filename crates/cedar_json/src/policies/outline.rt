// The outline of a text: the bytes at which its policies begin. The reader walks the text once, one
// policy at a time, and keeps no tree.
use crate::cursor::Cursor;
use crate::faults::{Fault, ReadError};
use crate::objects::Entries;
use crate::parts::end;
use crate::values::{Key, MAX_DEPTH};
use crate::whole::{begins_empty, ends, value};

/// The number of objects and arrays that may stand inside each other in an entry or an item of the
/// text.
pub const ENTRY_DEPTH: usize = MAX_DEPTH - 1;

/// The number of objects and arrays that may stand inside each other in an entry or an item of a
/// part of a policy set.
pub const INNER_DEPTH: usize = MAX_DEPTH - 2;

/// Values by their keys, each with the byte at which it begins.
pub type Places = Vec<(Key, usize)>;

/// The entries and the items of a text, and those of the parts of a policy set.
#[derive(Drop)]
pub struct Outline {
    /// The entries of the text, if it is an object.
    pub entries: Places,
    /// The items of the text, if it is an array.
    pub items: Vec<usize>,
    /// The entries of `staticPolicies`.
    pub fixed: Places,
    /// The entries of `templates`.
    pub templates: Places,
    /// The items of `templateLinks`.
    pub links: Vec<usize>,
}

impl Outline {
    /// Reads the outline of the array or the object that comes next, or the first fault of the
    /// text.
    pub fn read(cursor: &mut Cursor<'_>) -> Result<Outline, ReadError> {
        let alloc = cursor.alloc;
        let mut outline = Outline {
            entries: Vec::new(alloc),
            items: Vec::new(alloc),
            fixed: Vec::new(alloc),
            templates: Vec::new(alloc),
            links: Vec::new(alloc),
        };
        if cursor.peek() == Some(b'[') {
            outline.items = items(cursor, ENTRY_DEPTH)?;
        } else {
            outline.read_entries(cursor)?;
        }
        end(cursor)?;
        Ok(outline)
    }

    /// Reads the entries of the text.
    fn read_entries(&mut self, cursor: &mut Cursor<'_>) -> Result<(), ReadError> {
        let mut keys = Entries::new(cursor.alloc);
        if begins_empty(cursor, b'}') {
            return Ok(());
        }
        for _ in 0..cursor.text.len() {
            let key = keys.key(cursor)?;
            cursor.pass_blanks();
            let start = cursor.at;
            self.read_entry(cursor, key.name.as_str())?;
            self.entries.push((key, start))?;
            if ends(cursor, b'}', Fault::InObject)? {
                return Ok(());
            }
        }
        Err(cursor.fault(Fault::InObject))
    }

    /// Reads the value of an entry of the text. For a part of a policy set it keeps the bytes at
    /// which the members begin.
    fn read_entry(&mut self, cursor: &mut Cursor<'_>, key: &str) -> Result<(), ReadError> {
        match (key, cursor.peek()) {
            ("staticPolicies", Some(b'{')) => self.fixed = places(cursor, INNER_DEPTH)?,
            ("templates", Some(b'{')) => self.templates = places(cursor, INNER_DEPTH)?,
            ("templateLinks", Some(b'[')) => self.links = items(cursor, INNER_DEPTH)?,
            _ => pass_value(cursor, ENTRY_DEPTH)?,
        }
        Ok(())
    }
}

/// Reads an object: its keys, and the bytes at which their values begin. In each value, at most
/// `left` objects and arrays may stand inside each other.
fn places(cursor: &mut Cursor<'_>, left: usize) -> Result<Places, ReadError> {
    let mut keys = Entries::new(cursor.alloc);
    let mut read = Vec::new(cursor.alloc);
    if begins_empty(cursor, b'}') {
        return Ok(read);
    }
    for _ in 0..cursor.text.len() {
        let key = keys.key(cursor)?;
        cursor.pass_blanks();
        read.push((key, cursor.at))?;
        pass_value(cursor, left)?;
        if ends(cursor, b'}', Fault::InObject)? {
            return Ok(read);
        }
    }
    Err(cursor.fault(Fault::InObject))
}

/// Reads an array: the bytes at which its items begin. In each item, at most `left` objects and
/// arrays may stand inside each other.
fn items(cursor: &mut Cursor<'_>, left: usize) -> Result<Vec<usize>, ReadError> {
    let mut read = Vec::new(cursor.alloc);
    if begins_empty(cursor, b']') {
        return Ok(read);
    }
    for _ in 0..cursor.text.len() {
        cursor.pass_blanks();
        read.push(cursor.at)?;
        pass_value(cursor, left)?;
        if ends(cursor, b']', Fault::InArray)? {
            return Ok(read);
        }
    }
    Err(cursor.fault(Fault::InArray))
}

/// Passes a value. If it is nested too deep, only its brackets are read, because this fault belongs
/// to one policy.
fn pass_value(cursor: &mut Cursor<'_>, left: usize) -> Result<(), ReadError> {
    let mut ahead = Cursor {
        alloc: cursor.alloc,
        text: cursor.text,
        at: cursor.at,
    };
    match value(&mut ahead, left) {
        Ok(read) => {
            drop(read);
            cursor.pass(ahead.at.saturating_sub(cursor.at));
            Ok(())
        }
        Err(ReadError::At(at, Fault::TooDeep)) => match size_in_brackets(cursor.rest()) {
            Some(size) => {
                cursor.pass(size);
                Ok(())
            }
            None => Err(ReadError::At(at, Fault::TooDeep)),
        },
        Err(error) => Err(error),
    }
}

/// The position of a character: outside of quotes, inside, or behind a backslash.
#[derive(Clone, Copy, PartialEq, Eq)]
enum Quotes {
    Outside,
    Inside,
    BehindBackslash,
}

/// Returns the number of bytes up to the bracket that closes the first one, if there is one.
fn size_in_brackets(text: &str) -> Option<usize> {
    let mut open = 0usize;
    let mut quotes = Quotes::Outside;
    for (at, c) in text.char_indices() {
        if quotes == Quotes::Outside {
            open = open_behind(open, c);
            if open == 0 {
                return Some(at.saturating_add(1));
            }
        }
        quotes = quotes_behind(quotes, c);
    }
    None
}

/// Returns the number of open brackets behind a character outside of quotes.
fn open_behind(open: usize, c: char) -> usize {
    match c {
        '{' | '[' => open.saturating_add(1),
        '}' | ']' => open.saturating_sub(1),
        _ => open,
    }
}

fn quotes_behind(quotes: Quotes, c: char) -> Quotes {
    match (quotes, c) {
        (Quotes::Outside, '"') => Quotes::Inside,
        (Quotes::Inside, '"') => Quotes::Outside,
        (Quotes::Inside, '\\') => Quotes::BehindBackslash,
        (Quotes::BehindBackslash, _) => Quotes::Inside,
        _ => quotes,
    }
}
