// Listings: parts of a schema of which there may be several.
use crate::cursor::Cursor;
use crate::faults::ReadError;
use std::rc::RcStr;

/// The number of parts that may stand at a place, and the marks around them.
#[derive(Clone, Copy, PartialEq, Eq, Debug)]
pub enum Listing {
    One,
    /// One or more, with commas between them.
    WithCommas,
    /// Any number, with commas between them, perhaps one behind the last, and a bracket.
    InBrackets,
}

/// Reads the bracket before several parts, or nothing before a single one.
pub fn one_or_in_brackets(cursor: &mut Cursor<'_>) -> Listing {
    if cursor.takes("[") {
        Listing::InBrackets
    } else {
        Listing::One
    }
}

impl Listing {
    /// Whether another part follows after `before` parts. It reads the comma before that part, or
    /// the bracket behind the last.
    pub fn goes_on(self, cursor: &mut Cursor<'_>, before: usize) -> Result<bool, ReadError> {
        match self {
            Listing::One => Ok(before == 0),
            Listing::WithCommas => Ok(before == 0 || cursor.takes(",")),
            Listing::InBrackets if cursor.takes("]") => Ok(false),
            Listing::InBrackets => {
                if before > 0 {
                    cursor.expect(",")?;
                }
                // a comma may stand behind the last
                Ok(before == 0 || !cursor.takes("]"))
            }
        }
    }
}

/// A name of which a list may stand in a schema.
pub trait Listable: Drop + Sized {
    /// Reads one name, in the namespace whose name has these parts.
    fn read(cursor: &mut Cursor<'_>, namespace: &[RcStr]) -> Result<Self, ReadError>;
}

/// Reads names, as many as `listing` allows.
fn listed<N: Listable>(
    cursor: &mut Cursor<'_>,
    namespace: &[RcStr],
    listing: Listing,
) -> Result<Vec<N>, ReadError> {
    let mut listed = Vec::new(cursor.alloc);
    for _ in 0..cursor.most_left() {
        if !listing.goes_on(cursor, listed.len())? {
            break;
        }
        listed.push(N::read(cursor, namespace)?)?;
    }
    Ok(listed)
}

/// Reads a name that is declared elsewhere, or any number of them in brackets.
pub fn one_or_more<N: Listable>(cursor: &mut Cursor<'_>) -> Result<Vec<N>, ReadError> {
    let listing = one_or_in_brackets(cursor);
    listed(cursor, &[], listing)
}

/// Reads the names that are declared in `namespace`.
pub fn own_names<N: Listable>(
    cursor: &mut Cursor<'_>,
    namespace: &[RcStr],
) -> Result<Vec<N>, ReadError> {
    listed(cursor, namespace, Listing::WithCommas)
}
