//! Symbols: the outline of a document.
use crate::documents::PlacedPolicy;
use crate::outlines::{Declared, DeclaredKind};
use cedar_types::base::Loc;
use std::alloc::{AllocError, Global};

/// The kind of a symbol.
#[derive(Clone, Copy, PartialEq, Eq, Debug)]
pub enum SymbolKind {
    Policy,
    Declared(DeclaredKind),
}

/// A symbol: a part of a document with a name.
#[derive(Drop)]
pub struct Symbol {
    pub name: String,
    pub kind: SymbolKind,
    pub whole: Loc,
    /// The place of the name, or the beginning of the part.
    pub own: Loc,
}

/// The symbols of the policies of a document, by their ids. If memory is refused, the answer is an `AllocError`.
pub fn policy_symbols(alloc: Global, policies: &[PlacedPolicy]) -> Result<Vec<Symbol>, AllocError> {
    let mut symbols = Vec::new(alloc);
    for (number, placed) in policies.iter().enumerate() {
        let start = placed.start;
        let id = placed.policy.id(alloc, number)?;
        symbols.push(Symbol {
            name: String::from_str(alloc, id.as_str())?,
            kind: SymbolKind::Policy,
            whole: Loc {
                start,
                end: placed.end(),
            },
            own: Loc { start, end: start },
        })?;
    }
    Ok(symbols)
}

/// The symbols of a schema's declarations. If memory is refused, the answer is an `AllocError`.
pub fn schema_symbols(alloc: Global, declared: &[Declared]) -> Result<Vec<Symbol>, AllocError> {
    let mut symbols = Vec::new(alloc);
    for it in declared {
        symbols.push(Symbol {
            name: String::from_str(alloc, it.name.as_str())?,
            kind: SymbolKind::Declared(it.kind),
            whole: it.whole,
            own: it.place,
        })?;
    }
    Ok(symbols)
}
