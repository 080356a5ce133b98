// Cases of chains of attributes: the cost of a chain from its root.
use crate::cases::differences::{agrees, write_fault};
use crate::cases::files::Case;
use cedar_reading::{ReadError, type_alone};
use cedar_typechecker::level_validate::attr_chain_cost_from_root;
use cedar_types::base::{CedarType, ValidatorSchema};
use std::alloc::{AllocError, Global};
use std::io;
use std::io::Write;
use std::rc::RcStr;

/// Runs the case of a chain, and answers whether it agrees.
pub fn run_chain<W: Write>(
    alloc: Global,
    name: &str,
    case: &Case<'_>,
    schema: &ValidatorSchema,
    out: &mut W,
) -> io::Result<bool> {
    let root = match type_alone(alloc, case.root.text) {
        Ok(root) => root,
        Err(ReadError::Memory(error)) => return Err(io::Error::from(error)),
        Err(ReadError::At(at, fault)) => {
            let at = case.root.start.saturating_add(at);
            return write_fault(name, case.number, case.line, (at, fault), out);
        }
    };
    let Some(wanted) = case.cost else {
        return Ok(true);
    };
    let got = cost(alloc, schema, &root, case.attributes)?;
    agrees(name, case.number, "cost", wanted, got.as_str(), out)
}

/// The cost of the chain, in digits.
fn cost(
    alloc: Global,
    schema: &ValidatorSchema,
    root: &CedarType,
    attributes: &str,
) -> Result<String, AllocError> {
    let chain = chain_of(alloc, attributes)?;
    attr_chain_cost_from_root(alloc, schema, root, chain.as_slice())?.to_string(alloc)
}

/// The attributes in a field, which is empty if there are none.
fn chain_of(alloc: Global, attributes: &str) -> Result<Vec<RcStr>, AllocError> {
    let mut chain = Vec::new(alloc);
    if attributes.is_empty() {
        return Ok(chain);
    }
    for attribute in attributes.split('.') {
        chain.push(RcStr::from_str(alloc, attribute)?)?;
    }
    Ok(chain)
}
