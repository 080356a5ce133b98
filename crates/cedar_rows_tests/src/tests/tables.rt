// Tables of extension functions that the rows are lent.
use cedar_fixtures::addresses::RefusesEmptyAddress;
use cedar_fixtures::tables::{address_functions, addresses_alone, functions_with_sum};
use cedar_types::base::ExtensionSchemas;
use std::alloc::Global;
use std::collections::BTreeSet;
use std::test::Fail;

/// The functions `ip` and `isInRange`.
pub fn x1(alloc: Global) -> Result<ExtensionSchemas, Fail> {
    let check = Box::new(alloc, RefusesEmptyAddress { alloc })?;
    Ok(ExtensionSchemas::new(address_functions(alloc, check)?, BTreeSet::new(alloc))?)
}

/// The functions `ip`, `isInRange` and `sum`, in a table that orders addresses.
pub fn x2(alloc: Global) -> Result<ExtensionSchemas, Fail> {
    let check = Box::new(alloc, RefusesEmptyAddress { alloc })?;
    Ok(ExtensionSchemas::new(functions_with_sum(alloc, check)?, addresses_alone(alloc)?)?)
}
