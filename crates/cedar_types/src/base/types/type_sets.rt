// Sets of types, as errors list them.
ghost use Rattle.std.specs.Prelude.{◌≡◌, IfOk, map};
ghost use Rattle.cedar_types.specs.Types.{ty_of};
ghost use Rattle.cedar_types.specs.Types.Order.{in_order};

use crate::base::types::CedarType;
use std::alloc::{AllocError, Global};
use std::collections::BTreeSet;

/// These types in ascending order, each once.
pub fn types_in_order(
    alloc: Global,
    types: Vec<CedarType>,
) -> Result<BTreeSet<CedarType>, AllocError>
    ensures { IfOk result (λ s. map ty_of s.keys ≡ in_order (map ty_of types.items)) }
{
    let mut all = BTreeSet::new(alloc);
    for shown in types {
        all.insert(shown)?;
    }
    Ok(all)
}
