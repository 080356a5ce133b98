// Sets of capabilities that typing hands on.
ghost use Rattle.std.specs.Prelude.{◌≡◌, IfOk};
ghost use Rattle.cedar_types.specs.Capability.{caps, cap_of};
ghost use Rattle.cedar_typing.specs.Capabilities.{no_caps, single, union, intersection};

use cedar_types::types::capability::{Capability, CapabilitySet};
use std::alloc::{AllocError, Global};

/// The empty set of capabilities. It takes no memory.
pub(crate) fn no_capabilities<'a>(alloc: Global) -> CapabilitySet<'a>
    ensures { caps result ≡ no_caps }
{
    CapabilitySet::new(alloc)
}

/// The set of this capability alone.
pub(crate) fn one_capability<'a>(
    alloc: Global,
    capability: Capability<'a>,
) -> Result<CapabilitySet<'a>, AllocError>
    ensures { IfOk result (λ r. caps r ≡ single (cap_of capability.entry)) }
{
    CapabilitySet::singleton(alloc, capability)
}

/// The union of two sets of capabilities, which it consumes.
pub(crate) fn union_of<'a>(
    one: CapabilitySet<'a>,
    other: CapabilitySet<'a>,
) -> Result<CapabilitySet<'a>, AllocError>
    ensures { IfOk result (λ r. caps r ≡ union (caps one.entry) (caps other.entry)) }
{
    one.join(other)
}

/// The intersection of two sets of capabilities.
pub(crate) fn intersection_of<'a>(
    alloc: Global,
    one: &CapabilitySet<'a>,
    other: &CapabilitySet<'a>,
) -> Result<CapabilitySet<'a>, AllocError>
    ensures { IfOk result (λ r. caps r ≡ intersection (caps one.now) (caps other.now)) }
{
    one.intersect(alloc, other)
}
