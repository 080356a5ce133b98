// A builder of capability sets, which takes one capability after another.
ghost use Rattle.std.specs.Prelude.{◌≡◌, IfOk, OnOk, OnErr};
ghost use Rattle.cedar_types.specs.Capability.{cap_of, caps, caps_so_far, HasNone, AddsJust, IsSame};

use crate::types::capability::{Capability, CapabilitySet};
use crate::types::sorted_set::SortedSet;
use std::alloc::{AllocError, Global};
use std::collections::BTreeSet;

/// A builder of a capability set, one capability after another. An insertion moves few of the
/// others, however many there are.
#[derive(Drop, Debug)]
pub struct CapabilitySetBuilder<'a> {
    set: BTreeSet<Capability<'a>>,
}

impl<'a> CapabilitySetBuilder<'a> {
    /// A builder with no capability. It takes no memory.
    pub fn new(alloc: Global) -> CapabilitySetBuilder<'a>
        ensures { HasNone (caps_so_far result) }
    {
        CapabilitySetBuilder {
            set: BTreeSet::new(alloc),
        }
    }

    /// Whether `c` is among the capabilities so far.
    pub fn contains(&self, c: &Capability<'a>) -> bool
        ensures { result ≡ caps_so_far self.now (cap_of c.now) }
    {
        self.set.contains(c)
    }

    /// Adds a capability. If memory is refused, the answer is an `AllocError`, and the builder
    /// stays as it was.
    pub fn insert(&mut self, c: Capability<'a>) -> Result<(), AllocError>
        ensures added { OnOk result (
            AddsJust (cap_of c.entry) (caps_so_far self.old) (caps_so_far self.new)) }
        ensures kept { OnErr result (IsSame (caps_so_far self.old) (caps_so_far self.new)) }
    {
        self.set.insert(c)?;
        Ok(())
    }

    /// The set of the capabilities so far, without a copy. If memory is refused, the answer is an
    /// `AllocError`.
    pub fn build(self, alloc: Global) -> Result<CapabilitySet<'a>, AllocError>
        ensures { IfOk result (λ r. IsSame (caps_so_far self.entry) (caps r)) }
    {
        let set = SortedSet::from_ordered(alloc, self.set)?;
        Ok(CapabilitySet { set })
    }
}
