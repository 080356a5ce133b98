//! Capabilities: attributes and tags that typing knows to be present.
ghost use Rattle.std.specs.Prelude.{◌≡◌, IfOk, OnOk, OnErr};

mod accesses;
mod bases;
mod builder;
mod chain_steps;
mod digested;
mod digests;
mod owners;

pub use crate::types::capability::accesses::Accesses;
pub use crate::types::capability::bases::DigestedBase;
pub use crate::types::capability::builder::CapabilitySetBuilder;
pub use crate::types::capability::chain_steps::ChainStep;
pub use crate::types::capability::digested::{Capability, Known};
use crate::types::sorted_set::SortedSet;
use std::alloc::{AllocError, Global};

/// A set of capabilities, which borrows the policy that they are about.
#[derive(Drop, Debug)]
pub struct CapabilitySet<'a> {
    set: SortedSet<Capability<'a>>,
}

impl<'a> CapabilitySet<'a> {
    ghost use Rattle.cedar_types.specs.Capability.{among, cap_of, caps, HasNone, HasJust, AddsJust, IsUnionOf, IsIntersectionOf, IsSame};

    /// The empty set. It takes no memory.
    pub fn new(alloc: Global) -> Self
        ensures { HasNone (caps result) }
    {
        CapabilitySet {
            set: SortedSet::new(alloc),
        }
    }

    /// The set of `c` alone. If memory is refused, the answer is an `AllocError`.
    pub fn singleton(alloc: Global, c: Capability<'a>) -> Result<Self, AllocError>
        ensures { IfOk result (λ r. HasJust (cap_of c.entry) (caps r)) }
    {
        let mut set = SortedSet::new(alloc);
        set.insert(c)?;
        Ok(CapabilitySet { set })
    }

    /// Whether `c` is in the set.
    pub fn contains(&self, c: &Capability<'a>) -> bool
        ensures { result ≡ caps self.now (cap_of c.now) }
    {
        self.set.contains(c)
    }

    /// The capabilities, each once, in an order of their own.
    pub fn as_slice(&self) -> &[Capability<'a>]
        ensures { IsSame (caps self.now) (among result.now) }
    {
        self.set.as_slice()
    }

    /// Adds a capability. If memory is refused, the answer is an `AllocError`, and the set stays as
    /// it was.
    pub fn insert(&mut self, c: Capability<'a>) -> Result<(), AllocError>
        ensures added { OnOk result (AddsJust (cap_of c.entry) (caps self.old) (caps self.new)) }
        ensures kept { OnErr result (IsSame (caps self.old) (caps self.new)) }
    {
        self.set.insert(c)
    }

    /// A copy of the set. If memory is refused, the answer is an `AllocError`.
    pub fn try_clone(&self, alloc: Global) -> Result<Self, AllocError>
        ensures { IfOk result (λ r. IsSame (caps self.now) (caps r)) }
    {
        let set = self.set.try_clone(alloc)?;
        Ok(CapabilitySet { set })
    }

    /// The capabilities of either set, as copies. If memory is refused, the answer is an
    /// `AllocError`.
    pub fn union(&self, alloc: Global, other: &Self) -> Result<Self, AllocError>
        ensures { IfOk result (λ r. IsUnionOf (caps self.now) (caps other.now) (caps r)) }
    {
        let set = self.set.union(alloc, &other.set)?;
        Ok(CapabilitySet { set })
    }

    /// The capabilities of either set, without a copy: the call consumes both. If memory is
    /// refused, the answer is an `AllocError`.
    pub fn join(self, other: Self) -> Result<Self, AllocError>
        ensures { IfOk result (λ r. IsUnionOf (caps self.entry) (caps other.entry) (caps r)) }
    {
        let set = self.set.join(other.set)?;
        Ok(CapabilitySet { set })
    }

    /// The capabilities that both sets have, as copies. If memory is refused, the answer is an
    /// `AllocError`.
    pub fn intersect(&self, alloc: Global, other: &Self) -> Result<Self, AllocError>
        ensures { IfOk result (λ r. IsIntersectionOf (caps self.now) (caps other.now) (caps r)) }
    {
        let set = self.set.intersect(alloc, &other.set)?;
        Ok(CapabilitySet { set })
    }
}
