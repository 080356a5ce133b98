// Prior capabilities: those that are known where an expression is typed.
ghost use Rattle.std.specs.Prelude.{◌≡◌};
ghost use Rattle.cedar_types.specs.Capability.{caps, cap_of};
ghost use Rattle.cedar_typing.specs.Capabilities.{union};
ghost use Rattle.cedar_typing.specs.Capabilities.Priors.{known_in};

use cedar_types::types::capability::{Capability, CapabilitySet};

/// The prior capabilities of an expression: those that were found last, and those that were known before. It borrows both, so
/// that more becomes known on the way down without a copy.
#[derive(Clone, Copy)]
pub(crate) struct Prior<'x, 'a> {
    found: &'x CapabilitySet<'a>,
    before: Option<&'x Prior<'x, 'a>>,
}

impl<'x, 'a> Prior<'x, 'a> {
    /// The prior capabilities that are these alone.
    pub(crate) fn of(found: &'x CapabilitySet<'a>) -> Prior<'x, 'a>
        ensures { known_in result ≡ caps found.now }
    {
        Prior {
            found,
            before: None,
        }
    }

    /// The prior capabilities here, and these.
    pub(crate) fn with(&'x self, found: &'x CapabilitySet<'a>) -> Prior<'x, 'a>
        ensures { known_in result ≡ union (known_in self.now) (caps found.now) }
    {
        Prior {
            found,
            before: Some(self),
        }
    }

    /// Whether the capability is known.
    pub(crate) fn contains(&self, capability: &Capability<'a>) -> bool
        ensures { result ≡ known_in self.now (cap_of capability.now) }
    {
        if self.found.contains(capability) {
            return true;
        }
        match self.before {
            Some(before) => before.contains(capability),
            None => false,
        }
    }
}
