// Effects of policies.
use std::fmt;

/// The effect of a satisfied policy. Validation does not ask for it. `Display` writes its keyword.
#[derive(Clone, Copy, PartialEq, Eq, Debug)]
pub enum Effect {
    /// The policy permits the request, unless another policy forbids it.
    Permit,
    /// The policy forbids the request, whatever is permitted.
    Forbid,
}

impl fmt::Display for Effect {
    fn fmt<W: fmt::Write>(&self, f: &mut fmt::Formatter<W>) -> fmt::Result {
        match self {
            Effect::Permit => write!(f, "permit"),
            Effect::Forbid => write!(f, "forbid"),
        }
    }
}
