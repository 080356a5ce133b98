// Ids of policies.
ghost use Rattle.std.specs.Prelude.{◌≡◌, IfOk};
ghost use Rattle.cedar_types.specs.Names.{text_of};

use std::alloc::{AllocError, Global};
use std::fmt;
use std::rc::RcStr;

/// The id of a policy, any text. `Display` writes the text unchanged.
#[derive(PartialEq, Eq, PartialOrd, Ord, Hash, Debug, Drop)]
pub struct PolicyID {
    pub text: RcStr,
}

impl PolicyID {
    /// The id of this text.
    pub fn from_string(alloc: Global, text: &str) -> Result<PolicyID, AllocError>
        ensures { IfOk result (λ p. text_of p.text ≡ text.now) }
    {
        Ok(PolicyID {
            text: RcStr::from_str(alloc, text)?,
        })
    }
}

impl Clone for PolicyID {
    ghost is_clone = { λ p q. text_of q.text ≡ text_of p.text };

    fn clone(&self) -> Result<PolicyID, AllocError> {
        Ok(PolicyID {
            text: self.text.clone()?,
        })
    }
}

impl fmt::Display for PolicyID {
    fn fmt<W: fmt::Write>(&self, f: &mut fmt::Formatter<W>) -> fmt::Result {
        write!(f, "{}", self.text)
    }
}
