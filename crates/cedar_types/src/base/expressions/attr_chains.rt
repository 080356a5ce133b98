// The attributes of an extended `has`.
ghost use Rattle.std.specs.Prelude.{◌≡◌, IfOk, map};
ghost use Rattle.cedar_types.specs.Expressions.View.{chain_of};

use crate::base::names::{copy_texts, texts_from};
use std::alloc::{AllocError, Global};
use std::rc::RcStr;

/// The attributes that an extended `has` asks for, one after the other, at least one.
#[derive(PartialEq, Eq, PartialOrd, Ord, Debug, Drop)]
pub struct AttrChain {
    pub first: RcStr,
    pub rest: Vec<RcStr>,
}

impl AttrChain {
    /// The attributes of these names: the first, and the others.
    pub fn new(alloc: Global, first: &str, rest: &[&str]) -> Result<AttrChain, AllocError>
        ensures { IfOk result (λ c. chain_of c ≡ (first.now, map (λ s. s.now) rest.now)) }
    {
        let first = RcStr::from_str(alloc, first)?;
        let rest = texts_from(alloc, rest)?;
        Ok(AttrChain { first, rest })
    }
}

impl Clone for AttrChain {
    ghost is_clone = { λ x y. chain_of y ≡ chain_of x };

    fn clone(&self) -> Result<AttrChain, AllocError> {
        let first = self.first.clone()?;
        let rest = copy_texts(&self.rest)?;
        Ok(AttrChain { first, rest })
    }
}
