// The steps of an extended `has`.
ghost use Rattle.std.specs.Prelude.{◌≡◌, [], ◌∷◌, ◌++◌, map, take, MatchOption};
ghost use Rattle.cedar_types.specs.Accesses.{shape_at, texts_at};
ghost use Rattle.cedar_types.specs.Capability.Digest.{with_text, shape_digest};
ghost use Rattle.cedar_types.specs.Names.{text_of};

use crate::base::{AttrChain, Expr};
use crate::types::capability::Capability;
use crate::types::capability::accesses::Accesses;
use crate::types::capability::digests::{shape_digest, with_text};
use std::alloc::{AllocError, Global};
use std::rc::RcStr;

/// One step of `base has x.y.z`: `base` has `x`, or `base.x` has `y`, or `base.x.y` has `z`.
///
/// The step borrows the base and the attributes, and builds no access. Moving to the next step
/// takes no memory, and its time does not depend on the position in the chain.
#[derive(Clone, Copy, Debug)]
pub struct ChainStep<'a> {
    on: Accesses<'a>,
    attr: &'a RcStr,
    attrs: &'a AttrChain,
    taken: usize,
    digest: u64,
    ghost of_its_shape: { digest ≡ with_text (shape_digest (shape_at on)) (text_of attr.now) },
    ghost in_row: { texts_at on ++ (text_of attr.now ∷ [])
        ≡ text_of attrs.now.first ∷ map text_of (take taken attrs.now.rest.items) },
}

#[tactic(auto, unfolding(crate::specs::ChainSteps::step_written, crate::specs::ChainSteps::step_shape, crate::specs::ChainSteps::step_attr, crate::specs::ChainSteps::steps_left))]
impl<'a> ChainStep<'a> {
    ghost use Rattle.std.specs.Prelude.{IfOk};
    ghost use Rattle.cedar_types.specs.Capability.{attribute, cap_of};
    ghost use Rattle.cedar_types.specs.ChainSteps.{step_written, step_shape, step_attr, steps_left, made_up};
    ghost use Rattle.cedar_types.specs.Expressions.View.{chain_of, written};

    /// The first step: `base` has the first of `attrs`.
    pub fn first(base: &'a Expr, attrs: &'a AttrChain) -> ChainStep<'a>
        ensures of_base { step_written result ≡ written base.now }
        ensures attr { step_attr result ≡ (chain_of attrs.now).0 }
        ensures left { steps_left result ≡ (chain_of attrs.now).1 }
    {
        ChainStep {
            on: Accesses::none(base),
            attr: &attrs.first,
            attrs,
            taken: 0,
            digest: with_text(shape_digest(base), &attrs.first),
        }
    }

    /// The step after this one, on the access that this step finds; `None` after the last step.
    pub fn next(&self) -> Option<ChainStep<'a>>
        ensures { MatchOption result
            (steps_left self.now ≡ [])
            (λ r. (steps_left self.now ≡ step_attr r ∷ steps_left r)
            × (step_written r ≡ made_up (step_written self.now) (step_attr self.now))) }
    {
        let attrs = self.attrs;
        let attr = attrs.rest.get(self.taken)?;
        let on = Accesses {
            base: self.on.base,
            first: Some(&attrs.first),
            rest: &attrs.rest[..self.taken],
        };
        Some(ChainStep {
            on,
            attr,
            attrs,
            taken: self.taken + 1,
            digest: with_text(self.digest, attr),
        })
    }

    /// The attribute that the step asks for.
    pub fn attr(&self) -> &'a RcStr
        ensures { text_of result.now ≡ step_attr self.now }
    {
        self.attr
    }

    /// The capability that the step's expression has the attribute.
    pub fn capability(&self) -> Result<Capability<'a>, AllocError>
        ensures { IfOk result (λ c.
            cap_of c ≡ attribute (step_shape self.now) (step_attr self.now)) }
    {
        Ok(Capability::of_accesses(self.on, self.attr.clone()?, self.digest))
    }
}
