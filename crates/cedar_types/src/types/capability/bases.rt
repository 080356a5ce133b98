// Expressions that typing asks for attributes.
ghost use Rattle.std.specs.Option.{ForSome};
ghost use Rattle.std.specs.Prelude.{◌≡◌, IfOk};
ghost use Rattle.cedar_types.specs.Accesses.{got};
ghost use Rattle.cedar_types.specs.Capability.Digest.{shape_digest};
ghost use Rattle.cedar_types.specs.Expressions.View.{shape};
ghost use Rattle.cedar_types.specs.Names.{text_of};

use crate::base::Expr;
use crate::types::capability::Capability;
use crate::types::capability::accesses::Accesses;
use crate::types::capability::digests::{shape_digest, with_text};
use std::alloc::AllocError;
use std::rc::RcStr;

/// An expression that typing asks for attributes, with its shape's digest from the first question
/// on.
///
/// The digest of an access is one step from that of its base. So one walk gives the digests of a
/// chain of accesses, for any number of attributes that are asked for; without a question there is
/// no walk.
#[derive(Clone, Copy, Debug)]
pub struct DigestedBase<'a> {
    base: &'a Expr,
    digest: Option<u64>,
    ghost of_its_shape: { ForSome digest (λ d. d ≡ shape_digest (shape base.now)) },
}

#[tactic(auto, unfolding(crate::specs::Capability::cap_of, crate::specs::Capability::expr_in))]
impl<'a> DigestedBase<'a> {
    ghost use Rattle.cedar_types.specs.Capability.{attribute, cap_of, expr_in};

    /// An expression that was not asked for an attribute yet.
    pub fn new(base: &'a Expr) -> DigestedBase<'a>
        ensures { expr_in result ≡ base.now }
    {
        DigestedBase { base, digest: None }
    }

    /// The expression.
    pub fn expr(&self) -> &'a Expr
        ensures { result.now ≡ expr_in self.now }
    {
        self.base
    }

    /// The base for `whole`, which must be the access to `attr` of this expression.
    pub fn access(self, whole: &'a Expr, attr: &RcStr) -> DigestedBase<'a>
        requires { shape whole.now ≡ got (shape (expr_in self)) (text_of attr.now) }
        ensures { expr_in result ≡ whole.now }
    {
        let digest = match self.digest {
            Some(digest) => Some(with_text(digest, attr)),
            None => None,
        };
        DigestedBase {
            base: whole,
            digest,
        }
    }

    /// The capability that the expression has the attribute `attr`. If the digest is not known yet,
    /// the call walks the expression. If memory is refused, the answer is an `AllocError`.
    pub fn attribute(&mut self, attr: &RcStr) -> Result<Capability<'a>, AllocError>
        ensures of_it { IfOk result (λ c.
            cap_of c ≡ attribute (shape (expr_in self.old)) (text_of attr.now)) }
        ensures kept { expr_in self.new ≡ expr_in self.old }
    {
        let own = match self.digest {
            Some(digest) => digest,
            None => shape_digest(self.base),
        };
        self.digest = Some(own);
        let digest = with_text(own, attr);
        Ok(Capability::of_accesses(Accesses::none(self.base), attr.clone()?, digest))
    }
}
