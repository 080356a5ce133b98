// A capability, with the digest of its shape.
ghost use Rattle.std.specs.Prelude.{◌≡◌, IfOk};
ghost use Rattle.cedar_types.specs.Accesses.{shape_on};
ghost use Rattle.cedar_types.specs.Capability.Digest.{digest_of};

use crate::base::{Expr, ExprShapeOnly};
use crate::types::capability::accesses::Accesses;
use crate::types::capability::digests::{shape_digest, with_digest, with_text};
use crate::types::capability::owners::Owner;
use crate::types::entries::Entry;
use std::alloc::{AllocError, Global};
use std::rc::RcStr;

/// The member that is known to be present: an attribute by its name, or a tag by the expression
/// that gives its name.
#[derive(PartialEq, Eq, PartialOrd, Ord, Drop, Debug)]
pub enum Known<'a> {
    Attribute(RcStr),
    Tag(ExprShapeOnly<'a>),
}

/// A capability: an expression has an attribute or a tag. Comparisons read shapes alone, neither
/// places nor the owner of an expression.
///
/// A capability carries a digest of its shape, which is computed without memory. Capabilities are
/// ordered by their digests, and by their whole shapes if these are equal. So two shapes of one
/// digest stay two capabilities.
#[derive(PartialEq, Eq, PartialOrd, Ord, Drop, Debug)]
pub struct Capability<'a> {
    digest: u64,
    on_expr: Owner<'a>,
    known: Known<'a>,
    ghost of_its_shape: { digest ≡ digest_of (shape_on on_expr) known },
}

#[tactic(auto, unfolding(crate::specs::Capability::cap_of))]
impl<'a> Capability<'a> {
    ghost use Rattle.cedar_types.specs.Names.{text_of};
    ghost use Rattle.cedar_types.specs.Expressions.View.{shape};
    ghost use Rattle.cedar_types.specs.Accesses.{shape_at};
    ghost use Rattle.cedar_types.specs.Capability.{attribute, tag, cap_of, known_of};
    ghost use Rattle.cedar_types.specs.Capability.Digest.{with_text, shape_digest};
    ghost use Rattle.cedar_types.specs.Expressions.ShapeOnly.{shape_of};

    /// The capability that `on_expr` has the attribute `attr`.
    pub fn new_attribute(on_expr: &'a Expr, attr: RcStr) -> Capability<'a>
        ensures { cap_of result ≡ attribute (shape on_expr.now) (text_of attr) }
    {
        let digest = with_text(shape_digest(on_expr), &attr);
        Capability::of_accesses(Accesses::none(on_expr), attr, digest)
    }

    /// The capability that `on_expr`, which it owns, has the attribute `attr`.
    pub fn new_attribute_owned(on_expr: Expr, attr: RcStr) -> Capability<'a>
        ensures { cap_of result ≡ attribute (shape on_expr) (text_of attr) }
    {
        Capability {
            digest: with_text(shape_digest(&on_expr), &attr),
            on_expr: Owner::Made(on_expr),
            known: Known::Attribute(attr),
        }
    }

    /// The capability that `on` has the attribute `attr`. You must pass the digest of both
    /// together.
    pub(crate) fn of_accesses(on: Accesses<'a>, attr: RcStr, digest: u64) -> Capability<'a>
        requires { digest ≡ with_text (shape_digest (shape_at on)) (text_of attr) }
        ensures { cap_of result ≡ attribute (shape_at on.entry) (text_of attr) }
    {
        Capability {
            digest,
            on_expr: Owner::Lent(on),
            known: Known::Attribute(attr),
        }
    }

    /// The capability that `on_expr` has the tag whose name `name` gives.
    pub fn new_borrowed_tag(on_expr: &'a Expr, name: &'a Expr) -> Capability<'a>
        ensures { cap_of result ≡ tag (shape on_expr.now) (shape name.now) }
    {
        Capability::of_tag(on_expr, ExprShapeOnly::Borrowed(name))
    }

    /// The capability that `on_expr` has the tag whose name `name` gives; it owns `name`.
    pub fn new_owned_tag(on_expr: &'a Expr, name: Expr) -> Capability<'a>
        ensures { cap_of result ≡ tag (shape on_expr.now) (shape name) }
    {
        Capability::of_tag(on_expr, ExprShapeOnly::Owned(name))
    }

    fn of_tag(on_expr: &'a Expr, name: ExprShapeOnly<'a>) -> Capability<'a>
        ensures { cap_of result ≡ tag (shape on_expr.now) (shape_of name.entry) }
    {
        Capability {
            digest: with_digest(shape_digest(on_expr), shape_digest(name.expr())),
            on_expr: Owner::Lent(Accesses::none(on_expr)),
            known: Known::Tag(name),
        }
    }

    /// The parts of the capability, for a host that shows it: its expression, and the known
    /// attribute or tag.
    pub fn parts(&self) -> (Accesses<'_>, &Known<'a>)
        ensures { cap_of self.now ≡ known_of (shape_at result.0) result.1.now }
    {
        (self.on_expr.accesses(), &self.known)
    }

    fn try_clone(&self, alloc: Global) -> Result<Capability<'a>, AllocError>
        ensures { IfOk result (λ c. cap_of c ≡ cap_of self.now) }
    {
        let on_expr = self.on_expr.try_clone(alloc)?;
        let known = self.known.try_clone(alloc)?;
        Ok(Capability {
            digest: self.digest,
            on_expr,
            known,
        })
    }
}

impl<'a> Entry for Capability<'a> {
    fn copy(&self, alloc: Global) -> Result<Capability<'a>, AllocError> {
        self.try_clone(alloc)
    }
}

impl<'a> Known<'a> {
    ghost use Rattle.cedar_types.specs.Capability.{known_of};

    fn try_clone(&self, alloc: Global) -> Result<Known<'a>, AllocError>
        ensures { IfOk result (λ k. (s : _) → known_of s k ≡ known_of s self.now) }
    {
        match self {
            Known::Attribute(name) => Ok(Known::Attribute(name.clone()?)),
            Known::Tag(name) => Ok(Known::Tag(name.try_clone(alloc)?)),
        }
    }
}
