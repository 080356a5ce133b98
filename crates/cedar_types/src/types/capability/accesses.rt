// Chains of accesses on a policy's or a capability's expression; no policy has to hold the chain.
ghost use Rattle.std.specs.Prelude.{◌≡◌, [], MatchOption};
ghost use Rattle.cedar_types.specs.Accesses.{spine, spine_at, push, spine_cmp};
ghost use Rattle.cedar_types.specs.Names.{text_of};

use crate::base::{Expr, ExprKind};
use std::cmp::Ordering;
use std::rc::RcStr;

/// An expression with attribute accesses one after the other: for example `e`, `e.x` or `e.x.y`.
#[derive(Clone, Copy, Debug)]
pub struct Accesses<'a> {
    pub base: &'a Expr,
    pub first: Option<&'a RcStr>,
    /// The attributes after the first.
    pub rest: &'a [RcStr],
}

impl<'a> Accesses<'a> {
    ghost use Rattle.cedar_types.specs.Accesses.{shape_at, texts_at};
    ghost use Rattle.cedar_types.specs.Expressions.View.{shape};

    /// The expression `base`, with no further access.
    pub(crate) fn none(base: &'a Expr) -> Accesses<'a>
        ensures base { result.base.now ≡ base.now }
        ensures texts { texts_at result ≡ [] }
        ensures shape { shape_at result ≡ shape base.now }
        ensures spine { spine_at result ≡ spine base.now }
    {
        Accesses {
            base,
            first: None,
            rest: &[],
        }
    }

    /// The last access: its attribute, and the expression that it applies to. `None` if there is no
    /// access.
    fn last(&self) -> Option<(&'a RcStr, Accesses<'a>)>
        ensures { MatchOption result
            (spine_at self.now ≡ ([], self.now.base.now))
            (λ r. spine_at self.now ≡ push (spine_at r.1) (text_of r.0.now)) }
    {
        if let Some((attr, before)) = self.rest.split_last() {
            return Some((
                attr,
                Accesses {
                    base: self.base,
                    first: self.first,
                    rest: before,
                },
            ));
        }
        if let Some(attr) = self.first {
            return Some((attr, Accesses::none(self.base)));
        }
        let (owner, attr) = access(self.base)?;
        Some((attr, Accesses::none(owner)))
    }
}

/// The owner and the attribute of `e`, if `e` is an access.
fn access(e: &Expr) -> Option<(&Expr, &RcStr)>
    ensures { MatchOption result
        (spine e.now ≡ ([], e.now))
        (λ r. spine e.now ≡ push (spine r.0.now) (text_of r.1.now)) }
{
    match &e.kind {
        ExprKind::GetAttr(owner, attr) => Some((owner, attr)),
        _ => None,
    }
}

/// Compares two expressions: by their accesses from the last to the first, then by the expressions
/// under these.
pub(crate) fn compare(left: &Accesses<'_>, right: &Accesses<'_>) -> Ordering
    ensures { result ≡ spine_cmp (spine_at left.now) (spine_at right.now) }
{
    let mut left = *left;
    let mut right = *right;
    loop {
        let (one, other) = match (left.last(), right.last()) {
            (None, None) => return left.base.cmp(right.base),
            (None, Some(_)) => return Ordering::Less,
            (Some(_), None) => return Ordering::Greater,
            (Some(one), Some(other)) => (one, other),
        };
        let order = one.0.cmp(other.0);
        if order.is_ne() {
            return order;
        }
        left = one.1;
        right = other.1;
    }
}
