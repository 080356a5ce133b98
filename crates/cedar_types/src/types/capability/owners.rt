// Owners: the expressions that have an attribute or a tag.
ghost use Rattle.std.specs.Prelude.{◌≡◌, IfOk};
ghost use Rattle.std.specs.Ordering.{as_partial_cmp};
ghost use Rattle.cedar_types.specs.Accesses.{shape_at, shape_on, spine_at, spine_on, owner_eq, owner_cmp};

use crate::base::Expr;
use crate::types::capability::accesses::{Accesses, compare};
use std::alloc::{AllocError, Global};
use std::cmp::Ordering;

/// An expression that a capability is about. Its shape alone counts, whoever holds it: a borrowed
/// expression with accesses equals the nested accesses that a policy has.
#[derive(Drop, Debug)]
pub(crate) enum Owner<'a> {
    /// A borrowed expression, with its accesses.
    Lent(Accesses<'a>),
    /// An expression that was built for this capability.
    Made(Expr),
}

impl<'a> Owner<'a> {
    /// The accesses, and the expression under them.
    pub(crate) fn accesses(&self) -> Accesses<'_>
        ensures spine { spine_at result ≡ spine_on self.now }
        ensures shape { shape_at result ≡ shape_on self.now }
    {
        match self {
            Owner::Lent(accesses) => *accesses,
            Owner::Made(e) => Accesses::none(e),
        }
    }

    /// A copy. A borrowed expression stays borrowed.
    pub(crate) fn try_clone(&self, alloc: Global) -> Result<Owner<'a>, AllocError>
        ensures { IfOk result (λ o. shape_on o ≡ shape_on self.now) }
    {
        match self {
            Owner::Lent(accesses) => Ok(Owner::Lent(*accesses)),
            Owner::Made(e) => Ok(Owner::Made(e.try_clone(alloc)?)),
        }
    }
}

impl<'a> PartialEq for Owner<'a> {
    ghost use Rattle.std.specs.Cmp.{partial_equiv_from_equiv};
    ghost use Rattle.cedar_types.specs.Lemmas.Accesses.{owner_eq_equiv};

    ghost eq = { owner_eq };

    ghost laws = { partial_equiv_from_equiv owner_eq_equiv };

    fn eq(&self, other: &Self) -> bool {
        compare(&self.accesses(), &other.accesses()).is_eq()
    }
}

impl<'a> Eq for Owner<'a> {
    ghost use Rattle.cedar_types.specs.Lemmas.Accesses.{owner_eq_equiv};

    ghost laws = { owner_eq_equiv };
}

impl<'a> PartialOrd for Owner<'a> {
    ghost use Rattle.std.specs.Cmp.{po};
    ghost use Rattle.cedar_types.specs.Lemmas.Accesses.{owner_cmp_total, owner_cmp_ties};

    ghost partial_cmp = { as_partial_cmp owner_cmp };

    ghost laws = { po owner_cmp_total owner_cmp_ties };

    fn partial_cmp(&self, other: &Self) -> Option<Ordering> {
        Some(self.cmp(other))
    }
}

impl<'a> Ord for Owner<'a> {
    ghost use Rattle.std.specs.Prelude.{refl};
    ghost use Rattle.cedar_types.specs.Lemmas.Accesses.{owner_cmp_total, owner_cmp_ties};

    ghost cmp = { owner_cmp };

    ghost total = { owner_cmp_total };

    ghost matches_partial_cmp = { λ a b. refl };

    ghost matches_eq = { owner_cmp_ties };

    fn cmp(&self, other: &Self) -> Ordering {
        compare(&self.accesses(), &other.accesses())
    }
}
