// Literals of policies.
ghost use Rattle.std.specs.Prelude.{◌≡◌, IfOk};
ghost use Rattle.cedar_types.specs.Names.{uid_of};
ghost use Rattle.cedar_types.specs.Expressions.Tree.{bool, long, string, entity};
ghost use Rattle.cedar_types.specs.Expressions.View.{no_name, of_uid, lit_of, lit_places};

use crate::base::names::entities::EntityUID;
use std::alloc::{AllocError, Global};
use std::rc::RcStr;

/// A literal. A long has the range of 64 bits.
#[derive(Drop)]
#[derive_where(PartialEq, Eq, PartialOrd, Ord, Debug)]
pub enum Literal {
    /// `true` or `false`.
    Bool(bool),
    /// A whole number.
    Long(i64),
    /// A text.
    String(RcStr),
    /// The id of an entity.
    EntityUID(EntityUID),
}

impl From<bool> for Literal {
    ghost from_gives = { λ b x. (lit_of x ≡ bool b) × (lit_places x ≡ no_name) };

    fn from(value: bool) -> Literal {
        Literal::Bool(value)
    }
}

impl From<i64> for Literal {
    ghost from_gives = { λ z x. (lit_of x ≡ long z) × (lit_places x ≡ no_name) };

    fn from(value: i64) -> Literal {
        Literal::Long(value)
    }
}

impl From<EntityUID> for Literal {
    ghost from_gives = { λ u x. (lit_of x ≡ entity (uid_of u))
        × (lit_places x ≡ of_uid u.loc u.entity_type.loc) };

    fn from(uid: EntityUID) -> Literal {
        Literal::EntityUID(uid)
    }
}

impl Literal {
    /// The string literal of this text.
    pub fn from_string(alloc: Global, text: &str) -> Result<Literal, AllocError>
        ensures { IfOk result (λ x. (lit_of x ≡ string text.now) × (lit_places x ≡ no_name)) }
    {
        Ok(Literal::String(RcStr::from_str(alloc, text)?))
    }
}

impl Clone for Literal {
    ghost is_clone = { λ x y. (lit_of y ≡ lit_of x) × (lit_places y ≡ lit_places x) };

    fn clone(&self) -> Result<Literal, AllocError> {
        match self {
            Literal::Bool(b) => Ok(Literal::Bool(*b)),
            Literal::Long(z) => Ok(Literal::Long(*z)),
            Literal::String(s) => Ok(Literal::String(s.clone()?)),
            Literal::EntityUID(u) => Ok(Literal::EntityUID(u.clone()?)),
        }
    }
}
