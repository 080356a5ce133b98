// Levels of dereferencing (RFC 76).
ghost use Rattle.std.specs.Prelude.{◌≡◌};

use std::fmt;

/// The number of entity dereferences, one after another, that are allowed or needed. `Display`
/// writes its digits.
#[derive(Clone, Copy, PartialEq, Eq, PartialOrd, Ord, Hash, Debug)]
pub struct EntityDerefLevel {
    pub level: u32,
}

impl From<u32> for EntityDerefLevel {
    ghost from_gives = { λ n l. l.level ≡ n };

    fn from(level: u32) -> EntityDerefLevel {
        EntityDerefLevel { level }
    }
}

impl Default for EntityDerefLevel {
    ghost is_default = { λ l. l.level ≡ 0 };

    fn default() -> EntityDerefLevel {
        EntityDerefLevel { level: 0 }
    }
}

impl fmt::Display for EntityDerefLevel {
    fn fmt<W: fmt::Write>(&self, f: &mut fmt::Formatter<W>) -> fmt::Result {
        write!(f, "{}", self.level)
    }
}
