// Paths: the keys that are selected from a value.
ghost use Rattle.std.specs.Prelude.{◌≡◌, ◌∷◌, option_map};
ghost use Rattle.cedar_types.specs.Names.{text_of};
ghost use Rattle.cedar_typechecker.specs.Levels.Paths.{keys_along, split_keys};

use std::rc::RcStr;

/// A path: the keys that are selected from a value, one after another. It lies on the stack and takes no memory.
#[derive(Clone, Copy)]
pub(crate) enum Path<'p> {
    /// A list of keys.
    Keys(&'p [RcStr]),
    /// A key, and then those of another path.
    Then(&'p RcStr, &'p Path<'p>),
}

/// The first key of a path and the rest, if there is a key.
pub(crate) fn split<'p>(path: Path<'p>) -> Option<(&'p RcStr, Path<'p>)>
    ensures { option_map (λ s. (text_of s.0.now, keys_along s.1)) result
        ≡ split_keys (keys_along path.entry) }
{
    match path {
        Path::Keys(keys) => match keys.split_first() {
            Some((first, rest)) => Some((first, Path::Keys(rest))),
            None => None,
        },
        Path::Then(first, rest) => Some((first, *rest)),
    }
}

/// The path of this key, and then the others.
pub(crate) fn longer<'p>(key: &'p RcStr, rest: &'p Path<'p>) -> Path<'p>
    ensures { keys_along result ≡ text_of key.now ∷ keys_along rest.now }
{
    Path::Then(key, rest)
}
